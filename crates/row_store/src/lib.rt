// The store of rows that readers leave and writers and counters are lent: changes, and where each row ends among them (test 8).
#![tactic(auto)]

ghost use Rattle.std.specs.Prelude.{◌≡◌};
ghost use Rattle.row_store.specs.Store.{good_rows};

use context::reference;

// Whether no row end falls or passes the array, and each row ascends.
pub fn ascend(width: u32, changes: &[u32], ends: &[u64]) -> bool
    ensures { result ≡ good_rows width changes.now 0 ends.now }
{
    let mut base: usize = 0;
    for row_end in ends {
        let end = *row_end as usize;
        if end < base || changes.len() < end || !reference::ascends(&changes[base..end], width) {
            return false;
        }
        base = end;
    }
    true
}
