// Calls of the public functions of row_store, each with the contract that its promises are about.
ghost use Rattle.std.specs.Prelude.{◌≡◌};
ghost use Rattle.row_store.specs.Store.{good_rows};

pub fn ascend(width: u32, changes: &[u32], ends: &[u64]) -> bool
    ensures { result ≡ good_rows width changes.now 0 ends.now }
{
    row_store::ascend(width, changes, ends)
}
