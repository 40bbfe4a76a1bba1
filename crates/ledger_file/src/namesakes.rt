// The names of pages, compared where they stand in the text.
ghost use Rattle.std.specs.Prelude.{◌≡◌, ◌<◌, length, get_or};
ghost use Rattle.form_file.specs.First.{first_of};
ghost use Rattle.form_file.specs.Words.{same};
ghost use Rattle.ledger_file.specs.Sums.{name_at};
ghost use Rattle.ledger_file.specs.Tallying.{Tabbed, Standing};

// Whether two lines begin with the same name, of which the second has so many bytes. Names share their beginnings, so their last bytes
// are compared first.
fn same_name(text: &[u8], s: usize, at: usize, n: usize) -> bool
    requires { Tabbed text.now s × Tabbed text.now at × (n ≡ length (name_at text.now at)) }
    ensures { result ≡ same (name_at text.now s) (name_at text.now at) }
{
    if text.len() - s <= n {
        return false;
    }
    if text[s + n] != b'\t' {
        return false;
    }
    let mut i = n;
    while 0 < i {
        i -= 1;
        if text[s + i] != text[at + i] {
            return false;
        }
    }
    true
}

// The first of so many lines that begins with the name of another; their count where none does.
pub(crate) fn namesake(text: &[u8], at: usize, n: usize, starts: &[u64], count: usize) -> usize
    requires { Standing text.now count starts.now × Tabbed text.now at × (n ≡ length (name_at text.now at)) }
    ensures { result ≡ first_of (λ k. same (name_at text.now (get_or starts.now k 0)) (name_at text.now at)) count 0 }
{
    for k in 0..count {
        if same_name(text, starts[k] as usize, at, n) {
            return k;
        }
    }
    count
}
