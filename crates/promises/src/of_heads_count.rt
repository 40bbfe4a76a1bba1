// Calls of the public functions of heads::count, each with the contract that its promises are about.
ghost use Rattle.std.specs.Prelude.{◌≡◌};
ghost use Rattle.heads.specs.Form.{page_in, black_in};
ghost use Rattle.heads.specs.Steps.{Good};

use heads::Box;

pub fn in_box(columns: u32, changes: &[u32], ends: &[u64], b: Box) -> u64
    requires { Good columns changes.now ends.now }
    ensures { result ≡ black_in (page_in columns changes.now ends.now) b }
{
    heads::count::in_box(columns, changes, ends, b)
}
