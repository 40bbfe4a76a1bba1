// Calls of the public functions of heads, each with the contract that its promises are about.
ghost use Rattle.std.specs.Prelude.{◌≡◌};
ghost use Rattle.heads.specs.Form as Form;

use heads::{Box, HeadsAnswer};

pub fn heads(
    columns: u32,
    changes: &[u32],
    ends: &[u64],
    marks: &[u8],
    form: [[Box; 2]; 10],
    least: u64,
    quota: i32,
) -> HeadsAnswer
    ensures { result ≡ Form.heads columns changes.now ends.now marks.now form least quota }
{
    heads::heads(columns, changes, ends, marks, form, least, quota)
}
