// Calls of the public functions of heads::numbers, each with the contract that its promises are about.
ghost use Rattle.std.specs.Prelude.{◌≡◌};
ghost use Rattle.heads.specs.Numbers.{heads_from};

use heads::HeadsAnswer;

pub fn heads_from(
    columns: u32,
    changes: &[u32],
    ends: &[u64],
    marks: &[u8],
    boxes: &[u32],
    least: u64,
    quota: i32,
) -> HeadsAnswer
    ensures { result ≡ heads_from columns changes.now ends.now marks.now boxes.now least quota }
{
    heads::numbers::heads_from(columns, changes, ends, marks, boxes, least, quota)
}
