// Calls of the public functions of bitmap, each with the contract that its promises are about.
ghost use Rattle.std.specs.Prelude.{length};
ghost use Rattle.bitmap.specs.Packed.{paint, unpaint};
ghost use Rattle.bitmap.specs.Outcome.{Paints, Unpaints};

use answer::Answer;

pub fn paint(
    columns: u32,
    changes: &[u32],
    ends: &[u64],
    one: bool,
    stride: u64,
    out: &mut [u8],
) -> Answer
    ensures { Paints (paint one columns stride changes.now ends.now out.old) result out.new }
{
    bitmap::paint(columns, changes, ends, one, stride, out)
}

pub fn unpaint(
    columns: u32,
    rows: u64,
    one: bool,
    stride: u64,
    src: &[u8],
    changes: &mut [u32],
    ends: &mut [u64],
) -> Answer
    ensures { Unpaints (unpaint one columns stride rows src.now (length changes.old) (length ends.old)) changes.old ends.old result changes.new ends.new }
{
    bitmap::unpaint(columns, rows, one, stride, src, changes, ends)
}
