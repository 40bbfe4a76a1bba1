// Calls of the public functions of one_line::read, each with the contract that its promises are about.
ghost use Rattle.one_line.specs.OneLine.{ReadOne};

use answer::Answer;

pub fn read_line(
    src: &[u8],
    at: u64,
    columns: u32,
    strict: bool,
    reference: &[u32],
    changes: &mut [u32],
) -> Answer
    ensures { ReadOne src.now at columns strict reference.now changes.old result changes.new }
{
    one_line::read::read_line(src, at, columns, strict, reference, changes)
}
