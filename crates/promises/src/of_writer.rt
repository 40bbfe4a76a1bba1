// Calls of the public functions of writer, each with the contract that its promises are about.
ghost use Rattle.std.specs.Prelude.{◌≡◌};
ghost use Rattle.rules.specs.Write.{write_line, write_page};
ghost use Rattle.rules.specs.WriteGroup3.{write_1d, write_2d};
ghost use Rattle.rules.specs.Rows.{group4, group3_1_d, group3_2_d};
ghost use Rattle.rules.specs.Proper.{parts_from};
ghost use Rattle.writer.specs.Outcome.{Answers, parting_of};

use answer::Answer;
use writer::Parting;

pub fn write_line(columns: u32, reference: &[u32], row: &[u32], out: &mut [u8], at: u64) -> Answer
    ensures { Answers (write_line columns reference.now row.now out.old at) out.old result out.new }
{
    writer::write_line(columns, reference, row, out, at)
}

pub fn write_page(columns: u32, changes: &[u32], ends: &[u64], out: &mut [u8]) -> Answer
    ensures { Answers (write_page columns changes.now ends.now out.old) out.old result out.new }
{
    writer::write_page(columns, changes, ends, out)
}

pub fn write_group3_1d(
    columns: u32,
    changes: &[u32],
    ends: &[u64],
    eols: bool,
    fill: u32,
    out: &mut [u8],
) -> Answer
    ensures { Answers (write_1d eols fill columns changes.now ends.now out.old) out.old result out.new }
{
    writer::write_group3_1d(columns, changes, ends, eols, fill, out)
}

pub fn write_group3_2d(
    columns: u32,
    changes: &[u32],
    ends: &[u64],
    k: u32,
    out: &mut [u8],
) -> Answer
    ensures { Answers (write_2d k columns changes.now ends.now out.old) out.old result out.new }
{
    writer::write_group3_2d(columns, changes, ends, k, out)
}

pub fn parts_page(columns: u32, changes: &[u32], ends: &[u64], src: &[u8]) -> Parting
    ensures { result ≡ parting_of (parts_from group4 columns changes.now ends.now src.now) }
{
    writer::parts_page(columns, changes, ends, src)
}

pub fn parts_group3_1d(columns: u32, changes: &[u32], ends: &[u64], src: &[u8]) -> Parting
    ensures { result ≡ parting_of (parts_from group3_1_d columns changes.now ends.now src.now) }
{
    writer::parts_group3_1d(columns, changes, ends, src)
}

pub fn parts_group3_2d(columns: u32, changes: &[u32], ends: &[u64], src: &[u8]) -> Parting
    ensures { result ≡ parting_of (parts_from group3_2_d columns changes.now ends.now src.now) }
{
    writer::parts_group3_2d(columns, changes, ends, src)
}
