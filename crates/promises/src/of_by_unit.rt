// Calls of the public functions of by_unit, each with the contract that its promises are about.
ghost use Rattle.std.specs.Prelude.{◌≡◌};
ghost use Rattle.rules.specs.ByUnit.{opened, saved_start};
ghost use Rattle.by_unit.specs.Reading.{reading_of, ReadsUnits};

use by_unit::{Reading, Turn};
use settings::DecodeSettings;

pub fn start() -> Reading
    ensures { reading_of result ≡ opened saved_start }
{
    by_unit::start()
}

pub fn read_units(
    src: &[u8],
    settings: DecodeSettings,
    changes: &mut [u32],
    ends: &mut [u64],
    marks: &mut [u8],
    reading: Reading,
    n: usize,
) -> Turn
    ensures { ReadsUnits src.now settings changes.old ends.old marks.old reading n result changes.new ends.new marks.new }
{
    by_unit::read_units(src, settings, changes, ends, marks, reading, n)
}
