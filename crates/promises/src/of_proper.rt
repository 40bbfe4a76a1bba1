// Calls of the public functions of proper, each with the contract that its promises are about.
ghost use Rattle.std.specs.Prelude.{◌≡◌};
ghost use Rattle.rules.specs.Proper.{parts_from};
ghost use Rattle.settings.specs.Settings.{encoding_of};
ghost use Rattle.writer.specs.Outcome.{parting_of};
ghost use Rattle.proper.specs.Checked.{Checks};

use proper::Checked;
use settings::{DecodeSettings, EncodingMode};
use writer::Parting;

pub fn parts(
    encoding: EncodingMode,
    columns: u32,
    changes: &[u32],
    ends: &[u64],
    src: &[u8],
) -> Parting
    ensures { result ≡ parting_of (parts_from (encoding_of encoding) columns changes.now ends.now src.now) }
{
    proper::parts(encoding, columns, changes, ends, src)
}

pub fn check(
    src: &[u8],
    settings: DecodeSettings,
    changes: &mut [u32],
    ends: &mut [u64],
    marks: &mut [u8],
) -> Checked
    ensures { Checks src.now settings changes.old ends.old marks.old result changes.new ends.new marks.new }
{
    proper::check(src, settings, changes, ends, marks)
}
