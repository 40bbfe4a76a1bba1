// Calls of the public functions of ccitt, each with the contract that its promises are about.
ghost use Rattle.ccitt.specs.Decode.{Decodes, Watches};

use answer::Answer;
use ccitt::Watched;
use settings::DecodeSettings;

pub fn decode(
    src: &[u8],
    settings: DecodeSettings,
    changes: &mut [u32],
    ends: &mut [u64],
    marks: &mut [u8],
) -> Answer
    ensures { Decodes src.now settings changes.old ends.old marks.old result changes.new ends.new marks.new }
{
    ccitt::decode(src, settings, changes, ends, marks)
}

pub fn decode_watched(
    src: &[u8],
    settings: DecodeSettings,
    changes: &mut [u32],
    ends: &mut [u64],
    marks: &mut [u8],
) -> Watched
    ensures { Watches src.now settings changes.old ends.old marks.old result changes.new ends.new marks.new }
{
    ccitt::decode_watched(src, settings, changes, ends, marks)
}
