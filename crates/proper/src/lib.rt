// Proper pages: those whose bytes are what a writer writes for the rows that were read from them. Such a page says its rows twice.
#![tactic(auto)]

ghost use Rattle.std.specs.Prelude.{◌≡◌, ◌≤◌, length, take};
ghost use Rattle.rules.specs.Proper.{parts_from};
ghost use Rattle.settings.specs.Settings.{encoding_of};
ghost use Rattle.writer.specs.Outcome.{parting_of};
ghost use Rattle.proper.specs.Checked.{Checks};

use answer::Answer;
use settings::{DecodeSettings, EncodingMode};
use writer::Parting;

// A page that was read: the page form's answer, whether EOLs were given up in it, whether it is proper, and the first bit at which its
// bytes part from what would be written; of a proper page the bit behind its bytes.
#[repr(C)]
#[derive(Clone, Copy)]
pub struct Checked {
    pub answer: Answer,
    pub parts: u64,
    pub gave_up: bool,
    pub proper: bool,
}

// The first bit at which bytes part from what the writer of an encoding writes for the rows of a store.
pub fn parts(
    encoding: EncodingMode,
    columns: u32,
    changes: &[u32],
    ends: &[u64],
    src: &[u8],
) -> Parting
    ensures { result ≡ parting_of (parts_from (encoding_of encoding) columns changes.now ends.now src.now) }
{
    match encoding {
        EncodingMode::Group4 => writer::parts_page(columns, changes, ends, src),
        EncodingMode::Group3_1D => writer::parts_group3_1d(columns, changes, ends, src),
        EncodingMode::Group3_2D => writer::parts_group3_2d(columns, changes, ends, src),
    }
}

// The bytes that a reading took, against the rows that it kept.
fn parts_read(
    src: &[u8],
    settings: DecodeSettings,
    rows: usize,
    bytes: usize,
    changes: &[u32],
    ends: &[u64],
) -> Parting
    requires { (rows ≤ length ends.now) × (bytes ≤ length src.now) }
    ensures { result ≡ parting_of (parts_from (encoding_of settings.encoding) settings.columns changes.now (take rows ends.now) (take bytes src.now)) }
{
    let encoding = settings.encoding;
    parts(
        encoding,
        settings.columns,
        changes,
        &ends[..rows],
        &src[..bytes],
    )
}

// A page into lent arrays, as `ccitt::decode` reads it, with what a careful reader asks of it.
pub fn check(
    src: &[u8],
    settings: DecodeSettings,
    changes: &mut [u32],
    ends: &mut [u64],
    marks: &mut [u8],
) -> Checked
    ensures { Checks src.now settings changes.old ends.old marks.old result changes.new ends.new marks.new }
{
    let watched = ccitt::decode_watched(src, settings, changes, ends, marks);
    let read = watched.answer;
    let gave_up = watched.gave_up;
    if read.number != answer::COMPLETE {
        return Checked {
            answer: read,
            parts: 0,
            gave_up,
            proper: false,
        };
    }
    let rows = read.rows as usize;
    let bytes = read.bytes as usize;
    let parting = parts_read(src, settings, rows, bytes, changes, ends);
    Checked {
        answer: read,
        parts: parting.place,
        gave_up,
        proper: parting.same,
    }
}
