// What the desk says of the bytes of a form, and what the tests said that came before it.
use crate::sheet::COLUMNS;
use crate::{copies, form};
use settings::{DecodeSettings, EncodingMode};

// From so many black pixels on a box is ticked, by the old tests; the desk has it from the form.
const LEAST: u64 = 20;

// No number of heads is above it, so it decides nothing.
const QUOTA: i32 = 100;

// The heads, or the number of why there are none.
pub(crate) type Told = Result<u32, u32>;

fn told(number: u32, heads: u32) -> Told {
    if number == answer::COMPLETE {
        Ok(heads)
    } else {
        Err(number)
    }
}

fn has_eols(encoding: EncodingMode) -> bool {
    !matches!(encoding, EncodingMode::Group4)
}

fn settings(encoding: EncodingMode, columns: u32) -> DecodeSettings {
    DecodeSettings {
        columns,
        rows: 0,
        end_of_block: true,
        end_of_line: has_eols(encoding),
        rows_are_byte_aligned: false,
        encoding,
        strict: false,
        exact: false,
        plain: false,
    }
}

// As the desk reads: the form says how wide the page is. A box has four numbers, and a place seven.
pub(crate) fn by_desk(src: &[u8], encoding: EncodingMode, aside: bool) -> Told {
    let mut text = [0u8; 2048];
    let size = form::text(aside, &mut text);
    let mut boxes = [0u32; 80];
    let mut places = [0u32; 308];
    let mut changes = [0u32; 32768];
    let mut ends = [0u64; 4096];
    let mut marks = [0u8; 4096];
    let verdict = booking::verdict_on(
        copies::front(&text, size),
        src,
        booking::reading::AS_THE_DESK,
        settings(encoding, 0),
        &mut boxes,
        &mut places,
        &mut changes,
        &mut ends,
        &mut marks,
    );
    told(verdict.number, verdict.heads)
}

// Leniently, and a page that was read to its end is counted where its boxes lie on clean rows and each column has one tick.
pub(crate) fn by_old_tests(src: &[u8], encoding: EncodingMode) -> Told {
    let mut changes = [0u32; 32768];
    let mut ends = [0u64; 4096];
    let mut marks = [0u8; 4096];
    let settings = settings(encoding, COLUMNS);
    let read = ccitt::decode(src, settings, &mut changes, &mut ends, &mut marks);
    if read.number != answer::COMPLETE {
        return Err(read.number);
    }
    let kept = copies::front(&ends, read.rows as usize);
    let said = heads::heads(COLUMNS, &changes, kept, &marks, form::form(), LEAST, QUOTA);
    told(said.number, said.heads)
}
