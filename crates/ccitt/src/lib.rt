// The page form (`decode` of lib.rs): all three encodings, one loop, rows kept in lent arrays.
#![tactic(auto)]

ghost use Rattle.std.specs.Prelude.{◌≡◌, ◌||◌, []};
ghost use Rattle.tables.specs.Pairs.{pair_table};
ghost use Rattle.tables.specs.Tables.{Lookups};
ghost use Rattle.context.specs.Coding.{PairedFor};
ghost use Rattle.settings.specs.Between.{RowFrom, Rowed};
ghost use Rattle.ccitt.specs.Decode.{counted, behind_row, Behind, PageFrom, Sees, told_of, short_for, refused_with, Decodes, Watches};

use answer::Answer;
use context::reference::Reference;
use settings::{DecodeSettings, KeptRow, PageStop, Row, State};

// A page's answer, and whether EOLs were given up in one of the rows that it keeps. From there on its rows hang on all of the data.
#[repr(C)]
#[derive(Clone, Copy)]
pub struct Watched {
    pub answer: Answer,
    pub gave_up: bool,
}

// What one row does, by the encoding. The reference lies in the store, so none is lent. Each call has no other of its kind, and is
// so compiled in place.
fn row<'a>(
    white: &'a [u16],
    black: &'a [u16],
    both: &'a [u16],
    src: &[u8],
    settings: DecodeSettings,
    changes: &mut [u32],
    state: State,
) -> Row
    requires { RowFrom src.now [] changes.old settings state × PairedFor state.reference white.now black.now both.now }
    ensures { Rowed src.now [] changes.old settings state result changes.new }
{
    let lent: [u32; 0] = [];
    if settings::is_group4(settings) {
        return group4::swift_row(white, black, src, settings, &lent, changes, state);
    }
    group3::swift_row(white, black, both, src, settings, &lent, changes, state)
}

// The answer after so many rows.
fn counts(
    number: u32,
    place: usize,
    rows: usize,
    entries: usize,
    loose: usize,
    bytes: usize,
) -> Answer
    ensures { result ≡ counted number place rows entries loose bytes }
{
    Answer {
        number,
        mark: 0,
        rows: rows as u64,
        entries: entries as u64,
        loose: loose as u64,
        bytes: bytes as u64,
        place: place as u64,
    }
}

// The state behind a row: the row is the next reference.
fn behind(state: State, count: usize, at: usize, eols: bool) -> State
    requires { Behind state count }
    ensures { result ≡ behind_row state count at eols }
{
    State {
        at,
        rows: state.rows + 1,
        reference: Reference::Kept(state.base),
        base: state.base + count,
        eols,
    }
}

// Whether EOLs were expected behind a row so far.
fn ever(sofar: bool, eols: bool) -> bool
    ensures { result ≡ (sofar || eols) }
{
    sofar | eols
}

// EOLs that are not expected stay so: those that were, and are not behind the last row, were given up. So a row costs one step.
fn told(answer: Answer, ever: bool, eols: bool) -> Watched
    ensures { result ≡ told_of answer ever eols }
{
    Watched {
        answer,
        gave_up: ever & !eols,
    }
}

fn page<'a>(
    white: &'a [u16],
    black: &'a [u16],
    both: &'a [u16],
    src: &[u8],
    settings: DecodeSettings,
    changes: &mut [u32],
    ends: &mut [u64],
    marks: &mut [u8],
) -> Watched
    requires { PageFrom src.now settings × Lookups white.now black.now × (both.now ≡ pair_table) }
    ensures { Sees src.now settings changes.old ends.old marks.old result changes.new ends.new marks.new }
{
    // A row's end and its mark lie at one place, so the shorter array says how many there are.
    let places = ends.len().min(marks.len());
    let mut state = State {
        at: 0,
        rows: 0,
        reference: Reference::Kept(0),
        base: 0,
        eols: false,
    };
    let mut expected = false;
    loop {
        match row(white, black, both, src, settings, changes, state) {
            Err(
                PageStop {
                    number,
                    place,
                    bytes,
                    loose,
                },
            ) => {
                let answer = counts(number, place, state.rows, state.base, loose, bytes);
                return told(answer, expected, state.eols);
            }
            Ok(
                KeptRow {
                    changes: count,
                    mark,
                    at,
                    eols,
                },
            ) => {
                let rows = state.rows;
                if places <= rows {
                    let full = counts(answer::NO_ROW_END, 0, rows, state.base, count, 0);
                    return told(full, expected, state.eols);
                }
                ends[rows] = settings::row_end(state.base + count);
                marks[rows] = mark as u8;
                expected = ever(expected, eols);
                state = behind(state, count, at, eols);
            }
        }
    }
}

// An exact page that is short of rows keeps them, and answers 14 with no bytes.
fn unless_short(settings: DecodeSettings, answer: Answer) -> Answer
    ensures { result ≡ short_for settings answer }
{
    if !settings::is_short(settings, answer.number, answer.rows) {
        return answer;
    }
    Answer {
        number: answer::TOO_FEW_ROWS,
        bytes: 0,
        place: 0,
        ..answer
    }
}

// A refusal: no row was read.
fn refused(number: u32) -> Watched
    ensures { result ≡ refused_with number }
{
    Watched {
        answer: answer::refusal(number),
        gave_up: false,
    }
}

// A page into lent arrays, and whether EOLs were given up in it. The lookup tables are made once, here: a constant is built anew wherever
// it is used.
pub fn decode_watched(
    src: &[u8],
    settings: DecodeSettings,
    changes: &mut [u32],
    ends: &mut [u64],
    marks: &mut [u8],
) -> Watched
    ensures { Watches src.now settings changes.old ends.old marks.old result changes.new ends.new marks.new }
{
    if settings.columns == answer::MOST_PIXELS {
        return refused(answer::BAD_WIDTH);
    }
    if answer::MOST_BYTES < src.len() {
        return refused(answer::TOO_LONG);
    }
    if settings.columns == 0 {
        return refused(answer::COMPLETE);
    }
    let white = lookups::white_lookup();
    let black = lookups::black_lookup();
    let both = tables::pair_lookup();
    let reading = settings::strict_if_exact(settings);
    let watched = page(&white, &black, &both, src, reading, changes, ends, marks);
    Watched {
        answer: unless_short(settings, watched.answer),
        gave_up: watched.gave_up,
    }
}

// A page into lent arrays.
pub fn decode(
    src: &[u8],
    settings: DecodeSettings,
    changes: &mut [u32],
    ends: &mut [u64],
    marks: &mut [u8],
) -> Answer
    ensures { Decodes src.now settings changes.old ends.old marks.old result changes.new ends.new marks.new }
{
    let watched = decode_watched(src, settings, changes, ends, marks);
    watched.answer
}
