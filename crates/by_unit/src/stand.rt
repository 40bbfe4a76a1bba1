// Where a reading stands inside a call, and how a row or the page is closed: it costs no unit.
ghost use Rattle.std.specs.Prelude.{◌≡◌, ◌≤◌};
ghost use Rattle.rules.specs.Pages.{most_bytes};
ghost use Rattle.rules.specs.InSteps.{says};
ghost use Rattle.bit_reader.specs.Loaded.{Loading};
ghost use Rattle.by_unit.specs.Standing.{answer_of, most_eols, eol_of, next_of, over_for, between_for, Closing, Closes, Settling, Settles};

use answer::Answer;
use codes::eol;
use codes::eol::Eols;
use context::line;
use context::line::Line;
use context::reference::Reference;
use settings::{DecodeSettings, State};

// Which run of a horizontal code: the first, or the second. Both know the mode code's bit, and the second whether the first moved nothing.
#[derive(Clone, Copy)]
pub(crate) enum Half {
    First(usize),
    Second(usize, bool),
}

// Between rows, with the EOLs read so far; in a line, before the mode code at a bit; or in a run, with the line as it was before
// it, the run's first bit, its sum so far, and its next bit.
#[derive(Clone, Copy)]
pub(crate) enum Stand {
    Between(Eols),
    InLine(Line, usize),
    InRun(Half, Line, usize, u32, usize),
}

// The rows kept. The reference lies in the store from `start` to `base`, and the unfinished row from `base` on.
#[derive(Clone, Copy)]
pub(crate) struct Kept {
    pub rows: usize,
    pub start: usize,
    pub base: usize,
}

// The page goes on, with the place in the reference where the next search goes on; or it has ended.
#[derive(Clone, Copy)]
pub(crate) enum Out {
    More(Kept, Stand, usize),
    Done(Answer),
}

pub(crate) fn said(number: u32, place: usize, bytes: usize, kept: Kept, loose: usize) -> Answer
    ensures { result ≡ answer_of (says number place bytes kept.rows kept.base loose) }
{
    Answer {
        number,
        mark: 0,
        rows: kept.rows as u64,
        entries: kept.base as u64,
        loose: loose as u64,
        bytes: bytes as u64,
        place: place as u64,
    }
}

fn most_eols(size: usize, settings: DecodeSettings) -> usize
    requires { size ≤ most_bytes }
    ensures { result ≡ most_eols size settings }
{
    if settings.end_of_block {
        return 2;
    }
    8 * size
}

// The bit after the next EOL, where one is still to be read before the line.
pub(crate) fn next_eol(src: &[u8], settings: DecodeSettings, eols: Eols) -> Option<usize>
    requires { Loading src.now eols.at }
    ensures { eol_of result ≡ next_of src.now settings eols }
{
    if most_eols(src.len(), settings) <= eols.count {
        return None;
    }
    let read = eol::read_eols(src, eols.at, 1);
    if read.count == 0 {
        return None;
    }
    Some(read.at)
}

fn is_over(src: &[u8], settings: DecodeSettings, kept: Kept, eols: Eols) -> bool
    ensures { result ≡ over_for src.now settings kept eols }
{
    let state = State {
        at: eols.at,
        rows: kept.rows,
        reference: Reference::Lent,
        base: kept.base,
        eols: false,
    };
    group4::is_over(src, settings, state, eols)
}

// An EOL that follows is the next unit. Where none does, the page is over, or a line begins.
pub(crate) fn between(src: &[u8], settings: DecodeSettings, kept: Kept, eols: Eols) -> Out
    requires { Loading src.now eols.at }
    ensures { result ≡ between_for src.now settings kept eols }
{
    let at = eols.at;
    match next_eol(src, settings, eols) {
        Some(_) => Out::More(kept, Stand::Between(eols), 0),
        None => {
            if is_over(src, settings, kept, eols) {
                let bytes = bit_reader::byte_pos(bit_reader::align(at));
                return Out::Done(said(answer::COMPLETE, 0, bytes, kept, 0));
            }
            Out::More(kept, Stand::InLine(line::new_line(settings.columns), at), 0)
        }
    }
}

// A row's end and its mark lie at one place, for which both arrays need room.
fn close_row(
    src: &[u8],
    settings: DecodeSettings,
    ends: &mut [u64],
    marks: &mut [u8],
    kept: Kept,
    line: Line,
    at: usize,
) -> Out
    requires { Closing src.now kept line at }
    ensures { Closes src.now settings ends.old marks.old kept line at result ends.new marks.new }
{
    let rows = kept.rows;
    if ends.len() <= rows {
        return Out::Done(said(answer::NO_ROW_END, 0, 0, kept, line.changes));
    }
    if marks.len() <= rows {
        return Out::Done(said(answer::NO_ROW_END, 0, 0, kept, line.changes));
    }
    let base = kept.base + line.changes;
    ends[rows] = settings::row_end(base);
    marks[rows] = line.cut as u8;
    let next = Kept {
        rows: rows + 1,
        start: kept.base,
        base,
    };
    let eols = Eols {
        count: 0,
        at: settings::align_if(settings.rows_are_byte_aligned, at),
    };
    between(src, settings, next, eols)
}

// Close the row, if it is complete, and then the page, unless an EOL or a line follows.
pub(crate) fn settle(
    src: &[u8],
    settings: DecodeSettings,
    ends: &mut [u64],
    marks: &mut [u8],
    kept: Kept,
    stand: Stand,
    seen: usize,
) -> Out
    requires { Settling src.now kept stand }
    ensures { Settles src.now settings ends.old marks.old kept stand seen result ends.new marks.new }
{
    match stand {
        Stand::Between(eols) => between(src, settings, kept, eols),
        Stand::InLine(line, at) => {
            if line.position == settings.columns {
                return close_row(src, settings, ends, marks, kept, line, at);
            }
            Out::More(kept, Stand::InLine(line, at), seen)
        }
        Stand::InRun(half, line, from, total, at) => {
            Out::More(kept, Stand::InRun(half, line, from, total, at), seen)
        }
    }
}
