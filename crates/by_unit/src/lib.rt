// A Group 4 page a little at a time (02, A9): at most so many units a call. A unit is one mode code, one make-up code, one
// terminating code or one EOL, and a code that fails is one too. The same arrays are lent at each call, and they and the state are
// handed back as left.
#![tactic(auto)]

mod stand;
mod state;
mod swift;
mod take;
mod unit;

ghost use Rattle.std.specs.Prelude.{◌≡◌};
ghost use Rattle.rules.specs.InSteps.{says};
ghost use Rattle.rules.specs.ByUnit.{opened, saved_start};
ghost use Rattle.by_unit.specs.Standing.{answer_of};
ghost use Rattle.by_unit.specs.Reading.{reading_of, as_read_for, end_from, answer_for, still_for};
ghost use Rattle.by_unit.specs.Reading.{ended_for, unless_few, turn_for, TurnsOn, ReadsUnits};

use crate::stand::Out;
use crate::take::TakenUnits;
use answer::Answer;
use settings::{DecodeSettings, EncodingMode};

// What comes next: an EOL or a line; a mode code; a code of a horizontal code's first run, or of its second.
#[derive(Clone, Copy)]
pub enum Phase {
    Eols,
    Mode,
    First,
    Second,
}

// An open page's state: what comes next and its bit; the EOLs read before the next line; the rows kept, whose entries the last row
// end counts; the line's position, colour, changes so far and cut flag; the run's sum so far and its first bit; the mode code's
// bit; and whether the first run moved nothing. What a phase does not need is 0.
#[derive(Clone, Copy)]
pub struct Saved {
    pub phase: Phase,
    pub at: usize,
    pub eols: usize,
    pub rows: usize,
    pub position: u32,
    pub black: bool,
    pub loose: usize,
    pub cut: bool,
    pub run: u32,
    pub run_at: usize,
    pub mode_at: usize,
    pub blank: bool,
}

// How a page ended: with a number of the list, 0 to 5 or 14, and with what that number may have beside it, so that no other end can
// be repeated: 0 its bytes; 1, 2 and 3 the bit at fault and the loose entries; 4 and 5 the loose entries; 14 nothing.
#[derive(Clone, Copy)]
pub enum PageEnd {
    Done(u64),
    InvalidCode(u64, u64),
    UnexpectedEof(u64, u64),
    Overflow(u64, u64),
    NoEntry(u64),
    NoRowEnd(u64),
    Short,
}

// The rows kept, and the entries in them.
#[derive(Clone, Copy)]
pub struct EndCounts {
    pub rows: u64,
    pub entries: u64,
}

// What a call hands back and the next one takes.
#[derive(Clone, Copy)]
pub enum Reading {
    Open(Saved),
    Ended(PageEnd, EndCounts),
}

// A call's answer, and the units it took.
#[derive(Clone, Copy)]
pub struct Turn {
    pub answer: Answer,
    pub units: usize,
    pub reading: Reading,
}

// Before a page's first call.
pub fn start() -> Reading
    ensures { reading_of result ≡ opened saved_start }
{
    Reading::Open(Saved {
        phase: Phase::Eols,
        at: 0,
        eols: 0,
        rows: 0,
        position: 0,
        black: false,
        loose: 0,
        cut: false,
        run: 0,
        run_at: 0,
        mode_at: 0,
        blank: false,
    })
}

// The encoding is not read, and exact implies strict (A12).
fn as_read(settings: DecodeSettings) -> DecodeSettings
    ensures { result ≡ as_read_for settings }
{
    let strict = settings::strict_if_exact(settings);
    DecodeSettings {
        encoding: EncodingMode::Group4,
        ..strict
    }
}

fn end_of(number: u32, place: u64, bytes: u64, loose: u64) -> PageEnd
    ensures { result ≡ end_from number place bytes loose }
{
    match number {
        answer::COMPLETE => PageEnd::Done(bytes),
        answer::INVALID_CODE => PageEnd::InvalidCode(place, loose),
        answer::UNEXPECTED_EOF => PageEnd::UnexpectedEof(place, loose),
        answer::OVERFLOW => PageEnd::Overflow(place, loose),
        answer::NO_ENTRY => PageEnd::NoEntry(loose),
        answer::NO_ROW_END => PageEnd::NoRowEnd(loose),
        _ => PageEnd::Short,
    }
}

fn counted(number: u32, place: u64, bytes: u64, loose: u64, counts: EndCounts) -> Answer
    ensures { result ≡ answer_of (says number place bytes counts.rows counts.entries loose) }
{
    Answer {
        number,
        mark: 0,
        rows: counts.rows,
        entries: counts.entries,
        loose,
        bytes,
        place,
    }
}

// The answer to repeat.
fn answer_of(end: PageEnd, counts: EndCounts) -> Answer
    ensures { result ≡ answer_for end counts }
{
    match end {
        PageEnd::Done(bytes) => counted(answer::COMPLETE, 0, bytes, 0, counts),
        PageEnd::InvalidCode(place, loose) => counted(
            answer::INVALID_CODE,
            place,
            0,
            loose,
            counts,
        ),
        PageEnd::UnexpectedEof(place, loose) => counted(
            answer::UNEXPECTED_EOF,
            place,
            0,
            loose,
            counts,
        ),
        PageEnd::Overflow(place, loose) => counted(answer::OVERFLOW, place, 0, loose, counts),
        PageEnd::NoEntry(loose) => counted(answer::NO_ENTRY, 0, 0, loose, counts),
        PageEnd::NoRowEnd(loose) => counted(answer::NO_ROW_END, 0, 0, loose, counts),
        PageEnd::Short => counted(answer::TOO_FEW_ROWS, 0, 0, 0, counts),
    }
}

fn still(answer: Answer, reading: Reading) -> Turn
    ensures { result ≡ still_for answer reading }
{
    Turn {
        answer,
        units: 0,
        reading,
    }
}

fn ended(answer: Answer, units: usize) -> Turn
    ensures { result ≡ ended_for answer units }
{
    let end = end_of(answer.number, answer.place, answer.bytes, answer.loose);
    let counts = EndCounts {
        rows: answer.rows,
        entries: answer.entries,
    };
    Turn {
        answer,
        units,
        reading: Reading::Ended(end, counts),
    }
}

// 14 in place of 0 where an exact page has too few rows (A12).
fn unless_few(settings: DecodeSettings, answer: Answer) -> Answer
    ensures { result ≡ unless_few settings answer }
{
    if settings::is_short(settings, answer.number, answer.rows) {
        return Answer {
            number: answer::TOO_FEW_ROWS,
            mark: 0,
            rows: answer.rows,
            entries: answer.entries,
            loose: answer.loose,
            bytes: 0,
            place: 0,
        };
    }
    answer
}

// 15 while the page goes on, or its end.
fn turn_of(settings: DecodeSettings, taken: TakenUnits) -> Turn
    ensures { result ≡ turn_for settings taken }
{
    let out = taken.out;
    match out {
        Out::More(kept, at, _) => Turn {
            answer: stand::said(answer::MORE_TO_COME, 0, 0, kept, state::loose_of(at)),
            units: taken.units,
            reading: Reading::Open(state::saved(kept, at)),
        },
        Out::Done(answer) => ended(unless_few(settings, answer), taken.units),
    }
}

fn turn_on(
    src: &[u8],
    settings: DecodeSettings,
    changes: &mut [u32],
    ends: &mut [u64],
    marks: &mut [u8],
    saved: Saved,
    n: usize,
) -> Turn
    ensures { TurnsOn src.now settings changes.old ends.old marks.old saved n result changes.new ends.new marks.new }
{
    if settings.columns == answer::MOST_PIXELS {
        return still(answer::refusal(answer::BAD_WIDTH), Reading::Open(saved));
    }
    if answer::MOST_BYTES < src.len() {
        return still(answer::refusal(answer::TOO_LONG), Reading::Open(saved));
    }
    if !state::is_sound(src.len(), settings.columns, changes, ends, marks, saved) {
        return still(answer::refusal(answer::BAD_ROWS), Reading::Open(saved));
    }
    if settings.columns == 0 {
        return ended(answer::refusal(answer::COMPLETE), 0);
    }
    let kept = state::kept(ends, saved);
    let at = state::stand(settings.columns, saved);
    let read = as_read(settings);
    let taken = take::take(src, read, changes, ends, marks, kept, at, n);
    turn_of(settings, taken)
}

// At most `n` units. After the end its answer again, whatever else is lent; and 10 where `n` is 0, before any other test.
pub fn read_units(
    src: &[u8],
    settings: DecodeSettings,
    changes: &mut [u32],
    ends: &mut [u64],
    marks: &mut [u8],
    reading: Reading,
    n: usize,
) -> Turn
    ensures { ReadsUnits src.now settings changes.old ends.old marks.old reading n result changes.new ends.new marks.new }
{
    if n == 0 {
        return still(answer::refusal(answer::BAD_NUMBER), reading);
    }
    match reading {
        Reading::Ended(end, counts) => still(answer_of(end, counts), Reading::Ended(end, counts)),
        Reading::Open(saved) => turn_on(src, settings, changes, ends, marks, saved, n),
    }
}
