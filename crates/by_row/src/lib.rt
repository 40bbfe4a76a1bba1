// The row form (02, A1): one row a call, into one of two lent line arrays, under the row that the call before it left in the other.
// The same two arrays are lent in the same order at each call, and the state is handed back as left.
#![tactic(auto)]

ghost use Rattle.std.specs.Prelude.{◌≡◌, ◌≤◌};
ghost use Rattle.rules.specs.Pages.{most_bytes};
ghost use Rattle.rules.specs.ByRow.{ended, row_start};
ghost use Rattle.context.specs.declared.reference.Reference.TheVariants.{Lent};
ghost use Rattle.settings.specs.Between.{RowFrom, Rowed};
ghost use Rattle.settings.specs.Ends.{Allowed};
ghost use Rattle.by_row.specs.ByRow.{other_side, end_of, Ending, row_state_of, told_for, said_for, refused_for, none_for};
ghost use Rattle.by_row.specs.ByRow.{sound_for, Grows, given_for, Ends, NextFrom, Next, Tested, ReadsRow};

use answer::Answer;
use context::reference;
use context::reference::Reference;
use settings::{DecodeSettings, KeptRow, PageStop, Row, State};

// One of the two line arrays.
#[derive(Clone, Copy)]
pub enum Side {
    First,
    Second,
}

// The page goes on; or it has ended with a number of the list, 0 to 4 or 14, and with what that number may have beside it, so that no other
// end can be repeated: 0 its bytes; 1, 2 and 3 the bit at fault and the loose entries; 4 the loose entries; 14 nothing.
#[derive(Clone, Copy)]
pub enum End {
    Unended,
    Done(usize),
    InvalidCode(usize, usize),
    UnexpectedEof(usize, usize),
    Overflow(usize, usize),
    NoRoom(usize),
    Short,
}

// What a call hands back and the next one takes: the next bit, the rows given and the entries in them, whether EOLs are expected, and the
// reference, which is the first `held` entries of the array `side`.
#[derive(Clone, Copy)]
pub struct RowState {
    pub at: usize,
    pub rows: usize,
    pub entries: usize,
    pub eols: bool,
    pub side: Side,
    pub held: usize,
    pub end: End,
}

// What a call says. The changes that it speaks of are the first `count` entries of `array`: with 15 the row, of the answer's mark; at the
// page's end the loose entries.
#[derive(Clone, Copy)]
pub struct RowStep {
    pub answer: Answer,
    pub array: Side,
    pub count: usize,
    pub state: RowState,
}

// Before a page's first call, which gives its row in the first array.
pub fn row_start() -> RowState
    ensures { row_state_of result ≡ row_start }
{
    RowState {
        at: 0,
        rows: 0,
        entries: 0,
        eols: false,
        side: Side::Second,
        held: 0,
        end: End::Unended,
    }
}

fn other(side: Side) -> Side
    ensures { result ≡ other_side side }
{
    match side {
        Side::First => Side::Second,
        Side::Second => Side::First,
    }
}

// What is said of the array that the next row goes to.
fn told(answer: Answer, count: usize, state: RowState) -> RowStep
    ensures { result ≡ told_for answer count state }
{
    let side = state.side;
    RowStep {
        answer,
        array: other(side),
        count,
        state,
    }
}

// A page's end, with the counts that stand.
fn said(number: u32, place: usize, bytes: usize, loose: usize, state: RowState) -> RowStep
    ensures { result ≡ said_for number place bytes loose state }
{
    let answer = Answer {
        number,
        mark: 0,
        rows: state.rows as u64,
        entries: state.entries as u64,
        loose: loose as u64,
        bytes: bytes as u64,
        place: place as u64,
    };
    told(answer, loose, state)
}

// A refusal does not end the page.
fn refused(number: u32, state: RowState) -> RowStep
    ensures { result ≡ refused_for number state }
{
    told(answer::refusal(number), 0, state)
}

// No columns, no rows: also where rows were given under another width.
fn no_columns(state: RowState) -> RowStep
    ensures { result ≡ none_for state }
{
    let ended = RowState {
        rows: 0,
        entries: 0,
        end: End::Done(0),
        ..state
    };
    said(answer::COMPLETE, 0, 0, 0, ended)
}

// The state's own tests, of 8.
fn is_sound(size: usize, columns: u32, state: RowState, array: &[u32]) -> bool
    requires { size ≤ most_bytes }
    ensures { result ≡ sound_for size columns state array.now }
{
    if 8 * size < state.at {
        return false;
    }
    let most = 8 * size + 1;
    if array.len() < state.held {
        return false;
    }
    if most < state.held {
        return false;
    }
    if most < state.rows {
        return false;
    }
    if most < state.entries {
        return false;
    }
    let held = state.held;
    reference::ascends(&array[..held], columns)
}

// The row, which is the next reference.
fn given(state: RowState, count: usize, mark: u32, at: usize, eols: bool) -> RowStep
    requires { Grows state count }
    ensures { result ≡ given_for state count mark at eols }
{
    let side = state.side;
    let array = other(side);
    let rows = state.rows + 1;
    let entries = state.entries + count;
    RowStep {
        answer: Answer {
            number: answer::MORE_TO_COME,
            mark,
            rows: rows as u64,
            entries: entries as u64,
            loose: 0,
            bytes: 0,
            place: 0,
        },
        array,
        count,
        state: RowState {
            at,
            rows,
            entries,
            eols,
            side: array,
            held: count,
            end: End::Unended,
        },
    }
}

fn end_of(number: u32, place: usize, bytes: usize, loose: usize) -> End
    requires { Ending number × Allowed number place bytes loose }
    ensures { end_of result ≡ ended number place bytes loose }
{
    match number {
        answer::COMPLETE => End::Done(bytes),
        answer::INVALID_CODE => End::InvalidCode(place, loose),
        answer::UNEXPECTED_EOF => End::UnexpectedEof(place, loose),
        answer::OVERFLOW => End::Overflow(place, loose),
        answer::NO_ENTRY => End::NoRoom(loose),
        _ => End::Short,
    }
}

fn ends(state: RowState, number: u32, place: usize, bytes: usize, loose: usize) -> RowStep
    requires { Ending number × Allowed number place bytes loose }
    ensures { Ends state number place bytes loose result }
{
    let ended = RowState {
        end: end_of(number, place, bytes, loose),
        ..state
    };
    said(number, place, bytes, loose, ended)
}

// What one row does, by the encoding. No table is lent: it would be built anew at each call, and take longer than the row.
fn row_under(
    src: &[u8],
    settings: DecodeSettings,
    lent: &[u32],
    changes: &mut [u32],
    state: State,
) -> Row
    requires { RowFrom src.now lent.now changes.old settings state × (state.reference ≡ Lent) }
    ensures { Rowed src.now lent.now changes.old settings state result changes.new }
{
    let none: [u16; 0] = [];
    if settings::is_group4(settings) {
        return group4::lone_row(&none, &none, src, settings, lent, changes, state);
    }
    group3::lone_row(&none, &none, &none, src, settings, lent, changes, state)
}

// The row under the reference, which lies in an array of its own.
fn next_row(
    src: &[u8],
    settings: DecodeSettings,
    state: RowState,
    reference: &[u32],
    changes: &mut [u32],
) -> RowStep
    requires { NextFrom src.now settings }
    ensures { Next src.now settings state reference.now changes.old result changes.new }
{
    if !is_sound(src.len(), settings.columns, state, reference) {
        return refused(answer::BAD_ROWS, state);
    }
    if settings.columns == 0 {
        return no_columns(state);
    }
    let held = state.held;
    let between = State {
        at: state.at,
        rows: state.rows,
        reference: Reference::Lent,
        base: 0,
        eols: state.eols,
    };
    match row_under(
        src,
        settings::strict_if_exact(settings),
        &reference[..held],
        changes,
        between,
    ) {
        Ok(
            KeptRow {
                changes: count,
                mark,
                at,
                eols,
            },
        ) => given(state, count, mark, at, eols),
        Err(
            PageStop {
                number,
                place,
                bytes,
                loose,
            },
        ) => {
            if settings::is_short(settings, number, state.rows as u64) {
                return ends(state, answer::TOO_FEW_ROWS, 0, 0, loose);
            }
            ends(state, number, place, bytes, loose)
        }
    }
}

fn tested(
    src: &[u8],
    settings: DecodeSettings,
    state: RowState,
    first: &mut [u32],
    second: &mut [u32],
) -> RowStep
    ensures { Tested src.now settings state first.old second.old result first.new second.new }
{
    if settings.columns == answer::MOST_PIXELS {
        return refused(answer::BAD_WIDTH, state);
    }
    if answer::MOST_BYTES < src.len() {
        return refused(answer::TOO_LONG, state);
    }
    let side = state.side;
    match side {
        Side::First => next_row(src, settings, state, first, second),
        Side::Second => next_row(src, settings, state, second, first),
    }
}

// A row, or the page's end; after the end, that again, whatever else is lent.
pub fn read_row(
    src: &[u8],
    settings: DecodeSettings,
    state: RowState,
    first: &mut [u32],
    second: &mut [u32],
) -> RowStep
    ensures { ReadsRow src.now settings state first.old second.old result first.new second.new }
{
    let end = state.end;
    match end {
        End::Unended => tested(src, settings, state, first, second),
        End::Done(bytes) => said(answer::COMPLETE, 0, bytes, 0, state),
        End::InvalidCode(place, loose) => said(answer::INVALID_CODE, place, 0, loose, state),
        End::UnexpectedEof(place, loose) => said(answer::UNEXPECTED_EOF, place, 0, loose, state),
        End::Overflow(place, loose) => said(answer::OVERFLOW, place, 0, loose, state),
        End::NoRoom(loose) => said(answer::NO_ENTRY, 0, 0, loose, state),
        End::Short => said(answer::TOO_FEW_ROWS, 0, 0, 0, state),
    }
}
