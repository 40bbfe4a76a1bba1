// The row form's state in ten lent numbers, all of them zero at a page's start.
ghost use Rattle.std.specs.Prelude.{◌≡◌, ◌≤◌, length};
ghost use Rattle.exports.specs.RowState.{side_number, flag_number, ended_numbers, end_numbers};
ghost use Rattle.exports.specs.RowState.{end_from, numbers_of, Same, EndTold, StateTold};

use by_row::{End, RowState, Side};

// An end's numbers: 0 while the page goes on, and else one more than the number it ended with; its place, bytes and loose entries.
#[derive(Clone, Copy)]
pub(crate) struct EndNumbers {
    pub number: u64,
    pub place: u64,
    pub bytes: u64,
    pub loose: u64,
}

pub(crate) fn ended(number: u64, place: u64, bytes: u64, loose: u64) -> EndNumbers
    ensures { result ≡ ended_numbers number place bytes loose }
{
    EndNumbers {
        number,
        place,
        bytes,
        loose,
    }
}

pub(crate) fn are_same(own: EndNumbers, number: u64, place: u64, bytes: u64, loose: u64) -> bool
    ensures { Same own (ended_numbers number place bytes loose) result }
{
    own.number == number && own.place == place && own.bytes == bytes && own.loose == loose
}

fn end_numbers(end: End) -> EndNumbers
    ensures { result ≡ end_numbers end }
{
    match end {
        End::Unended => ended(0, 0, 0, 0),
        End::Done(bytes) => ended(1, 0, bytes as u64, 0),
        End::InvalidCode(place, loose) => ended(2, place as u64, 0, loose as u64),
        End::UnexpectedEof(place, loose) => ended(3, place as u64, 0, loose as u64),
        End::Overflow(place, loose) => ended(4, place as u64, 0, loose as u64),
        End::NoRoom(loose) => ended(5, 0, 0, loose as u64),
        End::Short => ended(15, 0, 0, 0),
    }
}

// The end that numbers would be.
fn end_from(number: u64, place: u64, bytes: u64, loose: u64) -> End
    ensures { result ≡ end_from (ended_numbers number place bytes loose) }
{
    match number {
        0 => End::Unended,
        1 => End::Done(bytes as usize),
        2 => End::InvalidCode(place as usize, loose as usize),
        3 => End::UnexpectedEof(place as usize, loose as usize),
        4 => End::Overflow(place as usize, loose as usize),
        5 => End::NoRoom(loose as usize),
        _ => End::Short,
    }
}

// The end that numbers are, if that end has them: a number off the list, or one with a count that it never has, is none.
fn end_in(number: u64, place: u64, bytes: u64, loose: u64) -> Option<End>
    ensures { EndTold number place bytes loose result }
{
    let end = end_from(number, place, bytes, loose);
    let own = end_numbers(end);
    if !are_same(own, number, place, bytes, loose) {
        return None;
    }
    Some(end)
}

fn side_in(number: u64) -> Side
    requires { number ≤ 1 }
    ensures { side_number result ≡ number }
{
    if number == 0 {
        return Side::Second;
    }
    Side::First
}

// The state that numbers are, where a state has them.
pub(crate) fn state_in(state: &[u64]) -> Option<RowState>
    ensures { StateTold state.now result }
{
    if state.len() != 10 {
        return None;
    }
    if 1 < state[0] {
        return None;
    }
    if 1 < state[5] {
        return None;
    }
    let end = end_in(state[6], state[7], state[8], state[9])?;
    Some(RowState {
        at: state[2] as usize,
        rows: state[3] as usize,
        entries: state[4] as usize,
        eols: state[5] == 1,
        side: side_in(state[0]),
        held: state[1] as usize,
        end,
    })
}

fn side_number(side: Side) -> u64
    ensures { result ≡ side_number side }
{
    match side {
        Side::First => 1,
        Side::Second => 0,
    }
}

pub(crate) fn put(state: &mut [u64], left: RowState)
    requires { length state.old ≡ 10 }
    ensures { state.new ≡ numbers_of left }
{
    let last = end_numbers(left.end);
    state.copy_from_slice(&[
        side_number(left.side),
        left.held as u64,
        left.at as u64,
        left.rows as u64,
        left.entries as u64,
        u64::from(left.eols),
        last.number,
        last.place,
        last.bytes,
        last.loose,
    ]);
}
