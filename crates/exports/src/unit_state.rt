// The unit form's state in sixteen lent numbers, all of them zero at a page's start.
ghost use Rattle.std.specs.Prelude.{◌≡◌, ◌&&◌, ◌≤◌, eqb, leb, length, get_or};
ghost use Rattle.exports.specs.RowState as Row;
ghost use Rattle.exports.specs.RowState.{flag_number};
ghost use Rattle.exports.specs.UnitState.{phase_number, end_numbers, end_from, open_numbers};
ghost use Rattle.exports.specs.UnitState.{ended_numbers, numbers_of, EndTold, ReadingTold};

use crate::row_state;
use crate::row_state::EndNumbers;
use by_unit::{EndCounts, PageEnd, Phase, Reading, Saved};

// What 32 bits hold.
const MOST_WORD: u64 = answer::MOST_PIXELS as u64;

fn zeros(a: u64, b: u64, c: u64, d: u64) -> bool
    ensures { result ≡ eqb a 0 && (eqb b 0 && (eqb c 0 && eqb d 0)) }
{
    a == 0 && b == 0 && c == 0 && d == 0
}

fn flags(a: u64, b: u64, c: u64) -> bool
    ensures { result ≡ leb a 1 && (leb b 1 && leb c 1) }
{
    a <= 1 && b <= 1 && c <= 1
}

fn words(a: u64, b: u64) -> bool
    ensures { result ≡ leb a 4294967295 && leb b 4294967295 }
{
    a <= MOST_WORD && b <= MOST_WORD
}

fn phase_in(number: u64) -> Phase
    requires { number ≤ 3 }
    ensures { phase_number result ≡ number }
{
    match number {
        0 => Phase::Eols,
        1 => Phase::Mode,
        2 => Phase::First,
        _ => Phase::Second,
    }
}

// An open page's: the numbers of an end are zero.
fn open_in(state: &[u64]) -> Option<Reading>
    requires { (length state.now ≡ 16) × (get_or state.now 12 0 ≡ 0) }
    ensures { ReadingTold state.now result }
{
    if !zeros(state[13], state[14], state[15], 0) {
        return None;
    }
    if !flags(state[5], state[7], state[11]) {
        return None;
    }
    if !words(state[4], state[8]) {
        return None;
    }
    if 3 < state[0] {
        return None;
    }
    let phase = phase_in(state[0]);
    Some(Reading::Open(Saved {
        phase,
        at: state[1] as usize,
        eols: state[2] as usize,
        rows: state[3] as usize,
        position: state[4] as u32,
        black: state[5] == 1,
        loose: state[6] as usize,
        cut: state[7] == 1,
        run: state[8] as u32,
        run_at: state[9] as usize,
        mode_at: state[10] as usize,
        blank: state[11] == 1,
    }))
}

fn end_numbers(end: PageEnd) -> EndNumbers
    ensures { result ≡ end_numbers end }
{
    match end {
        PageEnd::Done(bytes) => row_state::ended(1, 0, bytes, 0),
        PageEnd::InvalidCode(place, loose) => row_state::ended(2, place, 0, loose),
        PageEnd::UnexpectedEof(place, loose) => row_state::ended(3, place, 0, loose),
        PageEnd::Overflow(place, loose) => row_state::ended(4, place, 0, loose),
        PageEnd::NoEntry(loose) => row_state::ended(5, 0, 0, loose),
        PageEnd::NoRowEnd(loose) => row_state::ended(6, 0, 0, loose),
        PageEnd::Short => row_state::ended(15, 0, 0, 0),
    }
}

// The end that numbers would be.
fn end_from(number: u64, place: u64, bytes: u64, loose: u64) -> PageEnd
    ensures { result ≡ end_from (Row.ended_numbers number place bytes loose) }
{
    match number {
        1 => PageEnd::Done(bytes),
        2 => PageEnd::InvalidCode(place, loose),
        3 => PageEnd::UnexpectedEof(place, loose),
        4 => PageEnd::Overflow(place, loose),
        5 => PageEnd::NoEntry(loose),
        6 => PageEnd::NoRowEnd(loose),
        _ => PageEnd::Short,
    }
}

// The end that numbers are, if that end has them: a number off the list, or one with a count that it never has, is none.
fn end_in(number: u64, place: u64, bytes: u64, loose: u64) -> Option<PageEnd>
    ensures { EndTold number place bytes loose result }
{
    let end = end_from(number, place, bytes, loose);
    let own = end_numbers(end);
    if !row_state::are_same(own, number, place, bytes, loose) {
        return None;
    }
    Some(end)
}

// An ended page's: what is open about one is zero.
fn ended_in(state: &[u64]) -> Option<Reading>
    requires { (length state.now ≡ 16) × (get_or state.now 12 0 ≡ 0 → ⊥) }
    ensures { ReadingTold state.now result }
{
    if !zeros(state[0], state[1], state[2], state[4]) {
        return None;
    }
    if !zeros(state[5], state[7], state[8], state[9]) {
        return None;
    }
    if !zeros(state[10], state[11], 0, 0) {
        return None;
    }
    let end = end_in(state[12], state[15], state[14], state[6])?;
    let counts = EndCounts {
        rows: state[3],
        entries: state[13],
    };
    Some(Reading::Ended(end, counts))
}

// The reading that numbers are, where one has them.
pub(crate) fn reading_in(state: &[u64]) -> Option<Reading>
    ensures { ReadingTold state.now result }
{
    if state.len() != 16 {
        return None;
    }
    if state[12] == 0 {
        return open_in(state);
    }
    ended_in(state)
}

fn phase_number(phase: Phase) -> u64
    ensures { result ≡ phase_number phase }
{
    match phase {
        Phase::Eols => 0,
        Phase::Mode => 1,
        Phase::First => 2,
        Phase::Second => 3,
    }
}

fn put_open(state: &mut [u64], saved: Saved)
    requires { length state.old ≡ 16 }
    ensures { state.new ≡ open_numbers saved }
{
    state.copy_from_slice(&[
        phase_number(saved.phase),
        saved.at as u64,
        saved.eols as u64,
        saved.rows as u64,
        u64::from(saved.position),
        u64::from(saved.black),
        saved.loose as u64,
        u64::from(saved.cut),
        u64::from(saved.run),
        saved.run_at as u64,
        saved.mode_at as u64,
        u64::from(saved.blank),
        0,
        0,
        0,
        0,
    ]);
}

fn put_ended(state: &mut [u64], end: PageEnd, counts: EndCounts)
    requires { length state.old ≡ 16 }
    ensures { state.new ≡ ended_numbers end counts }
{
    let last = end_numbers(end);
    state.copy_from_slice(&[
        0,
        0,
        0,
        counts.rows,
        0,
        0,
        last.loose,
        0,
        0,
        0,
        0,
        0,
        last.number,
        counts.entries,
        last.bytes,
        last.place,
    ]);
}

pub(crate) fn put(state: &mut [u64], reading: Reading)
    requires { length state.old ≡ 16 }
    ensures { state.new ≡ numbers_of reading }
{
    match reading {
        Reading::Open(saved) => put_open(state, saved),
        Reading::Ended(end, counts) => put_ended(state, end, counts),
    }
}
