// The state that a caller holds: the tests of 8, where a reading with it stands, and back.
ghost use Rattle.std.specs.Prelude.{◌≡◌, ◌-◌, ◌≤◌, length};
ghost use Rattle.rules.specs.Pages.{most_bytes};
ghost use Rattle.rules.specs.ByUnit.{end_of};
ghost use Rattle.context.specs.State.{flag_of, flag_number};
ghost use Rattle.by_unit.specs.Reading.{bits_for, counts_for, InPlace, rows_for, sound_for, kept_by, stand_by};
ghost use Rattle.by_unit.specs.Reading.{line_by, loose_for, saved_line_for, saved_between_for, saved_for};

use crate::stand::{Half, Kept, Stand};
use crate::{Phase, Saved};
use codes::eol::Eols;
use context::line::Line;
use context::reference;

// ---- The tests

fn are_bits(bits: usize, saved: Saved) -> bool
    ensures { result ≡ bits_for bits saved }
{
    if bits < saved.at {
        return false;
    }
    if bits < saved.run_at {
        return false;
    }
    saved.mode_at <= bits
}

// `most` is one more than the bits: a bit is at most a count.
fn are_counts(most: usize, places: usize, saved: Saved) -> bool
    ensures { result ≡ counts_for most places saved }
{
    if most < saved.eols {
        return false;
    }
    if most < saved.rows {
        return false;
    }
    if most < saved.loose {
        return false;
    }
    saved.rows <= places
}

// Where so many rows end.
fn end_of(ends: &[u64], rows: usize) -> usize
    requires { rows ≤ length ends.now }
    ensures { result ≡ end_of ends.now rows }
{
    if rows == 0 {
        return 0;
    }
    ends[rows - 1] as usize
}

fn one_less(rows: usize) -> usize
    ensures { result ≡ rows - 1 }
{
    if rows == 0 {
        return 0;
    }
    rows - 1
}

// The last row, which is the reference, and the unfinished row behind it.
fn are_rows(
    most: usize,
    columns: u32,
    changes: &[u32],
    start: usize,
    base: usize,
    saved: Saved,
) -> bool
    requires { InPlace most saved }
    ensures { result ≡ rows_for most columns changes.now start base saved }
{
    if most < base {
        return false;
    }
    if base < start {
        return false;
    }
    let behind = base + saved.loose;
    if changes.len() < behind {
        return false;
    }
    if reference::ascends(&changes[start..base], columns) {
        return reference::ascends(&changes[base..behind], saved.position);
    }
    false
}

pub(crate) fn is_sound(
    size: usize,
    columns: u32,
    changes: &[u32],
    ends: &[u64],
    marks: &[u8],
    saved: Saved,
) -> bool
    requires { size ≤ most_bytes }
    ensures { result ≡ sound_for size columns changes.now ends.now marks.now saved }
{
    let most = 8 * size + 1;
    if !are_bits(8 * size, saved) {
        return false;
    }
    if columns < saved.position {
        return false;
    }
    if !are_counts(most, ends.len().min(marks.len()), saved) {
        return false;
    }
    let rows = saved.rows;
    let start = end_of(ends, one_less(rows));
    let base = end_of(ends, rows);
    are_rows(most, columns, changes, start, base, saved)
}

// ---- Where a reading stands

pub(crate) fn kept(ends: &[u64], saved: Saved) -> Kept
    requires { saved.rows ≤ length ends.now }
    ensures { result ≡ kept_by ends.now saved }
{
    let rows = saved.rows;
    Kept {
        rows,
        start: end_of(ends, one_less(rows)),
        base: end_of(ends, rows),
    }
}

fn number_of(flag: bool) -> u32
    ensures { result ≡ flag_number flag }
{
    if flag { 1 } else { 0 }
}

fn line(columns: u32, saved: Saved) -> Line
    ensures { result ≡ line_by columns saved }
{
    Line {
        width: columns,
        position: saved.position,
        changes: saved.loose,
        colour: number_of(saved.black),
        cut: number_of(saved.cut),
    }
}

pub(crate) fn stand(columns: u32, saved: Saved) -> Stand
    ensures { result ≡ stand_by columns saved saved.phase }
{
    let phase = saved.phase;
    let at = saved.at;
    match phase {
        Phase::Eols => Stand::Between(Eols {
            count: saved.eols,
            at,
        }),
        Phase::Mode => Stand::InLine(line(columns, saved), at),
        Phase::First => Stand::InRun(
            Half::First(saved.mode_at),
            line(columns, saved),
            saved.run_at,
            saved.run,
            at,
        ),
        Phase::Second => Stand::InRun(
            Half::Second(saved.mode_at, saved.blank),
            line(columns, saved),
            saved.run_at,
            saved.run,
            at,
        ),
    }
}

// ---- And back

pub(crate) fn loose_of(stand: Stand) -> usize
    ensures { result ≡ loose_for stand }
{
    match stand {
        Stand::Between(_) => 0,
        Stand::InLine(line, _) => line.changes,
        Stand::InRun(_, line, _, _, _) => line.changes,
    }
}

fn is_set(number: u32) -> bool
    ensures { result ≡ flag_of number }
{
    number != 0
}

// In a line, with what a run needs.
fn saved_line(
    phase: Phase,
    rows: usize,
    at: usize,
    line: Line,
    run: u32,
    run_at: usize,
    mode_at: usize,
    blank: bool,
) -> Saved
    ensures { result ≡ saved_line_for phase rows at line run run_at mode_at blank }
{
    Saved {
        phase,
        at,
        eols: 0,
        rows,
        position: line.position,
        black: is_set(line.colour),
        loose: line.changes,
        cut: is_set(line.cut),
        run,
        run_at,
        mode_at,
        blank,
    }
}

fn saved_between(rows: usize, eols: Eols) -> Saved
    ensures { result ≡ saved_between_for rows eols }
{
    Saved {
        phase: Phase::Eols,
        at: eols.at,
        eols: eols.count,
        rows,
        position: 0,
        black: false,
        loose: 0,
        cut: false,
        run: 0,
        run_at: 0,
        mode_at: 0,
        blank: false,
    }
}

pub(crate) fn saved(kept: Kept, stand: Stand) -> Saved
    ensures { result ≡ saved_for kept stand }
{
    let rows = kept.rows;
    match stand {
        Stand::Between(eols) => saved_between(rows, eols),
        Stand::InLine(line, at) => saved_line(Phase::Mode, rows, at, line, 0, 0, 0, false),
        Stand::InRun(half, line, from, total, at) => match half {
            Half::First(mode) => saved_line(Phase::First, rows, at, line, total, from, mode, false),
            Half::Second(mode, blank) => saved_line(
                Phase::Second,
                rows,
                at,
                line,
                total,
                from,
                mode,
                blank,
            ),
        },
    }
}
