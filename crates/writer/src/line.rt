// A 2D line: the code at each position, to the width.
ghost use Rattle.std.specs.Prelude.{false, cond, ◌≡◌, ◌+◌, ◌-◌, ◌≤◌, ◌<◌, eqb, length, drop, get_or};
ghost use Rattle.rules.specs.Lines.{head_or};
ghost use Rattle.rules.specs.Pages.{most_bytes};
ghost use Rattle.rules.specs.Write.{write_line};
ghost use Rattle.tables.specs.Tables.{colour_of};
ghost use Rattle.writer.specs.Putting.{Room, Puts};
ghost use Rattle.writer.specs.Coding.{Lent, most_alike, Alike, PutsOnes, across, line_of, Lined};
ghost use Rattle.writer.specs.Outcome.{Answers};

use crate::{ink, mode, outcome, run};
use answer::Answer;
use context::reference;
use swift_loops::fast_2d;

// So many V0 codes are put at once, as one code of ones: fewer than the 13 bits that a code may have.
const MOST_ALIKE: usize = 8;

// The two runs of a horizontal code, in the line's colour and in the other.
fn put_horizontal<'a>(
    wt: &'a [[u16; 3]; 64],
    bt: &'a [[u16; 3]; 64],
    wm: &'a [[u16; 3]; 27],
    bm: &'a [[u16; 3]; 27],
    common: &'a [[u16; 3]; 13],
    colour: u32,
    first: u32,
    second: u32,
    out: &mut [u8],
    at: usize,
    write: bool,
) -> usize
    requires { Lent wt.now bt.now wm.now bm.now common.now × (colour ≤ 1) × Room write at (length (across (colour_of colour) first second)) (length out.old) }
    ensures { Puts write at (across (colour_of colour) first second) out.old result out.new }
{
    let next = ink::put(out, at, mode::horizontal(), write);
    let middle = run::put_run(wt, bt, wm, bm, common, colour, first, out, next, write);
    run::put_run(
        wt,
        bt,
        wm,
        bm,
        common,
        1 - colour,
        second,
        out,
        middle,
        write,
    )
}

// How many changes from here on are the same in both rows, of MOST_ALIKE at most.
fn alike(reference: &[u32], above: usize, row: &[u32], place: usize) -> usize
    requires { (above < 9223372036854775808) × (place < 9223372036854775808) }
    ensures { Alike reference.now above row.now place result }
{
    for k in 0..MOST_ALIKE {
        if row.len() <= place + k {
            return k;
        }
        if reference.len() <= above + k {
            return k;
        }
        if row[place + k] != reference[above + k] {
            return k;
        }
    }
    MOST_ALIKE
}

// As many V0 codes as one code of ones, or nothing.
fn put_ones(out: &mut [u8], at: usize, k: usize, write: bool) -> usize
    requires { (k ≤ most_alike) × Room write at k (length out.old) }
    ensures { PutsOnes write at k out.old result out.new }
{
    if k == 0 {
        return at;
    }
    ink::put(out, at, mode::ones(k), write)
}

// The last of k changes from a place on, or the position where there are none.
fn last_of(row: &[u32], place: usize, k: usize, position: u32) -> u32
    requires { 0 < k → place + k ≤ length row.now }
    ensures { result ≡ cond (eqb k 0) position (get_or row.now (place + k - 1) 0) }
{
    if k == 0 {
        return position;
    }
    row[place + k - 1]
}

// The bit after a row's codes, which begin at bit `at`; they are written only where `write` says so. b1's place is kept from code to
// code, and its parity is the line's colour; changes that both rows have are one code of ones, a V0 for each.
pub(crate) fn put_line<'a>(
    wt: &'a [[u16; 3]; 64],
    bt: &'a [[u16; 3]; 64],
    wm: &'a [[u16; 3]; 27],
    bm: &'a [[u16; 3]; 27],
    common: &'a [[u16; 3]; 13],
    width: u32,
    reference: &[u32],
    row: &[u32],
    out: &mut [u8],
    at: usize,
    write: bool,
) -> usize
    requires { Lent wt.now bt.now wm.now bm.now common.now × Lined write width reference.now row.now at (length out.old) }
    ensures { Puts write at (line_of width reference.now row.now) out.old result out.new }
{
    let mut next = at;
    let mut position: u32 = 0;
    let mut place: usize = 0;
    let mut above: usize = 0;
    while position < width {
        let k = alike(reference, above, row, place);
        next = put_ones(out, next, k, write);
        position = last_of(row, place, k, position);
        above += k;
        place += k;
        let a1 = reference::change_or(row, place, width);
        let b1 = reference::change_or(reference, above, width);
        let b2 = reference::change_or(reference, above + 1, width);
        if b2 < a1 {
            next = ink::put(out, next, mode::pass(), write);
            position = b2;
            above += 2;
            continue;
        }
        let d = mode::distance(b1, a1);
        if d <= 3 {
            next = ink::put(out, next, mode::vertical(b1, a1), write);
            position = a1;
            above = fast_2d::behind(reference, above, d as usize, a1);
            place += 1;
            continue;
        }
        let a2 = reference::change_or(row, place + 1, width);
        let first = a1 - position;
        let second = a2 - a1;
        let colour = (above % 2) as u32;
        next = put_horizontal(
            wt, bt, wm, bm, common, colour, first, second, out, next, write,
        );
        position = a2;
        above = fast_2d::onward(reference, above, a2);
        place += 2;
    }
    next
}

// 9 or 0: the line is counted, and written only where it fits. The tables are made once, here.
pub(crate) fn write(
    columns: u32,
    reference: &[u32],
    row: &[u32],
    out: &mut [u8],
    at: usize,
) -> Answer
    requires { Lined false columns reference.now row.now at (length out.old) × (length out.old ≤ most_bytes) }
    ensures { Answers (write_line columns reference.now row.now out.old at) out.old result out.new }
{
    let wt = tables::white_terminating();
    let bt = tables::black_terminating();
    let wm = tables::white_makeup();
    let bm = tables::black_makeup();
    let common = tables::common_makeup();
    let end = put_line(
        &wt, &bt, &wm, &bm, &common, columns, reference, row, out, at, false,
    );
    if 8 * out.len() < end {
        return answer::refusal(answer::NO_FIT);
    }
    put_line(
        &wt, &bt, &wm, &bm, &common, columns, reference, row, out, at, true,
    );
    outcome::done(end)
}
