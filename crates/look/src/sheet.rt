// What stands around a picture, and the rows that are drawn over it.
ghost use Rattle.std.specs.Prelude.{◌≡◌, true, get_or};
ghost use Rattle.look.specs.Pieces as Pieces;
ghost use Rattle.look.specs.Pieces.{Tells, count_of, read_text, is_there, found_at, found, sheet, drawing, is_marked, band, has_row, row_mark};

use crate::ledger_parts::{larger, one};
use crate::phrases::{ABOUT_ROW, BAND, DRAWING, FOUND, READ, SHEET};
use crate::said::tell_with;
use ledger::Verdict;

// How many rows have a mark.
fn count_of(mark: u8, marks: &[u8]) -> u64
    ensures { result ≡ count_of mark marks.now }
{
    marks.iter().filter(|m| **m == mark).count() as u64
}

// What was read: columns, rows, and those that were cut and recovered.
pub fn put_read(out: &mut [u8], columns: u32, marks: &[u8]) -> usize
    ensures { Tells true 0 (read_text columns marks.now) out.old result out.new }
{
    let cut = count_of(1, marks);
    let recovered = count_of(2, marks);
    tell_with(
        out,
        READ,
        columns as u64,
        marks.len() as u64,
        cut,
        recovered,
        0,
        0,
        0,
        0,
        0,
    )
}

// How far two numbers lie apart.
fn apart(a: u32, b: u32) -> u64
    ensures { result ≡ Pieces.apart a b }
{
    u64::from(a.abs_diff(b))
}

fn is_there(across: u64, down: u64) -> bool
    ensures { result ≡ is_there across down }
{
    across == 0 && down == 0
}

fn found_at(leftward: bool, across: u64, upward: bool, down: u64) -> usize
    ensures { result ≡ found_at leftward across upward down }
{
    if is_there(across, down) {
        return FOUND;
    }
    FOUND + 1 + 2 * one(leftward) + one(upward)
}

// Where the form lies: the offset at which it was found, `x` and `y`, and that of its own place, `left` and `top`.
pub fn put_found(out: &mut [u8], x: u32, y: u32, left: u32, top: u32) -> usize
    ensures { Tells true 0 (found x y left top) out.old result out.new }
{
    let across = apart(x, left);
    let down = apart(y, top);
    let k = found_at(x < left, across, y < top, down);
    tell_with(out, k, across, down, 0, 0, 0, 0, 0, 0, 0)
}

// The sheet, with a picture of so many rows, whose bytes follow, or without; it is as high as the form's page at least.
pub fn put_sheet(out: &mut [u8], pictured: bool, columns: u32, rows: u32, most: u32) -> usize
    ensures { Tells true 0 (sheet pictured columns rows most) out.old result out.new }
{
    let high = larger(most as u64, rows as u64);
    tell_with(
        out,
        SHEET + one(pictured),
        columns as u64,
        rows as u64,
        high,
        0,
        0,
        0,
        0,
        0,
        0,
    )
}

// The drawing behind a picture.
pub fn put_drawing(out: &mut [u8], columns: u32, rows: u32, most: u32) -> usize
    ensures { Tells true 0 (drawing columns rows most) out.old result out.new }
{
    let high = larger(most as u64, rows as u64);
    tell_with(
        out,
        DRAWING,
        columns as u64,
        rows as u64,
        high,
        0,
        0,
        0,
        0,
        0,
        0,
    )
}

// The mark of a row; 0 past the last.
fn mark_at(marks: &[u8], y: usize) -> u8
    ensures { result ≡ get_or marks.now y 0 }
{
    if y < marks.len() { marks[y] } else { 0 }
}

// A row that was cut or recovered; a clean one has nothing.
pub fn put_band(out: &mut [u8], columns: u32, marks: &[u8], y: u32) -> usize
    ensures { Tells (is_marked marks.now y) 0 (band columns marks.now y) out.old result out.new }
{
    let mark = mark_at(marks, y as usize);
    if mark == 0 {
        return 0;
    }
    let k = BAND + one(1 < mark);
    tell_with(
        out,
        k,
        y as u64,
        columns as u64,
        y as u64 + 1,
        0,
        0,
        0,
        0,
        0,
        0,
    )
}

// The row that the words are about, where there is one: where the reading stopped, or a row that is not clean.
pub fn put_row_mark(out: &mut [u8], columns: u32, v: Verdict) -> usize
    ensures { Tells (has_row v) 0 (row_mark columns v) out.old result out.new }
{
    if v.row == 0 {
        return 0;
    }
    let k = ABOUT_ROW + one(8 < v.number);
    tell_with(out, k, v.row - 1, columns as u64, v.row, 0, 0, 0, 0, 0, 0)
}
