// The lines of a listing, and the whole of it.
ghost use Rattle.std.specs.Prelude.{[], ◌∷◌, ◌≤◌, length};
ghost use Rattle.rules.specs.Write.{rows_in};
ghost use Rattle.listing_text.specs.Sheet.{tabbed, text_line, row_line, row_lines, bad_input};
ghost use Rattle.listing_text.specs.Writing.{Room, Puts};
ghost use Rattle.listing_text.specs.Listed.{Rising, Listing, listing_of, Prints};

use crate::put::{put_byte, put_field, put_text};
use answer::Answer;

fn put_fields(out: &mut [u8], at: usize, numbers: &[u32]) -> usize
    requires { Room out.old at (tabbed numbers.now) }
    ensures { Puts out.old at (tabbed numbers.now) result out.new }
{
    let mut p = at;
    for number in numbers {
        p = put_field(out, p, u64::from(*number));
    }
    p
}

fn put_columns(out: &mut [u8], at: usize, columns: u32) -> usize
    requires { Room out.old at (text_line "columns" (columns ∷ [])) }
    ensures { Puts out.old at (text_line "columns" (columns ∷ [])) result out.new }
{
    let p = put_text(out, at, b"columns");
    let p = put_field(out, p, columns as u64);
    put_byte(out, p, b'\n')
}

fn put_row(out: &mut [u8], at: usize, number: usize, mark: u8, row: &[u32]) -> usize
    requires { Room out.old at (row_line number mark row.now) }
    ensures { Puts out.old at (row_line number mark row.now) result out.new }
{
    let p = put_text(out, at, b"row");
    let p = put_field(out, p, number as u64);
    let p = put_field(out, p, mark as u64);
    let p = put_field(out, p, row.len() as u64);
    let p = put_fields(out, p, row);
    put_byte(out, p, b'\n')
}

// The rows of a store, as many as there are ends, each with its mark.
fn put_rows(out: &mut [u8], at: usize, changes: &[u32], ends: &[u64], marks: &[u8]) -> usize
    requires { Room out.old at (row_lines 1 (rows_in 0 changes.now ends.now) marks.now) × Rising changes.now ends.now × (length ends.now ≤ length marks.now) }
    ensures { Puts out.old at (row_lines 1 (rows_in 0 changes.now ends.now) marks.now) result out.new }
{
    let mut p = at;
    let mut base = 0;
    for k in 0..ends.len() {
        let end = ends[k] as usize;
        let number = k + 1;
        p = put_row(out, p, number, marks[k], &changes[base..end]);
        base = end;
    }
    p
}

fn put_stop(out: &mut [u8], at: usize, number: u64, rows: u64, bytes: u64) -> usize
    requires { Room out.old at (text_line "stop" (number ∷ rows ∷ bytes ∷ [])) }
    ensures { Puts out.old at (text_line "stop" (number ∷ rows ∷ bytes ∷ [])) result out.new }
{
    let p = put_text(out, at, b"stop");
    let p = put_field(out, p, number);
    let p = put_field(out, p, rows);
    let p = put_field(out, p, bytes);
    put_byte(out, p, b'\n')
}

// The listing of a page whose kept rows stand in a store.
pub fn list(
    out: &mut [u8],
    columns: u32,
    answer: Answer,
    changes: &[u32],
    ends: &[u64],
    marks: &[u8],
) -> usize
    requires { Listing out.old answer changes.now ends.now marks.now }
    ensures { Prints out.old (listing_of columns answer changes.now ends.now marks.now) result out.new }
{
    let number = answer.number as u64;
    let rows = answer.rows as usize;
    let p = put_columns(out, 0, columns);
    let p = put_rows(out, p, changes, &ends[..rows], &marks[..rows]);
    put_stop(out, p, number, answer.rows, answer.bytes)
}

// "Longer data or another settings line prints `bad input` alone."
pub fn bad_input(out: &mut [u8]) -> usize
    requires { Room out.old 0 bad_input }
    ensures { Prints out.old bad_input result out.new }
{
    put_text(out, 0, b"bad input\n")
}
