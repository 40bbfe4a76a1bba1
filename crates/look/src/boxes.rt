// The boxes and the places of the form as they are drawn over the page, each with its black pixels.
ghost use Rattle.std.specs.Prelude.{◌≡◌, true, ◌+◌, ◌*◌, ◌≤◌, get_or};
ghost use Rattle.row_store.specs.Store.{good_rows};
ghost use Rattle.heads.specs.Form.{Page, page_in, black_in};
ghost use Rattle.heads.specs.Numbers.{box_in};
ghost use Rattle.heads.specs.Steps.{Good};
ghost use Rattle.look.specs.Pieces.{Tells, edges, state_of, box_text, holds, place_state, place_text};

use crate::ledger_parts::{less, one};
use crate::phrases::{BOX, PLACE};
use crate::said::tell_with;
use heads::Box;
use heads::count::in_box;

// A number; 0 past the end.
fn number_at(numbers: &[u32], k: usize) -> u32
    ensures { result ≡ get_or numbers.now k 0 }
{
    if k < numbers.len() { numbers[k] } else { 0 }
}

// The box whose four numbers begin at a place.
fn box_at(numbers: &[u32], at: usize) -> Box
    requires { at ≤ 34359738368 }
    ensures { result ≡ box_in numbers.now at }
{
    Box {
        left: number_at(numbers, at),
        right: number_at(numbers, at + 1),
        top: number_at(numbers, at + 2),
        bottom: number_at(numbers, at + 3),
    }
}

// Empty, in doubt, ticked, not read.
fn state(rows: usize, b: Box, black: u64, doubt: u64, tick: u64) -> usize
    ensures value { result ≡ state_of rows b black doubt tick }
    ensures upper_bound { result ≤ 3 }
{
    if rows < b.bottom as usize {
        return 3;
    }
    if black < doubt {
        return 0;
    }
    if black < tick {
        return 1;
    }
    2
}

// A box by its edges and its black pixels, by a phrase of its state.
fn put_edges(out: &mut [u8], k: usize, b: Box, black: u64, name: u64, asked: u64) -> usize
    ensures { Tells true 0 (edges k b black name asked) out.old result out.new }
{
    let left = b.left as u64;
    let top = b.top as u64;
    let right = b.right as u64;
    let bottom = b.bottom as u64;
    let width = less(right, left);
    let height = less(bottom, top);
    tell_with(
        out, k, left, top, width, height, black, name, right, bottom, asked,
    )
}

fn put_good_box(
    out: &mut [u8],
    columns: u32,
    changes: &[u32],
    ends: &[u64],
    b: Box,
    which: u32,
    doubt: u32,
    tick: u32,
) -> usize
    requires { Good columns changes.now ends.now }
    ensures { Tells true 0 (box_text (page_in columns changes.now ends.now) b which doubt tick) out.old result out.new }
{
    let black = in_box(columns, changes, ends, b);
    let state = state(ends.len(), b, black, doubt as u64, tick as u64);
    let k = BOX + 4 * (which % 2) as usize + state;
    put_edges(out, k, b, black, (which / 2) as u64, 0)
}

// A box of the form, by its number: 2 x digit, and 1 more for units. 0 where the rows are none of a store.
pub fn put_box(
    out: &mut [u8],
    columns: u32,
    changes: &[u32],
    ends: &[u64],
    boxes: &[u32],
    which: u32,
    doubt: u32,
    tick: u32,
) -> usize
    ensures { Tells (good_rows columns changes.now 0 ends.now) 0 (box_text (page_in columns changes.now ends.now) (box_in boxes.now (4 * which)) which doubt tick) out.old result out.new }
{
    if !row_store::ascend(columns, changes, ends) {
        return 0;
    }
    let b = box_at(boxes, 4 * which as usize);
    put_good_box(out, columns, changes, ends, b, which, doubt, tick)
}

// The kind of a place that must be black; any other must be white.
const BLACK: u32 = 1;

fn holds(kind: u32, black: u64, asked: u64) -> bool
    ensures { result ≡ holds kind black asked }
{
    if kind == BLACK {
        return asked <= black;
    }
    black <= asked
}

// Not read, as the form says, too few, too many.
fn place_state(rows: usize, b: Box, kind: u32, black: u64, asked: u64) -> usize
    ensures value { result ≡ place_state rows b kind black asked }
    ensures upper_bound { result ≤ 3 }
{
    if rows < b.bottom as usize {
        return 0;
    }
    if holds(kind, black, asked) {
        return 1;
    }
    2 + one(kind != BLACK)
}

fn put_good_place(
    out: &mut [u8],
    columns: u32,
    changes: &[u32],
    ends: &[u64],
    b: Box,
    kind: u32,
    asked: u32,
    line: u32,
) -> usize
    requires { Good columns changes.now ends.now }
    ensures { Tells true 0 (place_text (page_in columns changes.now ends.now) b kind asked line) out.old result out.new }
{
    let black = in_box(columns, changes, ends, b);
    let k = PLACE + place_state(ends.len(), b, kind, black, asked as u64);
    put_edges(out, k, b, black, line as u64, asked as u64)
}

// A place of the form, by its number.
pub fn put_place(
    out: &mut [u8],
    columns: u32,
    changes: &[u32],
    ends: &[u64],
    places: &[u32],
    which: u32,
) -> usize
    ensures { Tells (good_rows columns changes.now 0 ends.now) 0 (place_text (page_in columns changes.now ends.now) (box_in places.now (7 * which + 1)) (get_or places.now (7 * which) 0) (get_or places.now (7 * which + 5) 0) (get_or places.now (7 * which + 6) 0)) out.old result out.new }
{
    if !row_store::ascend(columns, changes, ends) {
        return 0;
    }
    let at = 7 * which as usize;
    let b = box_at(places, at + 1);
    let kind = number_at(places, at);
    let asked = number_at(places, at + 5);
    let line = number_at(places, at + 6);
    put_good_place(out, columns, changes, ends, b, kind, asked, line)
}
