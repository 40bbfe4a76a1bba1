// The desk's tests on a page that was read to its end.
ghost use Rattle.std.specs.Prelude.{◌≡◌, suc, ◌+◌, ◌-◌, ◌*◌, ◌≤◌, ◌<◌, length, get_or};
ghost use Rattle.heads.specs.Form.{Page, page_in, clean_under};
ghost use Rattle.heads.specs.Steps.{Good, Sound};
ghost use Rattle.heads.specs.Numbers.{box_in};
ghost use Rattle.form_file.specs.First.{first_of};
ghost use Rattle.form_file.specs.FormFile.{box_at, place_at};
ghost use Rattle.ledger.specs.Verdicts.{unclean_row};
ghost use Rattle.booking.specs.Tests as Tests;
ghost use Rattle.booking.specs.Tests.{finding, counted_as, lowest, under_above, bad_row, on_page};
ghost use Rattle.booking.specs.Testing as Testing;
ghost use Rattle.booking.specs.Testing.{Sized, unclean_at, unclean_above, box_touches, place_touches, mended_on, holds_at, fails_at};
ghost use Rattle.booking.specs.Testing.{wrong_for, doubts_in, doubts_at, ticks_of, not_one_of, tested_on};

use crate::Finding;
use form_file::Form;
use heads::Box;
use heads::count::in_box;
use heads::numbers::heads_from;
use settings::EncodingMode;

// A box, by the place of the first of its four numbers.
pub(crate) fn box_at(numbers: &[u32], at: usize) -> Box
    requires { at + 4 ≤ length numbers.now }
    ensures { result ≡ box_in numbers.now at }
{
    Box {
        left: numbers[at],
        right: numbers[at + 1],
        top: numbers[at + 2],
        bottom: numbers[at + 3],
    }
}

// The kind of a place that must be black; any other must be white.
const BLACK: u32 = 1;

// What was found, with what its words need.
pub(crate) fn found(
    number: u32,
    which: u32,
    line: u32,
    row: u64,
    count: u64,
    least: u64,
    most: u64,
) -> Finding
    ensures { result ≡ finding number which line row count least most }
{
    Finding {
        number,
        heads: 0,
        which,
        line,
        row,
        count,
        least,
        most,
    }
}

// The number alone.
pub(crate) fn plainly(number: u32) -> Finding
    ensures { result ≡ Tests.plainly number }
{
    found(number, 0, 0, 0, 0, 0, 0)
}

// Heads that count.
fn counted(heads: u32) -> Finding
    ensures { result ≡ counted_as heads }
{
    Finding {
        number: answer::COMPLETE,
        heads,
        which: 0,
        line: 0,
        row: 0,
        count: 0,
        least: 0,
        most: 0,
    }
}

// A row past the marks has none.
fn mark_at(marks: &[u8], y: usize) -> u8
    ensures { result ≡ get_or marks.now y 0 }
{
    if y < marks.len() { marks[y] } else { 0 }
}

// The first row from `top` on that is not clean.
fn bad_row(marks: &[u8], top: u32, bottom: u32) -> u32
    ensures { result ≡ first_of (unclean_at marks.now) (bottom - top) top }
{
    for y in top..bottom {
        if mark_at(marks, y as usize) != 0 {
            return y;
        }
    }
    bottom.max(top)
}

// Whether each row that the box touches was read clean. A box whose bottom is above its top touches none.
fn clean_under(columns: u32, marks: &[u8], b: Box) -> bool
    ensures { result ≡ clean_under columns (length marks.now) marks.now b }
{
    b.right <= b.left || columns <= b.left || b.bottom <= bad_row(marks, b.top, b.bottom)
}

// The first box that touches a row that is not clean.
fn bad_box(columns: u32, marks: &[u8], boxes: &[u32]) -> u32
    requires { length boxes.now ≡ 80 }
    ensures { result ≡ first_of (box_touches columns marks.now boxes.now) 20 0 }
{
    for k in 0..20 {
        if !clean_under(columns, marks, box_at(boxes, 4 * k as usize)) {
            return k;
        }
    }
    20
}

// The first place that touches one.
fn bad_place(columns: u32, marks: &[u8], places: &[u32], count: usize) -> usize
    requires { 7 * count ≤ length places.now }
    ensures { result ≡ first_of (place_touches columns marks.now places.now) count 0 }
{
    for k in 0..count {
        if !clean_under(columns, marks, box_at(places, 7 * k + 1)) {
            return k;
        }
    }
    count
}

// The lowest bottom edge of the boxes.
fn lowest_box(boxes: &[u32]) -> u32
    requires { length boxes.now ≡ 80 }
    ensures { result ≡ lowest (box_at boxes.now) 20 0 0 }
{
    let mut low: u32 = 0;
    for k in 0..20 {
        let b = box_at(boxes, 4 * k);
        if low < b.bottom {
            low = b.bottom;
        }
    }
    low
}

// The lowest of those of the places and `from`.
fn lowest_place(places: &[u32], count: usize, from: u32) -> u32
    requires { 7 * count ≤ length places.now }
    ensures { result ≡ lowest (place_at places.now) count 0 from }
{
    let mut low = from;
    for k in 0..count {
        let b = box_at(places, 7 * k + 1);
        if low < b.bottom {
            low = b.bottom;
        }
    }
    low
}

// Whether a row is read under the row above it.
fn under_above(encoding: EncodingMode) -> bool
    ensures { result ≡ under_above encoding }
{
    match encoding {
        EncodingMode::Group4 => true,
        EncodingMode::Group3_1D => false,
        EncodingMode::Group3_2D => true,
    }
}

// The first row above `low` that is not clean; as many as there are rows, if there is none.
fn bad_above(marks: &[u8], low: usize) -> usize
    ensures { result ≡ first_of (unclean_above marks.now low) (length marks.now) 0 }
{
    let rows = marks.len();
    for y in 0..rows {
        if low <= y {
            return rows;
        }
        if marks[y] != 0 {
            return y;
        }
    }
    rows
}

// The first row that is not clean and that the form rests on; as many as there are rows, if there is none.
fn resting(
    columns: u32,
    encoding: EncodingMode,
    marks: &[u8],
    form: Form,
    boxes: &[u32],
    places: &[u32],
) -> usize
    requires { (length boxes.now ≡ 80) × (7 * form.places ≤ length places.now) }
    ensures { (page : Page) → Sized columns marks.now page → result ≡ bad_row form boxes.now places.now encoding page marks.now }
{
    let count = form.places as usize;
    if under_above(encoding) {
        let low = lowest_place(places, count, lowest_box(boxes));
        return bad_above(marks, low as usize);
    }
    let k = bad_place(columns, marks, places, count);
    if k == count {
        return marks.len();
    }
    let b = box_at(places, 7 * k + 1);
    bad_row(marks, b.top, b.bottom) as usize
}

// What is told of such a row.
fn unclean_row(marks: &[u8], y: usize) -> Finding
    requires { y < length marks.now }
    ensures { result ≡ finding unclean_row 0 0 (suc y) (get_or marks.now y 0) 0 0 }
{
    found(
        ledger::UNCLEAN_ROW,
        0,
        0,
        y as u64 + 1,
        marks[y] as u64,
        0,
        0,
    )
}

// Whether a place has the black pixels that it must have.
fn place_holds(columns: u32, changes: &[u32], ends: &[u64], places: &[u32], k: usize) -> bool
    requires { Good columns changes.now ends.now × (7 * k + 7 ≤ length places.now) }
    ensures { result ≡ holds_at (page_in columns changes.now ends.now) places.now k }
{
    let count = in_box(columns, changes, ends, box_at(places, 7 * k + 1));
    let asked = places[7 * k + 5] as u64;
    if places[7 * k] == BLACK {
        return asked <= count;
    }
    count <= asked
}

// The first place that has not.
fn wrong_place(columns: u32, changes: &[u32], ends: &[u64], places: &[u32], count: usize) -> usize
    requires { Good columns changes.now ends.now × (7 * count ≤ length places.now) }
    ensures { result ≡ first_of (fails_at (page_in columns changes.now ends.now) places.now) count 0 }
{
    for k in 0..count {
        if !place_holds(columns, changes, ends, places, k) {
            return k;
        }
    }
    count
}

// What is told of it.
fn wrong_at(columns: u32, changes: &[u32], ends: &[u64], places: &[u32], k: usize) -> Finding
    requires { Good columns changes.now ends.now × (7 * k + 7 ≤ length places.now) }
    ensures { result ≡ wrong_for (page_in columns changes.now ends.now) places.now k }
{
    let count = in_box(columns, changes, ends, box_at(places, 7 * k + 1));
    let asked = places[7 * k + 5] as u64;
    let line = places[7 * k + 6];
    if places[7 * k] == BLACK {
        return found(ledger::NOT_BLACK, 0, line, 0, count, asked, 0);
    }
    found(ledger::NOT_WHITE, 0, line, 0, count, 0, asked)
}

// Whether a box has too many black pixels for none, and too few for a tick.
fn in_doubt(columns: u32, changes: &[u32], ends: &[u64], b: Box, doubt: u64, tick: u64) -> bool
    requires { Good columns changes.now ends.now }
    ensures { result ≡ doubts_in (page_in columns changes.now ends.now) doubt tick b }
{
    let count = in_box(columns, changes, ends, b);
    doubt <= count && count < tick
}

// The first box in doubt.
fn doubtful(
    columns: u32,
    changes: &[u32],
    ends: &[u64],
    boxes: &[u32],
    doubt: u64,
    tick: u64,
) -> u32
    requires { Good columns changes.now ends.now × (length boxes.now ≡ 80) }
    ensures { result ≡ first_of (doubts_at (page_in columns changes.now ends.now) doubt tick boxes.now) 20 0 }
{
    for k in 0..20 {
        let b = box_at(boxes, 4 * k as usize);
        if in_doubt(columns, changes, ends, b, doubt, tick) {
            return k;
        }
    }
    20
}

// The ticks of a column.
fn ticks_in(
    columns: u32,
    changes: &[u32],
    ends: &[u64],
    boxes: &[u32],
    column: usize,
    tick: u64,
) -> u64
    requires { Good columns changes.now ends.now × (length boxes.now ≡ 80) × (column < 2) }
    ensures { result ≡ ticks_of (page_in columns changes.now ends.now) boxes.now tick column }
{
    let mut n: u64 = 0;
    for d in 0..10 {
        let b = box_at(boxes, 4 * (2 * d + column));
        if tick <= in_box(columns, changes, ends, b) {
            n += 1;
        }
    }
    n
}

// The column that has not one tick: the tens first.
fn not_one(columns: u32, changes: &[u32], ends: &[u64], boxes: &[u32], tick: u64) -> Finding
    requires { Good columns changes.now ends.now × (length boxes.now ≡ 80) }
    ensures { result ≡ not_one_of (page_in columns changes.now ends.now) boxes.now tick }
{
    let tens = ticks_in(columns, changes, ends, boxes, 0, tick);
    if tens != 1 {
        return found(answer::NOT_ONE_TICK, 0, 0, 0, tens, 1, 1);
    }
    let units = ticks_in(columns, changes, ends, boxes, 1, tick);
    found(answer::NOT_ONE_TICK, 1, 0, 0, units, 1, 1)
}

// The first row that is not clean under the first box that touches one.
fn mended(columns: u32, marks: &[u8], boxes: &[u32]) -> Finding
    requires { (length boxes.now ≡ 80) × (first_of (box_touches columns marks.now boxes.now) 20 0 < 20) }
    ensures { (page : Page) → Sized columns marks.now page → result ≡ mended_on page boxes.now marks.now }
{
    let k = bad_box(columns, marks, boxes);
    let b = box_at(boxes, 4 * k as usize);
    let y = bad_row(marks, b.top, b.bottom);
    let mark = mark_at(marks, y as usize);
    found(answer::MENDED_ROW, k, 0, y as u64 + 1, mark as u64, 0, 0)
}

// Where the rows are clean: the places, then the boxes in doubt, then what A11 said.
fn standing(
    columns: u32,
    changes: &[u32],
    ends: &[u64],
    form: Form,
    boxes: &[u32],
    places: &[u32],
    said: u32,
    heads: u32,
) -> Finding
    requires { Good columns changes.now ends.now × (length boxes.now ≡ 80) × (7 * form.places ≤ length places.now) }
    ensures { result ≡ Testing.standing form boxes.now places.now (page_in columns changes.now ends.now) said heads }
{
    let count = form.places as usize;
    let k = wrong_place(columns, changes, ends, places, count);
    if k < count {
        return wrong_at(columns, changes, ends, places, k);
    }
    let doubt = form.doubt as u64;
    let tick = form.tick as u64;
    let k = doubtful(columns, changes, ends, boxes, doubt, tick);
    if k < 20 {
        let black = in_box(columns, changes, ends, box_at(boxes, 4 * k as usize));
        return found(ledger::IN_DOUBT, k, 0, 0, black, doubt, tick);
    }
    if said != answer::COMPLETE {
        return not_one(columns, changes, ends, boxes, tick);
    }
    counted(heads)
}

// On a page whose boxes and places are there. A11 is asked with no quota: the books take the heads off.
pub(crate) fn tested(
    columns: u32,
    encoding: EncodingMode,
    changes: &[u32],
    ends: &[u64],
    marks: &[u8],
    form: Form,
    boxes: &[u32],
    places: &[u32],
) -> Finding
    requires { Sound columns changes.now ends.now marks.now × (length marks.now ≡ length ends.now) × (length boxes.now ≡ 80) × (7 * form.places ≤ length places.now) }
    ensures { result ≡ tested_on form boxes.now places.now encoding (page_in columns changes.now ends.now) marks.now }
{
    let said = heads_from(columns, changes, ends, marks, boxes, form.tick as u64, 0);
    if said.number == answer::BAD_FORM {
        return plainly(answer::BAD_FORM);
    }
    if said.number == answer::MENDED_ROW {
        return mended(columns, marks, boxes);
    }
    let y = resting(columns, encoding, marks, form, boxes, places);
    if y < marks.len() {
        return unclean_row(marks, y);
    }
    standing(
        columns,
        changes,
        ends,
        form,
        boxes,
        places,
        said.number,
        said.heads,
    )
}

// Boxes that are not eighty numbers, and places that are not there, are no form.
pub(crate) fn on_page(
    columns: u32,
    encoding: EncodingMode,
    changes: &[u32],
    ends: &[u64],
    marks: &[u8],
    form: Form,
    boxes: &[u32],
    places: &[u32],
) -> Finding
    requires { Sound columns changes.now ends.now marks.now × (length marks.now ≡ length ends.now) }
    ensures { result ≡ on_page form boxes.now places.now encoding (page_in columns changes.now ends.now) marks.now }
{
    if boxes.len() != 80 {
        return plainly(answer::BAD_FORM);
    }
    if places.len() / 7 < form.places as usize {
        return plainly(answer::BAD_FORM);
    }
    tested(columns, encoding, changes, ends, marks, form, boxes, places)
}
