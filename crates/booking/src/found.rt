// A form that has a shift is looked for on the page.
ghost use Rattle.std.specs.Prelude.{◌≡◌, is_ok, true, ℕ, suc, ◌+◌, ◌-◌, ◌*◌, ◌≤◌, ◌<◌, length, take};
ghost use Rattle.heads.specs.Form.{page_in};
ghost use Rattle.heads.specs.Steps.{Good, Sound};
ghost use Rattle.form_file.specs.First.{first_of, count_of};
ghost use Rattle.form_file.specs.Heard.{has_shift};
ghost use Rattle.booking.specs.Testing.{tested_on};
ghost use Rattle.booking.specs.Found as Found;
ghost use Rattle.booking.specs.Found.{found_at, found_behind, looked_for, can_look_for, on_form, fits_at, is_inside, best_from};
ghost use Rattle.booking.specs.Moving.{stands_by, fails_by, Upto, Seekable, Failed};
ghost use Rattle.booking.specs.Moving.{Looking, Lying};

use crate::Finding;
use crate::moving::{boxes_inside, inside, move_boxes, move_places, moved, places_inside};
use crate::tests::{box_at, found, on_page, plainly, tested};
use form_file::Form;
use heads::count::in_box;
use settings::EncodingMode;

// How many places fail, up to a limit, and the last of those.
#[derive(Clone, Copy)]
struct Missed {
    count: u32,
    last: usize,
}

// Whether a place, moved, lies inside the page and is as it must be.
fn stands(
    columns: u32,
    rows: u32,
    changes: &[u32],
    ends: &[u64],
    across: u32,
    down: u32,
    u: u32,
    v: u32,
    places: &[u32],
    k: usize,
) -> bool
    requires { Good columns changes.now ends.now × (7 * k + 7 ≤ length places.now) }
    ensures { (count : ℕ) → k < count → result ≡ stands_by rows count across down u v (page_in columns changes.now ends.now) places.now k }
{
    let b = box_at(places, 7 * k + 1);
    if !inside(columns, rows, across, down, u, v, b) {
        return false;
    }
    let count = in_box(columns, changes, ends, moved(across, down, u, v, b));
    let asked = places[7 * k + 5] as u64;
    if places[7 * k] == 1 {
        return asked <= count;
    }
    count <= asked
}

// How many places fail; no more are counted than are asked for.
fn failing(
    columns: u32,
    rows: u32,
    changes: &[u32],
    ends: &[u64],
    across: u32,
    down: u32,
    u: u32,
    v: u32,
    places: &[u32],
    count: usize,
    limit: u32,
) -> Missed
    requires { Good columns changes.now ends.now × (7 * count ≤ length places.now) }
    ensures { Upto limit (count_of (fails_by rows count across down u v (page_in columns changes.now ends.now) places.now) count 0) result.count }
{
    let mut n: u32 = 0;
    let mut last = 0;
    for k in 0..count {
        if limit <= n {
            return Missed { count: n, last };
        }
        if !stands(columns, rows, changes, ends, across, down, u, v, places, k) {
            n += 1;
            last = k;
        }
    }
    Missed { count: n, last }
}

// Whether the form fits at an offset; where it does not, a place that failed at it or before. The place that failed last is tried first:
// most offsets cost no more than that.
fn fits_at(
    columns: u32,
    rows: u32,
    changes: &[u32],
    ends: &[u64],
    across: u32,
    down: u32,
    boxes: &[u32],
    places: &[u32],
    count: usize,
    i: u32,
    hint: usize,
) -> Result<(), usize>
    requires { Seekable columns rows across count changes.now ends.now boxes.now places.now }
    ensures { is_ok result ≡ fits_at across down count boxes.now places.now (page_in columns changes.now ends.now) i }
{
    let wide = 2 * across + 1;
    let u = i % wide;
    let v = i / wide;
    if hint < count {
        if !stands(
            columns, rows, changes, ends, across, down, u, v, places, hint,
        ) {
            return Err(hint);
        }
    }
    let f = failing(
        columns, rows, changes, ends, across, down, u, v, places, count, 1,
    );
    if f.count != 0 {
        return Err(f.last);
    }
    if !boxes_inside(columns, rows, across, down, u, v, boxes) {
        return Err(hint);
    }
    Ok(())
}

// The first offset that fits; as many as there are, if none does.
pub(crate) fn first_fit(
    columns: u32,
    rows: u32,
    changes: &[u32],
    ends: &[u64],
    across: u32,
    down: u32,
    boxes: &[u32],
    places: &[u32],
    count: usize,
    offsets: u32,
) -> u32
    requires { Seekable columns rows across count changes.now ends.now boxes.now places.now }
    ensures { result ≡ first_of (fits_at across down count boxes.now places.now (page_in columns changes.now ends.now)) offsets 0 }
{
    let mut hint = 0;
    for i in 0..offsets {
        let fit = fits_at(
            columns, rows, changes, ends, across, down, boxes, places, count, i, hint,
        );
        match fit {
            Ok(()) => return i,
            Err(last) => hint = last,
        }
    }
    offsets
}

// How many places fail at an offset that lies inside the page, up to a limit; the limit, where it does not. Most offsets come to the limit by a
// few places, so whether all of the form lies inside is asked last.
fn failing_at(
    columns: u32,
    rows: u32,
    changes: &[u32],
    ends: &[u64],
    across: u32,
    down: u32,
    boxes: &[u32],
    places: &[u32],
    count: usize,
    i: u32,
    limit: u32,
) -> u32
    requires { Seekable columns rows across count changes.now ends.now boxes.now places.now }
    ensures { Failed (is_inside across down count boxes.now places.now (page_in columns changes.now ends.now) i) limit (Found.failing across down count boxes.now places.now (page_in columns changes.now ends.now) i) result }
{
    let wide = 2 * across + 1;
    let u = i % wide;
    let v = i / wide;
    let f = failing(
        columns, rows, changes, ends, across, down, u, v, places, count, limit,
    );
    if limit <= f.count {
        return limit;
    }
    if !boxes_inside(columns, rows, across, down, u, v, boxes) {
        return limit;
    }
    if !places_inside(columns, rows, across, down, u, v, places, count) {
        return limit;
    }
    f.count
}

// The first offset inside the page at which the fewest places fail; as many as there are, if none lies inside.
pub(crate) fn best_fit(
    columns: u32,
    rows: u32,
    changes: &[u32],
    ends: &[u64],
    across: u32,
    down: u32,
    boxes: &[u32],
    places: &[u32],
    count: usize,
    offsets: u32,
) -> u32
    requires { Seekable columns rows across count changes.now ends.now boxes.now places.now }
    ensures { result ≡ best_from across down count boxes.now places.now (page_in columns changes.now ends.now) offsets 0 offsets (suc count) }
{
    let mut best = offsets;
    let mut fewest = count as u32 + 1;
    for i in 0..offsets {
        let n = failing_at(
            columns, rows, changes, ends, across, down, boxes, places, count, i, fewest,
        );
        if n < fewest {
            best = i;
            fewest = n;
        }
    }
    best
}

// What is found at an offset, by the numbers that were moved there: the places are the front of what is lent.
fn tested_front(
    columns: u32,
    encoding: EncodingMode,
    changes: &[u32],
    ends: &[u64],
    marks: &[u8],
    form: Form,
    boxes: &[u32],
    places: &[u32],
    n: usize,
) -> Finding
    requires { Sound columns changes.now ends.now marks.now × (length marks.now ≡ length ends.now) × (80 ≤ length boxes.now) × (7 * form.places ≤ n) × (n ≤ length places.now) }
    ensures { result ≡ tested_on form (take 80 boxes.now) (take n places.now) encoding (page_in columns changes.now ends.now) marks.now }
{
    tested(
        columns,
        encoding,
        changes,
        ends,
        marks,
        form,
        &boxes[..80],
        &places[..n],
    )
}

fn found_in(
    columns: u32,
    encoding: EncodingMode,
    changes: &[u32],
    ends: &[u64],
    marks: &[u8],
    form: Form,
    boxes: &[u32],
    places: &[u32],
    i: u32,
    moved_boxes: &mut [u32],
    moved_places: &mut [u32],
) -> Finding
    requires { Lying columns changes.now ends.now marks.now form boxes.now places.now i × (80 ≤ length moved_boxes.old) × (1792 ≤ length moved_places.old) }
    ensures { result ≡ found_at form boxes.now places.now encoding (page_in columns changes.now ends.now) marks.now i }
{
    let wide = 2 * form.across + 1;
    let u = i % wide;
    let v = i / wide;
    let count = form.places as usize;
    move_boxes(form.across, form.down, u, v, boxes, moved_boxes);
    move_places(form.across, form.down, u, v, places, count, moved_places);
    tested_front(
        columns,
        encoding,
        changes,
        ends,
        marks,
        form,
        moved_boxes,
        moved_places,
        7 * count,
    )
}

fn found_at(
    columns: u32,
    encoding: EncodingMode,
    changes: &[u32],
    ends: &[u64],
    marks: &[u8],
    form: Form,
    boxes: &[u32],
    places: &[u32],
    i: u32,
) -> Finding
    requires { Lying columns changes.now ends.now marks.now form boxes.now places.now i }
    ensures { result ≡ found_at form boxes.now places.now encoding (page_in columns changes.now ends.now) marks.now i }
{
    let mut moved_boxes = [0u32; 80];
    let mut moved_places = [0u32; 1792];
    found_in(
        columns,
        encoding,
        changes,
        ends,
        marks,
        form,
        boxes,
        places,
        i,
        &mut moved_boxes,
        &mut moved_places,
    )
}

// Whether the form fits at an offset, and other heads are found there, or none; where it does not, or the same are, a place that failed
// at it or before.
fn differs(
    columns: u32,
    rows: u32,
    encoding: EncodingMode,
    changes: &[u32],
    ends: &[u64],
    marks: &[u8],
    form: Form,
    boxes: &[u32],
    places: &[u32],
    heads: u32,
    i: u32,
    hint: usize,
) -> Result<(), usize>
    requires { Looking columns rows changes.now ends.now marks.now form boxes.now places.now }
    ensures { is_ok result ≡ Found.differs form boxes.now places.now encoding (page_in columns changes.now ends.now) marks.now heads i }
{
    let count = form.places as usize;
    fits_at(
        columns,
        rows,
        changes,
        ends,
        form.across,
        form.down,
        boxes,
        places,
        count,
        i,
        hint,
    )?;
    let f = found_at(
        columns, encoding, changes, ends, marks, form, boxes, places, i,
    );
    if f.number != answer::COMPLETE {
        return Ok(());
    }
    if f.heads != heads {
        return Ok(());
    }
    Err(hint)
}

// The first offset from one on that fits and differs; as many as there are, if none does.
fn other_fit(
    columns: u32,
    rows: u32,
    encoding: EncodingMode,
    changes: &[u32],
    ends: &[u64],
    marks: &[u8],
    form: Form,
    boxes: &[u32],
    places: &[u32],
    heads: u32,
    from: u32,
    offsets: u32,
) -> u32
    requires { Looking columns rows changes.now ends.now marks.now form boxes.now places.now }
    ensures { result ≡ first_of (Found.differs form boxes.now places.now encoding (page_in columns changes.now ends.now) marks.now heads) (offsets - from) from }
{
    let f = form;
    let e = encoding;
    let mut hint = 0;
    for i in from..offsets {
        let t = differs(
            columns, rows, e, changes, ends, marks, f, boxes, places, heads, i, hint,
        );
        match t {
            Ok(()) => return i,
            Err(last) => hint = last,
        }
    }
    offsets.max(from)
}

// Behind the first offset that fits and counts: another may tell otherwise.
fn found_behind(
    columns: u32,
    rows: u32,
    encoding: EncodingMode,
    changes: &[u32],
    ends: &[u64],
    marks: &[u8],
    form: Form,
    boxes: &[u32],
    places: &[u32],
    first: Finding,
    i: u32,
    offsets: u32,
) -> Finding
    requires { Looking columns rows changes.now ends.now marks.now form boxes.now places.now × (offsets ≡ Found.offsets form.across form.down) × (i < offsets) × (first ≡ found_at form boxes.now places.now encoding (page_in columns changes.now ends.now) marks.now i) }
    ensures { result ≡ found_behind form boxes.now places.now encoding (page_in columns changes.now ends.now) marks.now i }
{
    let j = other_fit(
        columns,
        rows,
        encoding,
        changes,
        ends,
        marks,
        form,
        boxes,
        places,
        first.heads,
        i + 1,
        offsets,
    );
    if offsets <= j {
        return first;
    }
    let f = found_at(
        columns, encoding, changes, ends, marks, form, boxes, places, j,
    );
    if f.number != answer::COMPLETE {
        return f;
    }
    found(
        ledger::OTHER_TICKS,
        0,
        0,
        0,
        0,
        first.heads as u64,
        f.heads as u64,
    )
}

fn looked_for(
    columns: u32,
    rows: u32,
    encoding: EncodingMode,
    changes: &[u32],
    ends: &[u64],
    marks: &[u8],
    form: Form,
    boxes: &[u32],
    places: &[u32],
) -> Finding
    requires { Looking columns rows changes.now ends.now marks.now form boxes.now places.now }
    ensures { result ≡ looked_for form boxes.now places.now encoding (page_in columns changes.now ends.now) marks.now }
{
    let across = form.across;
    let down = form.down;
    let count = form.places as usize;
    let offsets = (2 * across + 1) * (2 * down + 1);
    let i = first_fit(
        columns, rows, changes, ends, across, down, boxes, places, count, offsets,
    );
    if i < offsets {
        let f = found_at(
            columns, encoding, changes, ends, marks, form, boxes, places, i,
        );
        if f.number != answer::COMPLETE {
            return f;
        }
        return found_behind(
            columns, rows, encoding, changes, ends, marks, form, boxes, places, f, i, offsets,
        );
    }
    let i = best_fit(
        columns, rows, changes, ends, across, down, boxes, places, count, offsets,
    );
    if offsets <= i {
        return plainly(answer::BAD_FORM);
    }
    found_at(
        columns, encoding, changes, ends, marks, form, boxes, places, i,
    )
}

// Whether the boxes and the places are there, no more of them than a form file has, and the shift is one that it may have.
#[tactic(auto, unfolding(crate::specs::Found::can_look_for))]
pub(crate) fn can_look_for(form: Form, boxes: &[u32], places: &[u32]) -> bool
    ensures { result ≡ can_look_for form boxes.now places.now }
{
    boxes.len() == 80
        && form.places as usize <= places.len() / 7
        && form.places <= 256
        && form.across <= 1000
        && form.down <= 1000
}

pub(crate) fn has_shift(form: Form) -> bool
    ensures { result ≡ has_shift form }
{
    0 < form.across || 0 < form.down
}

// A form without a shift lies at its place.
pub(crate) fn on_form(
    columns: u32,
    rows: u32,
    encoding: EncodingMode,
    changes: &[u32],
    ends: &[u64],
    marks: &[u8],
    form: Form,
    boxes: &[u32],
    places: &[u32],
) -> Finding
    requires { Sound columns changes.now ends.now marks.now × (length marks.now ≡ length ends.now) × (rows ≡ length ends.now) }
    ensures { result ≡ on_form form boxes.now places.now encoding (page_in columns changes.now ends.now) marks.now }
{
    if !has_shift(form) {
        return on_page(columns, encoding, changes, ends, marks, form, boxes, places);
    }
    if !can_look_for(form, boxes, places) {
        return plainly(answer::BAD_FORM);
    }
    looked_for(
        columns, rows, encoding, changes, ends, marks, form, boxes, places,
    )
}
