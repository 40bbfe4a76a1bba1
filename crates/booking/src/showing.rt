// Where a form lies on a page, for a program that shows it, and its numbers there.
ghost use Rattle.std.specs.Prelude.{◌≡◌, ◌&&◌, ◌/◌, ◌%◌, ◌≤◌, leb, length};
ghost use Rattle.row_store.specs.Store.{good_rows};
ghost use Rattle.heads.specs.Form.{page_in};
ghost use Rattle.form_file.specs.Heard.{has_shift};
ghost use Rattle.booking.specs.Found.{can_look_for};
ghost use Rattle.booking.specs.Moving.{Seekable};
ghost use Rattle.booking.specs.Showing.{lies_still, lies_by, lies_on, lies_at, can_move, Moves};

use crate::Lies;
use crate::found::{best_fit, can_look_for, first_fit, has_shift};
use crate::moving::{boxes_inside, move_boxes, move_places, places_inside};
use form_file::Form;

// The most rows that 32 bits count.
const MOST_ROWS: usize = 4294967295;

// At its place.
fn lies_still(form: Form) -> Lies
    ensures { result ≡ lies_still form }
{
    Lies {
        fits: false,
        across: form.across,
        down: form.down,
    }
}

// At an offset.
fn lies_by(fits: bool, wide: u32, i: u32) -> Lies
    requires { 1 ≤ wide }
    ensures { result ≡ lies_by fits (i % wide) (i / wide) }
{
    Lies {
        fits,
        across: i % wide,
        down: i / wide,
    }
}

// At the first offset that fits, or at the one that comes next to that.
fn lies_on(
    columns: u32,
    rows: u32,
    changes: &[u32],
    ends: &[u64],
    form: Form,
    boxes: &[u32],
    places: &[u32],
) -> Lies
    requires { Seekable columns rows form.across form.places changes.now ends.now boxes.now places.now × (form.down ≤ 1000) }
    ensures { result ≡ lies_on form boxes.now places.now (page_in columns changes.now ends.now) }
{
    let across = form.across;
    let down = form.down;
    let count = form.places as usize;
    let wide = 2 * across + 1;
    let offsets = wide * (2 * down + 1);
    let i = first_fit(
        columns, rows, changes, ends, across, down, boxes, places, count, offsets,
    );
    if i < offsets {
        return lies_by(true, wide, i);
    }
    let i = best_fit(
        columns, rows, changes, ends, across, down, boxes, places, count, offsets,
    );
    if i < offsets {
        return lies_by(false, wide, i);
    }
    lies_still(form)
}

// Whether a form can be looked for: it has a shift, and all of it is there.
fn is_sought(form: Form, boxes: &[u32], places: &[u32]) -> bool
    ensures { result ≡ (has_shift form && can_look_for form boxes.now places.now) }
{
    has_shift(form) && can_look_for(form, boxes, places)
}

// Whether a store's rows are in order, and no more than 32 bits count.
fn is_listed(columns: u32, changes: &[u32], ends: &[u64]) -> bool
    ensures { result ≡ (leb (length ends.now) 4294967295 && good_rows columns changes.now 0 ends.now) }
{
    ends.len() <= MOST_ROWS && row_store::ascend(columns, changes, ends)
}

// Where a form lies on the page in a store: how far to the right and down of the first offset, which lies `across` to the left of its
// place and `down` above it; and whether it fits there. Without a shift, or where the store is no page, it lies at its place.
pub fn lies_at(
    columns: u32,
    changes: &[u32],
    ends: &[u64],
    form: Form,
    boxes: &[u32],
    places: &[u32],
) -> Lies
    ensures { result ≡ lies_at columns changes.now ends.now form boxes.now places.now }
{
    if !is_sought(form, boxes, places) {
        return lies_still(form);
    }
    if !is_listed(columns, changes, ends) {
        return lies_still(form);
    }
    lies_on(
        columns,
        ends.len() as u32,
        changes,
        ends,
        form,
        boxes,
        places,
    )
}

// Whether the numbers of a form are there, room for them is lent, and it lies inside its page where it is moved to.
#[tactic(auto, unfolding(crate::specs::Showing::can_move))]
fn can_move(
    form: Form,
    rows: u32,
    u: u32,
    v: u32,
    boxes: &[u32],
    places: &[u32],
    box_room: usize,
    place_room: usize,
) -> bool
    ensures { result ≡ can_move form rows u v boxes.now places.now box_room place_room }
{
    let count = form.places as usize;
    boxes.len() == 80
        && count <= places.len() / 7
        && 80 <= box_room
        && count <= place_room / 7
        && boxes_inside(form.columns, rows, form.across, form.down, u, v, boxes)
        && places_inside(
            form.columns,
            rows,
            form.across,
            form.down,
            u,
            v,
            places,
            count,
        )
}

// The numbers of a form at an offset, as `lies_at` tells it, at the front of what is lent for its boxes and its places. False, and nothing
// is moved, where it would lie outside a page of its columns and so many rows, or where numbers or room are missing.
pub fn move_form(
    form: Form,
    rows: u32,
    across: u32,
    down: u32,
    boxes: &[u32],
    places: &[u32],
    moved_boxes: &mut [u32],
    moved_places: &mut [u32],
) -> bool
    ensures { Moves form rows across down boxes.now places.now moved_boxes.old moved_places.old result moved_boxes.new moved_places.new }
{
    let count = form.places as usize;
    if !can_move(
        form,
        rows,
        across,
        down,
        boxes,
        places,
        moved_boxes.len(),
        moved_places.len(),
    ) {
        return false;
    }
    move_boxes(form.across, form.down, across, down, boxes, moved_boxes);
    move_places(
        form.across,
        form.down,
        across,
        down,
        places,
        count,
        moved_places,
    );
    true
}
