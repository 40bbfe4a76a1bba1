// The numbers of a form that is moved: by u to the right and `across` back, by v down and `down` back.
ghost use Rattle.std.specs.Prelude.{◌≡◌, ◌+◌, ◌-◌, ◌*◌, ◌≤◌, length};
ghost use Rattle.rules.specs.Pages.{overlaid};
ghost use Rattle.booking.specs.Found.{moved_box, moved_boxes, moved_places, box_inside, boxes_inside, places_inside};
ghost use Rattle.booking.specs.Moving.{Edged, Movable, BoxesMovable, PlacesMovable, is_between};

use crate::tests::box_at;
use heads::Box;

// An edge, moved.
fn moved_edge(x: u32, by: u32, back: u32) -> u32
    requires { Edged x by back }
    ensures { result ≡ x + by - back }
{
    if by < back {
        return x - (back - by);
    }
    x + (by - back)
}

// A box, moved.
pub(crate) fn moved(across: u32, down: u32, u: u32, v: u32, b: Box) -> Box
    requires { Movable across down u v b }
    ensures { result ≡ moved_box across down u v b }
{
    Box {
        left: moved_edge(b.left, u, across),
        right: moved_edge(b.right, u, across),
        top: moved_edge(b.top, v, down),
        bottom: moved_edge(b.bottom, v, down),
    }
}

// Whether two edges, in order, lie moved between 0 and a last one.
fn between(low: u32, high: u32, last: u32, by: u32, back: u32) -> bool
    ensures { result ≡ is_between low high last by back }
{
    let by = by as u64;
    let back = back as u64;
    back <= low as u64 + by && low <= high && high as u64 + by <= last as u64 + back
}

// Whether a box, moved, lies inside a page.
#[tactic(auto, unfolding(crate::specs::Found::box_inside))]
pub(crate) fn inside(
    columns: u32,
    rows: u32,
    across: u32,
    down: u32,
    u: u32,
    v: u32,
    b: Box,
) -> bool
    ensures { result ≡ box_inside across down u v columns rows b }
{
    between(b.left, b.right, columns, u, across) && between(b.top, b.bottom, rows, v, down)
}

pub(crate) fn boxes_inside(
    columns: u32,
    rows: u32,
    across: u32,
    down: u32,
    u: u32,
    v: u32,
    boxes: &[u32],
) -> bool
    requires { length boxes.now ≡ 80 }
    ensures { result ≡ boxes_inside across down u v columns rows boxes.now }
{
    for k in 0..20 {
        if !inside(columns, rows, across, down, u, v, box_at(boxes, 4 * k)) {
            return false;
        }
    }
    true
}

pub(crate) fn places_inside(
    columns: u32,
    rows: u32,
    across: u32,
    down: u32,
    u: u32,
    v: u32,
    places: &[u32],
    count: usize,
) -> bool
    requires { 7 * count ≤ length places.now }
    ensures { result ≡ places_inside across down u v columns rows count places.now }
{
    for k in 0..count {
        if !inside(columns, rows, across, down, u, v, box_at(places, 7 * k + 1)) {
            return false;
        }
    }
    true
}

// The boxes, moved, at the front of what is lent.
pub(crate) fn move_boxes(across: u32, down: u32, u: u32, v: u32, boxes: &[u32], out: &mut [u32])
    requires { BoxesMovable across down u v boxes.now × (80 ≤ length out.old) }
    ensures { out.new ≡ overlaid (moved_boxes across down u v boxes.now) out.old }
{
    for k in 0..20 {
        let b = moved(across, down, u, v, box_at(boxes, 4 * k));
        out[4 * k] = b.left;
        out[4 * k + 1] = b.right;
        out[4 * k + 2] = b.top;
        out[4 * k + 3] = b.bottom;
    }
}

// The places, moved, at the front of what is lent.
pub(crate) fn move_places(
    across: u32,
    down: u32,
    u: u32,
    v: u32,
    places: &[u32],
    count: usize,
    out: &mut [u32],
)
    requires { PlacesMovable across down u v count places.now × (7 * count ≤ length out.old) }
    ensures { out.new ≡ overlaid (moved_places across down u v count places.now) out.old }
{
    for k in 0..count {
        let b = moved(across, down, u, v, box_at(places, 7 * k + 1));
        out[7 * k] = places[7 * k];
        out[7 * k + 1] = b.left;
        out[7 * k + 2] = b.right;
        out[7 * k + 3] = b.top;
        out[7 * k + 4] = b.bottom;
        out[7 * k + 5] = places[7 * k + 5];
        out[7 * k + 6] = places[7 * k + 6];
    }
}
