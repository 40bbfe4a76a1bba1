// b1 and b2 on the changes of the reference line (`update_b` of context.rs), and the test that a row of changes ascends.
ghost use Rattle.std.specs.Prelude.{◌≡◌, ◌≤◌, ◌<◌, drop};
ghost use Rattle.rules.specs.Lines.{right_of_a0, head_or};
ghost use Rattle.rules.specs.Pages.{ascends};
ghost use Rattle.tables.specs.Tables.{colour_of};
ghost use Rattle.context.specs.Reference.{Passed, Stopped, Searches, Finds, b1_place};
ghost use Rattle.context.specs.Places.{B1At};
ghost use Rattle.context.specs.Coding.{is_kept};

// Where the next search goes on, and the two changes, each the width where it is absent.
#[derive(Clone, Copy)]
pub struct FoundChanges {
    pub seen: usize,
    pub b1: u32,
    pub b2: u32,
}

// Where the reference lies: in a slice of its own, or in the row's array, from a place to the row's first. As an `Option` it would say
// less: its variants name the two places.
#[derive(Clone, Copy)]
pub enum Reference {
    Lent,
    Kept(usize),
}

pub fn is_kept(place: Reference) -> bool
    ensures { result ≡ is_kept place }
{
    match place {
        Reference::Lent => false,
        Reference::Kept(_) => true,
    }
}

// a0 lies before the line while the position is 0, so that only there b1 may be 0.
fn right_of_a0(position: u32) -> u32
    requires { position < 4294967295 }
    ensures { result ≡ right_of_a0 position }
{
    if position == 0 {
        return 0;
    }
    position + 1
}

// The place of the first change at or right of `least`. It goes on from `seen`, so a line's searches are linear together.
fn scan(reference: &[u32], seen: usize, least: u32) -> usize
    requires { Passed least seen reference.now }
    ensures { Stopped least result reference.now }
{
    let end = reference.len();
    for place in seen..end {
        if least <= reference[place] {
            return place;
        }
    }
    end
}

// Changes at even places turn black: b1 under white, which is 0, has an even place, under black an odd one.
fn b1_place(seen: usize, colour: u32) -> usize
    requires { (seen < 9223372036854775808) × (colour ≤ 1) }
    ensures { result ≡ b1_place seen (colour_of colour) }
{
    if seen % 2 == colour as usize {
        return seen;
    }
    seen + 1
}

// The change at a place, or the width where there is none.
pub fn change_or(row: &[u32], place: usize, width: u32) -> u32
    ensures { result ≡ head_or width (drop place row.now) }
{
    if place < row.len() {
        return row[place];
    }
    width
}

// b1 and b2 for a position and its colour; the search starts where the one before it stopped.
pub fn find(reference: &[u32], seen: usize, width: u32, position: u32, colour: u32) -> FoundChanges
    requires { Searches reference.now seen width position colour }
    ensures { Finds reference.now width position (colour_of colour) result }
{
    let stop = scan(reference, seen, right_of_a0(position));
    let place = b1_place(stop, colour);
    FoundChanges {
        seen: stop,
        b1: change_or(reference, place, width),
        b2: change_or(reference, place + 1, width),
    }
}

// The place of b1 alone.
pub fn b1_from(reference: &[u32], seen: usize, width: u32, position: u32, colour: u32) -> usize
    requires { Searches reference.now seen width position colour }
    ensures { B1At reference.now position colour result }
{
    let stop = scan(reference, seen, right_of_a0(position));
    b1_place(stop, colour)
}

// Whether a row ascends strictly below a width, as test 8 asks: each change lies right of the one before it, and the last, which is then
// the greatest, below the width. The loop only notes, so that the compiler may look at several changes at once.
pub fn ascends(row: &[u32], width: u32) -> bool
    ensures { result ≡ ascends width row.now }
{
    let count = row.len();
    if count == 0 {
        return true;
    }
    if width <= row[count - 1] {
        return false;
    }
    let mut rising = true;
    for place in 1..count {
        if row[place] <= row[place - 1] {
            rising = false;
        }
    }
    rising
}
