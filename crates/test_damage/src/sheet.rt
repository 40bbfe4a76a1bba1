// Booking forms that were filled in, as rows of changes: two columns of ten boxes with a frame, and a tick in some of them
// (examples/README.md has the measures).
ghost use Rattle.std.specs.Prelude.{◌≤◌};

use crate::damage::Damage;

pub(crate) const COLUMNS: u32 = 1728;

const ROWS: u32 = 400;

// No page here has as many rows.
const LINES: u32 = 1000;

// No box of the column is ticked, or no second one.
const NO_DIGIT: u32 = 10;

// Where the frames of the two columns of boxes begin, and the row in which the first of them does.
const TENS: u32 = 200;

const UNITS: u32 = 700;

const TOP: u32 = 76;

// How far one box lies below another; how wide and how high a box is with its frame, and how thick that is.
const PITCH: u32 = 31;

const WIDE: u32 = 26;

const HIGH: u32 = 24;

const FRAME: u32 = 2;

// A tick stands in these rows of a box, is so wide, and begins right of this column at the least; it goes one to the side every two rows.
const TICK_TOP: u32 = 3;

const TICK_ROWS: u32 = 18;

const PEN: u32 = 3;

const TICK_LEFT: u32 = 3;

// How many places a tick may have.
const PLACES: u32 = 8;

// How far a form that is looked for may lie from its place: to either side, and up or down. Its page has as many rows more at the most.
const ACROSS: u32 = 4;

const DOWN: u32 = 6;

// A form: the digits that are ticked, and those that are ticked beside them; where the ticks stand, and whether they lean to the left;
// how many rows it has, and the first of them that is another than it was, where a row was lost or doubled; how many rows it lies lower
// or higher than its place, how many columns right of the leftmost that it may have, and how many white rows its page has below.
#[derive(Clone, Copy)]
pub(crate) struct Filled {
    pub(crate) tens: u32,
    pub(crate) units: u32,
    pub(crate) tens_too: u32,
    pub(crate) units_too: u32,
    pub(crate) across: u32,
    pub(crate) leans: bool,
    pub(crate) rows: u32,
    pub(crate) turn: u32,
    pub(crate) lower: u32,
    pub(crate) higher: u32,
    pub(crate) aside: u32,
    pub(crate) below: u32,
}

// One change more, where there is room for it; where the next one goes.
fn add(changes: &mut [u32], at: usize, place: u32) -> usize {
    if at < changes.len() {
        changes[at] = place;
        return at + 1;
    }
    at
}

fn span(changes: &mut [u32], at: usize, from: u32, to: u32) -> usize {
    let next = add(changes, at, from);
    add(changes, next, to)
}

// A row of a tick, `k` rows below the top of its box.
fn tick(left: u32, k: u32, across: u32, leans: bool, changes: &mut [u32], at: usize) -> usize
    requires { left ≤ 1000 }
{
    if k < TICK_TOP {
        return at;
    }
    let down = k - TICK_TOP;
    if TICK_ROWS <= down {
        return at;
    }
    let aside = if leans { TICK_ROWS - 1 - down } else { down };
    let from = left + TICK_LEFT + across % PLACES + aside / 2;
    span(changes, at, from, from + PEN)
}

// A row of a box, `k` rows below its top: the frame from side to side, or its two sides and what lies between them.
fn box_row(
    left: u32,
    k: u32,
    ticked: bool,
    across: u32,
    leans: bool,
    changes: &mut [u32],
    at: usize,
) -> usize
    requires { left ≤ 1000 }
{
    let right = left + WIDE;
    if k < FRAME || HIGH - FRAME <= k {
        return span(changes, at, left, right);
    }
    let inside = span(changes, at, left, left + FRAME);
    if ticked {
        let behind = tick(left, k, across, leans, changes, inside);
        return span(changes, behind, right - FRAME, right);
    }
    span(changes, inside, right - FRAME, right)
}

fn is_one(digit: u32, one: u32, other: u32) -> bool {
    digit == one || digit == other
}

// A row of the two boxes of a digit.
fn boxes_row(form: Filled, digit: u32, k: u32, changes: &mut [u32], at: usize) -> usize {
    let tens = is_one(digit, form.tens, form.tens_too);
    let units = is_one(digit, form.units, form.units_too);
    let aside = form.aside % (2 * ACROSS + 1);
    let behind = box_row(
        TENS - ACROSS + aside,
        k,
        tens,
        form.across,
        form.leans,
        changes,
        at,
    );
    box_row(
        UNITS - ACROSS + aside,
        k,
        units,
        form.across,
        form.leans,
        changes,
        behind,
    )
}

// A row of a form on which nothing was lost: boxes, or white.
fn row(form: Filled, y: u32, changes: &mut [u32], at: usize) -> usize {
    if y < TOP {
        return at;
    }
    let digit = (y - TOP) / PITCH;
    let k = (y - TOP) % PITCH;
    if NO_DIGIT <= digit || HIGH <= k {
        return at;
    }
    boxes_row(form, digit, k, changes, at)
}

// Which row of a form stands in a row of its page: above and below it the page is white, as the form's first row is.
fn row_there(form: Filled, y: u32) -> u32 {
    if y < form.lower {
        return 0;
    }
    let k = y - form.lower;
    if ROWS < k {
        return 0;
    }
    k + form.higher % PITCH
}

// Which row that is of the form before its turn: from there on the next one, where a row was lost, and the one before, where one was
// doubled.
fn row_for(form: Filled, y: u32) -> u32 {
    let there = row_there(form, y);
    if there < form.turn {
        return there;
    }
    if form.rows < ROWS && there < ROWS {
        return there + 1;
    }
    if ROWS < form.rows && 0 < there {
        return there - 1;
    }
    there
}

fn put_end(ends: &mut [u64], y: usize, at: usize) {
    if y < ends.len() {
        ends[y] = at as u64;
    }
}

// Draws a form from the top down.
pub(crate) fn draw(form: Filled, rows: u32, changes: &mut [u32], ends: &mut [u64]) {
    let mut at: usize = 0;
    for y in 0..rows {
        at = row(form, row_for(form, y), changes, at);
        put_end(ends, y as usize, at);
    }
}

// One digit behind another, in a circle.
fn turned(digit: u32, by: u32) -> u32 {
    (digit % 10 + 1 + by % 9) % 10
}

// A form for so many heads. The number says where its ticks stand.
fn sheet_for(heads: u32, number: u32) -> Filled {
    Filled {
        tens: heads / 10 % 10,
        units: heads % 10,
        tens_too: NO_DIGIT,
        units_too: NO_DIGIT,
        across: number % PLACES,
        leans: number % 3 == 0,
        rows: ROWS,
        turn: 0,
        lower: 0,
        higher: 0,
        aside: ACROSS,
        below: 0,
    }
}

// The same, away from its place; the number says where.
fn sheet_aside(heads: u32, number: u32) -> Filled {
    let down = number / 9 % (2 * DOWN + 1);
    Filled {
        higher: DOWN.saturating_sub(down),
        lower: down.saturating_sub(DOWN),
        aside: number % (2 * ACROSS + 1),
        below: number / 5 % (DOWN + 1),
        ..sheet_for(heads, number)
    }
}

// How many rows its page has.
pub(crate) fn height(form: Filled) -> u32 {
    form.rows % LINES + form.below % LINES
}

// A form as it is drawn for a damage; a second number, drawn for it, says where.
pub(crate) fn drawn_for(damage: Damage, aside: bool, heads: u32, number: u32, lot: u32) -> Filled {
    let form = if aside {
        sheet_aside(heads, number)
    } else {
        sheet_for(heads, number)
    };
    let is_tens = lot % 2 == 0;
    match damage {
        Damage::RowLost => Filled {
            rows: ROWS - 1,
            turn: lot % ROWS,
            ..form
        },
        Damage::RowDoubled => Filled {
            rows: ROWS + 1,
            turn: 1 + lot % ROWS,
            ..form
        },
        Damage::Slid => Filled {
            lower: form.lower % PITCH + PITCH,
            ..form
        },
        Damage::SecondTick if is_tens => Filled {
            tens_too: turned(form.tens, lot / 2),
            ..form
        },
        Damage::SecondTick => Filled {
            units_too: turned(form.units, lot / 2),
            ..form
        },
        Damage::NoTick if is_tens => Filled {
            tens: NO_DIGIT,
            ..form
        },
        Damage::NoTick => Filled {
            units: NO_DIGIT,
            ..form
        },
        _ => form,
    }
}
