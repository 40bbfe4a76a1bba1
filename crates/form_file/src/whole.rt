// Whether what the lines of a form file say is a form.
ghost use Rattle.std.specs.Prelude.{not, [], ◌≡◌, ◌+◌, ◌*◌, ◌≤◌, ◌<◌, eqb, length, get_or};
ghost use Rattle.heads.specs.Numbers.{box_in};
ghost use Rattle.form_file.specs.First.{first_of};
ghost use Rattle.form_file.specs.FormFile as FormFile;
ghost use Rattle.form_file.specs.FormFile.{box_at, first_missing};
ghost use Rattle.form_file.specs.Going.{heard_in, within, Roomy};

use crate::heard::is_shift;
use crate::{Form, Formed};
use heads::Box;

// What is missing, where it is no box; and what stands for no box.
const NO_PAGE: u32 = 20;

const NO_TICK: u32 = 21;

const NO_PLACE: u32 = 22;

const NOTHING_MISSING: u32 = 23;

const NO_BOX: u32 = 20;

pub(crate) fn faulty(number: u32, which: u32, line: u32) -> Formed
    ensures { result ≡ FormFile.faulty number which line }
{
    Formed {
        number,
        which,
        line,
        form: Form {
            columns: 0,
            least: 0,
            most: 0,
            tick: 0,
            doubt: 0,
            places: 0,
            proper: false,
            across: 0,
            down: 0,
        },
    }
}

// The first box that no line says; 20 where each is said.
fn first_unsaid(lines: &[u32]) -> u32
    requires { length lines.now ≡ 20 }
    ensures { result ≡ first_of (λ k. eqb (get_or lines.now k 0) 0) 20 0 }
{
    for k in 0..20 {
        if lines[k as usize] == 0 {
            return k;
        }
    }
    20
}

fn first_missing(form: Form, lines: &[u32]) -> u32
    requires { length lines.now ≡ 20 }
    ensures { result ≡ first_missing (heard_in form [] lines.now []) }
{
    if form.columns == 0 {
        return NO_PAGE;
    }
    if form.tick == 0 {
        return NO_TICK;
    }
    let k = first_unsaid(lines);
    if k < 20 {
        return k;
    }
    if form.places != 0 {
        return NOTHING_MISSING;
    }
    if is_shift(form.across, form.down) {
        return NO_PLACE;
    }
    NOTHING_MISSING
}

fn box_at(numbers: &[u32], at: usize) -> Box
    requires { at + 4 ≤ length numbers.now }
    ensures { result ≡ box_in numbers.now at }
{
    Box {
        left: numbers[at],
        right: numbers[at + 1],
        top: numbers[at + 2],
        bottom: numbers[at + 3],
    }
}

fn inside(columns: u32, least: u32, b: Box) -> bool
    ensures { result ≡ within columns least b }
{
    b.right <= columns && b.bottom <= least
}

fn apart(a: Box, b: Box) -> bool
    ensures { result ≡ FormFile.apart a b }
{
    a.right <= b.left || b.right <= a.left || a.bottom <= b.top || b.bottom <= a.top
}

fn box_outside(columns: u32, least: u32, boxes: &[u32]) -> usize
    requires { length boxes.now ≡ 80 }
    ensures { result ≡ first_of (λ k. not (within columns least (box_at boxes.now k))) 20 0 }
{
    for k in 0..20 {
        if !inside(columns, least, box_at(boxes, 4 * k)) {
            return k;
        }
    }
    20
}

fn overlaps(boxes: &[u32], which: usize) -> bool
    requires { (length boxes.now ≡ 80) × (which < 20) }
    ensures { result ≡ FormFile.overlaps boxes.now which }
{
    let b = box_at(boxes, 4 * which);
    for k in 0..which {
        if !apart(box_at(boxes, 4 * k), b) {
            return true;
        }
    }
    false
}

fn box_over(boxes: &[u32]) -> usize
    requires { length boxes.now ≡ 80 }
    ensures { result ≡ first_of (FormFile.overlaps boxes.now) 20 0 }
{
    for k in 0..20 {
        if overlaps(boxes, k) {
            return k;
        }
    }
    20
}

fn place_outside(columns: u32, least: u32, count: usize, places: &[u32]) -> usize
    requires { 7 * count ≤ length places.now }
    ensures { result ≡ first_of (λ k. not (within columns least (box_in places.now (7 * k + 1)))) count 0 }
{
    for k in 0..count {
        if !inside(columns, least, box_at(places, 7 * k + 1)) {
            return k;
        }
    }
    count
}

fn doubted(form: Form) -> Form
    ensures { result ≡ FormFile.doubted form }
{
    let doubt = if form.doubt == 0 {
        form.tick
    } else {
        form.doubt
    };
    Form { doubt, ..form }
}

// Behind the last line. The boxes and places that are tested are those that were heard.
pub(crate) fn whole(form: Form, boxes: &[u32], lines: &[u32], places: &[u32]) -> Formed
    requires { Roomy boxes.now lines.now places.now form.places }
    ensures { result ≡ FormFile.whole (heard_in form boxes.now lines.now places.now) }
{
    let lacks = first_missing(form, lines);
    if lacks != NOTHING_MISSING {
        return faulty(ledger::MISSING_LINE, lacks, 0);
    }
    if form.tick < form.doubt {
        return faulty(ledger::BAD_NUMBERS, 0, 0);
    }
    let k = box_outside(form.columns, form.least, boxes);
    if k < 20 {
        return faulty(ledger::OUTSIDE_PAGE, k as u32, lines[k]);
    }
    let k = box_over(boxes);
    if k < 20 {
        return faulty(ledger::OVERLAPPING, k as u32, lines[k]);
    }
    let count = form.places as usize;
    let k = place_outside(form.columns, form.least, count, places);
    if k < count {
        return faulty(ledger::OUTSIDE_PAGE, NO_BOX, places[7 * k + 6]);
    }
    let form = doubted(form);
    Formed {
        number: 0,
        which: 0,
        line: 0,
        form,
    }
}
