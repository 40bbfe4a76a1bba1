// What the lines of a form file say together.
ghost use Rattle.std.specs.Prelude.{◌≡◌, ◌+◌, ◌*◌, ◌≤◌, ◌<◌, length, set};
ghost use Rattle.form_file.specs.Heard as Heard;
ghost use Rattle.form_file.specs.Heard.{set_four, is_shift};
ghost use Rattle.form_file.specs.Going.{Gone, FormGoes, BoxGoes, PlaceGoes, Lent, box_of};
ghost use Rattle.form_file.specs.declared.said.Said.TheVariants.{Square, Page, Tick, Doubt, Place, Proper, Shift};

use crate::Form;
use crate::said::Said;
use heads::Box;

// What is wrong with a line: the number of the fault, and the box that it is about.
#[derive(Clone, Copy)]
pub(crate) struct Fault {
    pub number: u32,
    pub which: u32,
}

fn holds(b: Box) -> bool
    ensures { result ≡ Heard.holds b }
{
    b.left < b.right && b.top < b.bottom
}

fn set_box(numbers: &mut [u32], at: usize, b: Box)
    requires { at + 4 ≤ length numbers.old }
    ensures { numbers.new ≡ set_four numbers.old at b }
{
    numbers[at] = b.left;
    numbers[at + 1] = b.right;
    numbers[at + 2] = b.top;
    numbers[at + 3] = b.bottom;
}

// The seven numbers of a place.
fn set_place(numbers: &mut [u32], at: usize, kind: u32, b: Box, n: u32, line: u32)
    requires { at + 7 ≤ length numbers.old }
    ensures { numbers.new ≡ set (set (set_four (set numbers.old at kind) (at + 1) b) (at + 5) n) (at + 6) line }
{
    numbers[at] = kind;
    set_box(numbers, at + 1, b);
    numbers[at + 5] = n;
    numbers[at + 6] = line;
}

fn heard_box(
    form: Form,
    line: u32,
    which: u32,
    b: Box,
    boxes: &mut [u32],
    lines: &mut [u32],
) -> Result<Form, Fault>
    requires { (length boxes.old ≡ 80) × (length lines.old ≡ 20) × (which < 20) }
    ensures { BoxGoes line form (Square which b) boxes.old lines.old result boxes.new lines.new }
{
    let k = which as usize;
    if lines[k] != 0 {
        return Err(Fault {
            number: ledger::SAID_TWICE,
            which,
        });
    }
    if !holds(b) {
        return Err(Fault {
            number: ledger::BAD_NUMBERS,
            which,
        });
    }
    set_box(boxes, 4 * k, b);
    lines[k] = line;
    Ok(form)
}

fn heard_page(form: Form, columns: u32, least: u32, most: u32) -> Result<Form, Fault>
    ensures { FormGoes form (Page columns least most) result }
{
    if form.columns != 0 {
        return Err(Fault {
            number: ledger::SAID_TWICE,
            which: 0,
        });
    }
    if columns == 0 {
        return Err(Fault {
            number: ledger::BAD_NUMBERS,
            which: 0,
        });
    }
    if least == 0 {
        return Err(Fault {
            number: ledger::BAD_NUMBERS,
            which: 0,
        });
    }
    if most < least {
        return Err(Fault {
            number: ledger::BAD_NUMBERS,
            which: 0,
        });
    }
    Ok(Form {
        columns,
        least,
        most,
        ..form
    })
}

fn heard_tick(form: Form, n: u32) -> Result<Form, Fault>
    ensures { FormGoes form (Tick n) result }
{
    if form.tick != 0 {
        return Err(Fault {
            number: ledger::SAID_TWICE,
            which: 0,
        });
    }
    if n == 0 {
        return Err(Fault {
            number: ledger::BAD_NUMBERS,
            which: 0,
        });
    }
    Ok(Form { tick: n, ..form })
}

fn heard_doubt(form: Form, n: u32) -> Result<Form, Fault>
    ensures { FormGoes form (Doubt n) result }
{
    if form.doubt != 0 {
        return Err(Fault {
            number: ledger::SAID_TWICE,
            which: 0,
        });
    }
    if n == 0 {
        return Err(Fault {
            number: ledger::BAD_NUMBERS,
            which: 0,
        });
    }
    Ok(Form { doubt: n, ..form })
}

fn heard_place(
    room: usize,
    form: Form,
    line: u32,
    kind: u32,
    b: Box,
    n: u32,
    places: &mut [u32],
) -> Result<Form, Fault>
    requires { (7 * room ≤ length places.old) × (room ≤ 256) }
    ensures { PlaceGoes room line form (Place kind b n) places.old result places.new }
{
    let k = form.places as usize;
    if room <= k {
        return Err(Fault {
            number: ledger::TOO_MANY_PLACES,
            which: 0,
        });
    }
    if !holds(b) {
        return Err(Fault {
            number: ledger::BAD_NUMBERS,
            which: 0,
        });
    }
    set_place(places, 7 * k, kind, b, n, line);
    Ok(Form {
        places: form.places + 1,
        ..form
    })
}

fn heard_proper(form: Form) -> Result<Form, Fault>
    ensures { FormGoes form Proper result }
{
    if form.proper {
        return Err(Fault {
            number: ledger::SAID_TWICE,
            which: 0,
        });
    }
    Ok(Form {
        proper: true,
        ..form
    })
}

// Whether a form may lie aside of its place, or above or below it.
pub(crate) fn is_shift(across: u32, down: u32) -> bool
    ensures { result ≡ is_shift across down }
{
    0 < across || 0 < down
}

// How far it may, at most.
const MOST_SHIFT: u32 = 1000;

fn heard_shift(form: Form, across: u32, down: u32) -> Result<Form, Fault>
    ensures { FormGoes form (Shift across down) result }
{
    if is_shift(form.across, form.down) {
        return Err(Fault {
            number: ledger::SAID_TWICE,
            which: 0,
        });
    }
    if !is_shift(across, down) {
        return Err(Fault {
            number: ledger::BAD_NUMBERS,
            which: 0,
        });
    }
    if MOST_SHIFT < across {
        return Err(Fault {
            number: ledger::BAD_NUMBERS,
            which: 0,
        });
    }
    if MOST_SHIFT < down {
        return Err(Fault {
            number: ledger::BAD_NUMBERS,
            which: 0,
        });
    }
    Ok(Form {
        across,
        down,
        ..form
    })
}

// One line more, with its number.
pub(crate) fn heard(
    room: usize,
    form: Form,
    line: u32,
    said: Said,
    boxes: &mut [u32],
    lines: &mut [u32],
    places: &mut [u32],
) -> Result<Form, Fault>
    requires { Lent room form boxes.old lines.old places.old × (box_of said < 20) }
    ensures { Gone room line form said boxes.old lines.old places.old result boxes.new lines.new places.new }
{
    match said {
        Said::Nothing => Ok(form),
        Said::Square(which, b) => heard_box(form, line, which, b, boxes, lines),
        Said::Page(columns, least, most) => heard_page(form, columns, least, most),
        Said::Tick(n) => heard_tick(form, n),
        Said::Doubt(n) => heard_doubt(form, n),
        Said::Place(kind, b, n) => heard_place(room, form, line, kind, b, n, places),
        Said::Proper => heard_proper(form),
        Said::Shift(across, down) => heard_shift(form, across, down),
        Said::Wrong => Err(Fault {
            number: ledger::NO_FORM_LINE,
            which: 0,
        }),
    }
}
