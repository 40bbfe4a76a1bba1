// The steward's number: from a form file and the bytes of a page to the line that is read.
#![tactic(auto)]

mod found;
mod judging;
mod moving;
pub mod reading;
mod showing;
mod tests;

ghost use Rattle.std.specs.Prelude.{◌≡◌};
ghost use Rattle.booking.specs.Booked.{unsound, given, Finds, Books};

use form_file::{Formed, read_form};
pub use judging::judge;
use ledger::{Ledger, Verdict};
use settings::DecodeSettings;
pub use showing::{lies_at, move_form};

// What the tests on a page find: the number of a verdict, the heads where it is 0, and what its words need.
#[derive(Clone, Copy)]
pub(crate) struct Finding {
    number: u32,
    heads: u32,
    which: u32,
    line: u32,
    row: u64,
    count: u64,
    least: u64,
    most: u64,
}

// Where a form lies on a page: how far to the right of the first offset and below it, and whether it fits there.
#[derive(Clone, Copy)]
pub struct Lies {
    pub fits: bool,
    pub across: u32,
    pub down: u32,
}

// What one page came to: the verdict, the books behind it, and how many bytes of text its line has; 0 where it has no room, and the
// page is then in no books.
#[repr(C)]
#[derive(Clone, Copy)]
pub struct Booked {
    pub verdict: Verdict,
    pub ledger: Ledger,
    pub text: usize,
}

// What is wrong with the form is all that is told.
fn unsound(formed: Formed) -> Verdict
    ensures { result ≡ unsound formed }
{
    Verdict {
        number: formed.number,
        heads: 0,
        which: formed.which,
        line: formed.line,
        rows: 0,
        bytes: 0,
        place: 0,
        row: 0,
        count: 0,
        least: 0,
        most: 0,
    }
}

// Form text and page bytes in, a verdict out: what is wrong with the form comes before all else.
pub fn verdict_on(
    text: &[u8],
    src: &[u8],
    how: u32,
    settings: DecodeSettings,
    boxes: &mut [u32],
    places: &mut [u32],
    changes: &mut [u32],
    ends: &mut [u64],
    marks: &mut [u8],
) -> Verdict
    ensures { Finds (given text.now src.now how settings boxes.old places.old changes.old ends.old marks.old) result boxes.new places.new changes.new ends.new marks.new }
{
    let formed = read_form(text, boxes, places);
    if formed.number != answer::COMPLETE {
        return unsound(formed);
    }
    let form = formed.form;
    let read = reading::read_as(how, form, settings);
    judge(src, read, form, boxes, places, changes, ends, marks)
}

// The same, booked, with its line of text.
pub fn book_page(
    text: &[u8],
    src: &[u8],
    how: u32,
    settings: DecodeSettings,
    name: &[u8],
    ledger: Ledger,
    boxes: &mut [u32],
    places: &mut [u32],
    changes: &mut [u32],
    ends: &mut [u64],
    marks: &mut [u8],
    out: &mut [u8],
) -> Booked
    ensures { Books name.now ledger (given text.now src.now how settings boxes.old places.old changes.old ends.old marks.old) out.old result boxes.new places.new changes.new ends.new marks.new out.new }
{
    let verdict = verdict_on(
        text, src, how, settings, boxes, places, changes, ends, marks,
    );
    let entered = ledger::enter(out, name, verdict, ledger);
    let books = entered.ledger;
    Booked {
        verdict,
        ledger: books,
        text: entered.text,
    }
}
