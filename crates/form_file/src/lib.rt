// A form file: what its lines say, whether that is a form, and what is wrong with it.
#![tactic(auto)]

mod heard;
mod said;
mod whole;
pub mod words;

ghost use Rattle.std.specs.Prelude.{◌≡◌};
ghost use Rattle.form_file.specs.FormFile.{Forms, places_for, text_start};
ghost use Rattle.form_file.specs.Going.{Hearable, Leaves, heard_from};

use heard::heard;
use listing_text::text_lines::line_end;
use said::line_says;
use whole::{faulty, whole};

// The numbers of a form: the columns and the rows of its page, the black pixels from which a box is ticked, and from which it is in
// doubt; how many places it has; whether it asks for proper pages alone. And how far it may lie from its place, to either side, and up or
// down.
#[repr(C)]
#[derive(Clone, Copy)]
pub struct Form {
    pub columns: u32,
    pub least: u32,
    pub most: u32,
    pub tick: u32,
    pub doubt: u32,
    pub places: u32,
    pub proper: bool,
    pub across: u32,
    pub down: u32,
}

// A form file that was read: 0 and the form; or what is wrong, with the box and the line that it is about.
#[repr(C)]
#[derive(Clone, Copy)]
pub struct Formed {
    pub number: u32,
    pub which: u32,
    pub line: u32,
    pub form: Form,
}

// How many bytes a form file has at most, how many places, and how many numbers its boxes are.
const MOST_BYTES: usize = 65536;

const MOST_PLACES: usize = 256;

const BOX_NUMBERS: usize = 80;

// How many places a form may have: no more than there is room for.
fn places_for(lent: usize) -> usize
    ensures { result ≡ places_for lent }
{
    if MOST_PLACES < lent / 7 {
        return MOST_PLACES;
    }
    lent / 7
}

// A byte-order mark, as some editors write it in front of a text, is none of it.
fn text_start(text: &[u8]) -> usize
    ensures { result ≡ text_start text.now }
{
    if text.len() < 3 {
        return 0;
    }
    if words::same(&text[0..3], b"\xef\xbb\xbf") {
        return 3;
    }
    0
}

// The lines of a form file, one behind the other.
fn hear(
    text: &[u8],
    from: usize,
    boxes: &mut [u32],
    lines: &mut [u32],
    places: &mut [u32],
) -> Formed
    requires { Hearable text.now from boxes.old lines.old }
    ensures { Leaves (heard_from text.now from boxes.old lines.old places.old) places.old result boxes.new places.new }
{
    let room = places_for(places.len());
    let mut form = Form {
        columns: 0,
        least: 0,
        most: 0,
        tick: 0,
        doubt: 0,
        places: 0,
        proper: false,
        across: 0,
        down: 0,
    };
    let mut line: u32 = 0;
    let mut at = from;
    loop {
        line += 1;
        let end = line_end(text, at);
        let said = line_says(&text[at..end]);
        let went = heard(room, form, line, said, boxes, lines, places);
        match went {
            Ok(next) => form = next,
            Err(fault) => return faulty(fault.number, fault.which, line),
        }
        if end == text.len() {
            return whole(form, boxes, lines, places);
        }
        at = end + 1;
    }
}

// A form file: the twenty boxes go to eighty numbers, and each place to seven of what is lent for places, which keeps the rest.
pub fn read_form(text: &[u8], boxes: &mut [u32], places: &mut [u32]) -> Formed
    ensures { Forms text.now boxes.old places.old result boxes.new places.new }
{
    if boxes.len() != BOX_NUMBERS {
        return faulty(ledger::NO_ROOM_FOR_BOXES, 0, 0);
    }
    if MOST_BYTES < text.len() {
        return faulty(ledger::LONG_FORM, 0, 0);
    }
    let from = text_start(text);
    let mut lines = [0u32; 20];
    hear(text, from, boxes, &mut lines, places)
}
