// Calls of the public functions of booking, each with the contract that its promises are about.
ghost use Rattle.std.specs.Prelude.{◌≡◌};
ghost use Rattle.booking.specs.Showing.{lies_at, Moves};
ghost use Rattle.booking.specs.Verdict.{Judges};
ghost use Rattle.booking.specs.Booked.{given, Finds, Books};

use booking::{Booked, Lies};
use form_file::Form;
use ledger::{Ledger, Verdict};
use settings::DecodeSettings;

pub fn judge(
    src: &[u8],
    settings: DecodeSettings,
    form: Form,
    boxes: &[u32],
    places: &[u32],
    changes: &mut [u32],
    ends: &mut [u64],
    marks: &mut [u8],
) -> Verdict
    ensures { Judges form boxes.now places.now settings src.now changes.old ends.old marks.old result changes.new ends.new marks.new }
{
    booking::judge(src, settings, form, boxes, places, changes, ends, marks)
}

pub fn verdict_on(
    text: &[u8],
    src: &[u8],
    how: u32,
    settings: DecodeSettings,
    boxes: &mut [u32],
    places: &mut [u32],
    changes: &mut [u32],
    ends: &mut [u64],
    marks: &mut [u8],
) -> Verdict
    ensures { Finds (given text.now src.now how settings boxes.old places.old changes.old ends.old marks.old) result boxes.new places.new changes.new ends.new marks.new }
{
    booking::verdict_on(
        text, src, how, settings, boxes, places, changes, ends, marks,
    )
}

pub fn book_page(
    text: &[u8],
    src: &[u8],
    how: u32,
    settings: DecodeSettings,
    name: &[u8],
    ledger: Ledger,
    boxes: &mut [u32],
    places: &mut [u32],
    changes: &mut [u32],
    ends: &mut [u64],
    marks: &mut [u8],
    out: &mut [u8],
) -> Booked
    ensures { Books name.now ledger (given text.now src.now how settings boxes.old places.old changes.old ends.old marks.old) out.old result boxes.new places.new changes.new ends.new marks.new out.new }
{
    booking::book_page(
        text, src, how, settings, name, ledger, boxes, places, changes, ends, marks, out,
    )
}

pub fn lies_at(
    columns: u32,
    changes: &[u32],
    ends: &[u64],
    form: Form,
    boxes: &[u32],
    places: &[u32],
) -> Lies
    ensures { result ≡ lies_at columns changes.now ends.now form boxes.now places.now }
{
    booking::lies_at(columns, changes, ends, form, boxes, places)
}

pub fn move_form(
    form: Form,
    rows: u32,
    across: u32,
    down: u32,
    boxes: &[u32],
    places: &[u32],
    moved_boxes: &mut [u32],
    moved_places: &mut [u32],
) -> bool
    ensures { Moves form rows across down boxes.now places.now moved_boxes.old moved_places.old result moved_boxes.new moved_places.new }
{
    booking::move_form(
        form,
        rows,
        across,
        down,
        boxes,
        places,
        moved_boxes,
        moved_places,
    )
}
