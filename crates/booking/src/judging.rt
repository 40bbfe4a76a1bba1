// The verdict on the bytes of a page.
ghost use Rattle.std.specs.Prelude.{◌≡◌, not, ◌&&◌, take};
ghost use Rattle.heads.specs.Form.{page_in};
ghost use Rattle.ledger.specs.Verdicts.{other_rows, other_columns, unfit_form};
ghost use Rattle.booking.specs.Tests.{finding};
ghost use Rattle.booking.specs.Steps.{Stored, Held, Looks, held_in, on_rows, verdict_by};
ghost use Rattle.booking.specs.Verdict.{fits, judged, Judges};

use crate::Finding;
use crate::found::on_form;
use crate::tests::{found, plainly};
use answer::Answer;
use form_file::Form;
use ledger::Verdict;
use proper::Checked;
use settings::DecodeSettings;

// A range of rows and no places fit no reading but an exact one.
fn fits(form: Form, settings: DecodeSettings) -> bool
    ensures { result ≡ fits form settings }
{
    settings.exact || form.least == form.most || 0 < form.places
}

fn unfit(form: Form) -> Finding
    ensures { result ≡ finding unfit_form 0 0 0 0 form.least form.most }
{
    found(
        ledger::UNFIT_FORM,
        0,
        0,
        0,
        0,
        form.least as u64,
        form.most as u64,
    )
}

// Other columns than the form says.
fn other_columns(columns: u32, form: Form) -> Finding
    ensures { result ≡ finding other_columns 0 0 0 columns form.columns 0 }
{
    found(
        ledger::OTHER_COLUMNS,
        0,
        0,
        0,
        columns as u64,
        form.columns as u64,
        0,
    )
}

// More rows than the form says, or fewer.
fn other_rows(rows: u64, form: Form) -> Finding
    ensures { result ≡ finding other_rows 0 0 0 rows form.least form.most }
{
    found(
        ledger::OTHER_ROWS,
        0,
        0,
        0,
        rows,
        form.least as u64,
        form.most as u64,
    )
}

// Not proper, where the form asks for that.
fn is_improper(form: Form, proper: bool) -> bool
    ensures { result ≡ (form.proper && not proper) }
{
    form.proper && !proper
}

// What the tests find on a page that is as wide as the form's, to the last byte.
fn on_rows(
    settings: DecodeSettings,
    rows: u64,
    proper: bool,
    parts: u64,
    changes: &[u32],
    ends: &[u64],
    marks: &[u8],
    form: Form,
    boxes: &[u32],
    places: &[u32],
) -> Finding
    requires { Stored rows settings.columns changes.now ends.now marks.now }
    ensures { result ≡ on_rows form boxes.now places.now settings.encoding proper parts (page_in settings.columns changes.now (take rows ends.now)) (take rows marks.now) }
{
    if rows < form.least as u64 {
        return other_rows(rows, form);
    }
    if (form.most as u64) < rows {
        return other_rows(rows, form);
    }
    if is_improper(form, proper) {
        return found(ledger::NOT_PROPER, 0, 0, 0, parts, 0, 0);
    }
    let n = rows as usize;
    let encoding = settings.encoding;
    on_form(
        settings.columns,
        rows as u32,
        encoding,
        changes,
        &ends[..n],
        &marks[..n],
        form,
        boxes,
        places,
    )
}

// The tests in their order. What the reading itself answers comes before what the page is.
fn judged(
    size: usize,
    settings: DecodeSettings,
    checked: Checked,
    changes: &[u32],
    ends: &[u64],
    marks: &[u8],
    form: Form,
    boxes: &[u32],
    places: &[u32],
) -> Finding
    requires { Held size settings.columns checked.answer changes.now ends.now marks.now }
    ensures { result ≡ judged form boxes.now places.now settings size checked.gave_up checked.proper checked.parts (held_in checked.answer changes.now ends.now marks.now) }
{
    let read = checked.answer;
    if !fits(form, settings) {
        return unfit(form);
    }
    if read.number != answer::COMPLETE {
        return found(read.number, 0, 0, read.rows + 1, 0, 0, 0);
    }
    if settings.columns != form.columns {
        return other_columns(settings.columns, form);
    }
    let bytes = read.bytes as usize;
    if bytes < size {
        return found(ledger::BYTES_BEHIND, 0, 0, 0, (size - bytes) as u64, 0, 0);
    }
    if checked.gave_up {
        return plainly(ledger::GAVE_UP);
    }
    on_rows(
        settings,
        read.rows,
        checked.proper,
        checked.parts,
        changes,
        ends,
        marks,
        form,
        boxes,
        places,
    )
}

// What was found, with the rows, the bytes and the place of the reading.
fn verdict_of(read: Answer, f: Finding) -> Verdict
    ensures { result ≡ verdict_by read f }
{
    Verdict {
        number: f.number,
        heads: f.heads,
        which: f.which,
        line: f.line,
        rows: read.rows,
        bytes: read.bytes,
        place: read.place,
        row: f.row,
        count: f.count,
        least: f.least,
        most: f.most,
    }
}

// A page into the lent arrays. Only where that is asked is it held against what a writer writes for its rows, in a second pass over it.
fn read_page(
    asked: bool,
    src: &[u8],
    settings: DecodeSettings,
    changes: &mut [u32],
    ends: &mut [u64],
    marks: &mut [u8],
) -> Checked
    ensures { Looks asked src.now settings changes.old ends.old marks.old result changes.new ends.new marks.new }
{
    if asked {
        return proper::check(src, settings, changes, ends, marks);
    }
    let watched = ccitt::decode_watched(src, settings, changes, ends, marks);
    let read = watched.answer;
    Checked {
        answer: read,
        parts: 0,
        gave_up: watched.gave_up,
        proper: false,
    }
}

// The verdict on the bytes of a page, by a form that was read. The page is read into the lent arrays.
pub fn judge(
    src: &[u8],
    settings: DecodeSettings,
    form: Form,
    boxes: &[u32],
    places: &[u32],
    changes: &mut [u32],
    ends: &mut [u64],
    marks: &mut [u8],
) -> Verdict
    ensures { Judges form boxes.now places.now settings src.now changes.old ends.old marks.old result changes.new ends.new marks.new }
{
    let checked = read_page(form.proper, src, settings, changes, ends, marks);
    let f = judged(
        src.len(),
        settings,
        checked,
        changes,
        ends,
        marks,
        form,
        boxes,
        places,
    );
    verdict_of(checked.answer, f)
}
