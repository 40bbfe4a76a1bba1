// A run that goes on behind a ledger that it finds.
ghost use Rattle.std.specs.Prelude.{◌≡◌, ◌≤◌, length};
ghost use Rattle.listing_text.specs.Listed.{Prints};
ghost use Rattle.form_file.specs.Words as Words;
ghost use Rattle.ledger.specs.Said.{shown};
ghost use Rattle.ledger_file.specs.Fields.{field};
ghost use Rattle.ledger_file.specs.Resume.{left_text, verdict_of, unresumed, resumed};

use crate::Resumed;
use crate::fields::{field_end, is_field};
use crate::page::page_line;
use ledger::{Ledger, Verdict};
use listing_text::put::{put_byte, put_number};

// Whether a line's first field is a name, as it is shown.
pub(crate) fn is_named(line: &[u8], name: &[u8]) -> bool
    ensures { result ≡ Words.same (field 0 line.now) (shown name.now) }
{
    if field_end(line, 0) != name.len() {
        return false;
    }
    for i in 0..name.len() {
        if line[i] != ledger::shown_byte(name[i]) {
            return false;
        }
    }
    true
}

// The quota left, as a line says it.
fn put_left(out: &mut [u8], b: Ledger) -> usize
    requires { 32 ≤ length out.old }
    ensures { Prints out.old (left_text b) result out.new }
{
    let size = ledger::size_left(b);
    if ledger::is_passed(b) {
        let p = put_byte(out, 0, b'-');
        return put_number(out, p, size);
    }
    put_number(out, 0, size)
}

// Whether a line says that so much of the quota is left.
fn says_left(line: &[u8], b: Ledger) -> bool
    ensures { result ≡ Words.same (field 3 line.now) (left_text b) }
{
    let mut text = [0u8; 32];
    let n = put_left(&mut text, b);
    is_field(line, 3, &text[0..n])
}

// What the books take from a page.
pub(crate) fn verdict_of(number: u32, heads: u32) -> Verdict
    ensures { result ≡ verdict_of number heads }
{
    Verdict {
        number,
        heads,
        which: 0,
        line: 0,
        rows: 0,
        bytes: 0,
        place: 0,
        row: 0,
        count: 0,
        least: 0,
        most: 0,
    }
}

fn stays(b: Ledger) -> Resumed
    ensures { result ≡ unresumed b }
{
    Resumed {
        good: false,
        ledger: b,
    }
}

// The books behind a page that was judged before, where its line is the one that is due.
pub fn resume(line: &[u8], name: &[u8], b: Ledger) -> Resumed
    ensures { result ≡ resumed line.now name.now b }
{
    let p = page_line(line);
    let v = verdict_of(p.number, p.heads);
    if !p.good {
        return stays(b);
    }
    if !is_named(line, name) {
        return stays(b);
    }
    if !ledger::has_room(b, v) {
        return stays(b);
    }
    let after = ledger::book(b, v);
    if !says_left(line, after) {
        return stays(b);
    }
    Resumed {
        good: true,
        ledger: after,
    }
}
