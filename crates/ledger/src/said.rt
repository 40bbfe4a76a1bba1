// The line of a page and the total's: phrases with their numbers.
ghost use Rattle.std.specs.Prelude.{◌≡◌, [], ◌∷◌, ◌-◌, pos, length, get_or};
ghost use Rattle.listing_text.specs.Writing.{Room, Puts};
ghost use Rattle.listing_text.specs.Listed.{Prints};
ghost use Rattle.listing_text.specs.Lines.{lines_of};
ghost use Rattle.ledger.specs.Balance.{opened};
ghost use Rattle.ledger.specs.Phrases.{phrase};
ghost use Rattle.ledger.specs.Said as Said;
ghost use Rattle.ledger.specs.Said.{is_letter, fill, shown_byte, shown, total_at, reason_with};
ghost use Rattle.ledger.specs.Said.{line_of, page_line, reason_line, total_line, no_verdict, line_room, Tells};

use crate::phrases::{ALONE, one, phrases, reason_at};
use crate::quota::{is_passed, size_left};
use crate::{Ledger, Verdict};
use listing_text::put::{put_byte, put_number};
use listing_text::text_lines::{line_end, line_start};

// A line has at most so many bytes beside its name.
const LINE_ROOM: usize = 512;

// What the letters stand for, that of A first.
pub fn numbers(v: Verdict, b: Ledger) -> [u64; 16]
    ensures { result ≡ Said.numbers v b }
{
    [
        v.number as u64,
        v.place / 8,
        v.count,
        (v.which / 2) as u64,
        v.place % 8,
        v.line as u64,
        counted_pages(b.pages, b.looked),
        v.heads as u64,
        b.heads as u64,
        v.rows,
        b.looked as u64,
        v.least,
        v.most,
        size_left(b),
        v.row,
        b.pages as u64,
    ]
}

fn counted_pages(pages: u32, looked: u32) -> u64
    ensures { result ≡ pages - looked }
{
    u64::from(pages.saturating_sub(looked))
}

fn number_at(numbers: &[u64], k: usize) -> u64
    ensures { result ≡ get_or numbers.now k 0 }
{
    if k < numbers.len() { numbers[k] } else { 0 }
}

fn is_letter(b: u8) -> bool
    ensures { result ≡ is_letter b }
{
    b'A' <= b && b <= b'Z'
}

// A byte of a template.
fn put_piece(out: &mut [u8], at: usize, b: u8, numbers: &[u64]) -> usize
    requires { Room out.old at (fill numbers.now (b ∷ [])) }
    ensures { Puts out.old at (fill numbers.now (b ∷ [])) result out.new }
{
    if is_letter(b) {
        return put_number(out, at, number_at(numbers, usize::from(b - b'A')));
    }
    put_byte(out, at, b)
}

fn put_filled(out: &mut [u8], at: usize, template: &[u8], numbers: &[u64]) -> usize
    requires { Room out.old at (fill numbers.now template.now) }
    ensures { Puts out.old at (fill numbers.now template.now) result out.new }
{
    let mut p = at;
    for b in template {
        p = put_piece(out, p, *b, numbers);
    }
    p
}

// A line of a text that is templates, with its numbers: the one loop behind every phrase.
pub fn put_line_of(out: &mut [u8], at: usize, text: &[u8], k: usize, numbers: &[u64]) -> usize
    requires { Room out.old at (fill numbers.now (get_or (lines_of text.now) k [])) }
    ensures { Puts out.old at (fill numbers.now (get_or (lines_of text.now) k [])) result out.new }
{
    let from = line_start(text, k);
    let end = line_end(text, from);
    put_filled(out, at, &text[from..end], numbers)
}

fn put_phrase(out: &mut [u8], at: usize, k: usize, numbers: &[u64]) -> usize
    requires { Room out.old at (fill numbers.now (phrase k)) }
    ensures { Puts out.old at (fill numbers.now (phrase k)) result out.new }
{
    let text = phrases();
    put_line_of(out, at, &text, k, numbers)
}

fn total_at(b: Ledger) -> usize
    ensures { result ≡ total_at b }
{
    4 + 2 * one(b.pages == 1) + one(is_passed(b))
}

// The reason of a page that is to be looked at.
pub fn put_words(out: &mut [u8], at: usize, v: Verdict, numbers: &[u64]) -> usize
    requires { Room out.old at (reason_with v numbers.now) }
    ensures { Puts out.old at (reason_with v numbers.now) result out.new }
{
    if v.number == 0 {
        return at;
    }
    put_phrase(out, at, reason_at(v), numbers)
}

// A byte of a name as it is shown.
pub fn shown_byte(b: u8) -> u8
    ensures { result ≡ shown_byte b }
{
    if b < 32 || b == 127 { b'?' } else { b }
}

fn put_name(out: &mut [u8], at: usize, name: &[u8]) -> usize
    requires { Room out.old at (shown name.now) }
    ensures { Puts out.old at (shown name.now) result out.new }
{
    let mut p = at;
    for b in name {
        p = put_byte(out, p, shown_byte(*b));
    }
    p
}

fn put_parts(out: &mut [u8], name: &[u8], v: Verdict, k: usize, ns: &[u64]) -> usize
    requires { Room out.old 0 (line_of name.now v ns.now k) }
    ensures { Prints out.old (line_of name.now v ns.now k) result out.new }
{
    let p = put_name(out, 0, name);
    let p = put_phrase(out, p, k, ns);
    let p = put_words(out, p, v, ns);
    put_byte(out, p, b'\n')
}

pub(crate) fn has_room(out: usize, name: usize) -> bool
    ensures { result ≡ line_room name out }
{
    LINE_ROOM <= out && name <= out - LINE_ROOM
}

// With its numbers.
fn put_known(out: &mut [u8], name: &[u8], v: Verdict, k: usize, ns: &[u64]) -> usize
    ensures { Tells (length name.now) (line_of name.now v ns.now k) out.old result out.new }
{
    if !has_room(out.len(), name.len()) {
        return 0;
    }
    put_parts(out, name, v, k, ns)
}

// The line of a page, with the books behind it; 0 where `out` has no room for 512 bytes beside the name.
pub fn put_line(out: &mut [u8], name: &[u8], v: Verdict, b: Ledger) -> usize
    ensures { Tells (length name.now) (page_line name.now v b) out.old result out.new }
{
    let ns = numbers(v, b);
    let k = 2 * one(v.number != 0) + one(is_passed(b));
    put_known(out, name, v, k, &ns)
}

fn no_books() -> Ledger
    ensures { result ≡ opened (pos 0) }
{
    Ledger {
        quota: 0,
        heads: 0,
        pages: 0,
        looked: 0,
    }
}

// What the letters stand for in a reason alone: the verdict's numbers, and no books'.
fn reason_numbers(v: Verdict) -> [u64; 16]
    ensures { result ≡ Said.numbers v (opened (pos 0)) }
{
    numbers(v, no_books())
}

// The reason of a verdict alone, for what is said of no page; 0 where `out` has no room for 512 bytes.
pub fn put_reason(out: &mut [u8], v: Verdict) -> usize
    ensures { Tells 0 (reason_line v) out.old result out.new }
{
    let ns = reason_numbers(v);
    let k = ALONE + one(v.number == 0);
    put_known(out, b"", v, k, &ns)
}

// The verdict on a page whose file cannot be used, since there is nothing else to say of it.
pub fn unread(number: u32) -> Verdict
    ensures { result ≡ Said.unread number }
{
    Verdict {
        number,
        heads: 0,
        which: 0,
        line: 0,
        rows: 0,
        bytes: 0,
        place: 0,
        row: 0,
        count: 0,
        least: 0,
        most: 0,
    }
}

fn put_total_line(out: &mut [u8], b: Ledger, ns: &[u64]) -> usize
    requires { Room out.old 0 (total_line b) × (ns.now ≡ Said.numbers no_verdict b) }
    ensures { Prints out.old (total_line b) result out.new }
{
    let p = put_phrase(out, 0, total_at(b), ns);
    put_byte(out, p, b'\n')
}

fn put_known_total(out: &mut [u8], b: Ledger, ns: &[u64]) -> usize
    requires { ns.now ≡ Said.numbers no_verdict b }
    ensures { Tells 0 (total_line b) out.old result out.new }
{
    if !has_room(out.len(), 0) {
        return 0;
    }
    put_total_line(out, b, ns)
}

// What the letters stand for in the total's line: no verdict's numbers, and the books'.
fn total_numbers(b: Ledger) -> [u64; 16]
    ensures { result ≡ Said.numbers no_verdict b }
{
    numbers(unread(0), b)
}

// The total's line; 0 where `out` has no room for 512 bytes.
pub fn put_total(out: &mut [u8], b: Ledger) -> usize
    ensures { Tells 0 (total_line b) out.old result out.new }
{
    let ns = total_numbers(b);
    put_known_total(out, b, &ns)
}
