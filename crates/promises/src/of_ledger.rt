// Calls of the public functions of ledger, each with the contract that its promises are about.
ghost use Rattle.std.specs.Prelude.{◌≡◌, [], length, get_or};
ghost use Rattle.listing_text.specs.Lines.{lines_of};
ghost use Rattle.listing_text.specs.Writing.{Room, Puts};
ghost use Rattle.ledger.specs.Books.{left, is_below, size, status_of, has_room, booked_in};
ghost use Rattle.ledger.specs.Entered.{Enters};
ghost use Rattle.ledger.specs.Said as Said;
ghost use Rattle.ledger.specs.Said.{fill, shown_byte, reason_with, page_line, reason_line, total_line, Tells};

use ledger::{Entered, Ledger, Verdict};

pub fn enter(out: &mut [u8], name: &[u8], v: Verdict, b: Ledger) -> Entered
    ensures { Enters name.now b v out.old result out.new }
{
    ledger::enter(out, name, v, b)
}

pub fn put_line(out: &mut [u8], name: &[u8], v: Verdict, b: Ledger) -> usize
    ensures { Tells (length name.now) (page_line name.now v b) out.old result out.new }
{
    ledger::put_line(out, name, v, b)
}

pub fn put_total(out: &mut [u8], b: Ledger) -> usize
    ensures { Tells 0 (total_line b) out.old result out.new }
{
    ledger::put_total(out, b)
}

pub fn put_reason(out: &mut [u8], v: Verdict) -> usize
    ensures { Tells 0 (reason_line v) out.old result out.new }
{
    ledger::put_reason(out, v)
}

pub fn numbers(v: Verdict, b: Ledger) -> [u64; 16]
    ensures { result ≡ Said.numbers v b }
{
    ledger::numbers(v, b)
}

pub fn put_line_of(out: &mut [u8], at: usize, text: &[u8], k: usize, numbers: &[u64]) -> usize
    requires { Room out.old at (fill numbers.now (get_or (lines_of text.now) k [])) }
    ensures { Puts out.old at (fill numbers.now (get_or (lines_of text.now) k [])) result out.new }
{
    ledger::put_line_of(out, at, text, k, numbers)
}

pub fn put_words(out: &mut [u8], at: usize, v: Verdict, numbers: &[u64]) -> usize
    requires { Room out.old at (reason_with v numbers.now) }
    ensures { Puts out.old at (reason_with v numbers.now) result out.new }
{
    ledger::put_words(out, at, v, numbers)
}

pub fn unread(number: u32) -> Verdict
    ensures { result ≡ Said.unread number }
{
    ledger::unread(number)
}

pub fn status(b: Ledger) -> u32
    ensures { result ≡ status_of b }
{
    ledger::status(b)
}

pub fn has_room(b: Ledger, v: Verdict) -> bool
    ensures { result ≡ has_room b v }
{
    ledger::has_room(b, v)
}

pub fn book(b: Ledger, v: Verdict) -> Ledger
    ensures { result ≡ booked_in b v }
{
    ledger::book(b, v)
}

pub fn is_passed(b: Ledger) -> bool
    ensures { result ≡ is_below (left b) }
{
    ledger::is_passed(b)
}

pub fn size_left(b: Ledger) -> u64
    ensures { result ≡ size (left b) }
{
    ledger::size_left(b)
}

pub fn shown_byte(b: u8) -> u8
    ensures { result ≡ shown_byte b }
{
    ledger::shown_byte(b)
}
