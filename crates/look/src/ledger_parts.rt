// The ledger, the table's rows, what stands before a picture, and the quota over the day.
ghost use Rattle.std.specs.Prelude.{◌≡◌, true, ◌-◌, ◌≤◌, length};
ghost use Rattle.ledger.specs.Phrases as Phrases;
ghost use Rattle.look.specs.Pieces as Pieces;
ghost use Rattle.look.specs.Pieces.{Tells, licence, plot, bar};

use crate::named::put_named;
use crate::phrases::{
    BAR, BOOKS, CELLS, NOTHING, PLOT, ROW, ROW_END, SECTION, SECTION_CLOSE, SECTION_WORDS, TABLE,
};
use crate::said::tell_with;
use ledger::{Ledger, Verdict, is_passed, size_left};

pub(crate) fn one(b: bool) -> usize
    ensures value { result ≡ Phrases.one b }
    ensures upper_bound { result ≤ 1 }
{
    usize::from(b)
}

// The ledger's numbers, the name of the form, and the head of the table. 0, here and below, where `out` has no room for 24,576 bytes
// beside six for each byte of the name.
pub fn put_top(out: &mut [u8], form: &[u8], b: Ledger) -> usize
    ensures { Tells true (length form.now) (Pieces.top form.now b) out.old result out.new }
{
    let none = ledger::unread(0);
    let ns = ledger::numbers(none, b);
    let first = BOOKS + one(is_passed(b));
    put_named(out, form, none, &ns, first, TABLE, NOTHING)
}

// The row of a page, with the books behind it.
pub fn put_row(out: &mut [u8], name: &[u8], v: Verdict, b: Ledger) -> usize
    ensures { Tells true (length name.now) (Pieces.row name.now v b) out.old result out.new }
{
    let ns = ledger::numbers(v, b);
    let looked = one(v.number != 0);
    let cells = CELLS + (2 * looked + one(is_passed(b)));
    put_named(out, name, v, &ns, ROW + looked, cells, ROW_END)
}

// What stands before the picture of a page.
pub fn put_page(out: &mut [u8], name: &[u8], v: Verdict, b: Ledger) -> usize
    ensures { Tells true (length name.now) (Pieces.page name.now v b) out.old result out.new }
{
    let ns = ledger::numbers(v, b);
    put_named(out, name, v, &ns, SECTION, SECTION_WORDS, SECTION_CLOSE)
}

// The quota at the start, from books in which there is no page yet.
fn licence(quota: i32) -> u64
    ensures { result ≡ licence quota }
{
    let empty = Ledger {
        quota,
        heads: 0,
        pages: 0,
        looked: 0,
    };
    if is_passed(empty) {
        return 0;
    }
    size_left(empty)
}

pub(crate) fn larger(a: u64, b: u64) -> u64
    ensures { result ≡ Pieces.larger a b }
{
    a.max(b)
}

// The head of the plot, or its end, by the books behind all pages.
pub fn put_plot(out: &mut [u8], end: bool, b: Ledger) -> usize
    ensures { Tells true 0 (plot end b) out.old result out.new }
{
    let quota = licence(b.quota);
    let heads = b.heads as u64;
    let high = larger(quota, heads);
    let k = PLOT + 3 * one(end);
    tell_with(out, k, b.pages as u64, high, heads, quota, 0, 0, 0, 0, 0)
}

// The bar of a page, with the books behind it.
pub fn put_bar(out: &mut [u8], v: Verdict, b: Ledger) -> usize
    ensures { Tells true 0 (bar v b) out.old result out.new }
{
    let k = BAR + one(v.number != 0);
    let before = less(b.pages as u64, 1);
    tell_with(out, k, before, b.heads as u64, 0, 0, 0, 0, 0, 0, 0)
}

// A difference; 0 where it would be below.
pub(crate) fn less(a: u64, b: u64) -> u64
    ensures { result ≡ a - b }
{
    a.saturating_sub(b)
}
