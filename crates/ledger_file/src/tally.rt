// The lines of ledgers, one more.
ghost use Rattle.std.specs.Prelude.{◌≡◌, List, ℕ, ◌-◌, ◌<◌, length, take, drop};
ghost use Rattle.listing_text.specs.Lines.{LineTo};
ghost use Rattle.ledger_file.specs.Sums.{name_at, page_taken, total_taken, taken};
ghost use Rattle.ledger_file.specs.Tallying.{Tabbed, Standing, sum_in, Gone};

use crate::fields::number_of;
use crate::namesakes::namesake;
use crate::onward::verdict_of;
use crate::page::page_line;
use crate::total::{is_total, total_pages};
use ledger::{Ledger, Verdict};

// The books of all pages so far, and those behind the last total.
#[derive(Clone, Copy)]
pub(crate) struct Tally {
    pub books: Ledger,
    pub closed: Ledger,
}

// What is wrong with a line: its number, and where another line begins that it is about.
#[derive(Clone, Copy)]
pub(crate) struct Wrong {
    pub number: u32,
    pub other: usize,
}

// A page's line, of a name of so many bytes.
fn page_taken(
    text: &[u8],
    at: usize,
    n: usize,
    v: Verdict,
    t: Tally,
    starts: &mut [u64],
) -> Result<Tally, Wrong>
    requires { Standing text.now t.books.pages starts.old × Tabbed text.now at × (n ≡ length (name_at text.now at)) }
    ensures { Gone text.now (page_taken text.now (length starts.old) at v (sum_in t starts.old)) t.books.pages starts.old result starts.new }
{
    let books = t.books;
    let closed = t.closed;
    let count = books.pages as usize;
    if starts.len() <= count {
        return Err(Wrong {
            number: crate::NO_ROOM,
            other: 0,
        });
    }
    let k = namesake(text, at, n, starts, count);
    if k < count {
        return Err(Wrong {
            number: crate::STANDS_TWICE,
            other: starts[k] as usize,
        });
    }
    if !ledger::has_room(books, v) {
        return Err(Wrong {
            number: crate::BOOKS_FULL,
            other: 0,
        });
    }
    starts[count] = at as u64;
    Ok(Tally {
        books: ledger::book(books, v),
        closed,
    })
}

// How many more there are than there were.
fn since(all: u32, before: u32) -> u64
    ensures { result ≡ all - before }
{
    u64::from(all.saturating_sub(before))
}

// A total's line.
fn total_taken(line: &[u8], t: Tally) -> Result<Tally, Wrong>
    ensures { (text starts : List ℕ) → Standing text t.books.pages starts → Gone text (total_taken line.now (sum_in t starts)) t.books.pages starts result starts }
{
    let books = t.books;
    let closed = t.closed;
    if number_of(line, 1) != since(books.looked, closed.looked) {
        return Err(Wrong {
            number: crate::OTHER_TOTAL,
            other: 0,
        });
    }
    if number_of(line, 2) != since(books.heads, closed.heads) {
        return Err(Wrong {
            number: crate::OTHER_TOTAL,
            other: 0,
        });
    }
    if total_pages(line) != since(books.pages, closed.pages) {
        return Err(Wrong {
            number: crate::OTHER_TOTAL,
            other: 0,
        });
    }
    Ok(Tally {
        books,
        closed: books,
    })
}

// The line from a place up to its line feed.
pub(crate) fn line_taken(
    text: &[u8],
    at: usize,
    end: usize,
    t: Tally,
    starts: &mut [u64],
) -> Result<Tally, Wrong>
    requires { LineTo text.now at end × (end < length text.now) × Standing text.now t.books.pages starts.old }
    ensures { Gone text.now (taken text.now (length starts.old) at (take (end - at) (drop at text.now)) (sum_in t starts.old)) t.books.pages starts.old result starts.new }
{
    if is_total(&text[at..end]) {
        return total_taken(&text[at..end], t);
    }
    let p = page_line(&text[at..end]);
    if !p.good {
        return Err(Wrong {
            number: crate::NO_LEDGER_LINE,
            other: 0,
        });
    }
    let v = verdict_of(p.number, p.heads);
    page_taken(text, at, p.name, v, t, starts)
}
