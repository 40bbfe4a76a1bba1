// Several ledgers one behind the other, added up.
ghost use Rattle.std.specs.Prelude.{◌≡◌, List, ℕ, ◌-◌, ◌≤◌, length};
ghost use Rattle.ledger_file.specs.Sums.{ended, AddsUp};
ghost use Rattle.ledger_file.specs.Tallying.{sum_in, told, Tells};

use crate::AddedUp;
use crate::tally::{Tally, line_taken};
use ledger::Ledger;
use listing_text::text_lines::line_end;

fn answer(number: u32, t: Tally, at: usize, other: usize) -> AddedUp
    ensures { result ≡ told number t.books at other }
{
    let books = t.books;
    AddedUp {
        number,
        ledger: books,
        at,
        other,
    }
}

// The end of the text, behind its last line feed.
fn end_of(at: usize, end: usize, t: Tally) -> AddedUp
    requires { at ≤ end }
    ensures { (line starts : List ℕ) → length line ≡ end - at → Tells (ended at line (sum_in t starts)) result }
{
    let books = t.books;
    let closed = t.closed;
    if at < end {
        return answer(crate::NO_LEDGER_LINE, t, at, 0);
    }
    if books.pages != closed.pages {
        return answer(crate::NO_TOTAL, t, at, 0);
    }
    answer(0, t, at, 0)
}

// The books of all pages of several ledgers, each checked against its total; where the lines of the pages begin goes to `starts`.
pub fn add_up(text: &[u8], quota: i32, starts: &mut [u64]) -> AddedUp
    ensures { AddsUp text.now quota starts.old result starts.new }
{
    let opened = Ledger {
        quota,
        heads: 0,
        pages: 0,
        looked: 0,
    };
    let mut t = Tally {
        books: opened,
        closed: opened,
    };
    let mut at = 0;
    loop {
        let end = line_end(text, at);
        if end == text.len() {
            return end_of(at, end, t);
        }
        let step = line_taken(text, at, end, t, starts);
        match step {
            Ok(next) => t = next,
            Err(wrong) => return answer(wrong.number, t, at, wrong.other),
        }
        at = end + 1;
    }
}
