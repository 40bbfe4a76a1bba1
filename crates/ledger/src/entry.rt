// A page goes into the books with its line, or not at all.
ghost use Rattle.ledger.specs.Entered.{Enters};

use crate::{Entered, Ledger, Verdict, books, said};

// The books behind a page, and its line. Where the books have no room for a page more, or `out` for the line, nothing changes and no
// text is told.
pub fn enter(out: &mut [u8], name: &[u8], v: Verdict, b: Ledger) -> Entered
    ensures { Enters name.now b v out.old result out.new }
{
    if !books::has_room(b, v) || !said::has_room(out.len(), name.len()) {
        return Entered { ledger: b, text: 0 };
    }
    let after = books::book(b, v);
    let text = said::put_line(out, name, v, after);
    Entered {
        ledger: after,
        text,
    }
}
