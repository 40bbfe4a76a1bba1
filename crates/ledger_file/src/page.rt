// The line of a page.
ghost use Rattle.std.specs.Prelude.{◌≡◌};
ghost use Rattle.ledger_file.specs.Page.{no_page, page_line_of};

use crate::PageLine;
use crate::fields::{count, is_field, length_of, number_of};
use form_file::words::NONE;

fn no_page() -> PageLine
    ensures { result ≡ no_page }
{
    PageLine {
        good: false,
        name: 0,
        number: 0,
        heads: 0,
    }
}

// What a line says of a page; no page's line where it is none.
pub fn page_line(line: &[u8]) -> PageLine
    ensures { result ≡ page_line_of line.now }
{
    if count(line) != 5 {
        return no_page();
    }
    let number = number_of(line, 1);
    if NONE <= number {
        return no_page();
    }
    let name = length_of(line, 0);
    if number != 0 {
        if !is_field(line, 2, b"-") {
            return no_page();
        }
        return PageLine {
            good: true,
            name,
            number: number as u32,
            heads: 0,
        };
    }
    let heads = number_of(line, 2);
    if NONE <= heads {
        return no_page();
    }
    PageLine {
        good: true,
        name,
        number: 0,
        heads: heads as u32,
    }
}
