// A name as HTML has it, so that no byte of it is taken for a mark of the file.
ghost use Rattle.std.specs.Prelude.{◌≡◌, [], ◌∷◌};
ghost use Rattle.listing_text.specs.Writing.{Room, Puts};
ghost use Rattle.look.specs.Escaped.{is_mark, reference, escaped_byte, escaped};

use ledger::{put_line_of, shown_byte};
use listing_text::put::put_byte;

fn is_mark(b: u8) -> bool
    ensures { result ≡ is_mark b }
{
    matches!(b, b'&' | b'<' | b'>' | b'"' | b'\'')
}

// A byte by its number, as `&#38;`.
fn put_reference(out: &mut [u8], at: usize, n: u64) -> usize
    requires { Room out.old at (reference n) }
    ensures { Puts out.old at (reference n) result out.new }
{
    let numbers = [n];
    put_line_of(out, at, b"&#A;", 0, &numbers)
}

fn put_escaped_byte(out: &mut [u8], at: usize, b: u8) -> usize
    requires { Room out.old at (escaped_byte b) }
    ensures { Puts out.old at (escaped_byte b) result out.new }
{
    if is_mark(b) {
        return put_reference(out, at, b as u64);
    }
    put_byte(out, at, shown_byte(b))
}

pub(crate) fn put_escaped(out: &mut [u8], at: usize, name: &[u8]) -> usize
    requires { Room out.old at (escaped name.now) }
    ensures { Puts out.old at (escaped name.now) result out.new }
{
    let mut p = at;
    for b in name {
        p = put_escaped_byte(out, p, *b);
    }
    p
}
