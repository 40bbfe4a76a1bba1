// A piece that has a name and a page's words in it, with three phrases around these.
ghost use Rattle.std.specs.Prelude.{true, length};
ghost use Rattle.listing_text.specs.Writing.{Room};
ghost use Rattle.listing_text.specs.Listed.{Prints};
ghost use Rattle.look.specs.Pieces.{named, Tells};

use crate::escaped::put_escaped;
use crate::said::{has_room, put_phrase, put_said};
use ledger::{Verdict, put_words};

fn put_parts(
    out: &mut [u8],
    name: &[u8],
    v: Verdict,
    numbers: &[u64],
    first: usize,
    middle: usize,
    last: usize,
) -> usize
    requires { Room out.old 0 (named name.now v numbers.now first middle last) }
    ensures { Prints out.old (named name.now v numbers.now first middle last) result out.new }
{
    let p = put_said(out, first, numbers);
    let p = put_escaped(out, p, name);
    let p = put_phrase(out, p, middle, numbers);
    let p = put_words(out, p, v, numbers);
    put_phrase(out, p, last, numbers)
}

pub(crate) fn put_named(
    out: &mut [u8],
    name: &[u8],
    v: Verdict,
    numbers: &[u64],
    first: usize,
    middle: usize,
    last: usize,
) -> usize
    ensures { Tells true (length name.now) (named name.now v numbers.now first middle last) out.old result out.new }
{
    if !has_room(out.len(), name.len()) {
        return 0;
    }
    put_parts(out, name, v, numbers, first, middle, last)
}
