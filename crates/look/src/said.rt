// A phrase with its numbers, behind a line feed: the piece that most of the file is made of.
ghost use Rattle.std.specs.Prelude.{◌≡◌, true, [], ◌∷◌};
ghost use Rattle.listing_text.specs.Writing.{Room, Puts};
ghost use Rattle.ledger.specs.Said.{fill};
ghost use Rattle.look.specs.Phrases.{phrase};
ghost use Rattle.look.specs.Pieces.{said, room_for, Tells, part};

use crate::phrases::phrases;
use ledger::put_line_of;
use listing_text::put::put_byte;

// A piece has at most so many bytes beside its name, and a byte of the name becomes at most six.
const PIECE_ROOM: usize = 24576;

pub(crate) fn put_phrase(out: &mut [u8], at: usize, k: usize, numbers: &[u64]) -> usize
    requires { Room out.old at (fill numbers.now (phrase k)) }
    ensures { Puts out.old at (fill numbers.now (phrase k)) result out.new }
{
    let text = phrases();
    put_line_of(out, at, &text, k, numbers)
}

pub(crate) fn put_said(out: &mut [u8], k: usize, numbers: &[u64]) -> usize
    requires { Room out.old 0 (said numbers.now k) }
    ensures { Puts out.old 0 (said numbers.now k) result out.new }
{
    let p = put_byte(out, 0, b'\n');
    put_phrase(out, p, k, numbers)
}

pub(crate) fn has_room(out: usize, name: usize) -> bool
    ensures { result ≡ room_for name out }
{
    PIECE_ROOM <= out && name <= (out - PIECE_ROOM) / 6
}

pub(crate) fn tell(out: &mut [u8], k: usize, numbers: &[u64]) -> usize
    ensures { Tells true 0 (said numbers.now k) out.old result out.new }
{
    if !has_room(out.len(), 0) {
        return 0;
    }
    put_said(out, k, numbers)
}

// The numbers by themselves, that of A first.
pub(crate) fn tell_with(
    out: &mut [u8],
    k: usize,
    a: u64,
    b: u64,
    c: u64,
    d: u64,
    e: u64,
    f: u64,
    g: u64,
    h: u64,
    i: u64,
) -> usize
    ensures { Tells true 0 (said (a ∷ b ∷ c ∷ d ∷ e ∷ f ∷ g ∷ h ∷ i ∷ []) k) out.old result out.new }
{
    let numbers = [a, b, c, d, e, f, g, h, i];
    tell(out, k, &numbers)
}

// A part of the file that has no numbers; lib.rt names those that there are.
pub fn put_part(out: &mut [u8], k: usize) -> usize
    ensures { Tells true 0 (part k) out.old result out.new }
{
    tell_with(out, k, 0, 0, 0, 0, 0, 0, 0, 0, 0)
}
