// Text into a lent array of bytes: each function writes from a place on, and answers the place behind.
ghost use Rattle.std.specs.Prelude.{◌≡◌, [], ◌∷◌, ◌<◌};
ghost use Rattle.listing_text.specs.Text.{tab, digit, decimal};
ghost use Rattle.listing_text.specs.Writing.{Room, Puts};

pub fn put_byte(out: &mut [u8], at: usize, b: u8) -> usize
    requires { Room out.old at (b ∷ []) }
    ensures { Puts out.old at (b ∷ []) result out.new }
{
    out[at] = b;
    at + 1
}

pub(crate) fn put_text(out: &mut [u8], at: usize, text: &[u8]) -> usize
    requires { Room out.old at text.now }
    ensures { Puts out.old at text.now result out.new }
{
    let mut p = at;
    for b in text {
        p = put_byte(out, p, *b);
    }
    p
}

fn glyph(d: u64) -> u8
    requires { d < 10 }
    ensures { result ≡ digit d }
{
    b'0' + d as u8
}

pub fn put_number(out: &mut [u8], at: usize, n: u64) -> usize
    requires { Room out.old at (decimal n) }
    ensures { Puts out.old at (decimal n) result out.new }
{
    if n < 10 {
        return put_byte(out, at, glyph(n));
    }
    let p = put_number(out, at, n / 10);
    put_byte(out, p, glyph(n % 10))
}

pub(crate) fn put_field(out: &mut [u8], at: usize, n: u64) -> usize
    requires { Room out.old at (tab ∷ decimal n) }
    ensures { Puts out.old at (tab ∷ decimal n) result out.new }
{
    let p = put_byte(out, at, b'\t');
    put_number(out, p, n)
}
