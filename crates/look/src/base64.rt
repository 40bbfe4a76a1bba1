// Bytes in base 64, as a picture lies within the file.
ghost use Rattle.std.specs.Prelude.{◌≡◌, [], ◌∷◌, ◌+◌, ◌/◌, ◌<◌};
ghost use Rattle.listing_text.specs.Writing.{Room, Puts};
ghost use Rattle.look.specs.Base64 as Base64;
ghost use Rattle.look.specs.Base64.{base64, Encodes};

use listing_text::put::put_byte;

// The byte of a digit.
fn letter(d: u8) -> u8
    requires { d < 64 }
    ensures { result ≡ Base64.letter d }
{
    if d < 26 {
        return b'A' + d;
    }
    if d < 52 {
        return b'a' + (d - 26);
    }
    if d < 62 {
        return b'0' + (d - 52);
    }
    if d == 62 {
        return b'+';
    }
    b'/'
}

fn put_four(out: &mut [u8], at: usize, a: u8, b: u8, c: u8, d: u8) -> usize
    requires { Room out.old at (a ∷ b ∷ c ∷ d ∷ []) }
    ensures { Puts out.old at (a ∷ b ∷ c ∷ d ∷ []) result out.new }
{
    let p = put_byte(out, at, a);
    let p = put_byte(out, p, b);
    let p = put_byte(out, p, c);
    put_byte(out, p, d)
}

fn put_three(out: &mut [u8], at: usize, a: u8, b: u8, c: u8) -> usize
    requires { Room out.old at (base64 (a ∷ b ∷ c ∷ [])) }
    ensures { Puts out.old at (base64 (a ∷ b ∷ c ∷ [])) result out.new }
{
    let second = letter(a % 4 * 16 + b / 16);
    let third = letter(b % 16 * 4 + c / 64);
    put_four(out, at, letter(a / 4), second, third, letter(c % 64))
}

fn put_two(out: &mut [u8], at: usize, a: u8, b: u8) -> usize
    requires { Room out.old at (base64 (a ∷ b ∷ [])) }
    ensures { Puts out.old at (base64 (a ∷ b ∷ [])) result out.new }
{
    let second = letter(a % 4 * 16 + b / 16);
    let third = letter(b % 16 * 4);
    put_four(out, at, letter(a / 4), second, third, b'=')
}

fn put_one(out: &mut [u8], at: usize, a: u8) -> usize
    requires { Room out.old at (base64 (a ∷ [])) }
    ensures { Puts out.old at (base64 (a ∷ [])) result out.new }
{
    let second = letter(a % 4 * 16);
    put_four(out, at, letter(a / 4), second, b'=', b'=')
}

fn put_all(out: &mut [u8], bytes: &[u8]) -> usize
    requires { Room out.old 0 (base64 bytes.now) }
    ensures { Puts out.old 0 (base64 bytes.now) result out.new }
{
    let n = bytes.len();
    let mut p = 0;
    let mut i = 0;
    while 2 < n - i {
        p = put_three(out, p, bytes[i], bytes[i + 1], bytes[i + 2]);
        i += 3;
    }
    if i == n {
        return p;
    }
    if i + 1 == n {
        return put_one(out, p, bytes[i]);
    }
    put_two(out, p, bytes[i], bytes[i + 1])
}

// How many groups of four digits so many bytes are.
fn groups(n: usize) -> usize
    ensures { result ≡ (n + 2) / 3 }
{
    if n % 3 == 0 {
        return n / 3;
    }
    n / 3 + 1
}

// Bytes in base 64; 0 where `out` has no room for them.
pub fn put_base64(out: &mut [u8], bytes: &[u8]) -> usize
    ensures { Encodes bytes.now out.old result out.new }
{
    if out.len() / 4 < groups(bytes.len()) {
        return 0;
    }
    put_all(out, bytes)
}
