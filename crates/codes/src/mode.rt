// The mode codes of a 2D line, by their leading zeros.
ghost use Rattle.std.specs.Prelude.{◌≡◌, cond, ◌-◌, ◌*◌, ◌≤◌, drop};
ghost use Rattle.rules.specs.Bits.{bit, bits_of, peek};
ghost use Rattle.rules.specs.Modes.{known, unknown, mode_take, read_mode};
ghost use Rattle.bit_reader.specs.Cursor.{Taking};
ghost use Rattle.bit_reader.specs.Loaded.{Loading};
ghost use Rattle.codes.specs.Modes.{kind_of, mode_of};

use crate::Fault;
use answer::DecodeError;

// The offset of a vertical mode is positive to the right.
#[derive(Clone, Copy)]
pub enum Mode {
    Pass,
    Horizontal,
    Vertical(i64),
}

// A mode whose code has `size` bits, where these are there.
fn coded(len: usize, at: usize, size: usize, mode: Mode) -> Result<(Mode, usize), Fault>
    requires { Taking len at size }
    ensures { mode_of result ≡ mode_take (8 * len) at (known (kind_of mode) size) }
{
    match bit_reader::consume(len, at, size) {
        Some(next) => Ok((mode, next)),
        None => Err(Fault::new(DecodeError::UnexpectedEof, at)),
    }
}

// No code has six leading zeros. These six are consumed before the error, so it is another where they are not left.
fn no_mode(len: usize, at: usize) -> Result<(Mode, usize), Fault>
    requires { Taking len at 6 }
    ensures { mode_of result ≡ mode_take (8 * len) at unknown }
{
    match bit_reader::consume(len, at, 6) {
        Some(_) => Err(Fault::new(DecodeError::InvalidCode, at)),
        None => Err(Fault::new(DecodeError::UnexpectedEof, at)),
    }
}

// The offset of a vertical mode, by the bit after the one that ends its zeros.
fn side(bits: u32, zeros: u32, right: i64, left: i64) -> i64
    requires { zeros ≤ 30 }
    ensures { result ≡ cond (bit (30 - zeros) bits) right left }
{
    if (bits >> (30 - zeros)) % 2 == 1 {
        right
    } else {
        left
    }
}

// The mode by the next 32 bits, and the bit after its code.
pub fn by_zeros(src: &[u8], at: usize, bits: u32) -> Result<(Mode, usize), Fault>
    requires { (Loading src.now at) × (bits ≡ peek 32 (drop at (bits_of src.now))) }
    ensures { mode_of result ≡ read_mode (bits_of src.now) at }
{
    let len = src.len();
    match u32::leading_zeros(bits) {
        0 => coded(len, at, 1, Mode::Vertical(0)),
        1 => coded(len, at, 3, Mode::Vertical(side(bits, 1, 1, -1))),
        2 => coded(len, at, 3, Mode::Horizontal),
        3 => coded(len, at, 4, Mode::Pass),
        4 => coded(len, at, 6, Mode::Vertical(side(bits, 4, 2, -2))),
        5 => coded(len, at, 7, Mode::Vertical(side(bits, 5, 3, -3))),
        6.. => no_mode(len, at),
    }
}

// The mode whose code begins at a bit. It is read for the line loop, or alone, for one code by itself (A9): each instance has one caller,
// so that it is compiled in place in the line loop, which feels it.
pub fn read_mode<const ALONE: bool>(src: &[u8], at: usize) -> Result<(Mode, usize), Fault>
    requires { Loading src.now at }
    ensures { mode_of result ≡ read_mode (bits_of src.now) at }
{
    let bits = bit_reader::peek(src, at);
    by_zeros(src, at, bits)
}
