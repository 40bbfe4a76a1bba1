// The bit reader of bit_reader.rs. The cursor is the offset of a bit in the data, a number that callers carry.
#![tactic(auto)]

pub mod buffer;
mod word;
pub mod zeros;

ghost use Rattle.std.specs.Prelude.{◌≡◌, ◌+◌, ◌-◌, ◌*◌, ◌/◌, ◌%◌, ◌<◌, ◌≤◌, leb, length, drop};
ghost use Rattle.rules.specs.Bits.{bits_of, peek};
ghost use Rattle.rules.specs.Rows.{bytes_to};
ghost use Rattle.bit_reader.specs.Cursor.{Thirteen, Taking, moved_by, most_bits};
ghost use Rattle.bit_reader.specs.Loaded.{Ahead};

// The bit at an offset.
pub fn bit(src: &[u8], at: usize) -> u8
    requires { at < 8 * length src.now }
    ensures { result ≡ peek 1 (drop at (bits_of src.now)) }
{
    let byte = src[at / 8];
    (byte >> (7 - at % 8)) % 2
}

// The next 32 bits, zeros past the data. Here and below the word is shifted to the right: before a shift to the left the compiler drops
// the bytes that it sees are not used, and then loads the others one by one.
pub fn peek(src: &[u8], at: usize) -> u32
    requires { at ≤ 8 * length src.now }
    ensures { result ≡ peek 32 (drop at (bits_of src.now)) }
{
    ((word::word(src, at / 8) >> (32 - at % 8)) % 0x1_0000_0000) as u32
}

// The next bits, 57 of them at least, the first one on top, and zeros behind them. The data has 64 there, so that no end is tested.
pub fn ahead(src: &[u8], at: usize) -> u64
    requires { at + 64 ≤ 8 * length src.now }
    ensures { Ahead src.now at (64 - at % 8) result }
{
    word::fast(src, at / 8) << (at % 8)
}

// The next 13 bits, as many as the longest code of a run.
pub fn peek13(src: &[u8], at: usize) -> usize
    requires { at ≤ 8 * length src.now }
    ensures { Thirteen (drop at (bits_of src.now)) result }
{
    ((word::word(src, at / 8) >> (51 - at % 8)) % 8192) as usize
}

// `n` bits on, in data of `len` bytes; none past its end, which is the crate's `UnexpectedEof` and leaves its reader there.
pub fn consume(len: usize, at: usize, n: usize) -> Option<usize>
    requires { Taking len at n }
    ensures { result ≡ moved_by len at n }
{
    let next = at + n;
    if next <= 8 * len {
        return Some(next);
    }
    None
}

// The next byte's first bit, or `at` itself where it is one. The data ends with a byte, so this stays inside it.
pub fn align(at: usize) -> usize
    requires { at ≤ most_bits }
    ensures { result ≡ bytes_to at * 8 }
{
    (at + 7) / 8 * 8
}

// Whether a bit lies past the data.
pub fn at_end(len: usize, at: usize) -> bool
    ensures { result ≡ leb (8 * len) at }
{
    len <= byte_pos(at)
}

// The byte in which a bit lies.
pub fn byte_pos(at: usize) -> usize
    ensures { result ≡ at / 8 }
{
    at / 8
}
