// Calls of the public functions of bit_reader, each with the contract that its promises are about.
ghost use Rattle.std.specs.Prelude.{◌≡◌, ◌+◌, ◌-◌, ◌*◌, ◌/◌, ◌%◌, ◌<◌, ◌≤◌, leb, length, drop};
ghost use Rattle.rules.specs.Bits.{bits_of, peek};
ghost use Rattle.rules.specs.Rows.{bytes_to};
ghost use Rattle.bit_reader.specs.Cursor.{Thirteen, Taking, moved_by, most_bits};
ghost use Rattle.bit_reader.specs.Loaded.{Ahead};

pub fn bit(src: &[u8], at: usize) -> u8
    requires { at < 8 * length src.now }
    ensures { result ≡ peek 1 (drop at (bits_of src.now)) }
{
    bit_reader::bit(src, at)
}

pub fn peek(src: &[u8], at: usize) -> u32
    requires { at ≤ 8 * length src.now }
    ensures { result ≡ peek 32 (drop at (bits_of src.now)) }
{
    bit_reader::peek(src, at)
}

pub fn ahead(src: &[u8], at: usize) -> u64
    requires { at + 64 ≤ 8 * length src.now }
    ensures { Ahead src.now at (64 - at % 8) result }
{
    bit_reader::ahead(src, at)
}

pub fn peek13(src: &[u8], at: usize) -> usize
    requires { at ≤ 8 * length src.now }
    ensures { Thirteen (drop at (bits_of src.now)) result }
{
    bit_reader::peek13(src, at)
}

pub fn consume(len: usize, at: usize, n: usize) -> Option<usize>
    requires { Taking len at n }
    ensures { result ≡ moved_by len at n }
{
    bit_reader::consume(len, at, n)
}

pub fn align(at: usize) -> usize
    requires { at ≤ most_bits }
    ensures { result ≡ bytes_to at * 8 }
{
    bit_reader::align(at)
}

pub fn at_end(len: usize, at: usize) -> bool
    ensures { result ≡ leb (8 * len) at }
{
    bit_reader::at_end(len, at)
}

pub fn byte_pos(at: usize) -> usize
    ensures { result ≡ at / 8 }
{
    bit_reader::byte_pos(at)
}
