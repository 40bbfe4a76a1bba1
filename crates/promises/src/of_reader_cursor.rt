// Calls of the public functions of reader::cursor, each with the contract that its promises are about.
ghost use Rattle.std.specs.Prelude.{◌≡◌, ◌*◌, leb, length, drop};
ghost use Rattle.rules.specs.Bits.{bits_of, peek};
ghost use Rattle.reader.specs.Read.{number_of, went_by, aligned_at};

use reader::cursor::{TakenBits, Went};

pub fn number(answer: TakenBits) -> u32
    ensures { result ≡ number_of answer }
{
    reader::cursor::number(answer)
}

pub fn peek(src: &[u8], at: usize) -> u32
    ensures { result ≡ peek 32 (drop at (bits_of src.now)) }
{
    reader::cursor::peek(src, at)
}

pub fn take(src: &[u8], at: usize, n: usize) -> Went
    ensures { result ≡ went_by (length src.now) at n }
{
    reader::cursor::take(src, at, n)
}

pub fn align(at: usize) -> usize
    ensures { result ≡ aligned_at at }
{
    reader::cursor::align(at)
}

pub fn at_end(src: &[u8], at: usize) -> bool
    ensures { result ≡ leb (8 * length src.now) at }
{
    reader::cursor::at_end(src, at)
}
