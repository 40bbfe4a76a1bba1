// Codes that data is held against: how far the data has a code's bits, and whether it has them all.
ghost use Rattle.std.specs.Prelude.{◌^◌, ◌≤◌, ◌<◌};
ghost use Rattle.rules.specs.Bits.{bits_for};
ghost use Rattle.bit_reader.specs.Loaded.{Loading};
ghost use Rattle.writer.specs.Putting.{Sound};
ghost use Rattle.writer.specs.Meeting.{Meets, met_of};

use tables::Code;

// The first bit that was not met. What is met gives the bit after it.
#[derive(Clone, Copy)]
pub(crate) struct Unmet {
    pub(crate) at: usize,
}

// Bit by bit, to the first that differs or the end of the data. The bits that are left of the code fall as the bit of the data rises.
fn by_bits(src: &[u8], at: usize, size: u32, word: u32) -> Result<usize, Unmet>
    requires { Loading src.now at × (size ≤ 13) }
    ensures { Meets src.now at (bits_for size word) (met_of result) }
{
    let mut next = at;
    let mut left = size;
    while 0 < left {
        if 8 * src.len() <= next {
            return Err(Unmet { at: next });
        }
        let due = (word >> (left - 1)) % 2;
        if bit_reader::bit(src, next) as u32 != due {
            return Err(Unmet { at: next });
        }
        next += 1;
        left -= 1;
    }
    Ok(next)
}

// A code at bit `at` of the data; where all its bits are there, they are one number.
pub(crate) fn meet(src: &[u8], at: usize, code: Code) -> Result<usize, Unmet>
    requires { Loading src.now at × Sound code }
    ensures { Meets src.now at (bits_for code.size code.word) (met_of result) }
{
    let end = at + code.size as usize;
    if end <= 8 * src.len() {
        if bit_reader::peek(src, at) >> (32 - code.size) == code.word {
            return Ok(end);
        }
    }
    by_bits(src, at, code.size, code.word)
}
