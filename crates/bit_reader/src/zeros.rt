// Zeros, counted by the word.
ghost use Rattle.std.specs.Prelude.{◌≡◌, ◌*◌, length, drop};
ghost use Rattle.rules.specs.Bits.{bits_of};
ghost use Rattle.rules.specs.Eols.{zero_run};
ghost use Rattle.bit_reader.specs.Loaded.{Loading};
ghost use Rattle.bit_reader.specs.Zeros.{one_or_end};

use crate::word;

// The first one from a bit on, or the end of the data where none is left.
pub fn first_one(src: &[u8], from: usize) -> usize
    requires { Loading src.now from }
    ensures { result ≡ one_or_end (8 * length src.now) from (zero_run (drop from (bits_of src.now))) }
{
    // The first part of a word: the bits before `from` are shifted out.
    let first = word::word(src, from / 8) << (from % 8);
    if first != 0 {
        return from + u64::leading_zeros(first) as usize;
    }
    // Words from the next byte on. Of the last one the part past the data is zeros, so that a one in it is of the data.
    let len = src.len();
    let next = from / 8 + 8;
    for k in 0..(len.saturating_sub(next) + 7) / 8 {
        let i = next + 8 * k;
        let bits = word::word(src, i);
        if bits != 0 {
            return 8 * i + u64::leading_zeros(bits) as usize;
        }
    }
    8 * len
}
