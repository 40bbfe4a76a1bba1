// EOLs that data is held against: with fill before them, and several of them.
ghost use Rattle.std.specs.Prelude.{false, ◌++◌, ◌≤◌, replicate};
ghost use Rattle.rules.specs.Bits.{bits_for};
ghost use Rattle.rules.specs.Write.{eol_bits};
ghost use Rattle.rules.specs.WriteGroup3.{times};
ghost use Rattle.bit_reader.specs.Loaded.{Loading};
ghost use Rattle.writer.specs.Putting.{Sound};
ghost use Rattle.writer.specs.Meeting.{Meets, met_of};

use crate::met::Unmet;
use crate::{eols, met};
use tables::Code;

// So many zeros and an EOL, at bit `at` of the data.
pub(crate) fn same_filled(src: &[u8], at: usize, fill: u32) -> Result<usize, Unmet>
    requires { Loading src.now at }
    ensures { Meets src.now at (replicate fill false ++ eol_bits) (met_of result) }
{
    let mut next = at;
    let mut left = fill;
    while 0 < left {
        let size = eols::chunk(left);
        let zeros = Code { size, word: 0 };
        next = met::meet(src, next, zeros)?;
        left -= size;
    }
    met::meet(src, next, eols::eol())
}

// A code several times.
pub(crate) fn same_times(src: &[u8], at: usize, code: Code, n: u32) -> Result<usize, Unmet>
    requires { (1 ≤ n) × Sound code × Loading src.now at }
    ensures { Meets src.now at (times n (bits_for code.size code.word)) (met_of result) }
{
    let mut next = at;
    for _ in 0..n - 1 {
        next = met::meet(src, next, code)?;
    }
    met::meet(src, next, code)
}
