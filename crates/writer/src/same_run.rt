// Runs that data is held against: make-up codes and a terminating code.
ghost use Rattle.rules.specs.Write.{run_bits};
ghost use Rattle.tables.specs.Tables.{colour_of};
ghost use Rattle.bit_reader.specs.Loaded.{Loading};
ghost use Rattle.writer.specs.Coding.{Lent};
ghost use Rattle.writer.specs.Meeting.{Meets, met_of};

use crate::met::Unmet;
use crate::{met, run};

// A run's codes at bit `at` of the data, to the first that is not met.
pub(crate) fn same_run<'a>(
    wt: &'a [[u16; 3]; 64],
    bt: &'a [[u16; 3]; 64],
    wm: &'a [[u16; 3]; 27],
    bm: &'a [[u16; 3]; 27],
    common: &'a [[u16; 3]; 13],
    colour: u32,
    run: u32,
    src: &[u8],
    at: usize,
) -> Result<usize, Unmet>
    requires { Lent wt.now bt.now wm.now bm.now common.now × Loading src.now at }
    ensures { Meets src.now at (run_bits (colour_of colour) run) (met_of result) }
{
    let mut left = run;
    let mut next = at;
    while 64 <= left {
        let m = run::largest(left);
        let code = tables::makeup(wm, bm, common, colour as usize, m as usize);
        next = met::meet(src, next, code)?;
        left -= 64 * m;
    }
    let code = tables::terminating(wt, bt, colour as usize, left as usize);
    met::meet(src, next, code)
}
