// A 1D line that data is held against: runs from white, to each change and to the width.
ghost use Rattle.std.specs.Prelude.{[]};
ghost use Rattle.bit_reader.specs.Loaded.{Loading};
ghost use Rattle.writer.specs.Coding.{Lent, line1_of};
ghost use Rattle.writer.specs.Meeting.{Meets, met_of, Facing};

use crate::met::Unmet;
use crate::same_run;

// A row's runs at bit `at` of the data, to the first that is not met.
pub(crate) fn same_line1<'a>(
    wt: &'a [[u16; 3]; 64],
    bt: &'a [[u16; 3]; 64],
    wm: &'a [[u16; 3]; 27],
    bm: &'a [[u16; 3]; 27],
    common: &'a [[u16; 3]; 13],
    width: u32,
    row: &[u32],
    src: &[u8],
    at: usize,
) -> Result<usize, Unmet>
    requires { Lent wt.now bt.now wm.now bm.now common.now × Facing width [] row.now × Loading src.now at }
    ensures { Meets src.now at (line1_of width row.now) (met_of result) }
{
    let mut next = at;
    let mut position: u32 = 0;
    let mut colour: u32 = 0;
    for change in row {
        let run = *change - position;
        next = same_run::same_run(wt, bt, wm, bm, common, colour, run, src, next)?;
        position = *change;
        colour = 1 - colour;
    }
    let left = width - position;
    same_run::same_run(wt, bt, wm, bm, common, colour, left, src, next)
}
