// A 2D line that data is held against: the code at each position, to the width.
ghost use Rattle.std.specs.Prelude.{◌≤◌};
ghost use Rattle.tables.specs.Tables.{colour_of};
ghost use Rattle.bit_reader.specs.Loaded.{Loading};
ghost use Rattle.writer.specs.Coding.{Lent, across, line_of};
ghost use Rattle.writer.specs.Meeting.{Meets, met_of, Facing};

use crate::met::Unmet;
use crate::{met, mode, same_run};
use context::reference;

// A horizontal code and its two runs, in the line's colour and in the other.
fn same_horizontal<'a>(
    wt: &'a [[u16; 3]; 64],
    bt: &'a [[u16; 3]; 64],
    wm: &'a [[u16; 3]; 27],
    bm: &'a [[u16; 3]; 27],
    common: &'a [[u16; 3]; 13],
    colour: u32,
    first: u32,
    second: u32,
    src: &[u8],
    at: usize,
) -> Result<usize, Unmet>
    requires { Lent wt.now bt.now wm.now bm.now common.now × (colour ≤ 1) × Loading src.now at }
    ensures { Meets src.now at (across (colour_of colour) first second) (met_of result) }
{
    let met = met::meet(src, at, mode::horizontal())?;
    let middle = same_run::same_run(wt, bt, wm, bm, common, colour, first, src, met)?;
    same_run::same_run(wt, bt, wm, bm, common, 1 - colour, second, src, middle)
}

// A row's codes at bit `at` of the data, to the first that is not met: `line::put_line` with the data in the place of the output.
pub(crate) fn same_line<'a>(
    wt: &'a [[u16; 3]; 64],
    bt: &'a [[u16; 3]; 64],
    wm: &'a [[u16; 3]; 27],
    bm: &'a [[u16; 3]; 27],
    common: &'a [[u16; 3]; 13],
    width: u32,
    reference: &[u32],
    row: &[u32],
    src: &[u8],
    at: usize,
) -> Result<usize, Unmet>
    requires { Lent wt.now bt.now wm.now bm.now common.now × Facing width reference.now row.now × Loading src.now at }
    ensures { Meets src.now at (line_of width reference.now row.now) (met_of result) }
{
    let mut next = at;
    let mut position: u32 = 0;
    let mut colour: u32 = 0;
    let mut place: usize = 0;
    let mut seen: usize = 0;
    while position < width {
        let found = reference::find(reference, seen, width, position, colour);
        let a1 = reference::change_or(row, place, width);
        seen = found.seen;
        if found.b2 < a1 {
            next = met::meet(src, next, mode::pass())?;
            position = found.b2;
            continue;
        }
        if mode::distance(found.b1, a1) <= 3 {
            next = met::meet(src, next, mode::vertical(found.b1, a1))?;
            position = a1;
            colour = 1 - colour;
            place += 1;
            continue;
        }
        let a2 = reference::change_or(row, place + 1, width);
        let first = a1 - position;
        let second = a2 - a1;
        next = same_horizontal(wt, bt, wm, bm, common, colour, first, second, src, next)?;
        position = a2;
        place += 2;
    }
    Ok(next)
}
