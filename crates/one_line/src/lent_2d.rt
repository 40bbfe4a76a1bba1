// A 2D line under a reference that is lent: swift codes, and between them one code by the full rules, as `fast_2d` has it under a row
// of the same array.
ghost use Rattle.context.specs.declared.reference.Reference.TheVariants.{Lent};
ghost use Rattle.context.specs.Coding.{Lines, Lined};

use crate::{fast_2d, line_2d};
use context::reference;
use context::step::{Rules, Step};
use swift_loops::fast_2d::BetweenCodes;
use swift_loops::lent_2d;

// A line whose changes go into `changes` from `base` on.
pub(crate) fn lent_line(
    src: &[u8],
    reference: &[u32],
    changes: &mut [u32],
    base: usize,
    width: u32,
    start: usize,
    rules: Rules,
) -> Step
    requires { Lines src.now reference.now changes.old base Lent width start }
    ensures { Lined src.now reference.now changes.old base Lent width start rules result changes.new }
{
    let mut s = BetweenCodes {
        at: start,
        position: 0,
        count: 0,
        place: 0,
    };
    let mut cut: u32 = 0;
    loop {
        let t = lent_2d::swift_codes(src, reference, &mut changes[base..], width, s);
        // The line is made only where it is handed on: otherwise it would go through memory at every row's end.
        if t.position == width {
            return Ok((fast_2d::line_at(width, t, cut), t.at));
        }
        let b1 = reference::change_or(reference, t.place, width);
        let b2 = reference::change_or(reference, t.place + 1, width);
        let (next, after) = line_2d::code_2d::<true>(
            src,
            &mut changes[base..],
            fast_2d::line_at(width, t, cut),
            t.at,
            b1,
            b2,
            rules,
        )?;
        s = fast_2d::stand_at(reference, t.place, next, after);
        cut = next.cut;
    }
}
