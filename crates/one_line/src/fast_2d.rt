// A 2D line under the row before it, which lies in the same array: swift codes, and between them one code by the full rules.
ghost use Rattle.std.specs.Prelude.{◌≡◌, [], ◌-◌, min};
ghost use Rattle.tables.specs.Tables.{Lookups};
ghost use Rattle.context.specs.declared.reference.Reference.TheVariants.{Kept};
ghost use Rattle.context.specs.Coding.{Lines, Lined};
ghost use Rattle.swift_loops.specs.Swift.{line_of};
ghost use Rattle.one_line.specs.Kept.{Restands, Restood};

use crate::line_2d;
use context::line::Line;
use context::reference;
use context::step::{Rules, Step};
use swift_loops::fast_2d;
use swift_loops::fast_2d::BetweenCodes;

pub(crate) fn line_at(width: u32, s: BetweenCodes, cut: u32) -> Line
    ensures { result ≡ line_of width s cut }
{
    Line {
        width,
        position: s.position,
        changes: s.count,
        colour: (s.place % 2) as u32,
        cut,
    }
}

// From where on b1 is searched, by its last place: the change before that is the first that may lie right of the line.
fn seen_before(len: usize, place: usize) -> usize
    ensures { result ≡ min len (place - 1) }
{
    if place == 0 {
        return 0;
    }
    if len < place {
        return len;
    }
    place - 1
}

// Where the line stands behind a code.
pub(crate) fn stand_at(reference: &[u32], place: usize, line: Line, at: usize) -> BetweenCodes
    requires { Restands reference.now place line }
    ensures { Restood reference.now line at result }
{
    let seen = seen_before(reference.len(), place);
    let found = reference::b1_from(reference, seen, line.width, line.position, line.colour);
    BetweenCodes {
        at,
        position: line.position,
        count: line.changes,
        place: found,
    }
}

// A line whose changes go into `changes` from `base` on; its reference lies from `first` on, up to there.
pub(crate) fn kept_line<'a>(
    white: &'a [u16],
    black: &'a [u16],
    src: &[u8],
    changes: &mut [u32],
    first: usize,
    base: usize,
    width: u32,
    start: usize,
    rules: Rules,
) -> Step
    requires { Lines src.now [] changes.old base (Kept first) width start × Lookups white.now black.now }
    ensures { Lined src.now [] changes.old base (Kept first) width start rules result changes.new }
{
    let mut s = BetweenCodes {
        at: start,
        position: 0,
        count: 0,
        place: 0,
    };
    let mut cut: u32 = 0;
    loop {
        let t = fast_2d::swift_codes(white, black, src, changes, first, base, width, s);
        // The line is made only where it is handed on: otherwise it would go through memory at every row's end.
        if t.position == width {
            return Ok((line_at(width, t, cut), t.at));
        }
        let b1 = reference::change_or(&changes[first..base], t.place, width);
        let b2 = reference::change_or(&changes[first..base], t.place + 1, width);
        let (next, after) = line_2d::code_2d::<true>(
            src,
            &mut changes[base..],
            line_at(width, t, cut),
            t.at,
            b1,
            b2,
            rules,
        )?;
        s = stand_at(&changes[first..base], t.place, next, after);
        cut = next.cut;
    }
}
