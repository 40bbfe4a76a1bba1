// A 2D line: what one mode code does, given b1 and b2, and codes to the width.
ghost use Rattle.std.specs.Prelude.{◌≡◌, ◌≤◌};
ghost use Rattle.rules.specs.Bits.{bits_of};
ghost use Rattle.rules.specs.Modes.{read_mode};
ghost use Rattle.tables.specs.Tables.{colour_of};
ghost use Rattle.bit_reader.specs.Loaded.{Loading};
ghost use Rattle.codes.specs.Modes.{mode_of};
ghost use Rattle.context.specs.Outcome.{Reads};
ghost use Rattle.context.specs.Reference.{Finds};
ghost use Rattle.context.specs.Coding.{Coloured, after_push, unmoved_for, unless_idle_for, TwoRuns};
ghost use Rattle.context.specs.Coding.{Coding, Coded, reference_in, Seeks, Lines, TabledFor, Lined};
ghost use Rattle.one_line.specs.White.{under_white};

use crate::{fast_2d, lent_2d, line_1d};
use codes::mode::Mode;
use codes::{Fault, mode};
use context::line::{Line, Push};
use context::reference::{FoundChanges, Reference};
use context::step::{Rules, Step, Stop};
use context::{line, offset, reference, step};

// Whether the reference is white: it has no changes.
pub fn is_under_white(place: Reference, base: usize, lent: &[u32]) -> bool
    ensures { result ≡ under_white place base lent.now }
{
    match place {
        Reference::Lent => lent.is_empty(),
        Reference::Kept(start) => start == base,
    }
}

// What a push makes of the code that began at `at` and ends at `next`; vertical mode turns the colour, pass mode keeps it.
pub(crate) fn after_push(push: Push, at: usize, next: usize, turns: bool) -> Step
    requires { Coloured push }
    ensures { result ≡ after_push push at next turns }
{
    match push {
        Err(fault) => Err(Stop {
            line: fault.line,
            place: step::place_of(fault.number, at),
            number: fault.number,
        }),
        Ok(line) => {
            if turns {
                return Ok((line::turned(line), next));
            }
            Ok((line, next))
        }
    }
}

// A vertical move of nothing turns the colour. An exact line refuses it as idle, other than its first code, which is read at
// position 0 in white.
pub(crate) fn unmoved(line: Line, at: usize, next: usize, exact: bool) -> Step
    requires { line.colour ≤ 1 }
    ensures { result ≡ unmoved_for line at next exact }
{
    if exact && (line.position != 0 || line.colour != 0) {
        return Err(Stop {
            line,
            place: at,
            number: answer::INVALID_CODE,
        });
    }
    Ok((line::turned(line), next))
}

// What two runs make of the code that began at `at`: an exact line refuses it as idle where both are zero, and is as it was before it.
pub(crate) fn unless_idle(step: Step, line: Line, at: usize, exact: bool) -> Step
    ensures { result ≡ unless_idle_for step line at exact }
{
    let (after, end) = step?;
    if exact && after.position == line.position {
        return Err(Stop {
            line,
            place: at,
            number: answer::INVALID_CODE,
        });
    }
    Ok((after, end))
}

// A function of its own, so that the line is put into memory for `runs` only where a code is horizontal, and not at every code.
pub(crate) fn horizontal(
    src: &[u8],
    changes: &mut [u32],
    line: Line,
    at: usize,
    next: usize,
    rules: Rules,
) -> Step
    requires { Reads src.now changes.old line next }
    ensures { TwoRuns src.now changes.old line at next rules result changes.new }
{
    let step = line_1d::runs(src, changes, true, line, next, rules);
    unless_idle(step, line, at, rules.exact)
}

// The mode at a bit, for `code_2d`.
fn mode_at<const SWIFT: bool>(src: &[u8], at: usize) -> Result<(Mode, usize), Fault>
    requires { Loading src.now at }
    ensures { mode_of result ≡ read_mode (bits_of src.now) at }
{
    if SWIFT {
        return mode::by_zeros(src, at, bit_reader::peek(src, at));
    }
    mode::read_mode::<false>(src, at)
}

// A code by the full rules, between swift codes or in a line that is read code by code: each of the two has an instance of its own, which
// is compiled in place only while it has few callers.
pub(crate) fn code_2d<const SWIFT: bool>(
    src: &[u8],
    changes: &mut [u32],
    line: Line,
    at: usize,
    b1: u32,
    b2: u32,
    rules: Rules,
) -> Step
    requires { Coding src.now changes.old line at b2 }
    ensures { Coded src.now changes.old line at b1 b2 rules result changes.new }
{
    match mode_at::<SWIFT>(src, at) {
        Err(fault) => Err(Stop {
            line,
            place: fault.at,
            number: answer::number(fault.error),
        }),
        Ok((Mode::Horizontal, next)) => horizontal(src, changes, line, at, next, rules),
        Ok((Mode::Pass, next)) => {
            let pushed = line::push_pixels(changes, line, b2 - line.position, rules.strict);
            after_push(pushed, at, next, false)
        }
        Ok((Mode::Vertical(offset), next)) => match offset::moved(b1, offset, line.position) {
            None => Err(Stop {
                line,
                place: at,
                number: answer::OVERFLOW,
            }),
            Some(count) => {
                if count == 0 {
                    return unmoved(line, at, next, rules.exact);
                }
                let pushed = line::push_pixels(changes, line, count, rules.strict);
                after_push(pushed, at, next, true)
            }
        },
    }
}

fn find(
    reference: &[u32],
    changes: &[u32],
    base: usize,
    place: Reference,
    seen: usize,
    line: Line,
) -> FoundChanges
    requires { Seeks place base reference.now changes.now seen line }
    ensures { Finds (reference_in place base reference.now changes.now) line.width line.position (colour_of line.colour) result }
{
    match place {
        Reference::Lent => reference::find(reference, seen, line.width, line.position, line.colour),
        Reference::Kept(start) => {
            reference::find(
                &changes[start..base],
                seen,
                line.width,
                line.position,
                line.colour,
            )
        }
    }
}

// A line code by code, by the full rules. Each search goes on where the last one stopped.
fn line_by_codes(
    src: &[u8],
    reference: &[u32],
    changes: &mut [u32],
    base: usize,
    place: Reference,
    width: u32,
    start: usize,
    rules: Rules,
) -> Step
    requires { Lines src.now reference.now changes.old base place width start }
    ensures { Lined src.now reference.now changes.old base place width start rules result changes.new }
{
    let mut line = line::new_line(width);
    let mut at = start;
    let mut seen: usize = 0;
    while line.position != line.width {
        let found = find(reference, changes, base, place, seen, line);
        (line, at) = code_2d::<false>(
            src,
            &mut changes[base..],
            line,
            at,
            found.b1,
            found.b2,
            rules,
        )?;
        seen = found.seen;
    }
    Ok((line, at))
}

// A line whose changes go into `changes` from `base` on. By the plain engine (A14) no code is swift; where the reference is lent no table
// is asked for. Each loop has one call alone, so that its answer is made where the caller wants it.
pub fn decode_2d_line<'a>(
    white: &'a [u16],
    black: &'a [u16],
    src: &[u8],
    reference: &[u32],
    changes: &mut [u32],
    base: usize,
    place: Reference,
    width: u32,
    start: usize,
    rules: Rules,
) -> Step
    requires { Lines src.now reference.now changes.old base place width start × TabledFor place white.now black.now }
    ensures { Lined src.now reference.now changes.old base place width start rules result changes.new }
{
    if rules.plain {
        return line_by_codes(src, reference, changes, base, place, width, start, rules);
    }
    match place {
        Reference::Kept(first) => {
            fast_2d::kept_line(white, black, src, changes, first, base, width, start, rules)
        }
        Reference::Lent => {
            lent_2d::lent_line(src, reference, changes, base, width, start, rules)
        }
    }
}
