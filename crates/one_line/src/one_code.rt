// One code of a 2D line at a time, for a form that may stop inside a row (A9): a mode code by itself, a code of a run by either engine, and
// what a whole run does. The line loops call none of it.
ghost use Rattle.std.specs.Prelude.{◌≡◌, ◌&&◌};
ghost use Rattle.rules.specs.Bits.{bits_of};
ghost use Rattle.rules.specs.Runs.{sum, run_step};
ghost use Rattle.tables.specs.Tables.{colour_of};
ghost use Rattle.bit_reader.specs.Loaded.{Loading};
ghost use Rattle.codes.specs.Runs.{code_of};
ghost use Rattle.context.specs.State.{Holds};
ghost use Rattle.context.specs.Coding.{unless_idle_for};
ghost use Rattle.one_line.specs.OneCode.{OneCoding, OneCoded, RunEnded};

use crate::line_2d;
use codes::mode::Mode;
use codes::run::RunCode;
use codes::{Fault, mode, plain, run};
use context::line::Line;
use context::step::{Rules, Step, Stop};
use context::{line, offset};

// What a mode code does by itself: horizontal mode has its two runs to come, from a bit on; any other does its work.
#[derive(Clone, Copy)]
pub enum OneCode {
    Runs(usize),
    Did(Step),
}

// One mode code of a 2D line, given b1 and b2.
pub fn mode_code(
    src: &[u8],
    changes: &mut [u32],
    line: Line,
    at: usize,
    b1: u32,
    b2: u32,
    rules: Rules,
) -> OneCode
    requires { OneCoding src.now changes.old line at b2 }
    ensures { OneCoded src.now changes.old line at b1 b2 rules result changes.new }
{
    match mode::read_mode::<true>(src, at) {
        Err(fault) => OneCode::Did(Err(Stop {
            line,
            place: fault.at,
            number: answer::number(fault.error),
        })),
        Ok((Mode::Horizontal, next)) => OneCode::Runs(next),
        Ok((Mode::Pass, next)) => {
            let pushed = line::push_pixels(changes, line, b2 - line.position, rules.strict);
            OneCode::Did(line_2d::after_push(pushed, at, next, false))
        }
        Ok((Mode::Vertical(offset), next)) => match offset::moved(b1, offset, line.position) {
            None => OneCode::Did(Err(Stop {
                line,
                place: at,
                number: answer::OVERFLOW,
            })),
            Some(count) => {
                if count == 0 {
                    return OneCode::Did(line_2d::unmoved(line, at, next, rules.exact));
                }
                let pushed = line::push_pixels(changes, line, count, rules.strict);
                OneCode::Did(line_2d::after_push(pushed, at, next, true))
            }
        },
    }
}

// One code of a colour's run, with the sum so far, by either engine.
pub fn run_code(
    colour: usize,
    src: &[u8],
    at: usize,
    total: u32,
    plain: bool,
) -> Result<RunCode, Fault>
    requires { Loading src.now at }
    ensures { code_of result ≡ run_step (colour_of colour) (bits_of src.now) (sum at total) }
{
    if plain {
        return plain::next_code(colour, src, at, total);
    }
    run::read_code(colour, src, at, total)
}

// A run of so many pixels, which began at `from` and ends at `next`.
pub fn end_run(
    changes: &mut [u32],
    line: Line,
    pixels: u32,
    from: usize,
    next: usize,
    rules: Rules,
) -> Step
    requires { Holds changes.old line }
    ensures { RunEnded changes.old line pixels from next rules result changes.new }
{
    let pushed = line::push_pixels(changes, line, pixels, rules.strict);
    line_2d::after_push(pushed, from, next, true)
}

// What the second run of the horizontal code at `at` makes of the line: where the first moved nothing, an exact line refuses a
// second that does not either.
pub fn unless_unmoved(step: Step, line: Line, at: usize, blank: bool, exact: bool) -> Step
    ensures { result ≡ unless_idle_for step line at (blank && exact) }
{
    if blank {
        return line_2d::unless_idle(step, line, at, exact);
    }
    line_2d::unless_idle(step, line, at, false)
}
