// Runs of alternating colour: the two of a horizontal code, or as many as fill a line. One loop reads both, and holds the only call of
// `next_run`, which is so compiled in place, and the lookup's `read_run` in it.
ghost use Rattle.std.specs.Prelude.{◌≡◌};
ghost use Rattle.rules.specs.Bits.{bits_of};
ghost use Rattle.rules.specs.Lines.{one, read_line};
ghost use Rattle.tables.specs.Tables.{colour_of};
ghost use Rattle.codes.specs.Runs.{Reading, RunRead};
ghost use Rattle.context.specs.State.{rules_for};
ghost use Rattle.context.specs.Outcome.{Steps, Reads, Starts, does_go_on, Runs};
ghost use Rattle.swift_loops.specs.Pairs.{Tabled};

use bit_reader::buffer;
use bit_reader::buffer::Buffer;
use codes::{Fault, plain, run};
use context::line::Line;
use context::step::{Rules, Step, Stop};
use context::{line, step};
use swift_loops::fast_1d;

fn goes_on(two: bool, count: usize, line: Line) -> bool
    ensures { result ≡ does_go_on two count line }
{
    if two {
        return count < 2;
    }
    line.position != line.width
}

// The run of a colour by either engine. The compiler takes the test out of the loop over runs: each engine has one of its own there.
fn next_run(colour: usize, src: &[u8], buffer: Buffer, plain: bool) -> Result<(u32, Buffer), Fault>
    requires { Reading src.now buffer }
    ensures { RunRead (colour_of colour) src.now buffer.at result }
{
    if plain {
        return plain::read_run(colour, src, buffer.at);
    }
    run::read_run(colour, src, buffer)
}

// Runs of alternating colour from a bit on: two of them, as horizontal mode has, or to the width.
pub fn runs(
    src: &[u8],
    changes: &mut [u32],
    two: bool,
    start: Line,
    at: usize,
    rules: Rules,
) -> Step
    requires { Reads src.now changes.old start at }
    ensures { Runs src.now changes.old two start at rules result changes.new }
{
    let mut line = start;
    let mut buffer = buffer::load(src, at);
    let mut count: usize = 0;
    while goes_on(two, count, line) {
        let from = buffer.at;
        match next_run(line.colour as usize, src, buffer, rules.plain) {
            Err(fault) => {
                return Err(Stop {
                    line,
                    place: fault.at,
                    number: answer::number(fault.error),
                });
            }
            Ok((pixels, next)) => match line::push_pixels(changes, line, pixels, rules.strict) {
                Err(fault) => {
                    return Err(Stop {
                        line: fault.line,
                        place: step::place_of(fault.number, from),
                        number: fault.number,
                    });
                }
                Ok(pushed) => {
                    line = line::turned(pushed);
                    buffer = next;
                    count += 1;
                }
            },
        }
    }
    Ok((line, buffer.at))
}

// Pairs of runs while they come, by the tables if they are lent, and any other run as in a horizontal code.
pub fn decode_1d_line<'a>(
    lent: bool,
    white: &'a [u16],
    black: &'a [u16],
    both: &'a [u16],
    src: &[u8],
    changes: &mut [u32],
    width: u32,
    at: usize,
    rules: Rules,
) -> Step
    requires { Starts src.now width at × Tabled lent white.now black.now both.now }
    ensures { Steps width changes.old (read_line (rules_for width rules changes.old) one (bits_of src.now) at) result changes.new }
{
    let s = fast_1d::pairs(
        lent,
        white,
        black,
        both,
        src,
        changes,
        width,
        at,
        rules.plain,
    );
    let line = fast_1d::line_of(width, s);
    if s.position == width {
        return Ok((line, s.at));
    }
    runs(src, changes, false, line, s.at, rules)
}
