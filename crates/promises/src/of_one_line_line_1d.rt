// Calls of the public functions of one_line::line_1d, each with the contract that its promises are about.
ghost use Rattle.std.specs.Prelude.{◌≡◌};
ghost use Rattle.rules.specs.Bits.{bits_of};
ghost use Rattle.rules.specs.Lines.{one, read_line};
ghost use Rattle.context.specs.State.{rules_for};
ghost use Rattle.context.specs.Outcome.{Steps, Reads, Starts, Runs};
ghost use Rattle.swift_loops.specs.Pairs.{Tabled};

use context::line::Line;
use context::step::{Rules, Step};

pub fn runs(
    src: &[u8],
    changes: &mut [u32],
    two: bool,
    start: Line,
    at: usize,
    rules: Rules,
) -> Step
    requires { Reads src.now changes.old start at }
    ensures { Runs src.now changes.old two start at rules result changes.new }
{
    one_line::line_1d::runs(src, changes, two, start, at, rules)
}

pub fn decode_1d_line<'a>(
    lent: bool,
    white: &'a [u16],
    black: &'a [u16],
    both: &'a [u16],
    src: &[u8],
    changes: &mut [u32],
    width: u32,
    at: usize,
    rules: Rules,
) -> Step
    requires { Starts src.now width at × Tabled lent white.now black.now both.now }
    ensures { Steps width changes.old (read_line (rules_for width rules changes.old) one (bits_of src.now) at) result changes.new }
{
    one_line::line_1d::decode_1d_line(lent, white, black, both, src, changes, width, at, rules)
}
