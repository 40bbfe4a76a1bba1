// Calls of the public functions of one_line::one_code, each with the contract that its promises are about.
ghost use Rattle.std.specs.Prelude.{◌≡◌, ◌&&◌};
ghost use Rattle.rules.specs.Bits.{bits_of};
ghost use Rattle.rules.specs.Runs.{sum, run_step};
ghost use Rattle.tables.specs.Tables.{colour_of};
ghost use Rattle.bit_reader.specs.Loaded.{Loading};
ghost use Rattle.codes.specs.Runs.{code_of};
ghost use Rattle.context.specs.State.{Holds};
ghost use Rattle.context.specs.Coding.{unless_idle_for};
ghost use Rattle.one_line.specs.OneCode.{OneCoding, OneCoded, RunEnded};

use codes::Fault;
use codes::run::RunCode;
use context::line::Line;
use context::step::{Rules, Step};
use one_line::one_code::OneCode;

pub fn mode_code(
    src: &[u8],
    changes: &mut [u32],
    line: Line,
    at: usize,
    b1: u32,
    b2: u32,
    rules: Rules,
) -> OneCode
    requires { OneCoding src.now changes.old line at b2 }
    ensures { OneCoded src.now changes.old line at b1 b2 rules result changes.new }
{
    one_line::one_code::mode_code(src, changes, line, at, b1, b2, rules)
}

pub fn run_code(
    colour: usize,
    src: &[u8],
    at: usize,
    total: u32,
    plain: bool,
) -> Result<RunCode, Fault>
    requires { Loading src.now at }
    ensures { code_of result ≡ run_step (colour_of colour) (bits_of src.now) (sum at total) }
{
    one_line::one_code::run_code(colour, src, at, total, plain)
}

pub fn end_run(
    changes: &mut [u32],
    line: Line,
    pixels: u32,
    from: usize,
    next: usize,
    rules: Rules,
) -> Step
    requires { Holds changes.old line }
    ensures { RunEnded changes.old line pixels from next rules result changes.new }
{
    one_line::one_code::end_run(changes, line, pixels, from, next, rules)
}

pub fn unless_unmoved(step: Step, line: Line, at: usize, blank: bool, exact: bool) -> Step
    ensures { result ≡ unless_idle_for step line at (blank && exact) }
{
    one_line::one_code::unless_unmoved(step, line, at, blank, exact)
}
