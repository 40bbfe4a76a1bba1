// The rules of a reading, and what a code or a line answers.
ghost use Rattle.std.specs.Prelude.{◌≡◌};
ghost use Rattle.context.specs.Outcome.{place_for};

use crate::line::Line;

// `exact` comes with `strict` alone (A12). `plain` says which engine reads the runs (A14).
#[derive(Clone, Copy)]
pub struct Rules {
    pub strict: bool,
    pub exact: bool,
    pub plain: bool,
}

// Why a line stops: the line so far, whose `changes` says how many it has recorded, the fault's bit, and the fault's number. The line
// lies in front here, as in a `Step` that goes on, so that it stands at one place in both, which the line loops feel.
#[derive(Clone, Copy)]
pub struct Stop {
    pub line: Line,
    pub place: usize,
    pub number: u32,
}

// The line and the bit after.
pub type Step = Result<(Line, usize), Stop>;

// A change for which there is no room is at no bit's fault.
pub fn place_of(number: u32, place: usize) -> usize
    ensures { result ≡ place_for number place }
{
    if number == answer::NO_ENTRY { 0 } else { place }
}
