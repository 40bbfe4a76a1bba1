// Calls of the public functions of one_line::line_2d, each with the contract that its promises are about.
ghost use Rattle.std.specs.Prelude.{◌≡◌};
ghost use Rattle.context.specs.Coding.{Lines, TabledFor, Lined};
ghost use Rattle.one_line.specs.White.{under_white};

use context::reference::Reference;
use context::step::{Rules, Step};

pub fn is_under_white(place: Reference, base: usize, lent: &[u32]) -> bool
    ensures { result ≡ under_white place base lent.now }
{
    one_line::line_2d::is_under_white(place, base, lent)
}

pub fn decode_2d_line<'a>(
    white: &'a [u16],
    black: &'a [u16],
    src: &[u8],
    reference: &[u32],
    changes: &mut [u32],
    base: usize,
    place: Reference,
    width: u32,
    start: usize,
    rules: Rules,
) -> Step
    requires { Lines src.now reference.now changes.old base place width start × TabledFor place white.now black.now }
    ensures { Lined src.now reference.now changes.old base place width start rules result changes.new }
{
    one_line::line_2d::decode_2d_line(
        white, black, src, reference, changes, base, place, width, start, rules,
    )
}
