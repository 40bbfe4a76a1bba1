// Calls of the public functions of lent, each with the contract that its promises are about.
ghost use Rattle.lent.specs.Lent.{Lends, start_in};

use context::line::Line;
use lent::Pushed;

pub fn push_line(line: Line, changes: &mut [u32], count: u32, strict: bool) -> Pushed
    ensures { Lends changes.old line count strict result.number result.line changes.new }
{
    lent::push_line(line, changes, count, strict)
}

pub fn first_run(width: u32, colour: u32, changes: &mut [u32], count: u32, strict: bool) -> Pushed
    ensures { Lends changes.old (start_in width colour) count strict result.number result.line changes.new }
{
    lent::first_run(width, colour, changes, count, strict)
}
