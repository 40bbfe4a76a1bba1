// Calls of the public functions of context::line, each with the contract that its promises are about.
ghost use Rattle.std.specs.Prelude.{◌≡◌, ◌≤◌};
ghost use Rattle.context.specs.State.{new_for, turned_for, turns, Holds, Pushes};

use context::line::{Line, Push};

pub fn new_line(width: u32) -> Line
    ensures { result ≡ new_for width }
{
    context::line::new_line(width)
}

pub fn turned(line: Line) -> Line
    requires { line.colour ≤ 1 }
    ensures { result ≡ turned_for line }
{
    context::line::turned(line)
}

pub fn is_change(changes: usize, colour: u32) -> bool
    requires { colour ≤ 1 }
    ensures { result ≡ turns changes colour }
{
    context::line::is_change(changes, colour)
}

pub fn push_pixels(changes: &mut [u32], line: Line, count: u32, strict: bool) -> Push
    requires { Holds changes.old line }
    ensures { Pushes changes.old line count strict result changes.new }
{
    context::line::push_pixels(changes, line, count, strict)
}
