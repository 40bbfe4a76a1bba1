// The small state of a line, lent to `push_pixels` and changed in place (context.rs). No function asks anything of its caller: a line
// that no reading makes is refused with its number, 6 or 8, and left as it was.
#![tactic(auto)]

ghost use Rattle.lent.specs.Lent.{Tested, Lends, start_in};

use context::line;
use context::line::Line;

// What a push answers: 0, or the number of the fault or refusal; and the line after it.
#[derive(Clone, Copy)]
pub struct Pushed {
    pub number: u32,
    pub line: Line,
}

fn refusal(room: usize, line: Line) -> u32
    ensures { Tested room line result }
{
    if line.width == answer::MOST_PIXELS {
        return answer::BAD_WIDTH;
    }
    if line.width < line.position {
        return answer::BAD_ROWS;
    }
    if room < line.changes {
        return answer::BAD_ROWS;
    }
    if 1 < line.colour {
        return answer::BAD_ROWS;
    }
    if 1 < line.cut {
        return answer::BAD_ROWS;
    }
    0
}

// The core, after the tests, with the line in every answer.
pub fn push_line(line: Line, changes: &mut [u32], count: u32, strict: bool) -> Pushed
    ensures { Lends changes.old line count strict result.number result.line changes.new }
{
    let number = refusal(changes.len(), line);
    if number != answer::COMPLETE {
        return Pushed { number, line };
    }
    match line::push_pixels(changes, line, count, strict) {
        Ok(next) => Pushed {
            number: answer::COMPLETE,
            line: next,
        },
        Err(fault) => Pushed {
            number: fault.number,
            line: fault.line,
        },
    }
}

// Pixels pushed on a line that is lent and changed in place; the answer is 0, or the fault's number.
pub fn push_pixels(line: &mut Line, changes: &mut [u32], count: u32, strict: bool) -> u32
    ensures { Lends changes.old line.old count strict result line.new changes.new }
{
    let after = push_line(*line, changes, count, strict);
    *line = after.line;
    after.number
}

// The first pixels of a line. Its parameters are plain, so that who calls it needs no proof by hand.
pub fn first_run(width: u32, colour: u32, changes: &mut [u32], count: u32, strict: bool) -> Pushed
    ensures { Lends changes.old (start_in width colour) count strict result.number result.line changes.new }
{
    let mut line = Line {
        width,
        position: 0,
        changes: 0,
        colour,
        cut: 0,
    };
    let number = push_pixels(&mut line, changes, count, strict);
    Pushed { number, line }
}
