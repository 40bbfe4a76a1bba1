// A damaged line, which is kept where it can be: it keeps its pixels so far, and turns white to the width.
ghost use Rattle.std.specs.Prelude.{◌≡◌, not, ◌&&◌, leb};
ghost use Rattle.group3.specs.Recovery.{white_for, Damages, Recovers};

use context::line;
use context::line::Line;
use settings::{DecodeSettings, KeptRow, PageStop, Row, State};

// Only a code's errors, 1 to 3, are recovered from: no room for a change is none of them.
fn is_kept(number: u32, expected: bool, strict: bool) -> bool
    ensures { result ≡ (expected && not strict) && leb number 3 }
{
    expected && !strict && number <= 3
}

fn whitened(line: Line) -> Line
    ensures { result ≡ white_for line }
{
    Line { colour: 0, ..line }
}

// The reader returns to the line's start. No line holds an EOL, so the next one from there on is the one that ends this line.
pub(crate) fn recover(
    changes: &mut [u32],
    settings: DecodeSettings,
    state: State,
    at: usize,
    expected: bool,
    number: u32,
    place: usize,
    line: Line,
) -> Row
    requires { Damages state.base changes.old line }
    ensures { Recovers settings state at expected number place line changes.old result changes.new }
{
    if !is_kept(number, expected, settings.strict) {
        return Err(PageStop {
            number,
            place,
            bytes: 0,
            loose: line.changes,
        });
    }
    let base = state.base;
    let left = line.width - line.position;
    match line::push_pixels(&mut changes[base..], whitened(line), left, settings.strict) {
        // 2, whatever was cut in it before: recovered wins over cut.
        Ok(kept) => Ok(KeptRow {
            changes: kept.changes,
            mark: 2,
            at,
            eols: expected,
        }),
        Err(fault) => Err(PageStop {
            number: fault.number,
            place: 0,
            bytes: 0,
            loose: fault.line.changes,
        }),
    }
}
