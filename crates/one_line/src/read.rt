// The public reading of one 2D line, from a stated bit of the data. A line alone is read by the lookup, and not exactly: both are settings
// of a page.
ghost use Rattle.std.specs.Prelude.{◌≡◌};
ghost use Rattle.one_line.specs.OneLine.{Answers, past_at, ReadOne};

use crate::line_2d;
use answer::Answer;
use context::reference;
use context::reference::Reference;
use context::step::{Rules, Step};

// The bit after the line stands in place of bytes. A line read whole counts as one row, whose mark is the line's flag: nothing is
// recovered here.
fn answer(step: Step) -> Answer
    ensures { Answers step result }
{
    match step {
        Ok((line, after)) => Answer {
            number: answer::COMPLETE,
            mark: line.cut,
            rows: 1,
            entries: line.changes as u64,
            loose: 0,
            bytes: after as u64,
            place: 0,
        },
        Err(stop) => Answer {
            number: stop.number,
            mark: 0,
            rows: 0,
            entries: 0,
            loose: stop.line.changes as u64,
            bytes: 0,
            place: stop.place as u64,
        },
    }
}

// A start past the data is no refusal: its place is the end of the data.
fn past(end: usize) -> Answer
    ensures { result ≡ past_at end }
{
    Answer {
        number: answer::UNEXPECTED_EOF,
        mark: 0,
        rows: 0,
        entries: 0,
        loose: 0,
        bytes: 0,
        place: end as u64,
    }
}

// One 2D line under a lent reference, from a bit on (01).
pub fn read_line(
    src: &[u8],
    at: u64,
    columns: u32,
    strict: bool,
    reference: &[u32],
    changes: &mut [u32],
) -> Answer
    ensures { ReadOne src.now at columns strict reference.now changes.old result changes.new }
{
    if columns == 0 || columns == answer::MOST_PIXELS {
        return answer::refusal(answer::BAD_WIDTH);
    }
    if answer::MOST_BYTES < src.len() {
        return answer::refusal(answer::TOO_LONG);
    }
    if !reference::ascends(reference, columns) {
        return answer::refusal(answer::BAD_ROWS);
    }
    let end = 8 * src.len();
    if at > end as u64 {
        return past(end);
    }
    let none: [u16; 0] = [];
    answer(line_2d::decode_2d_line(
        &none,
        &none,
        src,
        reference,
        changes,
        0,
        Reference::Lent,
        columns,
        at as usize,
        Rules {
            strict,
            exact: false,
            plain: false,
        },
    ))
}
