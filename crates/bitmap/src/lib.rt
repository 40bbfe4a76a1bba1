// Bitmaps: the rows of a store as packed pixels, and packed pixels as rows.
#![tactic(auto)]

ghost use Rattle.std.specs.Prelude.{◌≡◌, ◌≤◌, length};
ghost use Rattle.bitmap.specs.Packed.{paint, unpaint};
ghost use Rattle.bitmap.specs.Outcome.{answer_for, Paints, Unpaints};

use answer::Answer;

mod fit;
mod painting;
mod pixels;
mod put;
mod tracing;

// The counts of a page that is painted are 0, but for its bytes.
fn done(end: usize) -> Answer
    ensures { result ≡ answer_for 0 end }
{
    Answer {
        number: answer::COMPLETE,
        mark: 0,
        rows: 0,
        entries: 0,
        loose: 0,
        bytes: end as u64,
        place: 0,
    }
}

// Paints as many rows as there are row ends, from byte 0 on, a stride from one to the next; where `one`, black is 1, and else 0. What
// is behind the width in a row's last byte is white, and the bytes up to the next row stay. 0 gives the byte after the last row.
pub fn paint(
    columns: u32,
    changes: &[u32],
    ends: &[u64],
    one: bool,
    stride: u64,
    out: &mut [u8],
) -> Answer
    ensures { Paints (paint one columns stride changes.now ends.now out.old) result out.new }
{
    let step = stride as usize;
    if let Some(number) = fit::refused(columns, step, ends.len(), out.len()) {
        return answer::refusal(number);
    }
    if !row_store::ascend(columns, changes, ends) {
        return answer::refusal(answer::BAD_ROWS);
    }
    let end = fit::end_of(columns, step, ends.len(), out.len());
    painting::rows(one, columns, step, changes, ends, out);
    done(end)
}

// Reads so many packed rows into a store, whose room is counted first; what the bits behind the width are does not matter. 0 gives the
// rows, the entries and the byte after the last row.
pub fn unpaint(
    columns: u32,
    rows: u64,
    one: bool,
    stride: u64,
    src: &[u8],
    changes: &mut [u32],
    ends: &mut [u64],
) -> Answer
    ensures { Unpaints (unpaint one columns stride rows src.now (length changes.old) (length ends.old)) changes.old ends.old result changes.new ends.new }
{
    let step = stride as usize;
    let count = rows as usize;
    if let Some(number) = fit::refused(columns, step, count, src.len()) {
        return answer::refusal(number);
    }
    if ends.len() < count {
        return answer::refusal(answer::NO_ROW_END);
    }
    let end = fit::end_of(columns, step, count, src.len());
    let room = changes.len();
    let entries = tracing::rows(one, columns, step, count, src, changes, ends, false);
    if room < entries {
        return answer::refusal(answer::NO_ENTRY);
    }
    tracing::rows(one, columns, step, count, src, changes, ends, true);
    Answer {
        number: answer::COMPLETE,
        mark: 0,
        rows,
        entries: entries as u64,
        loose: 0,
        bytes: end as u64,
        place: 0,
    }
}
