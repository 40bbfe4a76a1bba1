// A page by the row form (02, A1), which needs no store of it: `first` and `second` are its two line arrays. Each row is counted by its mark, and shown.
use crate::{lines, list, picture};
use answer::Answer;
use by_row::RowStep;
use settings::DecodeSettings;
use std::io;

// How a row is shown: not at all, as a line of the listing, or as pixels behind so many bytes of margin.
#[derive(Clone, Copy)]
pub(crate) enum Show {
    Nothing,
    Line,
    Pixels(usize),
}

// How a page ends, and how many rows of each mark come before.
#[derive(Clone, Copy)]
pub(crate) struct Counts {
    pub(crate) end: Answer,
    pub(crate) clean: u64,
    pub(crate) cut: u64,
    pub(crate) recovered: u64,
}

// "Rows never exceed 8 × bytes + 1" (01): so many calls of the row form end any page of `bytes` bytes.
pub(crate) fn calls(bytes: usize) -> usize {
    if 16777216 < bytes {
        return 0;
    }
    8 * bytes + 2
}

// Whether a call gave a row.
pub(crate) fn gave(answer: Answer) -> bool {
    answer.number == answer::MORE_TO_COME
}

fn shown(
    rt: &HostRuntime,
    how: Show,
    answer: Answer,
    row: &[u32],
    columns: u32,
    out: &mut [u8],
) -> io::Result<()> {
    match how {
        Show::Nothing => Ok(()),
        Show::Line => list::row(rt, answer, row),
        Show::Pixels(from) => picture::row(rt, answer, row, columns, out, from),
    }
}

// One row more, by its mark; a page of 16 MiB has fewer than 134,217,730 rows.
fn counted(counts: Counts, answer: Answer) -> Counts {
    let more = |rows: u64, mark: u32| rows.saturating_add(u64::from(answer.mark == mark));
    Counts {
        end: answer,
        clean: more(counts.clean, 0),
        cut: more(counts.cut, 1),
        recovered: more(counts.recovered, 2),
    }
}

// The whole page, or as much as could be written: how it ends there, and how the writing went.
pub(crate) fn page(
    rt: &HostRuntime,
    src: &[u8],
    settings: DecodeSettings,
    how: Show,
    first: &mut [u32],
    second: &mut [u32],
    out: &mut [u8],
) -> (Counts, io::Result<()>) {
    let mut counts = Counts {
        end: answer::refusal(7),
        clean: 0,
        cut: 0,
        recovered: 0,
    };
    let mut state = by_row::row_start();
    for _ in 0..calls(src.len()) {
        let step = by_row::read_row(src, settings, state, first, second);
        if !gave(step.answer) {
            return (
                Counts {
                    end: step.answer,
                    ..counts
                },
                Ok(()),
            );
        }
        counts = counted(counts, step.answer);
        state = step.state;
        let row = lines::changes(step, first, second);
        let written = shown(rt, how, step.answer, row, settings.columns, out);
        if written.is_err() {
            return (counts, written);
        }
    }
    (counts, Ok(()))
}
