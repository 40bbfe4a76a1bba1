// A bitmap as a page, by the proved writers, and read back before it is handed over.
use crate::say::{Failed, Status};
use crate::{lines, pbm, say, walk};
use answer::Answer;
use settings::{DecodeSettings, EncodingMode};

// How a page is coded: zeros before each EOL, whether there are EOLs (both of 1D pages), and K of 2D ones.
#[derive(Clone, Copy)]
pub(crate) struct Coding {
    pub(crate) encoding: EncodingMode,
    pub(crate) fill: u32,
    pub(crate) eols: bool,
    pub(crate) k: u32,
}

impl Coding {
    fn written(self, columns: u32, changes: &[u32], ends: &[u64], out: &mut [u8]) -> Answer {
        match self.encoding {
            EncodingMode::Group4 => writer::write_page(columns, changes, ends, out),
            EncodingMode::Group3_1D => {
                writer::write_group3_1d(columns, changes, ends, self.eols, self.fill, out)
            }
            EncodingMode::Group3_2D => {
                writer::write_group3_2d(columns, changes, ends, self.k, out)
            }
        }
    }

    // The settings under which 02 (demand 3, A3, A10) says that a page gives back its rows.
    fn settings(self, columns: u32, rows: u32) -> DecodeSettings {
        let (end_of_block, end_of_line) = match self.encoding {
            EncodingMode::Group4 => (true, false),
            EncodingMode::Group3_1D => (self.eols, self.eols),
            EncodingMode::Group3_2D => (true, true),
        };
        DecodeSettings {
            columns,
            rows,
            end_of_block,
            end_of_line,
            rows_are_byte_aligned: false,
            encoding: self.encoding,
            strict: true,
            exact: false,
            plain: false,
        }
    }
}

// Whether a row that was read is the store's from `base` to `end`.
fn is_row(changes: &[u32], base: usize, end: usize, row: &[u32]) -> bool {
    match changes.get(base..end) {
        Some(kept) => kept == row,
        None => false,
    }
}

// Whether the page gives back the rows of the store, and its length.
fn reads_back(
    src: &[u8],
    settings: DecodeSettings,
    changes: &[u32],
    row_ends: &[u64],
    first: &mut [u32],
    second: &mut [u32],
) -> bool {
    let mut state = by_row::row_start();
    let mut base = 0;
    for end in row_ends {
        let end = *end as usize;
        let step = by_row::read_row(src, settings, state, first, second);
        let row = lines::changes(step, first, second);
        if !walk::gave(step.answer) || !is_row(changes, base, end, row) {
            return false;
        }
        base = end;
        state = step.state;
    }
    let last = by_row::read_row(src, settings, state, first, second).answer;
    last.number == answer::COMPLETE && last.bytes == src.len() as u64
}

// Hands a page over, if it reads back.
fn hand_over(
    rt: &HostRuntime,
    page: &[u8],
    settings: DecodeSettings,
    changes: &[u32],
    ends: &[u64],
    first: &mut [u32],
    second: &mut [u32],
) -> Result<Status, Failed> {
    if !reads_back(page, settings, changes, ends, first, second) {
        let words = b"the page does not read back, and is not handed over";
        return Err(say::complain(rt, words));
    }
    say::told(rt, rt.write_all(page))?;
    Ok(Status::Well)
}

// The rows of a store as a page.
fn rows_as_page(
    rt: &HostRuntime,
    coding: Coding,
    columns: u32,
    rows: u32,
    changes: &[u32],
    ends: &[u64],
    first: &mut [u32],
    second: &mut [u32],
    out: &mut [u8],
) -> Result<Status, Failed> {
    let said = coding.written(columns, changes, ends, out);
    if said.number != answer::COMPLETE {
        let words = b"the page was not written: answer ";
        return Err(say::complain_with(rt, words, u64::from(said.number), b""));
    }
    hand_over(
        rt,
        lines::front(out, said.bytes as usize),
        coding.settings(columns, rows),
        changes,
        ends,
        first,
        second,
    )
}

// Why a bitmap's rows could not be taken.
fn told(rt: &HostRuntime, fault: pbm::Fault) -> Failed {
    match fault {
        pbm::Fault::Pixels => say::complain(
            rt,
            b"the bitmap has fewer pixels than its width and height say, or something else among them",
        ),
        pbm::Fault::Room => say::complain(
            rt,
            b"the bitmap has more changes of colour, or rows, than the tool holds",
        ),
    }
}

pub(crate) fn page(
    rt: &HostRuntime,
    src: &[u8],
    coding: Coding,
    changes: &mut [u32],
    ends: &mut [u64],
    first: &mut [u32],
    second: &mut [u32],
    out: &mut [u8],
) -> Result<Status, Failed> {
    let Some(head) = pbm::head(src) else {
        return Err(say::complain(
            rt,
            b"no bitmap: a PBM begins with P1 or P4, its width and its height, each from 1 to 65536",
        ));
    };
    pbm::rows(head, changes, ends).map_err(|fault| told(rt, fault))?;
    rows_as_page(
        rt,
        coding,
        head.columns,
        head.rows,
        changes,
        lines::front(ends, head.rows as usize),
        first,
        second,
        out,
    )
}
