// One question of the sample, asked and answered.
ghost use Rattle.std.specs.Prelude.{◌≤◌};

use crate::asked;
use answer::Answer;
use settings::{DecodeSettings, EncodingMode};
use std::io;

fn joined(high: u32, low: u32) -> u64 {
    u64::from(high) * 4294967296 + u64::from(low)
}

fn encoding(form: u32) -> EncodingMode {
    match form {
        0 => EncodingMode::Group4,
        1 => EncodingMode::Group3_1D,
        _ => EncodingMode::Group3_2D,
    }
}

fn settings(n: &[u32; 15]) -> DecodeSettings {
    DecodeSettings {
        columns: n[1],
        rows: n[2],
        end_of_block: n[3] == 1,
        end_of_line: n[4] == 1,
        rows_are_byte_aligned: n[5] == 1,
        encoding: encoding(n[0]),
        strict: n[6] == 1,
        exact: n[7] == 1,
        plain: n[8] == 1,
    }
}

// A question's numbers are the form (an encoding, or 3 for one line), the settings, the two halves of a line's first bit, and four lengths.
fn ask(
    n: &[u32; 15],
    src: &[u8],
    reference: &[u32],
    changes: &mut [u32],
    ends: &mut [u64],
    marks: &mut [u8],
) -> Answer {
    if n[0] == 3 {
        return one_line::read::read_line(
            src,
            joined(n[9], n[10]),
            n[1],
            n[6] == 1,
            reference,
            changes,
        );
    }
    ccitt::decode(src, settings(n), changes, ends, marks)
}

// The number, or `most`, which no question of the sample passes.
fn within(n: u32, most: usize) -> usize
    ensures { result ≤ most }
{
    most.min(n as usize)
}

// Asks with as much of each array as the question says, in the last four of its numbers: there are as many marks as row ends.
fn ask_within(
    n: &[u32; 15],
    src: &[u8],
    reference: &[u32],
    changes: &mut [u32],
    ends: &mut [u64],
    marks: &mut [u8],
) -> Answer {
    let c = within(n[11], changes.len());
    let e = within(n[12], ends.len());
    let m = within(n[12], marks.len());
    let r = within(n[13], reference.len());
    let d = within(n[14], src.len());
    ask(
        n,
        &src[..d],
        &reference[..r],
        &mut changes[..c],
        &mut ends[..e],
        &mut marks[..m],
    )
}

// An entry, or that there is none: it still has the number of those that were left alone.
fn entry(rt: &impl Print, n: u64, none: u64) -> io::Result<()> {
    if n == none {
        return print!(rt; " -");
    }
    print!(rt; " {n}")
}

// The first `n` changes, row ends or marks of an array.
fn entries<T: Copy + Into<u64>>(rt: &impl Print, array: &[T], n: u32, none: T) -> io::Result<()> {
    print!(rt; ":")?;
    for one in &array[..within(n, array.len())] {
        entry(rt, (*one).into(), none.into())?;
    }
    Ok(())
}

fn tell(rt: &impl Print, answer: Answer) -> io::Result<()> {
    let Answer {
        number,
        mark,
        rows,
        entries,
        loose,
        bytes,
        place,
    } = answer;
    print!(rt; "{number} {mark} {rows} {entries} {loose} {bytes} {place} ")
}

fn narrow(words: &[u32], out: &mut [u8]) {
    for (to, word) in out.iter_mut().zip(words) {
        *to = (*word % 256) as u8;
    }
}

// What an entry has that was left alone.
const NO_CHANGE: u32 = 4294967295;

const NO_END: u64 = 4294967295;

const NO_MARK: u8 = 255;

// Asks the question with which the input begins, and prints the answer. Answers what is left behind the question: its fifteen numbers,
// the reference, the data.
pub(crate) fn replay<'a>(rt: &impl Print, input: &'a [u8]) -> io::Result<&'a [u8]> {
    let mut n = [0u32; 15];
    let mut reference = [0u32; 32];
    let mut words = [0u32; 128];
    let mut src = [0u8; 128];
    let mut changes = [NO_CHANGE; 256];
    let mut ends = [NO_END; 64];
    let mut marks = [NO_MARK; 64];
    let behind_head = asked::numbers(input, 15, &mut n);
    let behind_reference = asked::numbers(behind_head, n[13], &mut reference);
    let next = asked::numbers(behind_reference, n[14], &mut words);
    narrow(&words, &mut src);
    let answer = ask_within(&n, &src, &reference, &mut changes, &mut ends, &mut marks);
    tell(rt, answer)?;
    entries(rt, &changes, n[11], NO_CHANGE)?;
    print!(rt; " ")?;
    entries(rt, &ends, n[12], NO_END)?;
    print!(rt; " ")?;
    entries(rt, &marks, n[12], NO_MARK)?;
    println!(rt)?;
    Ok(next)
}
