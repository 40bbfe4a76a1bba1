// A page as a portable bitmap (PBM, P4): 1 is black, each row begins at a byte.
use crate::say::{Failed, Status};
use crate::{pbm, reading, say, walk};
use answer::Answer;
use settings::DecodeSettings;
use std::io;
use std::io::ErrorKind;

// The pixels of a row from a byte on, black as 1; what is behind its width in its last byte is white. False where they do not fit.
fn paint(row: &[u32], columns: u32, out: &mut [u8], from: usize) -> bool {
    if out.len() < from {
        return false;
    }
    let ends = [row.len() as u64];
    let stride = pbm::row_bytes(columns) as u64;
    let painted = bitmap::paint(columns, row, &ends, true, stride, &mut out[from..]);
    painted.number == answer::COMPLETE
}

// Twelve of the sixteen pixels of a margin are black beside a row that is not clean.
fn margin(out: &mut [u8], from: usize, clean: bool) {
    if from != 2 || out.len() < 2 {
        return;
    }
    out[0] = if clean { 0 } else { 0b1111_1111 };
    out[1] = if clean { 0 } else { 0b1111_0000 };
}

// The width of a picture: a margin of sixteen pixels has two bytes.
fn width(columns: u32, from: usize) -> u32 {
    if from == 0 {
        return columns;
    }
    if columns < 4294967280 {
        columns + 16
    } else {
        columns
    }
}

pub(crate) fn row(
    rt: &HostRuntime,
    answer: Answer,
    row: &[u32],
    columns: u32,
    out: &mut [u8],
    from: usize,
) -> io::Result<()> {
    margin(out, from, answer.mark == 0);
    if !paint(row, columns, out, from) {
        return Err(io::Error::from(ErrorKind::StorageFull));
    }
    say::bytes(rt, out, pbm::row_bytes(width(columns, from)))
}

fn head(rt: &HostRuntime, width: u32, rows: u64) -> io::Result<()> {
    rt.write_all(b"P4\n")?;
    rt.print(width)?;
    rt.write_all(b" ")?;
    rt.print(rows)?;
    rt.write_all(b"\n")
}

fn painted(
    rt: &HostRuntime,
    src: &[u8],
    settings: DecodeSettings,
    rows: u64,
    from: usize,
    first: &mut [u32],
    second: &mut [u32],
    out: &mut [u8],
) -> io::Result<()> {
    head(rt, width(settings.columns, from), rows)?;
    let show = walk::Show::Pixels(from);
    let (_, written) = walk::page(rt, src, settings, show, first, second, out);
    written
}

// A page that is not read to its end is shown as far as it was read, and that is told.
fn status_for(rt: &HostRuntime, number: u32) -> Status {
    if number == answer::COMPLETE {
        return Status::Well;
    }
    say::complain_with(
        rt,
        b"the page is not read to its end, answer ",
        u64::from(number),
        b": the picture has the rows before that",
    );
    Status::Look
}

// A picture has 1 to 65,536 rows, as many as `pbm` reads.
fn check_rows(rt: &HostRuntime, rows: u64) -> Result<(), Failed> {
    match rows {
        0 => Err(say::complain(rt, b"there is no row to show")),
        1..=65536 => Ok(()),
        _ => Err(say::complain(rt, b"a picture has at most 65536 rows")),
    }
}

fn check_columns(rt: &HostRuntime, columns: u32) -> Result<(), Failed> {
    match columns {
        0 => Err(say::complain(rt, b"a picture has at least one column")),
        1..=65536 => Ok(()),
        _ => Err(say::complain(rt, b"a picture has at most 65536 columns")),
    }
}

// How the page ends is read before it is painted, as a bitmap begins with its number of rows.
pub(crate) fn page(
    rt: &HostRuntime,
    src: &[u8],
    settings: DecodeSettings,
    marks: bool,
    name: &[u8],
    first: &mut [u32],
    second: &mut [u32],
    out: &mut [u8],
) -> Result<Status, Failed> {
    check_columns(rt, settings.columns)?;
    let (read, _) = walk::page(rt, src, settings, walk::Show::Nothing, first, second, out);
    let end = read.end;
    reading::hint(rt, src, settings, end.number, end.place, name);
    check_rows(rt, end.rows)?;
    let status = status_for(rt, end.number);
    let from = if marks { 2 } else { 0 };
    let written = painted(rt, src, settings, end.rows, from, first, second, out);
    say::told(rt, written)?;
    Ok(status)
}
