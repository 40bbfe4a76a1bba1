// The listing of a page, row by row: the lines of the listing program (01), for pages that its store cannot hold.
use crate::{say, walk};
use answer::Answer;
use settings::DecodeSettings;
use std::io;

pub(crate) fn row(rt: &HostRuntime, answer: Answer, row: &[u32]) -> io::Result<()> {
    rt.write_all(b"row")?;
    say::field(rt, answer.rows)?;
    say::field(rt, u64::from(answer.mark))?;
    say::field(rt, row.len() as u64)?;
    for change in row {
        say::field(rt, u64::from(*change))?;
    }
    rt.write_all(b"\n")
}

fn stop(rt: &HostRuntime, answer: Answer) -> io::Result<()> {
    rt.write_all(b"stop")?;
    say::field(rt, u64::from(answer.number))?;
    say::field(rt, answer.rows)?;
    say::field(rt, answer.bytes)?;
    rt.write_all(b"\n")
}

fn head(rt: &HostRuntime, columns: u32) -> io::Result<()> {
    rt.write_all(b"columns")?;
    say::field(rt, u64::from(columns))?;
    rt.write_all(b"\n")
}

// How the page's reading ended, and how the writing went.
pub(crate) fn page(
    rt: &HostRuntime,
    src: &[u8],
    settings: DecodeSettings,
    first: &mut [u32],
    second: &mut [u32],
    out: &mut [u8],
) -> (Answer, io::Result<()>) {
    let headed = head(rt, settings.columns);
    let (read, written) = walk::page(rt, src, settings, walk::Show::Line, first, second, out);
    let end = read.end;
    (end, headed.and(written).and_then(|()| stop(rt, end)))
}
