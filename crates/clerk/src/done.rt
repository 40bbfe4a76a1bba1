// What a stopped run has done: the lines of its ledger are those of the first pages, and are written again as they stand, so that the
// two runs write together what one would have written.
use crate::feed::{End, Feed, Line};
use crate::files::Source;
use crate::names::Names;
use crate::say::Failed;
use crate::{feed, lines, room, say};
use ledger::Ledger;

// A run so far: the books, and how many pages there were.
#[derive(Clone, Copy)]
pub(crate) struct Run {
    pub(crate) ledger: Ledger,
    pub(crate) pages: u64,
}

// Before the first page.
pub(crate) fn books(quota: i32) -> Ledger {
    Ledger {
        quota,
        heads: 0,
        pages: 0,
        looked: 0,
    }
}

pub(crate) fn begun(quota: i32) -> Run {
    Run {
        ledger: books(quota),
        pages: 0,
    }
}

impl Run {
    // The run with one page more, and the books behind it.
    pub(crate) fn with(self, ledger: Ledger) -> Run {
        Run {
            ledger,
            pages: self.pages.saturating_add(1),
        }
    }
}

// A line that is not that of the page whose turn it is.
fn misfit(rt: &HostRuntime, run: Run) -> Failed {
    say::complain_with(
        rt,
        b"line ",
        run.pages.saturating_add(1),
        b" of the ledger of --skip-done is not that of this page, with this quota",
    )
}

fn write_again(rt: &HostRuntime, line: &[u8]) -> Result<(), Failed> {
    say::told(rt, rt.write_all(line))?;
    say::told(rt, rt.write_all(b"\n"))
}

// The line of the next page is written again as it stands, if it is that of the page.
fn kept(rt: &HostRuntime, run: Run, names: &mut Names<'_>, line: &[u8]) -> Result<Run, Failed> {
    let Ok(Some(bytes)) = names.next(rt) else {
        return Err(misfit(rt, run));
    };
    let resumed = ledger_file::resume(line, names.named(bytes), run.ledger);
    if !resumed.good {
        return Err(misfit(rt, run));
    }
    write_again(rt, line)?;
    Ok(run.with(resumed.ledger))
}

// Whether a line is one of a page that was done: a last one that was cut is done anew, and the total's ends a ledger.
fn is_done(end: End, line: &[u8]) -> bool {
    end == End::Mark && !line.starts_with(b"total\t")
}

// The next line of the ledger, if it is one of a page that was done.
fn next_done(
    rt: &HostRuntime,
    ledger: &mut Source,
    feed: &mut Feed,
    memory: &mut [u8],
    line: &mut [u8],
) -> Result<Option<usize>, Failed> {
    let Ok(next) = feed.next(ledger, b'\n', memory, line) else {
        let words = b"the ledger of --skip-done cannot be read";
        return Err(say::complain(rt, words));
    };
    match next {
        Some(Line { bytes, end }) if is_done(end, lines::front(line, bytes)) => Ok(Some(bytes)),
        _ => Ok(None),
    }
}

// The run behind the pages that a ledger has; where there is no ledger, the run as it is.
pub(crate) fn skipped(
    rt: &HostRuntime,
    ledger: Option<Source>,
    names: &mut Names<'_>,
    begun: Run,
    line: &mut [u8],
) -> Result<Run, Failed> {
    let Some(mut ledger) = ledger else {
        return Ok(begun);
    };
    let mut memory = room::memory();
    let mut feed = feed::begun();
    let mut run = begun;
    for _ in 0..4294967296u64 {
        let Some(bytes) = next_done(rt, &mut ledger, &mut feed, &mut memory, line)? else {
            break;
        };
        run = kept(rt, run, names, lines::front(line, bytes))?;
    }
    Ok(run)
}
