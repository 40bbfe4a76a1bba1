// Whether the readings of a page agree, and how its rows were read.
use crate::say::{Failed, Status};
use crate::walk::Counts;
use crate::{lines, reading, room, say, walk};
use answer::Answer;
use by_row::RowStep;
use ledger::Verdict;
use proper::Checked;
use settings::DecodeSettings;
use std::io;

// Whether two calls say the same, but for the bytes and the place.
fn agree_on(a: RowStep, row: &[u32], b: RowStep, other: &[u32]) -> bool {
    a.answer.number == b.answer.number
        && a.answer.mark == b.answer.mark
        && a.count == b.count
        && row == other
}

// Whether two readings give the same rows and marks, and stop with the same answer.
fn agree(
    src: &[u8],
    settings: DecodeSettings,
    others: DecodeSettings,
    first: &mut [u32],
    second: &mut [u32],
    third: &mut [u32],
    fourth: &mut [u32],
) -> bool {
    let mut one = by_row::row_start();
    let mut two = by_row::row_start();
    for _ in 0..walk::calls(src.len()) {
        let a = by_row::read_row(src, settings, one, first, second);
        let b = by_row::read_row(src, others, two, third, fourth);
        let row = lines::changes(a, first, second);
        if !agree_on(a, row, b, lines::changes(b, third, fourth)) {
            return false;
        }
        if !walk::gave(a.answer) {
            return true;
        }
        one = a.state;
        two = b.state;
    }
    false
}

fn counted(rt: &HostRuntime, name: &[u8], n: u64) -> io::Result<()> {
    rt.write_all(b"\t")?;
    rt.write_all(name)?;
    say::field(rt, n)
}

fn reason(rt: &HostRuntime, v: Verdict) -> io::Result<()> {
    let mut words = room::text();
    let n = ledger::put_reason(&mut words, v);
    say::bytes(rt, &words, n)
}

// How a reading ended, in the words that a page's line has for it.
fn ended(rt: &HostRuntime, answer: Answer) -> io::Result<()> {
    let v = Verdict {
        place: answer.place,
        row: answer.rows.saturating_add(1),
        ..ledger::unread(answer.number)
    };
    reason(rt, v)
}

// What another reading comes to: how it ends, and whether it agrees with the first.
#[derive(Clone, Copy)]
struct Other {
    end: Answer,
    agrees: bool,
}

fn other_reading(
    src: &[u8],
    settings: DecodeSettings,
    others: DecodeSettings,
    rt: &HostRuntime,
    out: &mut [u8],
) -> Other {
    let mut first = room::line();
    let mut second = room::line();
    let mut third = room::line();
    let mut fourth = room::line();
    let nothing = walk::Show::Nothing;
    let (read, _) = walk::page(rt, src, others, nothing, &mut third, &mut fourth, out);
    let agrees = agree(
        src,
        settings,
        others,
        &mut first,
        &mut second,
        &mut third,
        &mut fourth,
    );
    Other {
        end: read.end,
        agrees,
    }
}

fn other_told(rt: &HostRuntime, name: &[u8], other: Other) -> io::Result<()> {
    rt.write_all(name)?;
    let words: &[u8] = if other.agrees {
        b"\tagrees\t"
    } else {
        b"\tdiffers\t"
    };
    rt.write_all(words)?;
    ended(rt, other.end)
}

// The strict reading says where the first fault is.
fn fault_told(rt: &HostRuntime, strict: Answer) -> io::Result<()> {
    rt.write_all(b"fault\t")?;
    if strict.number == answer::COMPLETE {
        return rt.write_all(b"none\n");
    }
    ended(rt, strict)
}

// Whether a page is proper, or the bit at which it parts from what would be written, in the words of a page's line; of a page that is not
// read to its end neither is known. That it is not proper is no fault: not all that write pages write them alike.
fn proper_told(rt: &HostRuntime, checked: Checked) -> io::Result<()> {
    if checked.answer.number != answer::COMPLETE {
        return rt.write_all(b"proper\t-\n");
    }
    if checked.proper {
        return rt.write_all(b"proper\tyes\n");
    }
    rt.write_all(b"proper\tno\t")?;
    let v = Verdict {
        count: checked.parts,
        ..ledger::unread(ledger::NOT_PROPER)
    };
    reason(rt, v)
}

// EOLs that were given up are told, and then the page is to be looked at.
fn checked_told(rt: &HostRuntime, checked: Checked) -> io::Result<()> {
    proper_told(rt, checked)?;
    if checked.gave_up {
        rt.write_all(b"marks\t")?;
        reason(rt, ledger::unread(ledger::GAVE_UP))?;
    }
    Ok(())
}

fn checked(src: &[u8], settings: DecodeSettings, changes: &mut [u32]) -> Checked {
    let mut ends = room::ends();
    let mut marks = room::marks();
    proper::check(src, settings, changes, &mut ends, &mut marks)
}

fn rows_told(rt: &HostRuntime, read: Counts) -> io::Result<()> {
    rt.write_all(b"rows")?;
    say::field(rt, read.end.rows)?;
    counted(rt, b"clean", read.clean)?;
    counted(rt, b"cut", read.cut)?;
    counted(rt, b"recovered", read.recovered)?;
    rt.write_all(b"\n")
}

// How many bytes the page has, and how many are left behind it; of a page that is not read to its end neither is known.
fn bytes_told(rt: &HostRuntime, end: Answer, behind: u64) -> io::Result<()> {
    if end.number != answer::COMPLETE {
        return rt.write_all(b"bytes\t-\tbehind\t-\n");
    }
    rt.write_all(b"bytes")?;
    say::field(rt, end.bytes)?;
    counted(rt, b"behind", behind)?;
    rt.write_all(b"\n")
}

// Whether a page is all that it should be: read to its end, each row clean, and no byte left behind.
fn is_well(read: Counts, behind: u64) -> bool {
    read.end.number == answer::COMPLETE && read.clean == read.end.rows && behind == 0
}

fn lenient(rt: &HostRuntime, src: &[u8], settings: DecodeSettings, out: &mut [u8]) -> Counts {
    let mut first = room::line();
    let mut second = room::line();
    let nothing = walk::Show::Nothing;
    let (read, _) = walk::page(rt, src, settings, nothing, &mut first, &mut second, out);
    read
}

// How many rows are clean, cut and recovered where the page is read leniently, how many bytes it has, and how that ends.
fn lenient_told(rt: &HostRuntime, read: Counts, behind: u64) -> io::Result<()> {
    rows_told(rt, read)?;
    bytes_told(rt, read.end, behind)?;
    rt.write_all(b"lenient\tread\t")?;
    ended(rt, read.end)
}

// Whether the three other readings agree with the first, and the strict one finds no fault.
fn others(rt: &HostRuntime, src: &[u8], base: DecodeSettings, out: &mut [u8]) -> io::Result<bool> {
    let as_strict = DecodeSettings {
        strict: true,
        ..base
    };
    let as_exact = DecodeSettings {
        exact: true,
        ..as_strict
    };
    let as_plain = DecodeSettings {
        plain: true,
        ..base
    };
    let strict = other_reading(src, base, as_strict, rt, out);
    other_told(rt, b"strict", strict)?;
    let exact = other_reading(src, base, as_exact, rt, out);
    other_told(rt, b"exact", exact)?;
    let plain = other_reading(src, base, as_plain, rt, out);
    other_told(rt, b"plain", plain)?;
    fault_told(rt, strict.end)?;
    let agree = strict.agrees && exact.agrees && plain.agrees;
    Ok(agree && strict.end.number == answer::COMPLETE)
}

// What is told behind the lenient reading; whether all is well.
fn behind_lenient(
    rt: &HostRuntime,
    src: &[u8],
    base: DecodeSettings,
    changes: &mut [u32],
    out: &mut [u8],
) -> io::Result<bool> {
    let agree = others(rt, src, base, out)?;
    let checked = checked(src, base, changes);
    checked_told(rt, checked)?;
    Ok(agree && !checked.gave_up)
}

pub(crate) fn page(
    rt: &HostRuntime,
    src: &[u8],
    settings: DecodeSettings,
    name: &[u8],
    changes: &mut [u32],
    out: &mut [u8],
) -> Result<Status, Failed> {
    let base = DecodeSettings {
        strict: false,
        exact: false,
        plain: false,
        ..settings
    };
    let read = lenient(rt, src, base, out);
    let behind = (src.len() as u64).saturating_sub(read.end.bytes);
    let begun = lenient_told(rt, read, behind);
    // A page whose lines cannot be written is hinted at all the same.
    reading::hint(rt, src, settings, read.end.number, read.end.place, name);
    let told = begun.and_then(|()| behind_lenient(rt, src, base, changes, out));
    match told {
        Ok(others) if others && is_well(read, behind) => Ok(Status::Well),
        Ok(_) => Ok(Status::Look),
        Err(_) => Err(say::unwritten(rt)),
    }
}
