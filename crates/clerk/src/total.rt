// Ledgers that several runs wrote, added up against one quota.
use crate::options::{Options, Words};
use crate::say::{Failed, Status};
use crate::{files, lines, options, room, say};
use ledger_file::AddedUp;

// The ledgers one behind the other: how many bytes and how many ledgers there are.
#[derive(Clone, Copy)]
struct Ledgers {
    bytes: usize,
    count: usize,
}

// What is wrong with a ledger by itself.
fn told_alone(rt: &HostRuntime, name: &[u8], text: &[u8], added: AddedUp) -> Failed {
    say::message(rt, b"fax: ");
    say::name(rt, name);
    say::message(rt, b", line ");
    say::message_number(rt, line_at(text, inside(text.len(), added.at)));
    if added.number == ledger_file::STANDS_TWICE {
        say::message(rt, b": this page stands in line ");
        say::message_number(rt, line_at(text, added.other));
        say::message(rt, b" too");
    } else {
        say::message(rt, words(added.number));
    }
    say::message(rt, b"\n");
    Failed
}

// Each ledger must be one by itself, so that what is wrong is told where it is.
fn check_alone(
    rt: &HostRuntime,
    name: &[u8],
    text: &[u8],
    quota: i32,
    starts: &mut [u64],
) -> Result<(), Failed> {
    if text.last().copied() != Some(b'\n') {
        return Err(say::complain_of(rt, b"", name, b": its last line is cut"));
    }
    let added = ledger_file::add_up(text, quota, starts);
    if added.number == answer::COMPLETE {
        Ok(())
    } else {
        Err(told_alone(rt, name, text, added))
    }
}

// One ledger more, behind those that were read.
fn one_more(
    rt: &HostRuntime,
    l: Ledgers,
    quota: i32,
    at: usize,
    input: &mut [u8],
    ends: &mut [u64],
    starts: &mut [u64],
) -> Result<Ledgers, Failed> {
    let mut name = room::word();
    let n = options::copy_word(rt, at, &mut name);
    let name = &name[..n];
    let bytes = files::read(rt, name, input, l.bytes).map_err(|fault| say::complain_of_file(
        rt, name, fault,
    ))?;
    let text = lines::rest(lines::front(input, bytes), l.bytes);
    check_alone(rt, name, text, quota, starts)?;
    if ends.len() <= l.count {
        let words = b"there are more ledgers than the tool holds";
        return Err(say::complain(rt, words));
    }
    ends[l.count] = bytes as u64;
    Ok(Ledgers {
        bytes,
        count: l.count + 1,
    })
}

fn all(
    rt: &HostRuntime,
    quota: i32,
    begun: Words,
    count: usize,
    input: &mut [u8],
    ends: &mut [u64],
    starts: &mut [u64],
) -> Result<Ledgers, Failed> {
    let mut words = begun;
    let mut l = Ledgers { bytes: 0, count: 0 };
    for _ in 0..count {
        let Some(at) = words.next_file(rt) else {
            break;
        };
        l = one_more(rt, l, quota, at, input, ends, starts)?;
    }
    Ok(l)
}

// The line of a place, counted from 1.
fn line_at(text: &[u8], at: usize) -> u64 {
    let mut line: u64 = 1;
    for byte in lines::front(text, at) {
        line = line.saturating_add(u64::from(*byte == b'\n'));
    }
    line
}

// Which ledger a place lies in, and where that begins.
fn found(ends: &[u64], at: usize) -> (usize, usize) {
    let mut begin = 0;
    for (ledger, end) in ends.iter().enumerate() {
        let end = *end as usize;
        if at < end {
            return (ledger, begin);
        }
        begin = end;
    }
    (ends.len(), begin)
}

// The argument that names a ledger.
fn name_of(rt: &HostRuntime, begun: Words, ledger: usize) -> Option<usize> {
    let mut words = begun;
    for _ in 0..ledger {
        words.next_file(rt);
    }
    words.next_file(rt)
}

// The ledger and the line of a place, as `parts.3, line 7`.
fn say_place(rt: &HostRuntime, text: &[u8], ends: &[u64], begun: Words, at: usize) {
    let (ledger, begin) = found(ends, at);
    let mut name = room::word();
    let n = match name_of(rt, begun, ledger) {
        Some(word) => options::copy_word(rt, word, &mut name),
        None => 0,
    };
    say::name(rt, &name[..n]);
    say::message(rt, b", line ");
    let line = line_at(lines::rest(text, begin), at.saturating_sub(begin));
    say::message_number(rt, line);
}

fn words(number: u32) -> &'static [u8] {
    match number {
        ledger_file::OTHER_TOTAL => b": the total is not that of the lines above it",
        ledger_file::NO_TOTAL => b": no total stands behind this page: the run was stopped",
        ledger_file::NO_ROOM => b": there are more pages than the tool holds",
        ledger_file::BOOKS_FULL => b": the books have no room for this page",
        _ => b": no line of a ledger",
    }
}

// A fault behind the last line is told of that line.
fn inside(bytes: usize, at: usize) -> usize {
    at.min(bytes.saturating_sub(1))
}

// What is wrong with the ledgers.
fn told(rt: &HostRuntime, text: &[u8], ends: &[u64], begun: Words, added: AddedUp) -> Failed {
    say::message(rt, b"fax: ");
    say_place(rt, text, ends, begun, inside(text.len(), added.at));
    if added.number == ledger_file::STANDS_TWICE {
        say::message(rt, b": this page stands in ");
        say_place(rt, text, ends, begun, added.other);
        say::message(rt, b" too");
    } else {
        say::message(rt, words(added.number));
    }
    say::message(rt, b"\n");
    Failed
}

// The quota, which a call needs beside a ledger.
fn needed(rt: &HostRuntime, o: Options) -> Result<i32, Failed> {
    if o.file.is_none() {
        let words = b"total needs a ledger: ./fax help total";
        return Err(say::complain(rt, words));
    }
    match o.quota {
        Some(quota) => Ok(quota),
        None => Err(say::complain(rt, b"--quota is missing")),
    }
}

fn added_up(rt: &HostRuntime, added: AddedUp) -> Result<Status, Failed> {
    let mut line = room::text();
    let n = ledger::put_total(&mut line, added.ledger);
    say::told(rt, say::piece(rt, &line, n))?;
    Ok(say::status_of_books(added.ledger))
}

// All ledgers together: no page stands in two of them.
fn of_all(
    rt: &HostRuntime,
    text: &[u8],
    ends: &[u64],
    begun: Words,
    quota: i32,
    starts: &mut [u64],
) -> Result<Status, Failed> {
    let added = ledger_file::add_up(text, quota, starts);
    if added.number != answer::COMPLETE {
        return Err(told(rt, text, ends, begun, added));
    }
    added_up(rt, added)
}

// Not compiled into its caller (main.rt, answered).
#[inline(never)]
pub(crate) fn command(
    rt: &HostRuntime,
    o: Options,
    begun: Words,
    count: usize,
    input: &mut [u8],
    starts: &mut [u64],
) -> Result<Status, Failed> {
    let quota = needed(rt, o)?;
    let mut ends = room::ends();
    let l = all(rt, quota, begun, count, input, &mut ends, starts)?;
    let text = lines::front(input, l.bytes);
    of_all(rt, text, lines::front(&ends, l.count), begun, quota, starts)
}
