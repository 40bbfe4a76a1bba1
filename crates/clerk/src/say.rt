// What the program says: its answers on the standard output, and messages on standard error. Behind a write to the output that failed
// nothing is written, and the command ends with status 2.
use crate::lines;
use ledger::Ledger;
use std::fs::{File, OpenOptions};
use std::io::ErrorKind;
use std::{fs, io};

// The answer of a command: all is well, or a page is to be looked at or the quota is passed.
#[derive(Clone, Copy)]
pub(crate) enum Status {
    Well,
    Look,
}

// There is no answer; why was said.
#[derive(Clone, Copy)]
pub(crate) struct Failed;

pub(crate) fn status_of_books(b: Ledger) -> Status {
    if ledger::status(b) == 0 {
        Status::Well
    } else {
        Status::Look
    }
}

// Descriptors by their names: the standard output, and descriptor 3, on which ./fax listens to the program.
const OUTPUT: &str = "/proc/self/fd/1";

const CALLER: &str = "/proc/self/fd/3";

// What is there already, where it is a file, stays.
fn descriptor(rt: &HostRuntime, path: &str) -> io::Result<File> {
    OpenOptions::new().append(true).open(rt, path)
}

pub(crate) fn caller(rt: &HostRuntime) -> io::Result<File> {
    descriptor(rt, CALLER)
}

// The first `n` bytes.
pub(crate) fn bytes(rt: &HostRuntime, out: &[u8], n: usize) -> io::Result<()> {
    rt.write_all(lines::front(out, n))
}

// A piece that a proved function put into `out`; it is never empty, and 0 says that it had no room.
pub(crate) fn piece(rt: &HostRuntime, out: &[u8], n: usize) -> io::Result<()> {
    if n == 0 {
        return Err(io::Error::from(ErrorKind::StorageFull));
    }
    bytes(rt, out, n)
}

pub(crate) fn field(rt: &HostRuntime, n: u64) -> io::Result<()> {
    rt.write_all(b"\t")?;
    rt.print(n)
}

// A byte that moves a terminal's cursor is shown as `?`, as in a page's line.
fn shown(byte: u8) -> u8 {
    if byte < 32 || byte == 127 { b'?' } else { byte }
}

fn quoted(name: &[u8]) -> [u8; 4096] {
    let mut space = [0u8; 4096];
    for (to, byte) in space.iter_mut().zip(name) {
        *to = shown(*byte);
    }
    space
}

// A part of a message. A message is one line on standard error; where that cannot be written, there is nobody to tell.
pub(crate) fn message(rt: &HostRuntime, words: &[u8]) {
    let _ = rt.stderr().write_all(words);
}

pub(crate) fn message_number(rt: &HostRuntime, n: u64) {
    let _ = rt.stderr().print(n);
}

// A name, or a word that was given.
pub(crate) fn name(rt: &HostRuntime, name: &[u8]) {
    let space = quoted(name);
    message(rt, lines::front(&space, name.len()));
}

pub(crate) fn complain(rt: &HostRuntime, words: &[u8]) -> Failed {
    message(rt, b"fax: ");
    message(rt, words);
    message(rt, b"\n");
    Failed
}

pub(crate) fn complain_of(rt: &HostRuntime, words: &[u8], of: &[u8], more: &[u8]) -> Failed {
    message(rt, b"fax: ");
    message(rt, words);
    name(rt, of);
    message(rt, more);
    message(rt, b"\n");
    Failed
}

pub(crate) fn complain_of_two(
    rt: &HostRuntime,
    words: &[u8],
    of: &[u8],
    between: &[u8],
    other: &[u8],
    more: &[u8],
) -> Failed {
    message(rt, b"fax: ");
    message(rt, words);
    name(rt, of);
    message(rt, between);
    name(rt, other);
    message(rt, more);
    message(rt, b"\n");
    Failed
}

pub(crate) fn complain_with(rt: &HostRuntime, words: &[u8], n: u64, more: &[u8]) -> Failed {
    message(rt, b"fax: ");
    message(rt, words);
    message_number(rt, n);
    message(rt, more);
    message(rt, b"\n");
    Failed
}

// A file that cannot be used, in the words that a page's line has for it.
pub(crate) fn complain_of_file(rt: &HostRuntime, of: &[u8], number: u32) -> Failed {
    let mut words = [0u8; 1024];
    let n = ledger::put_reason(&mut words, ledger::unread(number));
    reason(rt, of, &words, n)
}

// `NAME: A: reason`; the reason ends with its line feed.
pub(crate) fn reason(rt: &HostRuntime, of: &[u8], words: &[u8], n: usize) -> Failed {
    message(rt, b"fax: ");
    name(rt, of);
    message(rt, b": ");
    message(rt, lines::front(words, n));
    Failed
}

// Whether what was written is kept, where it is a file: some file systems tell only as they store it that they have no room.
pub(crate) fn keep(rt: &HostRuntime) -> io::Result<()> {
    match fs::metadata(rt, OUTPUT) {
        Ok(found) if found.is_file() => {}
        _ => return Ok(()),
    }
    match descriptor(rt, OUTPUT) {
        Ok(file) => file.sync_data(),
        Err(_) => Ok(()),
    }
}

pub(crate) fn unwritten(rt: &HostRuntime) -> Failed {
    complain(rt, b"the output cannot be written")
}

// What could not be written is told, once.
pub(crate) fn told(rt: &HostRuntime, written: io::Result<()>) -> Result<(), Failed> {
    written.map_err(|_| unwritten(rt))
}
