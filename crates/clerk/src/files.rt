// A file into lent memory: to its end, or why not, in the numbers of the verdicts.
use crate::say;
use std::fs::File;
use std::io::{ErrorKind, Read, Seek, SeekFrom, Write};
use std::{fs, io};

// Where bytes come from: the standard input, or a file.
#[derive(Drop)]
pub(crate) enum Source {
    Input(io::Stdin),
    Opened(File),
}

impl Read for Source {
    fn read(&mut self, into: &mut [u8]) -> io::Result<usize> {
        match self {
            Source::Input(input) => input.read(into),
            Source::Opened(file) => file.read(into),
        }
    }
}

// `-` is the standard input.
pub(crate) fn is_input(name: &[u8]) -> bool {
    matches!(name, b"-")
}

// Why a file could not be opened.
fn missing(error: io::Error) -> u32 {
    match error.kind() {
        ErrorKind::NotFound | ErrorKind::NotADirectory => ledger::NO_FILE,
        _ => ledger::UNREADABLE_FILE,
    }
}

fn by_path(rt: &HostRuntime, path: &str) -> Result<File, u32> {
    match File::open(rt, path) {
        Ok(file) => Ok(file),
        Err(error) => Err(missing(error)),
    }
}

// A name that is no UTF-8 text opens nothing. ./fax makes a link to such a file in a folder that is the program's descriptor 5, and
// answers 1 in the pipe there once it is made.
const ANSWER: &str = "/proc/self/fd/5/answer";

const LINK: &str = "/proc/self/fd/5/link";

// Asks for a link: a line with each byte of the name in octal.
fn ask(rt: &HostRuntime, name: &[u8]) -> io::Result<()> {
    let mut caller = say::caller(rt)?;
    for byte in name {
        write!(caller, "\\{byte:03o}")?;
    }
    caller.write_all(b"\n")
}

// Where nobody answers, nobody is asked.
fn link(rt: &HostRuntime, name: &[u8]) -> io::Result<bool> {
    fs::metadata(rt, ANSWER)?;
    ask(rt, name)?;
    let mut answer = [0];
    File::open(rt, ANSWER)?.read_exact(&mut answer)?;
    Ok(answer[0] == b'1')
}

fn by_link(rt: &HostRuntime, name: &[u8]) -> Result<File, u32> {
    if name.contains(&0) {
        return Err(ledger::UNREADABLE_FILE);
    }
    match link(rt, name) {
        Ok(true) => by_path(rt, LINK),
        _ => Err(ledger::UNREADABLE_FILE),
    }
}

// A file by its name, or the number of what is wrong.
fn open_file(rt: &HostRuntime, name: &[u8]) -> Result<File, u32> {
    match str::from_utf8(name) {
        Ok(path) => by_path(rt, path),
        Err(_) => by_link(rt, name),
    }
}

// What a name stands for, to be read from its beginning.
pub(crate) fn open(rt: &HostRuntime, name: &[u8]) -> Result<Source, u32> {
    if is_input(name) {
        return Ok(Source::Input(rt.stdin()));
    }
    Ok(Source::Opened(open_file(rt, name)?))
}

// One read behind so many bytes of the memory; 0 at the end of the file or of the memory.
fn turn(source: &mut Source, into: &mut [u8], at: usize) -> io::Result<usize> {
    if into.len() <= at {
        return Ok(0);
    }
    source.read(&mut into[at..])
}

// Why a read failed; an interrupted one is tried again.
fn why(error: io::Error) -> Option<u32> {
    match error.kind() {
        ErrorKind::Interrupted => None,
        ErrorKind::IsADirectory => Some(ledger::A_FOLDER),
        _ => Some(ledger::UNREADABLE_FILE),
    }
}

// The bytes from a place on, to the end of the file or of the memory: where they end, or what is wrong.
fn fill(source: &mut Source, into: &mut [u8], from: usize) -> Result<usize, u32> {
    let mut at = from;
    for _ in 0..4294967296u64 {
        match turn(source, into, at) {
            Ok(0) => return Ok(at),
            Ok(n) => at = at.saturating_add(n),
            Err(error) => {
                if let Some(fault) = why(error) {
                    return Err(fault);
                }
            }
        }
    }
    Err(ledger::UNREADABLE_FILE)
}

// Whether the file goes on behind what the memory holds.
fn goes_on(source: &mut Source) -> bool {
    source.read_exact(&mut [0]).is_ok()
}

// Whether a file has more than was read; a pipe does not say how much it has.
fn is_short(bytes: usize, size: Option<u64>) -> bool {
    match size {
        Some(size) => (bytes as u64) < size,
        None => false,
    }
}

// What was read of a file of so many bytes, up to a place.
fn judged(at: usize, longer: bool, size: Option<u64>, from: usize) -> Result<usize, u32> {
    if longer {
        return Err(ledger::LONG_FILE);
    }
    if at <= from {
        return Err(ledger::EMPTY_FILE);
    }
    if is_short(at - from, size) {
        return Err(ledger::CUT_FILE);
    }
    Ok(at)
}

// How many bytes a file has that can be gone about in; the place is its beginning again.
fn size_of(source: &mut Source) -> Option<u64> {
    let Source::Opened(file) = source else {
        return None;
    };
    let size = file.seek(SeekFrom::End(0)).ok()?;
    match file.seek(SeekFrom::Start(0)) {
        Ok(0) => Some(size),
        _ => None,
    }
}

// A whole file behind the first `from` bytes of the memory: where its bytes end, or the number of what is wrong.
pub(crate) fn read(
    rt: &HostRuntime,
    name: &[u8],
    into: &mut [u8],
    from: usize,
) -> Result<usize, u32> {
    let mut source = open(rt, name)?;
    let size = size_of(&mut source);
    let at = fill(&mut source, into, from)?;
    let longer = goes_on(&mut source);
    judged(at, longer, size, from)
}
