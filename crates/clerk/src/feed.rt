// The lines of a file that may be long: names of pages, and the lines of a ledger, one at a time.
use crate::files::Source;
use crate::lines;
use std::io::Read;

// Where the next bytes are: read already, from `from` to `to` in the lent memory, or still in the file.
#[derive(Clone, Copy)]
pub(crate) struct Feed {
    from: usize,
    to: usize,
}

// What ends a line: its mark, the file, or the memory for it, which is shorter than the line.
#[derive(Clone, Copy, PartialEq, Eq)]
pub(crate) enum End {
    Mark,
    File,
    Memory,
}

// A line in its memory: how many bytes of it there are, and what ends it.
#[derive(Clone, Copy)]
pub(crate) struct Line {
    pub(crate) bytes: usize,
    pub(crate) end: End,
}

// The file cannot be read on.
#[derive(Clone, Copy)]
pub(crate) struct Unreadable;

// Before the first byte.
pub(crate) fn begun() -> Feed {
    Feed { from: 0, to: 0 }
}

impl Feed {
    // The next byte, with more bytes of the file if none are left; none at its end.
    fn byte(&mut self, source: &mut Source, memory: &mut [u8]) -> Result<Option<u8>, Unreadable> {
        if self.to <= self.from {
            let Ok(n) = source.read(memory) else {
                return Err(Unreadable);
            };
            self.from = 0;
            self.to = n;
        }
        let byte = lines::front(memory, self.to).get(self.from).copied();
        self.from = self.from.saturating_add(1);
        Ok(byte)
    }

    // The next line, up to its mark, into `line`; none behind the last. Of one that is longer, as much as there is room for.
    pub(crate) fn next(
        &mut self,
        source: &mut Source,
        mark: u8,
        memory: &mut [u8],
        line: &mut [u8],
    ) -> Result<Option<Line>, Unreadable> {
        let mut bytes = 0;
        let mut end = End::Mark;
        for _ in 0..4294967296u64 {
            let Some(byte) = self.byte(source, memory)? else {
                return Ok(last(bytes));
            };
            if byte == mark {
                return Ok(Some(Line { bytes, end }));
            }
            if bytes < line.len() {
                line[bytes] = byte;
                bytes += 1;
            } else {
                end = End::Memory;
            }
        }
        Err(Unreadable)
    }
}

// What the end of the file makes of the bytes before it.
fn last(bytes: usize) -> Option<Line> {
    if bytes == 0 {
        return None;
    }
    Some(Line {
        bytes,
        end: End::File,
    })
}
