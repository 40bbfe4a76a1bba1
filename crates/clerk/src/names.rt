// The names of the pages: those among the arguments, and then those of a list.
use crate::feed::{End, Feed, Unreadable};
use crate::files::Source;
use crate::options::Words;
use crate::{feed, lines};
use std::env::FillError;
use std::rt::Env;

// The words and the list that are left, the byte behind a name of the list, the memory for what is read ahead of it, and the last name.
#[derive(Drop)]
pub(crate) struct Names<'a> {
    words: Words,
    list: Option<Source>,
    feed: Feed,
    mark: u8,
    memory: &'a mut [u8],
    name: &'a mut [u8],
}

pub(crate) fn argument(rt: &HostRuntime, at: usize, name: &mut [u8]) -> usize {
    match rt.arg(at, name) {
        Ok(n) => n,
        Err(FillError::TooLong) => name.len(),
        Err(FillError::NotPresent) => 0,
    }
}

// The next name of the list; an empty line names nothing.
fn listed(
    feed: &mut Feed,
    list: &mut Source,
    mark: u8,
    memory: &mut [u8],
    name: &mut [u8],
) -> Result<Option<usize>, Unreadable> {
    for _ in 0..4294967296u64 {
        let Some(line) = feed.next(list, mark, memory, name)? else {
            return Ok(None);
        };
        if line.bytes != 0 || line.end != End::Mark {
            return Ok(Some(line.bytes));
        }
    }
    Err(Unreadable)
}

// Before the first name; `null` says that a zero stands behind each name of the list.
pub(crate) fn begun<'a>(
    words: Words,
    list: Option<Source>,
    null: bool,
    memory: &'a mut [u8],
    name: &'a mut [u8],
) -> Names<'a> {
    Names {
        words,
        list,
        feed: feed::begun(),
        mark: if null { 0 } else { b'\n' },
        memory,
        name,
    }
}

impl Names<'_> {
    // How many bytes the next name has, if there is one.
    pub(crate) fn next(&mut self, rt: &HostRuntime) -> Result<Option<usize>, Unreadable> {
        if let Some(at) = self.words.next_file(rt) {
            return Ok(Some(argument(rt, at, self.name)));
        }
        match &mut self.list {
            Some(list) => listed(&mut self.feed, list, self.mark, self.memory, self.name),
            None => Ok(None),
        }
    }

    // The name that came, of so many bytes.
    pub(crate) fn named(&self, bytes: usize) -> &[u8] {
        lines::front(self.name, bytes)
    }

    // Whether the standard input is the list.
    pub(crate) fn is_input(&self) -> bool {
        matches!(self.list, Some(Source::Input(_)))
    }
}
