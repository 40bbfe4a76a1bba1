// The desk's program behind ./fax: it takes its words and its files, hands their bytes to the proved functions, and writes what these
// say. The words are the room that there is (`large`: a stack of 64 MiB, `small`: that of any process), the command, its options and
// its files. Its status is no exit status, which a program that fails has too: once all was written, it is written to descriptor 3, so
// that a run that ended in any other way has none.
#![tactic(auto)]

mod check;
mod desk;
mod done;
mod drawing;
mod feed;
mod files;
mod lines;
mod list;
mod names;
mod one;
mod options;
mod pbm;
mod picture;
mod reading;
mod room;
mod say;
mod text;
mod total;
mod view;
mod walk;
mod write;

use options::{Command, Options, Words};
use say::{Failed, Status};
use std::io::Write;

// Behind the program's own name: the room, the command, and its words.
const ROOM: usize = 1;

const COMMAND: usize = 2;

const FIRST: usize = 3;

// A command in the room that was chosen: room for a page's bytes, its changes, a page that is written, and the lines of ledgers.
// No command is compiled into this function, where the largest of them would make the frame of all.
fn answered(
    rt: &HostRuntime,
    command: Command,
    o: Options,
    word: &[u8],
    input: &mut [u8],
    changes: &mut [u32],
    out: &mut [u8],
    starts: &mut [u64],
) -> Result<Status, Failed> {
    let count = options::count(rt);
    let words = Words::begun(FIRST, count);
    match command {
        Command::Heads => desk::command(rt, o, words, input, changes),
        Command::Total => total::command(rt, o, words, count, input, starts),
        Command::Look => view::command(rt, o, words, input, changes, out),
        Command::Write => one::bitmap(rt, o, word, input, changes, out),
        Command::List | Command::Picture | Command::Check => {
            one::page(rt, command, o, word, input, changes, out)
        }
    }
}

// Arrays lie on the stack, of which a system gives 8 MiB where nobody asks for more: a page of ordinary size needs no more than that.
// Neither room is compiled into its caller, whose frame must be small.
#[inline(never)]
fn large(rt: &HostRuntime, command: Command, o: Options, word: &[u8]) -> Result<Status, Failed> {
    let mut input = room::large_input();
    let mut changes = room::large_changes();
    let mut out = room::large_out();
    let mut starts = room::large_starts();
    answered(
        rt,
        command,
        o,
        word,
        &mut input,
        &mut changes,
        &mut out,
        &mut starts,
    )
}

#[inline(never)]
fn small(rt: &HostRuntime, command: Command, o: Options, word: &[u8]) -> Result<Status, Failed> {
    let mut input = room::input();
    let mut changes = room::changes();
    let mut out = room::out();
    let mut starts = room::ends();
    answered(
        rt,
        command,
        o,
        word,
        &mut input,
        &mut changes,
        &mut out,
        &mut starts,
    )
}

fn is_large(rt: &HostRuntime) -> bool {
    let mut word = room::word();
    let n = options::copy_word(rt, ROOM, &mut word);
    matches!(&word[..n], b"large")
}

fn asked(rt: &HostRuntime, word: &[u8]) -> Result<Status, Failed> {
    let Some(command) = options::command_of(word) else {
        return Err(say::complain_of(rt, b"no command '", word, b"': ./fax help"));
    };
    let o = options::read(rt, command, word, FIRST, options::count(rt))?;
    if is_large(rt) {
        large(rt, command, o, word)
    } else {
        small(rt, command, o, word)
    }
}

// What was written is kept, or there is no answer.
fn kept(rt: &HostRuntime, status: Status) -> Result<Status, Failed> {
    say::told(rt, say::keep(rt))?;
    Ok(status)
}

fn digit(status: Result<Status, Failed>) -> &'static [u8] {
    match status {
        Ok(Status::Well) => b"0",
        Ok(Status::Look) => b"1",
        Err(Failed) => b"2",
    }
}

fn main(rt: HostRuntime) {
    let mut word = room::word();
    let n = options::copy_word(&rt, COMMAND, &mut word);
    let answer = asked(&rt, &word[..n]);
    let status = answer.and_then(|status| kept(&rt, status));
    // The status goes to its descriptor once all is written and kept. Where there is none, nobody asks for it.
    if let Ok(mut caller) = say::caller(&rt) {
        let _ = caller.write_all(digit(status));
    }
}
