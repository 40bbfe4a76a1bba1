// The words of a command: its options, and the files that it is given.
ghost use Rattle.std.specs.Prelude.{◌≤◌, length};

use crate::say::Failed;
use crate::{lines, room, say, text};
use settings::EncodingMode;
use std::env::FillError;
use std::rt::Env;

#[derive(Clone, Copy)]
pub(crate) enum Command {
    List,
    Heads,
    Picture,
    Write,
    Check,
    Total,
    Look,
}

// The options: those that are followed by a value, and those that are not; `--least` is one no more.
#[derive(Clone, Copy)]
enum Key {
    Form,
    Quota,
    From,
    SkipDone,
    Columns,
    Rows,
    Encoding,
    Fill,
    K,
    Null,
    Lenient,
    Strict,
    Exact,
    Plain,
    EndOfBlock,
    EndOfLine,
    Aligned,
    Marks,
    NoEols,
    Least,
}

// What the options say. Words are told by their place among the arguments.
#[derive(Clone, Copy, Default)]
pub(crate) struct Options {
    // The first file, and whether there are more.
    pub(crate) file: Option<usize>,
    pub(crate) has_more: bool,
    pub(crate) form: Option<usize>,
    pub(crate) from: Option<usize>,
    pub(crate) done: Option<usize>,
    pub(crate) quota: Option<i32>,
    pub(crate) columns: Option<u32>,
    pub(crate) rows: Option<u32>,
    pub(crate) encoding: Option<EncodingMode>,
    pub(crate) block: bool,
    pub(crate) line: bool,
    pub(crate) aligned: bool,
    pub(crate) lenient: bool,
    pub(crate) strict: bool,
    pub(crate) exact: bool,
    pub(crate) plain: bool,
    pub(crate) null: bool,
    pub(crate) marks: bool,
    pub(crate) fill: Option<u32>,
    pub(crate) no_eols: bool,
    pub(crate) k: Option<u32>,
}

fn is_line(text: &[u8], word: &[u8]) -> bool {
    text.starts_with(word) && lines::rest(text, word.len()).first().copied() == Some(b'\n')
}

// The number of the line at which a word stands, with the line's end behind it. Words are looked for in a text and not in a `match`, so
// that one that has ends of lines in it stays what it was.
fn line_of(text: &[u8], word: &[u8]) -> Option<usize> {
    let mut line: usize = 0;
    let mut begins = true;
    for (at, byte) in text.iter().enumerate() {
        if begins && is_line(lines::rest(text, at), word) {
            return Some(line);
        }
        begins = *byte == b'\n';
        line = line.saturating_add(usize::from(begins));
    }
    None
}

pub(crate) fn command_of(word: &[u8]) -> Option<Command> {
    let words = b"list\nheads\npicture\nwrite\ncheck\ntotal\nlook\n";
    match line_of(words, word)? {
        0 => Some(Command::List),
        1 => Some(Command::Heads),
        2 => Some(Command::Picture),
        3 => Some(Command::Write),
        4 => Some(Command::Check),
        5 => Some(Command::Total),
        6 => Some(Command::Look),
        _ => None,
    }
}

fn key_at(line: usize) -> Option<Key> {
    match line {
        0 => Some(Key::Form),
        1 => Some(Key::Quota),
        2 => Some(Key::From),
        3 => Some(Key::SkipDone),
        4 => Some(Key::Columns),
        5 => Some(Key::Rows),
        6 => Some(Key::Encoding),
        7 => Some(Key::Fill),
        8 => Some(Key::K),
        9 => Some(Key::Null),
        10 => Some(Key::Lenient),
        11 => Some(Key::Strict),
        12 => Some(Key::Exact),
        13 => Some(Key::Plain),
        14 => Some(Key::EndOfBlock),
        15 => Some(Key::EndOfLine),
        16 => Some(Key::Aligned),
        17 => Some(Key::Marks),
        18 => Some(Key::NoEols),
        19 => Some(Key::Least),
        _ => None,
    }
}

fn key_of(word: &[u8]) -> Option<Key> {
    let words =
        b"--form\n--quota\n--from\n--skip-done\n--columns\n--rows\n--encoding\n--fill\n--k\n\
        --null\n--lenient\n--strict\n--exact\n--plain\n--end-of-block\n--end-of-line\n--aligned\n\
        --marks\n--no-eols\n--least\n";
    key_at(line_of(words, word)?)
}

// How many words there are, the program's own name among them.
pub(crate) fn count(rt: &HostRuntime) -> usize {
    for at in 0..4294967296usize {
        if let Err(FillError::NotPresent) = rt.arg(at, &mut [0]) {
            return at;
        }
    }
    4294967296
}

// A word to the beginning of the memory: how many bytes it has, or 0 where it is missing or longer than the memory.
pub(crate) fn copy_word(rt: &HostRuntime, at: usize, into: &mut [u8]) -> usize
    ensures { result ≤ length into.new }
{
    match rt.arg(at, into) {
        Ok(n) => n,
        Err(_) => 0,
    }
}

// What a word is: a file, the two dashes behind which all are files, or an option, known or not.
#[derive(Clone, Copy)]
enum Word {
    File,
    Dashes,
    Option(Option<Key>),
}

fn kind(word: &[u8], after: bool) -> Word {
    if after {
        return Word::File;
    }
    match word {
        b"--" => Word::Dashes,
        [b'-', _, ..] => Word::Option(key_of(word)),
        _ => Word::File,
    }
}

fn takes_value(key: Option<Key>) -> bool {
    match key {
        Some(
            Key::Form
            | Key::Quota
            | Key::From
            | Key::SkipDone
            | Key::Columns
            | Key::Rows
            | Key::Encoding
            | Key::Fill
            | Key::K,
        ) => true,
        _ => false,
    }
}

fn is_of_page(key: Key) -> bool {
    match key {
        Key::Columns
        | Key::Rows
        | Key::Encoding
        | Key::Strict
        | Key::Exact
        | Key::Plain
        | Key::EndOfBlock
        | Key::EndOfLine
        | Key::Aligned => true,
        _ => false,
    }
}

fn is_of_heads(key: Key) -> bool {
    match key {
        Key::Form | Key::Quota | Key::From | Key::SkipDone | Key::Null | Key::Lenient => true,
        _ => is_of_page(key),
    }
}

// Whether a command has an option.
fn is_allowed(command: Command, key: Key) -> bool {
    match command {
        Command::Total => matches!(key, Key::Quota),
        Command::Write => matches!(key, Key::Encoding | Key::Fill | Key::K | Key::NoEols),
        Command::Heads => is_of_heads(key),
        Command::Look => matches!(key, Key::Form | Key::Quota | Key::Lenient) || is_of_page(key),
        Command::Picture => matches!(key, Key::Marks) || is_of_page(key),
        Command::List | Command::Check => is_of_page(key),
    }
}

// A number between two others; a message says what it must be.
fn between(
    rt: &HostRuntime,
    word: &[u8],
    value: &[u8],
    least: u32,
    most: u32,
    range: &[u8],
) -> Result<u32, Failed> {
    match text::whole(value) {
        Some(n) if least <= n && n <= most => Ok(n),
        _ => Err(say::complain_of_two(rt, b"", word, range, value, b"'")),
    }
}

fn number(rt: &HostRuntime, word: &[u8], value: &[u8]) -> Result<u32, Failed> {
    let range = b" takes a number up to 4294967295, and not '";
    between(rt, word, value, 0, 4294967295, range)
}

fn fill(rt: &HostRuntime, word: &[u8], value: &[u8]) -> Result<u32, Failed> {
    let range = b" takes a number from 0 to 64, and not '";
    between(rt, word, value, 0, 64, range)
}

fn parameter(rt: &HostRuntime, word: &[u8], value: &[u8]) -> Result<u32, Failed> {
    let range = b" takes a number from 1 to 65535, and not '";
    between(rt, word, value, 1, 65535, range)
}

fn encoding(rt: &HostRuntime, value: &[u8]) -> Result<EncodingMode, Failed> {
    match value {
        b"g4" => Ok(EncodingMode::Group4),
        b"g31d" => Ok(EncodingMode::Group3_1D),
        b"g32d" => Ok(EncodingMode::Group3_2D),
        _ => {
            let words = b"--encoding is g4, g31d or g32d, and not '";
            Err(say::complain_of(rt, words, value, b"'"))
        }
    }
}

// A number from -1000000 to 1000000, and no -0.
fn signed(value: &[u8]) -> Option<i32> {
    let digits = value.strip_prefix(b"-");
    let n = i32::try_from(text::whole(digits.unwrap_or(value))?).ok()?;
    if 1000000 < n || n == 0 && digits.is_some() {
        return None;
    }
    Some(if digits.is_some() {
        n.wrapping_neg()
    } else {
        n
    })
}

fn quota(rt: &HostRuntime, value: &[u8]) -> Result<i32, Failed> {
    let words = b"--quota takes a number from -1000000 to 1000000, and not '";
    signed(value).ok_or_else(|| say::complain_of(rt, words, value, b"'"))
}

impl Options {
    // A second value would take the place of the first in silence.
    fn has_value(&self, key: Key) -> bool {
        match key {
            Key::Form => self.form.is_some(),
            Key::Quota => self.quota.is_some(),
            Key::From => self.from.is_some(),
            Key::SkipDone => self.done.is_some(),
            Key::Columns => self.columns.is_some(),
            Key::Rows => self.rows.is_some(),
            Key::Encoding => self.encoding.is_some(),
            Key::Fill => self.fill.is_some(),
            Key::K => self.k.is_some(),
            _ => false,
        }
    }

    // An option whose value is the word at a place.
    fn set_value(
        &mut self,
        rt: &HostRuntime,
        key: Key,
        at: usize,
        word: &[u8],
        value: &[u8],
    ) -> Result<(), Failed> {
        match key {
            Key::Form => self.form = Some(at),
            Key::Quota => self.quota = Some(quota(rt, value)?),
            Key::From => self.from = Some(at),
            Key::SkipDone => self.done = Some(at),
            Key::Columns => self.columns = Some(number(rt, word, value)?),
            Key::Rows => self.rows = Some(number(rt, word, value)?),
            Key::Encoding => self.encoding = Some(encoding(rt, value)?),
            Key::Fill => self.fill = Some(fill(rt, word, value)?),
            Key::K => self.k = Some(parameter(rt, word, value)?),
            _ => {}
        }
        Ok(())
    }

    fn set_flag(&mut self, key: Key) {
        match key {
            Key::Null => self.null = true,
            Key::Lenient => self.lenient = true,
            Key::Strict => self.strict = true,
            Key::Exact => self.exact = true,
            Key::Plain => self.plain = true,
            Key::EndOfBlock => self.block = true,
            Key::EndOfLine => self.line = true,
            Key::Aligned => self.aligned = true,
            Key::Marks => self.marks = true,
            Key::NoEols => self.no_eols = true,
            _ => {}
        }
    }

    fn add_file(&mut self, at: usize) {
        match self.file {
            Some(_) => self.has_more = true,
            None => self.file = Some(at),
        }
    }
}

fn unknown(rt: &HostRuntime, key: Option<Key>, word: &[u8], command: &[u8]) -> Failed {
    if let Some(Key::Least) = key {
        let words = b"--least is no longer needed: the form's line tick says it";
        return say::complain(rt, words);
    }
    say::complain_of_two(rt, b"no option '", word, b"': ./fax help ", command, b"")
}

// The words behind those of the command: where the next one stands, how many there are, and whether the two dashes stand before it.
#[derive(Clone, Copy)]
pub(crate) struct Words {
    at: usize,
    count: usize,
    after: bool,
}

impl Words {
    pub(crate) fn begun(first: usize, count: usize) -> Words {
        Words {
            at: first,
            count,
            after: false,
        }
    }

    fn pass(&mut self, words: usize) {
        self.at = self.at.saturating_add(words);
    }

    // The value of an option is the word behind it.
    fn value(
        &self,
        rt: &HostRuntime,
        o: &mut Options,
        key: Key,
        word: &[u8],
    ) -> Result<(), Failed> {
        let next = self.at.saturating_add(1);
        if self.count <= next {
            return Err(say::complain_of(rt, b"", word, b" needs a value"));
        }
        if o.has_value(key) {
            return Err(say::complain_of(rt, b"", word, b" is given twice"));
        }
        let mut value = room::word();
        let n = copy_word(rt, next, &mut value);
        o.set_value(rt, key, next, word, &value[..n])
    }

    fn option(
        &mut self,
        rt: &HostRuntime,
        o: &mut Options,
        command: Command,
        key: Option<Key>,
        word: &[u8],
        name: &[u8],
    ) -> Result<(), Failed> {
        match key {
            Some(key) if is_allowed(command, key) => {
                if takes_value(Some(key)) {
                    self.value(rt, o, key, word)?;
                    self.pass(2);
                } else {
                    o.set_flag(key);
                    self.pass(1);
                }
                Ok(())
            }
            _ => Err(unknown(rt, key, word, name)),
        }
    }

    fn turn(
        &mut self,
        rt: &HostRuntime,
        o: &mut Options,
        command: Command,
        name: &[u8],
    ) -> Result<(), Failed> {
        let mut word = room::word();
        let n = copy_word(rt, self.at, &mut word);
        match kind(&word[..n], self.after) {
            Word::File => {
                o.add_file(self.at);
                self.pass(1);
                Ok(())
            }
            Word::Dashes => {
                self.after = true;
                self.pass(1);
                Ok(())
            }
            Word::Option(key) => self.option(rt, o, command, key, &word[..n], name),
        }
    }

    // Where the next file stands among the words, if there is one; an option is passed with its value.
    pub(crate) fn next_file(&mut self, rt: &HostRuntime) -> Option<usize> {
        for _ in 0..self.count {
            if self.count <= self.at {
                break;
            }
            let at = self.at;
            match self.kind(rt) {
                Word::File => {
                    self.pass(1);
                    return Some(at);
                }
                Word::Dashes => {
                    self.after = true;
                    self.pass(1);
                }
                Word::Option(key) => self.pass(if takes_value(key) { 2 } else { 1 }),
            }
        }
        None
    }

    fn kind(&self, rt: &HostRuntime) -> Word {
        let mut word = room::word();
        let n = copy_word(rt, self.at, &mut word);
        kind(&word[..n], self.after)
    }
}

// The options of a command whose first word has a place.
pub(crate) fn read(
    rt: &HostRuntime,
    command: Command,
    name: &[u8],
    first: usize,
    count: usize,
) -> Result<Options, Failed> {
    let mut o = Options::default();
    let mut words = Words::begun(first, count);
    for _ in 0..count {
        if count <= words.at {
            break;
        }
        words.turn(rt, &mut o, command, name)?;
    }
    Ok(o)
}
