// The heads on the pages of a call, one after the other (02, A11): each page's line is written as soon as the page was read.
use crate::done::Run;
use crate::files::Source;
use crate::names::Names;
use crate::options::{Options, Words};
use crate::say::{Failed, Status};
use crate::{done, files, lines, names, options, reading, room, say};
use ledger::{Entered, Ledger, Verdict};
use settings::{DecodeSettings, EncodingMode};
use std::io::IsTerminal;

// How the form's pages are read: as the desk does, or as the options ask; crate `booking` has the numbers.
pub(crate) fn how(o: Options) -> u32 {
    if o.lenient {
        booking::reading::LENIENTLY
    } else if o.exact {
        EXACTLY
    } else if o.strict {
        booking::reading::STRICTLY
    } else {
        booking::reading::AS_THE_DESK
    }
}

const EXACTLY: u32 = 3;

// What every page of a call is read with: the options and the form. The room for a page's bytes and its changes is lent beside it: the
// check does not cover a call that lends a field of a struct and reads another.
#[derive(Clone, Copy)]
struct Desk<'a> {
    rt: &'a HostRuntime,
    o: Options,
    form: &'a [u8],
}

// A page that cannot be read is entered too, and takes nothing off.
fn unread(number: u32, name: &[u8], b: Ledger, line: &mut [u8]) -> Entered {
    ledger::enter(line, name, ledger::unread(number), b)
}

impl Desk<'_> {
    // The verdict on a page whose bytes are at hand.
    fn judged(
        self,
        settings: DecodeSettings,
        src: &[u8],
        name: &[u8],
        b: Ledger,
        changes: &mut [u32],
        line: &mut [u8],
    ) -> Entered {
        let mut boxes = [0u32; 80];
        let mut places = room::places();
        let mut ends = room::ends();
        let mut marks = room::marks();
        let booked = booking::book_page(
            self.form,
            src,
            how(self.o),
            settings,
            name,
            b,
            &mut boxes,
            &mut places,
            changes,
            &mut ends,
            &mut marks,
            line,
        );
        let verdict = booked.verdict;
        reading::hint(self.rt, src, settings, verdict.number, verdict.place, name);
        Entered {
            ledger: booked.ledger,
            text: booked.text,
        }
    }

    // `taken` says that the page is the standard input, which is the list of the pages too.
    fn page(
        self,
        taken: bool,
        name: &[u8],
        b: Ledger,
        input: &mut [u8],
        changes: &mut [u32],
        line: &mut [u8],
    ) -> Entered {
        let Some(settings) = reading::settle(self.o, name, 0) else {
            return unread(ledger::NO_ENCODING, name, b, line);
        };
        if taken {
            return unread(ledger::UNREADABLE_FILE, name, b, line);
        }
        match files::read(self.rt, name, input, 0) {
            Ok(bytes) => {
                let src = lines::front(input, bytes);
                self.judged(settings, src, name, b, changes, line)
            }
            Err(fault) => unread(fault, name, b, line),
        }
    }

    // The next page, if there is one: the run behind it.
    fn turn(
        self,
        names: &mut Names<'_>,
        run: Run,
        input: &mut [u8],
        changes: &mut [u32],
        line: &mut [u8],
    ) -> Result<Option<Run>, Failed> {
        let Ok(next) = names.next(self.rt) else {
            let words = b"the list of the pages cannot be read";
            return Err(say::complain(self.rt, words));
        };
        let Some(bytes) = next else {
            return Ok(None);
        };
        let name = names.named(bytes);
        let taken = names.is_input() && files::is_input(name);
        let entered = self.page(taken, name, run.ledger, input, changes, line);
        let told = told(self.rt, entered, line);
        progress(self.rt, entered.ledger, line);
        told?;
        Ok(Some(run.with(entered.ledger)))
    }

    // The pages, behind those that a stopped run has done.
    fn turns(
        self,
        quota: i32,
        names: &mut Names<'_>,
        ledger: Option<Source>,
        input: &mut [u8],
        changes: &mut [u32],
        line: &mut [u8],
    ) -> Result<Run, Failed> {
        let mut run = done::skipped(self.rt, ledger, names, done::begun(quota), line)?;
        for _ in 0..4294967296u64 {
            match self.turn(names, run, input, changes, line)? {
                Some(next) => run = next,
                None => break,
            }
        }
        Ok(run)
    }
}

// A page's line is written, or the run ends here.
fn told(rt: &HostRuntime, entered: Entered, line: &[u8]) -> Result<(), Failed> {
    if entered.text == 0 {
        let words = b"the books have no room for a page more";
        return Err(say::complain(rt, words));
    }
    cleared(rt);
    say::told(rt, say::bytes(rt, line, entered.text))
}

fn is_watched(rt: &HostRuntime) -> bool {
    rt.stderr().is_terminal()
}

// The line of the terminal is emptied, so that nothing of the progress is left on it.
fn cleared(rt: &HostRuntime) {
    if is_watched(rt) {
        say::message(rt, b"\r\x1b[K");
    }
}

// Where a terminal shows standard error, it shows the total so far, on one line that the next one overwrites.
fn progress(rt: &HostRuntime, b: Ledger, line: &mut [u8]) {
    if !is_watched(rt) {
        return;
    }
    let n = ledger::put_total(line, b);
    if n == 0 {
        return;
    }
    say::message(rt, lines::front(line, n - 1));
    say::message(rt, b"\r");
}

// The total's line, once every page has its own.
fn ended(rt: &HostRuntime, run: Run, line: &mut [u8]) -> Result<Status, Failed> {
    let b = run.ledger;
    if u64::from(b.pages) != run.pages {
        return Err(say::complain(rt, b"there are not as many lines as pages"));
    }
    let n = ledger::put_total(line, b);
    say::told(rt, say::piece(rt, line, n))?;
    Ok(say::status_of_books(b))
}

// Whether a verdict is on the form itself, whatever the page.
fn is_of_form(number: u32) -> bool {
    ledger::NO_FORM_LINE <= number && number <= ledger::LONG_FORM
}

// The verdict on no bytes at all is that on the form, where this has a fault.
fn on_form(o: Options, text: &[u8]) -> Verdict {
    let mut boxes = [0u32; 80];
    let mut places = room::places();
    let mut changes = [0u32; 1];
    let mut ends = [0u64; 1];
    let mut marks = [0u8; 1];
    let settings = reading::settings(o, EncodingMode::Group4, true, true, 0);
    booking::verdict_on(
        text,
        b"",
        how(o),
        settings,
        &mut boxes,
        &mut places,
        &mut changes,
        &mut ends,
        &mut marks,
    )
}

// What is wrong with a form is told, and no page is read.
fn check_form(rt: &HostRuntime, o: Options, name: &[u8], text: &[u8]) -> Result<(), Failed> {
    let verdict = on_form(o, text);
    if !is_of_form(verdict.number) {
        return Ok(());
    }
    let mut words = room::text();
    let n = ledger::put_reason(&mut words, verdict);
    Err(say::reason(rt, name, &words, n))
}

// The list that a word names, if there is such a word; one that cannot be opened is told.
fn opened(rt: &HostRuntime, at: Option<usize>) -> Result<Option<Source>, Failed> {
    let Some(at) = at else {
        return Ok(None);
    };
    let mut name = room::word();
    let n = options::copy_word(rt, at, &mut name);
    match files::open(rt, &name[..n]) {
        Ok(list) => Ok(Some(list)),
        Err(fault) => Err(say::complain_of_file(rt, &name[..n], fault)),
    }
}

// A file that is too long for a page is too long for a form.
fn as_form(fault: u32) -> u32 {
    if fault == ledger::LONG_FILE {
        ledger::LONG_FORM
    } else {
        fault
    }
}

// How many bytes the form's text has.
pub(crate) fn read_form(
    rt: &HostRuntime,
    o: Options,
    name: &[u8],
    form: &mut [u8],
) -> Result<usize, Failed> {
    let bytes = files::read(rt, name, form, 0).map_err(|fault| say::complain_of_file(
        rt,
        name,
        as_form(fault),
    ))?;
    check_form(rt, o, name, lines::front(form, bytes))?;
    Ok(bytes)
}

fn with_form(
    rt: &HostRuntime,
    o: Options,
    quota: i32,
    words: Words,
    form: &[u8],
    input: &mut [u8],
    changes: &mut [u32],
) -> Result<Status, Failed> {
    let list = opened(rt, o.from)?;
    let ledger = opened(rt, o.done)?;
    let mut line = room::text();
    let mut name = room::word();
    let mut memory = room::memory();
    let mut names = names::begun(words, list, o.null, &mut memory, &mut name);
    let desk = Desk { rt, o, form };
    let read = desk.turns(quota, &mut names, ledger, input, changes, &mut line);
    cleared(rt);
    ended(rt, read?, &mut line)
}

// The form's place and the quota, which a call needs.
pub(crate) fn needed(rt: &HostRuntime, o: Options) -> Result<(usize, i32), Failed> {
    let Some(form) = o.form else {
        return Err(say::complain(rt, b"--form is missing"));
    };
    let Some(quota) = o.quota else {
        return Err(say::complain(rt, b"--quota is missing"));
    };
    Ok((form, quota))
}

// The options that do not go together.
fn check(rt: &HostRuntime, o: Options) -> Result<(), Failed> {
    if o.file.is_none() && o.from.is_none() {
        return Err(say::complain(rt, b"heads needs a page: ./fax help heads"));
    }
    if o.null && o.from.is_none() {
        return Err(say::complain(rt, b"--null is for the names of --from"));
    }
    check_reading(rt, o)
}

pub(crate) fn check_reading(rt: &HostRuntime, o: Options) -> Result<(), Failed> {
    if o.lenient && o.strict {
        let words = b"--lenient and --strict are two readings";
        return Err(say::complain(rt, words));
    }
    if o.lenient && o.exact {
        let words = b"--lenient and --exact are two readings";
        return Err(say::complain(rt, words));
    }
    Ok(())
}

// Not compiled into its caller (main.rt, answered).
#[inline(never)]
pub(crate) fn command(
    rt: &HostRuntime,
    o: Options,
    words: Words,
    input: &mut [u8],
    changes: &mut [u32],
) -> Result<Status, Failed> {
    let (at, quota) = needed(rt, o)?;
    check(rt, o)?;
    let mut name = room::word();
    let n = options::copy_word(rt, at, &mut name);
    let mut form = room::form();
    let bytes = read_form(rt, o, &name[..n], &mut form)?;
    let text = lines::front(&form, bytes);
    with_form(rt, o, quota, words, text, input, changes)
}
