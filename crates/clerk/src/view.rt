// The pages of a call as one HTML file that a person looks at: crate `look` says its pieces, and this file reads the pages, calls it in
// order, and writes. The ledger stands on top, so that each page is read in several passes; all of them must come to the same books.
use crate::drawing::Sheet;
use crate::options::{Options, Words};
use crate::say::{Failed, Status};
use crate::{desk, done, drawing, files, lines, names, options, reading, room, say};
use ledger::{Ledger, Verdict};
use settings::DecodeSettings;
use std::io;

// What a pass writes: nothing; the rows of the pages to be looked at, and of those counted; the bars of the plot; the pictures.
#[derive(Clone, Copy)]
enum Pass {
    Books,
    Looked,
    Counted,
    Bars,
    Pictures,
}

// What every pass takes: the options, the quota, the form and the words. The room for a page's bytes, its changes, its picture and a
// piece of the file is lent beside it: the check does not cover a call that lends a field of a struct and reads another.
#[derive(Clone, Copy)]
struct View<'a> {
    rt: &'a HostRuntime,
    o: Options,
    quota: i32,
    form: &'a [u8],
    words: Words,
}

// Without one of its pieces the file is not whole, which is told at the end.
fn whole(written: io::Result<()>) -> Result<(), Failed> {
    written.map_err(|_| Failed)
}

pub(crate) fn part(rt: &HostRuntime, k: usize, piece: &mut [u8]) -> io::Result<()> {
    let n = look::put_part(piece, k);
    say::piece(rt, piece, n)
}

fn row(rt: &HostRuntime, name: &[u8], v: Verdict, b: Ledger, piece: &mut [u8]) -> io::Result<()> {
    let n = look::put_row(piece, name, v, b);
    say::piece(rt, piece, n)
}

fn bar(rt: &HostRuntime, v: Verdict, b: Ledger, piece: &mut [u8]) -> io::Result<()> {
    let n = look::put_bar(piece, v, b);
    say::piece(rt, piece, n)
}

// The words of a page that is to be looked at.
fn page_words(
    rt: &HostRuntime,
    name: &[u8],
    v: Verdict,
    b: Ledger,
    piece: &mut [u8],
) -> io::Result<()> {
    let n = look::put_page(piece, name, v, b);
    say::piece(rt, piece, n)
}

// What every pass but that of the pictures writes of a page.
fn told(
    rt: &HostRuntime,
    pass: Pass,
    name: &[u8],
    v: Verdict,
    b: Ledger,
    piece: &mut [u8],
) -> io::Result<()> {
    match pass {
        Pass::Bars => bar(rt, v, b, piece),
        Pass::Looked if v.number != 0 => row(rt, name, v, b, piece),
        Pass::Counted if v.number == 0 => row(rt, name, v, b, piece),
        _ => Ok(()),
    }
}

// A page whose file cannot be used has its words, and no picture.
fn without(
    rt: &HostRuntime,
    name: &[u8],
    v: Verdict,
    b: Ledger,
    piece: &mut [u8],
) -> io::Result<()> {
    page_words(rt, name, v, b, piece)?;
    part(rt, look::NO_PICTURE, piece)?;
    part(rt, look::PAGE_END, piece)
}

// A page that is to be looked at, with its picture.
fn pictured(
    rt: &HostRuntime,
    name: &[u8],
    v: Verdict,
    b: Ledger,
    sheet: Sheet<'_>,
    picture: &mut [u8],
    piece: &mut [u8],
) -> io::Result<()> {
    if v.number == 0 {
        return Ok(());
    }
    page_words(rt, name, v, b, piece)?;
    drawing::page(rt, sheet, v, picture, piece)
}

fn booked(rt: &HostRuntime, b: Ledger, v: Verdict) -> Result<Ledger, Failed> {
    if !ledger::has_room(b, v) {
        let words = b"the books have no room for a page more";
        return Err(say::complain(rt, words));
    }
    Ok(ledger::book(b, v))
}

// The books of two passes must be the same: else a page changed between the two.
fn check_same(rt: &HostRuntime, a: Ledger, b: Ledger) -> Result<(), Failed> {
    if a.heads == b.heads && a.pages == b.pages && a.looked == b.looked {
        Ok(())
    } else {
        Err(say::complain(rt, b"a page changed while it was looked at"))
    }
}

// Each page gives the books behind it.
impl View<'_> {
    fn unread(
        self,
        pass: Pass,
        number: u32,
        name: &[u8],
        b: Ledger,
        piece: &mut [u8],
    ) -> Result<Ledger, Failed> {
        let v = ledger::unread(number);
        let after = booked(self.rt, b, v)?;
        whole(match pass {
            Pass::Pictures => without(self.rt, name, v, after, piece),
            _ => told(self.rt, pass, name, v, after, piece),
        })?;
        Ok(after)
    }

    // The verdict on a page whose bytes are at hand. That the form's numbers are those of a form was tested before the first page.
    fn judged(
        self,
        pass: Pass,
        given: DecodeSettings,
        src: &[u8],
        name: &[u8],
        b: Ledger,
        changes: &mut [u32],
        picture: &mut [u8],
        piece: &mut [u8],
    ) -> Result<Ledger, Failed> {
        let mut boxes = [0u32; 80];
        let mut places = room::places();
        let form = form_file::read_form(self.form, &mut boxes, &mut places).form;
        let settings = booking::reading::read_as(desk::how(self.o), form, given);
        let mut ends = room::ends();
        let mut marks = room::marks();
        let v = booking::judge(
            src, settings, form, &boxes, &places, changes, &mut ends, &mut marks,
        );
        let after = booked(self.rt, b, v)?;
        if let Pass::Books = pass {
            reading::hint(self.rt, src, given, v.number, v.place, name);
        }
        let sheet = Sheet {
            columns: settings.columns,
            form,
            boxes: &boxes,
            places: &places,
            changes,
            ends: &ends,
            marks: &marks,
        };
        whole(match pass {
            Pass::Pictures => pictured(self.rt, name, v, after, sheet, picture, piece),
            _ => told(self.rt, pass, name, v, after, piece),
        })?;
        Ok(after)
    }

    fn page(
        self,
        pass: Pass,
        name: &[u8],
        b: Ledger,
        input: &mut [u8],
        changes: &mut [u32],
        picture: &mut [u8],
        piece: &mut [u8],
    ) -> Result<Ledger, Failed> {
        let Some(settings) = reading::settle(self.o, name, 0) else {
            return self.unread(pass, ledger::NO_ENCODING, name, b, piece);
        };
        match files::read(self.rt, name, input, 0) {
            Ok(bytes) => {
                let src = lines::front(input, bytes);
                self.judged(pass, settings, src, name, b, changes, picture, piece)
            }
            Err(fault) => self.unread(pass, fault, name, b, piece),
        }
    }

    // A page that has a name. Standard input is there once, and the file needs each page several times.
    fn named(
        self,
        pass: Pass,
        at: usize,
        b: Ledger,
        input: &mut [u8],
        changes: &mut [u32],
        picture: &mut [u8],
        piece: &mut [u8],
    ) -> Result<Ledger, Failed> {
        let mut name = room::word();
        let n = names::argument(self.rt, at, &mut name);
        let name = lines::front(&name, n);
        if files::is_input(name) {
            return Err(say::complain(
                self.rt,
                b"look reads each page several times, and cannot read standard input so",
            ));
        }
        self.page(pass, name, b, input, changes, picture, piece)
    }

    // A pass over the names among the words.
    fn turns(
        self,
        pass: Pass,
        input: &mut [u8],
        changes: &mut [u32],
        picture: &mut [u8],
        piece: &mut [u8],
    ) -> Result<Ledger, Failed> {
        let mut words = self.words;
        let mut b = done::books(self.quota);
        for _ in 0..4294967296u64 {
            let Some(at) = words.next_file(self.rt) else {
                break;
            };
            b = self.named(pass, at, b, input, changes, picture, piece)?;
        }
        Ok(b)
    }

    fn over(
        self,
        pass: Pass,
        b: Ledger,
        input: &mut [u8],
        changes: &mut [u32],
        picture: &mut [u8],
        piece: &mut [u8],
    ) -> Result<(), Failed> {
        let other = self.turns(pass, input, changes, picture, piece)?;
        check_same(self.rt, other, b)
    }

    fn part(self, k: usize, piece: &mut [u8]) -> Result<(), Failed> {
        whole(part(self.rt, k, piece))
    }

    fn top(self, name: &[u8], b: Ledger, piece: &mut [u8]) -> Result<(), Failed> {
        self.part(look::HEAD, piece)?;
        let n = look::put_top(piece, name, b);
        whole(say::piece(self.rt, piece, n))
    }

    fn plot(self, end: bool, b: Ledger, piece: &mut [u8]) -> Result<(), Failed> {
        let n = look::put_plot(piece, end, b);
        whole(say::piece(self.rt, piece, n))
    }

    // The rows of the table, and the quota over the day.
    fn table(
        self,
        b: Ledger,
        input: &mut [u8],
        changes: &mut [u32],
        picture: &mut [u8],
        piece: &mut [u8],
    ) -> Result<(), Failed> {
        self.over(Pass::Looked, b, input, changes, picture, piece)?;
        self.over(Pass::Counted, b, input, changes, picture, piece)?;
        self.plot(false, b, piece)?;
        self.over(Pass::Bars, b, input, changes, picture, piece)?;
        self.plot(true, b, piece)
    }

    // The pictures, where a page is to be looked at, and the end.
    fn pictures(
        self,
        b: Ledger,
        input: &mut [u8],
        changes: &mut [u32],
        picture: &mut [u8],
        piece: &mut [u8],
    ) -> Result<(), Failed> {
        if b.looked != 0 {
            self.part(look::KEY, piece)?;
            self.over(Pass::Pictures, b, input, changes, picture, piece)?;
        }
        self.part(look::TAIL, piece)
    }

    fn file(
        self,
        name: &[u8],
        b: Ledger,
        input: &mut [u8],
        changes: &mut [u32],
        picture: &mut [u8],
        piece: &mut [u8],
    ) -> Result<(), Failed> {
        self.top(name, b, piece)?;
        self.table(b, input, changes, picture, piece)?;
        self.pictures(b, input, changes, picture, piece)
    }

    // A file that is not whole is of no use, so that every failure is told as such.
    fn passes(
        self,
        name: &[u8],
        input: &mut [u8],
        changes: &mut [u32],
        picture: &mut [u8],
        piece: &mut [u8],
    ) -> Result<Status, Failed> {
        let b = self.turns(Pass::Books, input, changes, picture, piece)?;
        match self.file(name, b, input, changes, picture, piece) {
            Ok(()) => Ok(say::status_of_books(b)),
            Err(_) => Err(say::complain(self.rt, b"the file is not whole")),
        }
    }
}

// Not compiled into its caller (main.rt, answered).
#[inline(never)]
pub(crate) fn command(
    rt: &HostRuntime,
    o: Options,
    words: Words,
    input: &mut [u8],
    changes: &mut [u32],
    picture: &mut [u8],
) -> Result<Status, Failed> {
    let (at, quota) = desk::needed(rt, o)?;
    if o.file.is_none() {
        return Err(say::complain(rt, b"look needs a page: ./fax help look"));
    }
    desk::check_reading(rt, o)?;
    let mut name = room::word();
    let n = options::copy_word(rt, at, &mut name);
    let name = lines::front(&name, n);
    let mut form = room::form();
    let mut piece = room::memory();
    let bytes = desk::read_form(rt, o, name, &mut form)?;
    let view = View {
        rt,
        o,
        quota,
        form: lines::front(&form, bytes),
        words,
    };
    view.passes(name, input, changes, picture, &mut piece)
}
