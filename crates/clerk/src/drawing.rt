// A page that is to be looked at, as the HTML file shows it behind its words: its picture, and what is drawn over that.
use crate::view::part;
use crate::{lines, room, say};
use booking::Lies;
use form_file::Form;
use ledger::Verdict;
use std::io;

// So many bytes of a picture are coded at a time; three divides it, so that the parts one behind the other are the code of the whole.
const PART: usize = 12288;

// A page that was read: its width, the form and its numbers, and the store of its rows with their marks.
#[derive(Clone, Copy)]
pub(crate) struct Sheet<'a> {
    pub(crate) columns: u32,
    pub(crate) form: Form,
    pub(crate) boxes: &'a [u32],
    pub(crate) places: &'a [u32],
    pub(crate) changes: &'a [u32],
    pub(crate) ends: &'a [u64],
    pub(crate) marks: &'a [u8],
}

// The rows that a verdict's reading kept, of which the program holds 65,536.
fn rows_of(rows: u64) -> u32 {
    if rows < 65536 { rows as u32 } else { 65536 }
}

fn coded_part(rt: &HostRuntime, bytes: &[u8], piece: &mut [u8]) -> io::Result<()> {
    let n = look::put_base64(piece, bytes);
    say::piece(rt, piece, n)
}

fn coded(rt: &HostRuntime, bytes: &[u8], piece: &mut [u8]) -> io::Result<()> {
    for part in bytes.chunks(PART) {
        coded_part(rt, part, piece)?;
    }
    Ok(())
}

impl Sheet<'_> {
    fn read(&self, rt: &HostRuntime, piece: &mut [u8]) -> io::Result<()> {
        let n = look::put_read(piece, self.columns, self.marks);
        say::piece(rt, piece, n)
    }

    // Where the form lies, or that it fits nowhere.
    fn found(&self, rt: &HostRuntime, lies: Lies, piece: &mut [u8]) -> io::Result<()> {
        let form = self.form;
        if !lies.fits && (form.across != 0 || form.down != 0) {
            return part(rt, look::NOT_FOUND, piece);
        }
        let n = look::put_found(piece, lies.across, lies.down, form.across, form.down);
        say::piece(rt, piece, n)
    }

    // The bytes of a picture of whole words of 32 pixels; 0 where there is none.
    fn painted(&self, picture: &mut [u8]) -> usize {
        let stride = look::stride(self.columns);
        let answer = bitmap::paint(self.columns, self.changes, self.ends, true, stride, picture);
        if answer.number != answer::COMPLETE || 4294967296 < answer.bytes {
            return 0;
        }
        ((answer.bytes + 3) / 4 * 4) as usize
    }

    // The picture's bytes, and what stands before and behind them.
    fn picture(
        &self,
        rt: &HostRuntime,
        rows: u32,
        bytes: &[u8],
        piece: &mut [u8],
    ) -> io::Result<()> {
        let columns = self.columns;
        let most = self.form.most;
        let n = look::put_sheet(piece, !bytes.is_empty(), columns, rows, most);
        say::piece(rt, piece, n)?;
        if bytes.is_empty() {
            return Ok(());
        }
        coded_part(rt, &look::bitmap_head(columns, rows), piece)?;
        coded(rt, bytes, piece)?;
        let n = look::put_drawing(piece, columns, rows, most);
        say::piece(rt, piece, n)
    }

    // A row that is clean has no band, and nothing is written.
    fn band(&self, rt: &HostRuntime, y: u32, piece: &mut [u8]) -> io::Result<()> {
        let n = look::put_band(piece, self.columns, self.marks, y);
        say::bytes(rt, piece, n)
    }

    fn place(&self, rt: &HostRuntime, k: u32, piece: &mut [u8]) -> io::Result<()> {
        let n = look::put_place(piece, self.columns, self.changes, self.ends, self.places, k);
        say::piece(rt, piece, n)
    }

    fn one_box(&self, rt: &HostRuntime, k: u32, piece: &mut [u8]) -> io::Result<()> {
        let n = look::put_box(
            piece,
            self.columns,
            self.changes,
            self.ends,
            self.boxes,
            k,
            self.form.doubt,
            self.form.tick,
        );
        say::piece(rt, piece, n)
    }

    // A verdict that is about no row has no such line.
    fn row_mark(&self, rt: &HostRuntime, v: Verdict, piece: &mut [u8]) -> io::Result<()> {
        let n = look::put_row_mark(piece, self.columns, v);
        say::bytes(rt, piece, n)
    }

    fn drawn(&self, rt: &HostRuntime, v: Verdict, piece: &mut [u8]) -> io::Result<()> {
        for k in 0..self.form.places {
            self.place(rt, k, piece)?;
        }
        for k in 0..20 {
            self.one_box(rt, k, piece)?;
        }
        self.row_mark(rt, v, piece)?;
        part(rt, look::PICTURE_END, piece)
    }

    fn shown(
        &self,
        rt: &HostRuntime,
        rows: u32,
        lies: Lies,
        picture: &mut [u8],
        piece: &mut [u8],
    ) -> io::Result<()> {
        self.read(rt, piece)?;
        self.found(rt, lies, piece)?;
        let bytes = self.painted(picture);
        self.picture(rt, rows, lines::front(picture, bytes), piece)?;
        for y in 0..rows {
            self.band(rt, y, piece)?;
        }
        Ok(())
    }

    // The form is drawn where it lies; where it cannot be moved there, at its own place.
    fn drawn_at(
        &self,
        rt: &HostRuntime,
        rows: u32,
        lies: Lies,
        v: Verdict,
        piece: &mut [u8],
    ) -> io::Result<()> {
        let mut boxes = [0u32; 80];
        let mut places = room::places();
        let moved = booking::move_form(
            self.form,
            rows,
            lies.across,
            lies.down,
            self.boxes,
            self.places,
            &mut boxes,
            &mut places,
        );
        if !moved {
            return self.drawn(rt, v, piece);
        }
        let there = Sheet {
            boxes: &boxes,
            places: &places,
            ..*self
        };
        there.drawn(rt, v, piece)
    }
}

// What is behind the words of a page that was read.
pub(crate) fn page(
    rt: &HostRuntime,
    sheet: Sheet<'_>,
    v: Verdict,
    picture: &mut [u8],
    piece: &mut [u8],
) -> io::Result<()> {
    let rows = rows_of(v.rows);
    let sheet = Sheet {
        ends: lines::front(sheet.ends, rows as usize),
        marks: lines::front(sheet.marks, rows as usize),
        ..sheet
    };
    let lies = booking::lies_at(
        sheet.columns,
        sheet.changes,
        sheet.ends,
        sheet.form,
        sheet.boxes,
        sheet.places,
    );
    sheet.shown(rt, rows, lies, picture, piece)?;
    sheet.drawn_at(rt, rows, lies, v, piece)
}
