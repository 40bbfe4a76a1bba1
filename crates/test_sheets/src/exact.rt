// One input for each clause of A12: an exact reading, and the strict one where it reads on.
use settings::{DecodeSettings, EncodingMode};
use std::io;

fn exactly(rt: &impl Print, name: &str, src: &[u8], settings: DecodeSettings) -> io::Result<()> {
    let exact = DecodeSettings {
        exact: true,
        ..settings
    };
    crate::parting(rt, name, src, exact)
}

fn group4(columns: u32, rows: u32, end_of_block: bool) -> DecodeSettings {
    crate::strictly(EncodingMode::Group4, columns, rows, end_of_block, false)
}

fn group3(rows: u32, end_of_block: bool) -> DecodeSettings {
    crate::strictly(EncodingMode::Group3_1D, 8, rows, end_of_block, false)
}

// Two zero runs, and one; vertical moves that stay, further on and at 0, in black and as the line's first code; and a zero run of a
// 1D line.
pub(crate) fn idle_codes(rt: &impl Print) -> io::Result<()> {
    let one = group4(8, 1, false);
    exactly(rt, "two runs of nothing, exact", b"\x26\xA1\xBC", one)?;
    exactly(rt, "one run of nothing, exact", b"\x26\xAA", one)?;
    crate::parting(rt, "a move that stays, strict", b"\x36\x81\x40", one)?;
    exactly(rt, "a move that stays, exact", b"\x36\x81\x40", one)?;
    let two = group4(8, 2, false);
    exactly(rt, "a later code at 0, exact", b"\x26\xB6\x08", two)?;
    exactly(
        rt,
        "the first code to 0, exact",
        b"\x50",
        group4(1, 1, false),
    )?;
    exactly(
        rt,
        "no black between, exact",
        b"\x80\xDF\x00",
        group3(1, false),
    )
}

// A page that ends with fewer rows, one that has them, and one of which none are asked; the same of Group 3, and `check_eob` before it.
pub(crate) fn short_pages(rt: &impl Print) -> io::Result<()> {
    let two = group4(8, 2, true);
    crate::parting(rt, "short of a row, strict", b"\x80\x08\x00\x80", two)?;
    exactly(rt, "short of a row, exact", b"\x80\x08\x00\x80", two)?;
    let one = group4(8, 1, true);
    exactly(rt, "not short, exact", b"\x80\x08\x00\x80", one)?;
    let any = group4(8, 0, true);
    exactly(rt, "any number of rows, exact", b"\x80\x08\x00\x80", any)?;
    let two_1d = group3(2, true);
    exactly(
        rt,
        "short of a row in 1D, exact",
        b"\x00\x19\x80\x01",
        two_1d,
    )?;
    let three_1d = group3(3, false);
    exactly(rt, "no EOL and short, exact", b"\x00\x01\x9C\xC0", three_1d)?;
    exactly(rt, "columns 0, exact", b"", group4(0, 2, false))
}

// Too many pixels, and a line that would be recovered, with strict off.
pub(crate) fn strict_implied(rt: &impl Print) -> io::Result<()> {
    exactly(rt, "60, exact", b"\x60", crate::group4(false))?;
    let lenient = crate::group3(2, false, false);
    exactly(
        rt,
        "00 17 80 06 60, exact",
        b"\x00\x17\x80\x06\x60",
        lenient,
    )
}
