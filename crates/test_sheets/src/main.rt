// The sheets on the wall that are run (the others are proved), the inputs where the crate, and so this work, parts from the
// standard (docs/DIFFERENCES.md; lenient.rt has those of lenient reading), and one input for each clause of A7 (places.rt) and of
// A12 (exact.rt), pages by both engines (engines.rt), and pages with a bad line or cut (bad_lines.rt): what reading each of them
// answers. A line has the sheet's name; number, rows, entries, loose entries, bytes and place; the mark of the first row, or 3
// where none was stored; and the changes, those of kept rows first. Behind them the booking forms of examples/ (parties.rt), the
// forms that take a reference (lent_forms.rt), and packed rows (bitmaps.rt).
#![tactic(auto)]

mod bad_lines;
mod bitmaps;
mod engines;
mod exact;
mod lenient;
mod lent_forms;
mod parties;
mod places;

use answer::Answer;
use settings::{DecodeSettings, EncodingMode};
use std::io;

// Whether a change is one of the kept rows or a loose one behind them.
fn is_stored(i: u64, entries: u64, loose: u64) -> bool {
    i < entries || i - entries < loose
}

// The changes of a store that an answer counts.
fn fields(rt: &impl Print, changes: &[u32], entries: u64, loose: u64) -> io::Result<()> {
    for (i, change) in changes.iter().enumerate() {
        if is_stored(i as u64, entries, loose) {
            print!(rt; "\t{change}")?;
        }
    }
    Ok(())
}

pub(crate) fn show(
    rt: &impl Print,
    name: &str,
    answer: Answer,
    mark: u8,
    changes: &[u32],
) -> io::Result<()> {
    print!(rt;
        "{name}\t{}\t{}\t{}",
        answer.number, answer.rows, answer.entries
    )?;
    print!(rt;
        "\t{}\t{}\t{}\t{mark}",
        answer.loose, answer.bytes, answer.place
    )?;
    fields(rt, changes, answer.entries, answer.loose)?;
    println!(rt)
}

fn sheet(
    rt: &impl Print,
    name: &str,
    src: &[u8],
    settings: DecodeSettings,
    changes: &mut [u32],
    ends: &mut [u64],
) -> io::Result<()> {
    let mut marks = [3u8; 8];
    let answer = ccitt::decode(src, settings, changes, ends, &mut marks);
    show(rt, name, answer, marks[0], changes)
}

// A place for the row's end, and none for its mark.
fn no_mark(rt: &impl Print, name: &str, src: &[u8], settings: DecodeSettings) -> io::Result<()> {
    let mut changes = [0u32; 2];
    let mut ends = [0u64; 1];
    let mut marks = [0u8; 0];
    let answer = ccitt::decode(src, settings, &mut changes, &mut ends, &mut marks);
    show(rt, name, answer, 3, &changes)
}

pub(crate) fn group4(strict: bool) -> DecodeSettings {
    DecodeSettings {
        columns: 8,
        rows: 1,
        end_of_block: false,
        end_of_line: false,
        rows_are_byte_aligned: false,
        encoding: EncodingMode::Group4,
        strict,
        exact: false,
        plain: false,
    }
}

pub(crate) fn group3(rows: u32, end_of_line: bool, strict: bool) -> DecodeSettings {
    DecodeSettings {
        rows,
        end_of_line,
        encoding: EncodingMode::Group3_1D,
        ..group4(strict)
    }
}

fn group4_sheets(rt: &impl Print) -> io::Result<()> {
    let mut two = [0u32; 2];
    let mut one = [0u32; 1];
    let mut end = [0u64; 1];
    let mut none = [0u64; 0];
    let lenient = group4(false);
    sheet(rt, "60, strict", b"\x60", group4(true), &mut two, &mut end)?;
    sheet(rt, "60, lenient", b"\x60", lenient, &mut two, &mut end)?;
    let src = b"\x31\xC0";
    sheet(rt, "31 C0, two entries", src, lenient, &mut two, &mut end)?;
    sheet(rt, "31 C0, one entry", src, lenient, &mut one, &mut end)?;
    sheet(rt, "31 C0, no row end", src, lenient, &mut two, &mut none)?;
    no_mark(rt, "31 C0, no mark", src, lenient)?;
    let cut = "33 40, a run cut to nothing";
    sheet(rt, cut, b"\x33\x40", lenient, &mut two, &mut end)
}

fn group3_sheets(rt: &impl Print) -> io::Result<()> {
    let mut two = [0u32; 2];
    let mut end = [0u64; 1];
    let one_row = group3(1, false, false);
    sheet(rt, "98, rows 1", b"\x98", one_row, &mut two, &mut end)?;
    let any_rows = group3(0, false, false);
    sheet(rt, "98, rows 0", b"\x98", any_rows, &mut two, &mut end)?;
    let with_eols = group3(0, true, false);
    sheet(rt, "empty, end_of_line", b"", with_eols, &mut two, &mut end)?;
    sheet(rt, "empty", b"", any_rows, &mut two, &mut end)?;
    let src = b"\x00\x01";
    sheet(rt, "00 01, lenient", src, any_rows, &mut two, &mut end)?;
    let strict = group3(0, false, true);
    sheet(rt, "00 01, strict", src, strict, &mut two, &mut end)
}

// Settings for an input that parts from the standard: it is read all the same, though strictly.
pub(crate) fn strictly(
    encoding: EncodingMode,
    columns: u32,
    rows: u32,
    end_of_block: bool,
    aligned: bool,
) -> DecodeSettings {
    DecodeSettings {
        columns,
        rows,
        end_of_block,
        rows_are_byte_aligned: aligned,
        encoding,
        ..group4(true)
    }
}

pub(crate) fn parting(
    rt: &impl Print,
    name: &str,
    src: &[u8],
    settings: DecodeSettings,
) -> io::Result<()> {
    let mut changes = [0u32; 4];
    let mut ends = [0u64; 8];
    sheet(rt, name, src, settings, &mut changes, &mut ends)
}

pub(crate) fn group4_parting(
    rt: &impl Print,
    name: &str,
    src: &[u8],
    rows: u32,
    end_of_block: bool,
    aligned: bool,
) -> io::Result<()> {
    parting(
        rt,
        name,
        src,
        strictly(EncodingMode::Group4, 8, rows, end_of_block, aligned),
    )
}

pub(crate) fn group3_parting(
    rt: &impl Print,
    name: &str,
    src: &[u8],
    rows: u32,
    end_of_block: bool,
    aligned: bool,
) -> io::Result<()> {
    parting(
        rt,
        name,
        src,
        strictly(EncodingMode::Group3_1D, 8, rows, end_of_block, aligned),
    )
}

pub(crate) fn group3_2d_parting(
    rt: &impl Print,
    name: &str,
    src: &[u8],
    rows: u32,
    end_of_block: bool,
) -> io::Result<()> {
    parting(
        rt,
        name,
        src,
        strictly(EncodingMode::Group3_2D, 8, rows, end_of_block, false),
    )
}

// Codes of runs and of lines.
fn code_partings(rt: &impl Print) -> io::Result<()> {
    parting(
        rt,
        "64 and 64",
        b"\xDE\xCD\x40",
        strictly(EncodingMode::Group3_1D, 128, 1, false, false),
    )?;
    parting(
        rt,
        "64 before 2560",
        b"\xD8\x0F\x9A\x80",
        strictly(EncodingMode::Group3_1D, 2624, 1, false, false),
    )?;
    group3_parting(rt, "extension in 1D", b"\x00\xF0", 1, false, false)?;
    group4_parting(rt, "uncompressed mode", b"\x03\xC0", 1, false, false)?;
    group3_parting(rt, "no black between", b"\x80\xDF\x00", 1, false, false)?;
    group4_parting(
        rt,
        "two runs of nothing, strict",
        b"\x26\xA1\xBC",
        1,
        false,
        false,
    )?;
    group4_parting(rt, "pass to the end", b"\x10", 1, false, false)?;
    group4_parting(rt, "horizontal for V0", b"\x33\x0D\xC0", 1, false, false)?;
    group4_parting(rt, "VR3 past b2", b"\x2E\xA0\xE0", 2, false, false)
}

// What stands between the lines of a Group 4 page, and at its end.
fn group4_partings(rt: &impl Print) -> io::Result<()> {
    group4_parting(rt, "an EOL in Group 4", b"\x00\x18", 1, false, false)?;
    group4_parting(rt, "no EOFB", b"\xFF", 0, true, false)?;
    group4_parting(
        rt,
        "EOFB without end_of_block",
        b"\x80\x08\x00\x80",
        0,
        false,
        false,
    )?;
    group4_parting(rt, "aligned Group 4", b"\x80\x80", 2, false, true)?;
    group4_parting(
        rt,
        "bits behind EOFB",
        b"\x80\x08\x00\x80\xFF",
        0,
        true,
        false,
    )?;
    group4_parting(rt, "bits behind the rows", b"\xFF", 1, false, false)?;
    group4_parting(rt, "fill before EOFB", b"\x80\x01\x00\x10", 0, true, false)?;
    group4_parting(rt, "fill in EOFB", b"\x80\x08\x00\x10", 0, true, false)
}

// What stands between the lines of a Group 3 page.
fn group3_partings(rt: &impl Print) -> io::Result<()> {
    group3_parting(rt, "no EOL", b"\x98", 1, false, false)?;
    group3_parting(
        rt,
        "EOLs behind some lines",
        b"\x98\x00\xCE\x60",
        3,
        false,
        false,
    )?;
    group3_parting(
        rt,
        "two EOLs in a row",
        b"\x00\x19\x80\x08\x00\xCC",
        2,
        true,
        false,
    )?;
    group3_parting(rt, "aligned Group 3", b"\x98\x98", 2, false, true)?;
    group3_parting(
        rt,
        "fill before the page",
        b"\x00\x00\x00\x00\x01\x98",
        1,
        false,
        false,
    )?;
    group3_2d_parting(rt, "2D lines alone", b"\x55", 0, false)
}

// What stands at its end.
fn group3_ends(rt: &impl Print) -> io::Result<()> {
    group3_parting(rt, "no RTC", b"\x00\x19\x80\x01", 0, true, false)?;
    group3_parting(
        rt,
        "seven EOLs as RTC",
        b"\x00\x19\x80\x08\x00\x80\x08\x00\x80\x08\x00\x80\x08",
        0,
        true,
        false,
    )?;
    group3_parting(
        rt,
        "bits behind RTC",
        b"\x00\x19\x80\x08\x00\x80\x08\x00\x80\x08\x00\x80\xFF",
        0,
        true,
        false,
    )?;
    group3_parting(
        rt,
        "RTC alone",
        b"\x00\x10\x01\x00\x10\x01\x00\x10\x01",
        0,
        true,
        false,
    )?;
    group3_parting(
        rt,
        "RTC without end_of_block",
        b"\x00\x19\x80\x08\x00\x80\x08\x00\x80\x08\x00\xCC",
        2,
        false,
        false,
    )
}

// The same with tag bits.
fn ends_with_tags(rt: &impl Print) -> io::Result<()> {
    group3_2d_parting(
        rt,
        "RTC without tags",
        b"\x00\x1C\xC0\x04\x00\x40\x04\x00\x40\x04\x00\x40",
        0,
        true,
    )?;
    group3_2d_parting(
        rt,
        "RTC alone in 2D",
        b"\x00\x18\x00\xC0\x06\x00\x30\x01\x80\x0C",
        0,
        true,
    )
}

fn main(rt: HostRuntime) -> io::Result<()> {
    group4_sheets(&rt)?;
    group3_sheets(&rt)?;
    code_partings(&rt)?;
    group4_partings(&rt)?;
    group3_partings(&rt)?;
    group3_ends(&rt)?;
    ends_with_tags(&rt)?;
    lenient::pages(&rt)?;
    lenient::with_tags(&rt)?;
    places::in_group4(&rt)?;
    places::in_group3(&rt)?;
    places::of_a_line(&rt)?;
    exact::idle_codes(&rt)?;
    exact::short_pages(&rt)?;
    exact::strict_implied(&rt)?;
    engines::pages(&rt)?;
    bad_lines::pages(&rt)?;
    bad_lines::with_tags(&rt)?;
    bad_lines::cut_between(&rt)?;
    parties::forms(&rt)?;
    lent_forms::forms(&rt)?;
    bitmaps::rows(&rt)
}
