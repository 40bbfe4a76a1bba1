// One input for each clause of A7: where the fault was. Codes whose sum passes the limit take 2.5 million bytes, and are left to
// the comparison.
use settings::EncodingMode;
use std::io;

// Mode codes, and the runs of horizontal codes.
pub(crate) fn in_group4(rt: &impl Print) -> io::Result<()> {
    crate::group4_parting(rt, "no mode code", b"\x80", 0, false, false)?;
    crate::parting(
        rt,
        "a vertical move below 0",
        b"\x82",
        crate::strictly(EncodingMode::Group4, 2, 0, false, false),
    )?;
    crate::group4_parting(
        rt,
        "a vertical move past the width",
        b"\xB0",
        2,
        false,
        false,
    )?;
    crate::group4_parting(rt, "no code of a first run", b"\x20\x00", 1, false, false)?;
    crate::group4_parting(rt, "no code of a second run", b"\x30\x00", 1, false, false)?;
    crate::group4_parting(rt, "too long a first run", b"\x3B\x35", 1, false, false)?;
    crate::group4_parting(
        rt,
        "too long a second run",
        b"\x30\x07\x86\xE0",
        1,
        false,
        false,
    )
}

// Runs of 1D lines, EOLs and tag bits.
pub(crate) fn in_group3(rt: &impl Print) -> io::Result<()> {
    crate::group3_parting(
        rt,
        "no code behind a make-up code",
        b"\xD8\x00",
        1,
        false,
        false,
    )?;
    crate::group3_parting(rt, "a make-up code, and the end", b"\xD8", 1, false, false)?;
    crate::group3_parting(rt, "too long a run", b"\x9E\xCD\x40", 2, false, false)?;
    crate::group3_parting(
        rt,
        "no EOL behind a row",
        b"\x00\x01\x9C\xC0",
        0,
        false,
        false,
    )?;
    crate::group3_2d_parting(rt, "no tag bit", b"\x00\x01", 0, false)?;
    crate::parting(
        rt,
        "a recovered row",
        b"\x00\x01\x00\x80\x0C\xC0",
        crate::group3(2, false, false),
    )
}

pub(crate) fn of_a_line(rt: &impl Print) -> io::Result<()> {
    let reference = [0u32; 0];
    let mut changes = [0u32; 4];
    let answer = one_line::read::read_line(b"\xFF", 9, 8, true, &reference, &mut changes);
    crate::show(rt, "a start past the data", answer, 3, &changes)
}
