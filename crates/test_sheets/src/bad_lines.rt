// A13: two white rows of one column by the 1D writer with EOLs, the first line's code bits being others. Two zeros of fill before
// each EOL are too few: the bit 1 and the zeros behind it are read as white 3, ten zeros are left, which is no EOL, and the second
// row is lost. With three it is kept. And a bad line that is marked clean: white 1, and a one.
use settings::{DecodeSettings, EncodingMode};
use std::io;

fn leniently(encoding: EncodingMode) -> DecodeSettings {
    DecodeSettings {
        end_of_line: true,
        strict: false,
        ..crate::strictly(encoding, 1, 2, true, false)
    }
}

pub(crate) fn pages(rt: &impl Print) -> io::Result<()> {
    let lenient = leniently(EncodingMode::Group3_1D);
    crate::parting(
        rt,
        "a bad line, two zeros of fill",
        b"\x00\x06\x00\x08\xE0\x00\x80\x08\x00\x80\x08\x00\x80\x08",
        lenient,
    )?;
    crate::parting(
        rt,
        "a bad line, three zeros of fill",
        b"\x00\x03\x00\x02\x38\x00\x10\x01\x00\x10\x01\x00\x10\x01",
        lenient,
    )?;
    crate::parting(
        rt,
        "a bad line that reads clean",
        b"\x00\x02\x3C\x00\x08\xE0\x00\x40\x04\x00\x40\x04\x00\x40\x04",
        lenient,
    )
}

// The same with tag bits, three zeros of fill before each EOL: a tag bit 1 alone stands between two EOLs as in an RTC, and its row
// is lost; with a one behind it it is kept. A tag bit 0 and ten zeros before a one are an EOL, and a row is lost; with nine none
// is.
pub(crate) fn with_tags(rt: &impl Print) -> io::Result<()> {
    let lenient = leniently(EncodingMode::Group3_2D);
    crate::parting(
        rt,
        "a tag bit alone",
        b"\x00\x03\x1C\x00\x0C\x00\x0C\x00\x60\x03\x00\x18\x00\xC0\x06",
        lenient,
    )?;
    crate::parting(
        rt,
        "a tag bit and a one",
        b"\x00\x03\x1C\x00\x0E\x00\x06\x00\x30\x01\x80\x0C\x00\x60\x03",
        lenient,
    )?;
    crate::parting(
        rt,
        "eleven zeros with the tag bit",
        b"\x00\x02\x00\x20\x00\x63\x80\x01\x80\x0C\x00\x60\x03\x00\x18\x00\xC0",
        lenient,
    )?;
    crate::parting(
        rt,
        "ten zeros with the tag bit",
        b"\x00\x02\x00\x40\x00\xC7\x00\x03\x00\x18\x00\xC0\x06\x00\x30\x01\x80",
        lenient,
    )
}

// Two white rows of two columns by the 1D writer with EOLs, without fill, cut right behind the first line: 0, and one clean row;
// read exactly it is 14.
pub(crate) fn cut_between(rt: &impl Print) -> io::Result<()> {
    let strict = DecodeSettings {
        end_of_line: true,
        ..crate::strictly(EncodingMode::Group3_1D, 2, 2, true, false)
    };
    crate::parting(rt, "cut between two lines", b"\x00\x17", strict)?;
    let exact = DecodeSettings {
        exact: true,
        ..strict
    };
    crate::parting(rt, "cut between two lines, exact", b"\x00\x17", exact)
}
