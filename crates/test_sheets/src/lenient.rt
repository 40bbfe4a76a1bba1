// What lenient reading does that the standard has not (docs/DIFFERENCES.md): pixels are cut to the width, a line that fails is kept
// and turned white, and bits before the next EOL are skipped.
use settings::{DecodeSettings, EncodingMode};
use std::io;

pub(crate) fn pages(rt: &impl Print) -> io::Result<()> {
    let one = crate::group3(1, false, false);
    crate::parting(rt, "too many pixels", b"\xA0", one)?;
    let two = crate::group3(2, false, false);
    crate::parting(rt, "a line that fails", b"\x00\x18\xC0\x06\x60", two)?;
    crate::parting(rt, "bits before an EOL", b"\x00\x19\xA8\x00\xCC", two)
}

fn two_d(rows: u32, end_of_block: bool) -> DecodeSettings {
    DecodeSettings {
        strict: false,
        ..crate::strictly(EncodingMode::Group3_2D, 8, rows, end_of_block, false)
    }
}

// A line that fails where no EOL is left is read once more from its start, and its reference is then the row that was kept of it.
// Of an RTC alone the first EOL is taken for the page's, and the five that are left are no RTC.
pub(crate) fn with_tags(rt: &impl Print) -> io::Result<()> {
    crate::parting(
        rt,
        "read again under another row",
        b"\x00\x1C\x70\x00\x28",
        two_d(3, false),
    )?;
    crate::parting(
        rt,
        "RTC alone in 2D, lenient",
        b"\x00\x18\x00\xC0\x06\x00\x30\x01\x80\x0C",
        two_d(0, true),
    )
}
