// Pages by the lookup and by the plain engine (A14): both lines say the same.
use settings::{DecodeSettings, EncodingMode};
use std::io;

fn by_both(rt: &impl Print, name: &str, src: &[u8], settings: DecodeSettings) -> io::Result<()> {
    print!(rt; "{name}")?;
    crate::parting(rt, ", lookup", src, settings)?;
    let plain = DecodeSettings {
        plain: true,
        ..settings
    };
    print!(rt; "{name}")?;
    crate::parting(rt, ", plain", src, plain)
}

fn group3(columns: u32) -> DecodeSettings {
    crate::strictly(EncodingMode::Group3_1D, columns, 1, false, false)
}

// A code of each colour in a 2D line; make-up codes of one colour and of both; a code that is none, and one that the data ends in; and a
// line that is recovered behind one.
pub(crate) fn pages(rt: &impl Print) -> io::Result<()> {
    by_both(rt, "31 C0", b"\x31\xC0", crate::group4(true))?;
    by_both(rt, "D8 0F 9A 80", b"\xD8\x0F\x9A\x80", group3(2624))?;
    by_both(rt, "D8 00", b"\xD8\x00", group3(8))?;
    by_both(rt, "D8", b"\xD8", group3(8))?;
    let lenient = crate::group3(2, false, false);
    by_both(rt, "00 17 80 06 60", b"\x00\x17\x80\x06\x60", lenient)
}
