// How a page is read: by the options, and by its name's ending where they name no encoding.
use crate::options::Options;
use crate::{lines, say, text};
use settings::{DecodeSettings, EncodingMode};

fn by_ending(name: &[u8]) -> Option<EncodingMode> {
    if text::ends(name, b".g4") {
        return Some(EncodingMode::Group4);
    }
    if text::ends(name, b".g31d") {
        return Some(EncodingMode::Group3_1D);
    }
    if text::ends(name, b".g32d") {
        return Some(EncodingMode::Group3_2D);
    }
    None
}

fn is_group4(encoding: EncodingMode) -> bool {
    matches!(encoding, EncodingMode::Group4)
}

pub(crate) fn settings(
    o: Options,
    encoding: EncodingMode,
    end_of_block: bool,
    end_of_line: bool,
    columns: u32,
) -> DecodeSettings {
    DecodeSettings {
        columns: o.columns.unwrap_or(columns),
        rows: o.rows.unwrap_or(0),
        end_of_block,
        end_of_line,
        rows_are_byte_aligned: o.aligned,
        encoding,
        strict: o.strict,
        exact: o.exact,
        plain: o.plain,
    }
}

// The settings of a page, if its encoding is known. An ending stands for the marks that its pages have: .g4 for the end-of-block mark,
// the two others for end-of-line marks too.
pub(crate) fn settle(o: Options, name: &[u8], columns: u32) -> Option<DecodeSettings> {
    if let Some(encoding) = o.encoding {
        return Some(settings(o, encoding, o.block, o.line, columns));
    }
    let encoding = by_ending(name)?;
    let line = o.line || !is_group4(encoding);
    Some(settings(o, encoding, true, line, columns))
}

// A bit of the data; none past its end.
fn bit(src: &[u8], at: u64) -> Option<bool> {
    let byte = *src.get(usize::try_from(at / 8).ok()?)?;
    Some((byte >> (7 - at % 8)) & 1 == 1)
}

// Whether an EOL stands at a bit, with which an end-of-block mark begins too: eleven zeros and a one (T.4, 4.1.2).
fn is_eol(src: &[u8], at: u64) -> bool {
    for k in 0..11 {
        if bit(src, at.saturating_add(k)) != Some(false) {
            return false;
        }
    }
    bit(src, at.saturating_add(11)) == Some(true)
}

// How far before the place of a fault the mark may begin at which a reading stopped: it is read as codes, as far as that goes.
const BEFORE: u64 = 40;

// Whether a mark begins in the bits up to a place: two EOLs for an end-of-block mark, one for an end-of-line mark.
fn is_marked(src: &[u8], place: u64, twice: bool) -> bool {
    for at in place.saturating_sub(BEFORE)..=place {
        if is_eol(src, at) && (!twice || is_eol(src, at.saturating_add(12))) {
            return true;
        }
    }
    false
}

// A reading that stops at a mark of which it was not told says which option is missing. Answers 1, 2 and 3 have a place.
pub(crate) fn hint(
    rt: &HostRuntime,
    src: &[u8],
    settings: DecodeSettings,
    number: u32,
    place: u64,
    name: &[u8],
) {
    let block = is_group4(settings.encoding);
    let is_told = settings.end_of_block && (block || settings.end_of_line);
    if !matches!(number, 1..=3) || is_told || !is_marked(src, place, block) {
        return;
    }
    let words: &[u8] = if block {
        b": an end-of-block mark stands there: --end-of-block is missing"
    } else {
        b": an end-of-line mark stands there: --end-of-line or --end-of-block is missing"
    };
    say::complain_of(rt, b"", name, words);
}
