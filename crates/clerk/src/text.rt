// Text that people write: numbers, and the blanks and comments between them. What is left of a text is a slice, which begins where the
// part before it ended.
use crate::lines;

pub(crate) fn is_blank(byte: u8) -> bool {
    matches!(byte, b' ' | 9..=13)
}

// What is left of a text from its next word on. A comment goes from # to the line's end.
pub(crate) fn skip(text: &[u8]) -> &[u8] {
    let mut comment = false;
    for (at, byte) in text.iter().enumerate() {
        if !comment && *byte != b'#' && !is_blank(*byte) {
            return lines::rest(text, at);
        }
        comment = *byte != b'\n' && (comment || *byte == b'#');
    }
    b""
}

fn digit(byte: u8) -> Option<u32> {
    match byte {
        b'0'..=b'9' => Some(u32::from(byte - b'0')),
        _ => None,
    }
}

// The number with one digit more, or none where it has more than 32 bits.
fn and_digit(value: Option<u32>, digit: u32) -> Option<u32> {
    value?.checked_mul(10)?.checked_add(digit)
}

// The number with whose digits a text begins, or none where it has more than 32 bits; and what is left behind them. No digits are 0.
pub(crate) fn number(text: &[u8]) -> (Option<u32>, &[u8]) {
    let mut value = Some(0);
    for (at, byte) in text.iter().enumerate() {
        match digit(*byte) {
            Some(digit) => value = and_digit(value, digit),
            None => return (value, lines::rest(text, at)),
        }
    }
    (value, b"")
}

// A word that is a number of 32 bits: digits alone, with no zero in front. The library's `parse` takes a sign and zeros too.
pub(crate) fn whole(word: &[u8]) -> Option<u32> {
    match word {
        [] | [b'0', _, ..] => None,
        _ => match number(word) {
            (value, []) => value,
            _ => None,
        },
    }
}

// Whether a name ends in these small letters, in small or in capital ones.
pub(crate) fn ends(name: &[u8], ending: &[u8]) -> bool {
    ending.len() <= name.len()
        && lines::rest(name, name.len() - ending.len()).eq_ignore_ascii_case(ending)
}
