// A text file as lines of words.
ghost use Rattle.std.specs.Prelude.{◌≡◌, ◌+◌, drop};
ghost use Rattle.listing_text.specs.Reading.{DigitIs};
ghost use Rattle.form_file.specs.Words.{is_blank, same as sameBytes, value_of};
ghost use Rattle.form_file.specs.Steps.{ahead, is_plain, is_letter};

// What `value` tells where a word is no number that 32 bits hold.
pub const NONE: u64 = 4294967296;

// A space, or a byte from tab to carriage return.
pub(crate) fn is_blank(b: u8) -> bool
    ensures { result ≡ is_blank b }
{
    b == b' ' || b'\t' <= b && b <= 13
}

// Where a comment begins, or the line's end.
pub(crate) fn uncommented(line: &[u8]) -> usize
    ensures { result ≡ ahead is_plain line.now }
{
    for i in 0..line.len() {
        if line[i] == b'#' {
            return i;
        }
    }
    line.len()
}

// The next byte that is no blank, or the line's end.
pub(crate) fn word_start(line: &[u8], at: usize) -> usize
    ensures { result ≡ at + ahead is_blank (drop at line.now) }
{
    for i in at..line.len() {
        if !is_blank(line[i]) {
            return i;
        }
    }
    line.len().max(at)
}

// The next blank, or the line's end.
pub(crate) fn word_end(line: &[u8], at: usize) -> usize
    ensures { result ≡ at + ahead is_letter (drop at line.now) }
{
    for i in at..line.len() {
        if is_blank(line[i]) {
            return i;
        }
    }
    line.len().max(at)
}

// Whether two words have the same bytes.
pub fn same(word: &[u8], with: &[u8]) -> bool
    ensures { result ≡ sameBytes word.now with.now }
{
    if word.len() != with.len() {
        return false;
    }
    for i in 0..word.len() {
        if word[i] != with[i] {
            return false;
        }
    }
    true
}

fn digit(b: u8) -> Option<u64>
    ensures { DigitIs b result }
{
    if b < b'0' || b'9' < b {
        return None;
    }
    Some(u64::from(b - b'0'))
}

// The number that a word says; NONE where it says none that 32 bits hold.
pub fn value(word: &[u8]) -> u64
    ensures { result ≡ value_of word.now }
{
    let mut n: u64 = 0;
    for b in word {
        let Some(d) = digit(*b) else {
            return NONE;
        };
        n = n * 10 + d;
        if NONE <= n {
            return NONE;
        }
    }
    n
}
