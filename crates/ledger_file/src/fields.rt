// The fields of a line, parted by tabs.
ghost use Rattle.std.specs.Prelude.{◌≡◌, ◌≤◌, length};
ghost use Rattle.form_file.specs.Words as Words;
ghost use Rattle.ledger_file.specs.Fields.{fields_of, field, number_in, FieldTo, FieldFrom};

use form_file::words;

// How many fields a line has.
pub(crate) fn count(line: &[u8]) -> usize
    ensures { result ≡ length (fields_of line.now) }
{
    let mut n = 1;
    for b in line {
        if *b == b'\t' {
            n += 1;
        }
    }
    n
}

// The end of the field that begins at a place: its tab, or the end of the line.
pub(crate) fn field_end(line: &[u8], at: usize) -> usize
    requires { at ≤ length line.now }
    ensures { FieldTo line.now at result }
{
    for i in at..line.len() {
        if line[i] == b'\t' {
            return i;
        }
    }
    line.len()
}

// Where the field of a number begins; the end of the line where it has no such field.
fn field_start(line: &[u8], k: usize) -> usize
    ensures { FieldFrom line.now k result }
{
    let mut at = 0;
    for passed in 0..k {
        let end = field_end(line, at);
        if end == line.len() {
            return end;
        }
        at = end + 1;
    }
    at
}

// The bytes of a field; none where the line has no such field.
pub(crate) fn field_of(line: &[u8], k: usize) -> &[u8]
    ensures { result.now ≡ field k line.now }
{
    let from = field_start(line, k);
    let end = field_end(line, from);
    &line[from..end]
}

// Whether a field has these bytes.
pub(crate) fn is_field(line: &[u8], k: usize, word: &[u8]) -> bool
    ensures { result ≡ Words.same (field k line.now) word.now }
{
    words::same(field_of(line, k), word)
}

// The number that a word says; NONE where it says none that 32 bits hold, or has no digit.
pub(crate) fn number_in(word: &[u8]) -> u64
    ensures { result ≡ number_in word.now }
{
    if word.len() == 0 {
        return words::NONE;
    }
    words::value(word)
}

pub(crate) fn number_of(line: &[u8], k: usize) -> u64
    ensures { result ≡ number_in (field k line.now) }
{
    number_in(field_of(line, k))
}

// How long a field is.
pub(crate) fn length_of(line: &[u8], k: usize) -> usize
    ensures { result ≡ length (field k line.now) }
{
    let word = field_of(line, k);
    word.len()
}
