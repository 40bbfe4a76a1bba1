// A total's line.
ghost use Rattle.std.specs.Prelude.{◌≡◌};
ghost use Rattle.form_file.specs.Steps.{ahead};
ghost use Rattle.ledger_file.specs.Fields.{field};
ghost use Rattle.ledger_file.specs.Total as Total;
ghost use Rattle.ledger_file.specs.Total.{is_a_digit, is_total_words, number_ahead, total_pages};

use crate::fields::{count, field_of, is_field, number_in};
use form_file::words;

fn is_digit(b: u8) -> bool
    ensures { result ≡ is_a_digit b }
{
    b'0' <= b && b <= b'9'
}

// Where the digits end that a word begins with.
fn digits_end(word: &[u8]) -> usize
    ensures { result ≡ ahead is_a_digit word.now }
{
    for i in 0..word.len() {
        if !is_digit(word[i]) {
            return i;
        }
    }
    word.len()
}

// Whether a field has the words of a total.
fn is_total_words(word: &[u8]) -> bool
    ensures { result ≡ is_total_words word.now }
{
    let k = digits_end(word);
    if k == 0 {
        return false;
    }
    if word.len() < 5 {
        return false;
    }
    if word.len() - 5 < k {
        return false;
    }
    words::same(&word[k..k + 5], b" page")
}

fn has_total_words(line: &[u8]) -> bool
    ensures { result ≡ is_total_words (field 4 line.now) }
{
    is_total_words(field_of(line, 4))
}

// Whether a line is a total's.
pub(crate) fn is_total(line: &[u8]) -> bool
    ensures { result ≡ Total.is_total line.now }
{
    if count(line) != 5 {
        return false;
    }
    if !is_field(line, 0, b"total") {
        return false;
    }
    has_total_words(line)
}

// The number with which a word begins; NONE where it begins with none that 32 bits hold.
fn number_ahead(word: &[u8]) -> u64
    ensures { result ≡ number_ahead word.now }
{
    let k = digits_end(word);
    number_in(&word[0..k])
}

// How many pages a total is of, as its words say.
pub(crate) fn total_pages(line: &[u8]) -> u64
    ensures { result ≡ total_pages line.now }
{
    number_ahead(field_of(line, 4))
}
