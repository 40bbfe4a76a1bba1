// The line of settings.
ghost use Rattle.std.specs.Prelude.{◌≡◌, [], ◌∷◌, ◌≤◌, length, get_or};
ghost use Rattle.listing_text.specs.Line.{Says};
ghost use Rattle.listing_text.specs.Reading.{DigitIs, NumberAt, FlagIs, ModeIs, Stands};

use settings::{DecodeSettings, EncodingMode};

// The largest number that a setting has.
const MOST_NUMBER: u64 = answer::MOST_PIXELS as u64;

// The settings, and where the data begins.
#[derive(Clone, Copy)]
pub struct Parsed {
    pub settings: DecodeSettings,
    pub at: usize,
}

// A byte; 0 past the end, which stands in no line.
fn byte(bytes: &[u8], at: usize) -> u8
    ensures { result ≡ get_or bytes.now at 0 }
{
    if at < bytes.len() { bytes[at] } else { 0 }
}

fn digit(bytes: &[u8], at: usize) -> Option<u64>
    ensures { DigitIs (get_or bytes.now at 0) result }
{
    let b = byte(bytes, at);
    if b < b'0' || b'9' < b {
        return None;
    }
    Some(u64::from(b - b'0'))
}

// A number, and the place behind its digits.
#[derive(Clone, Copy)]
struct Number {
    value: u32,
    next: usize,
}

fn read_number(bytes: &[u8], at: usize) -> Option<Number>
    requires { at ≤ length bytes.now }
    ensures { NumberAt bytes.now at result }
{
    let mut n = digit(bytes, at)?;
    let mut next = at + 1;
    while let Some(d) = digit(bytes, next) {
        // `0` stands alone: a zero never leads.
        if n == 0 {
            return None;
        }
        n = n * 10 + d;
        if n > MOST_NUMBER {
            return None;
        }
        next += 1;
    }
    let value = n as u32;
    Some(Number { value, next })
}

fn flag(n: u32) -> Option<bool>
    ensures { FlagIs n result }
{
    match n {
        0 => Some(false),
        1 => Some(true),
        _ => None,
    }
}

fn mode(n: u32) -> Option<EncodingMode>
    ensures { ModeIs n result }
{
    match n {
        0 => Some(EncodingMode::Group4),
        1 => Some(EncodingMode::Group3_1D),
        2 => Some(EncodingMode::Group3_2D),
        _ => None,
    }
}

// The settings whose numbers these are.
fn stand(
    columns: u32,
    rows: u32,
    block: u32,
    line: u32,
    aligned: u32,
    encoding: u32,
    strict: u32,
    exact: u32,
    plain: u32,
    at: usize,
) -> Option<Parsed>
    ensures { Stands (columns ∷ rows ∷ block ∷ line ∷ aligned ∷ encoding ∷ strict ∷ exact ∷ plain ∷ []) at result }
{
    let settings = DecodeSettings {
        columns,
        rows,
        end_of_block: flag(block)?,
        end_of_line: flag(line)?,
        rows_are_byte_aligned: flag(aligned)?,
        encoding: mode(encoding)?,
        strict: flag(strict)?,
        exact: flag(exact)?,
        plain: flag(plain)?,
    };
    Some(Parsed { settings, at })
}

// The settings that the bytes begin with: seven numbers, eight or nine; one that is missing is 0.
pub fn parse(bytes: &[u8]) -> Option<Parsed>
    ensures { Says bytes.now result }
{
    let mut n = [0u32; 9];
    let mut at = 0;
    for k in 0..9 {
        let number = read_number(bytes, at)?;
        let behind = byte(bytes, number.next);
        n[k] = number.value;
        at = number.next + 1;
        if behind == b'\n' {
            if k < 6 {
                return None;
            }
            return stand(n[0], n[1], n[2], n[3], n[4], n[5], n[6], n[7], n[8], at);
        }
        if behind != b'\t' {
            return None;
        }
    }
    None
}
