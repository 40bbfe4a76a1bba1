// What comes before a row: leading EOLs before the first, and before each other one the test for the end of the block.
ghost use Rattle.std.specs.Prelude.{◌≡◌, false, ◌&&◌, ◌≤◌, eqb, leb};
ghost use Rattle.rules.specs.Bits.{bits_of};
ghost use Rattle.rules.specs.Eols.{skip_to_eol};
ghost use Rattle.bit_reader.specs.Cursor.{most_bits};
ghost use Rattle.bit_reader.specs.Loaded.{Loading};
ghost use Rattle.codes.specs.Eols.{skip_of};
ghost use Rattle.group3.specs.Ahead.{aligned_from, NoEolAt, Lacks, Usual, before_of, judged_in, missing_in, before_in};

use crate::eols;
use codes::eol;
use codes::eol::Eols;
use settings::{DecodeSettings, State};

// A line at a bit, with EOLs expected or not; the page's end, at a bit; or an EOL that is missing, at a bit.
#[derive(Clone, Copy)]
pub enum Before {
    Line(usize, bool),
    End(usize),
    NoEol(usize),
}

// Where EOLs are expected, the zeros before one are fill. Without them, padding and the next line's zeros could be taken for one.
fn align(settings: DecodeSettings, state: State) -> usize
    requires { state.at ≤ most_bits }
    ensures { result ≡ aligned_from settings state }
{
    if state.eols {
        return state.at;
    }
    settings::align_if(settings.rows_are_byte_aligned, state.at)
}

// An RTC has six EOLs. Some pages have seven, so more are taken too.
fn is_rtc(settings: DecodeSettings, count: usize) -> bool
    ensures { result ≡ settings.end_of_block && leb 6 count }
{
    settings.end_of_block && 6 <= count
}

fn judge(
    src: &[u8],
    settings: DecodeSettings,
    rows_done: bool,
    expected: bool,
    eols: Eols,
) -> Before
    ensures { before_of settings src.now result ≡ judged_in settings src.now rows_done expected eols }
{
    let at = eols.at;
    if is_rtc(settings, eols.count) {
        return Before::End(at);
    }
    if rows_done {
        return Before::End(at);
    }
    if bit_reader::at_end(src.len(), at) {
        return Before::End(at);
    }
    Before::Line(at, expected)
}

// The next EOL from a bit at which none begins. Where eleven zeros stand there all the same, no one is left to close them, and they
// need not be counted once more.
fn next_eol(src: &[u8], at: usize) -> Option<usize>
    requires { NoEolAt src.now at }
    ensures { skip_of result ≡ skip_to_eol (bits_of src.now) at }
{
    if bit_reader::peek(src, at) >> 21 == 0 {
        return None;
    }
    eol::skip_to_eol(src, at)
}

// The line had more data than expected, and the rest is skipped. With no EOL left, no more are expected.
fn skip_rest(src: &[u8], settings: DecodeSettings, at: usize) -> Before
    requires { NoEolAt src.now at }
    ensures { before_of settings src.now result ≡ missing_in settings src.now at }
{
    if settings.strict {
        return Before::NoEol(at);
    }
    match next_eol(src, at) {
        Some(next) => {
            let eols = eols::read_eols(src, settings, next);
            judge(src, settings, false, true, eols)
        }
        None => judge(src, settings, false, false, Eols { count: 0, at }),
    }
}

// Whether EOLs are expected, and none follows the row though the page goes on.
fn lacks_eol(src: &[u8], state: State, rows_done: bool, eols: Eols) -> bool
    ensures { Lacks src.now rows_done state eols result }
{
    if eols.count != 0 {
        return false;
    }
    if !state.eols {
        return false;
    }
    if rows_done {
        return false;
    }
    !bit_reader::at_end(src.len(), eols.at)
}

fn check_eob(src: &[u8], settings: DecodeSettings, state: State) -> Before
    requires { Loading src.now state.at }
    ensures { before_of settings src.now result ≡ before_in settings src.now state false }
{
    let eols = eols::read_eols(src, settings, align(settings, state));
    let rows_done = state.rows == settings.rows as usize;
    if lacks_eol(src, state, rows_done, eols) {
        return skip_rest(src, settings, eols.at);
    }
    judge(src, settings, rows_done, state.eols, eols)
}

pub(crate) fn between(src: &[u8], settings: DecodeSettings, state: State) -> Before
    requires { Loading src.now state.at }
    ensures { before_of settings src.now result ≡ before_in settings src.now state (eqb state.rows 0) }
{
    if state.rows != 0 {
        return check_eob(src, settings, state);
    }
    let eols = eol::read_all_eols(src, state.at);
    if 0 < eols.count {
        return Before::Line(eols.at, true);
    }
    Before::Line(eols.at, settings.end_of_line)
}

// Whether what is usual comes before the row: one EOL, which was expected.
pub(crate) fn is_usual(src: &[u8], settings: DecodeSettings, state: State) -> bool
    requires { Loading src.now state.at }
    ensures { Usual settings src.now state result }
{
    if state.rows == 0 {
        return false;
    }
    if !state.eols {
        return false;
    }
    if state.rows == settings.rows as usize {
        return false;
    }
    eols::is_single(src, state.at)
}
