// The settings of a page (lib.rs), the state between its rows, and what one row answers. The rows stand one behind the other in a lent
// store of changes, and the last kept row is the reference.
#![tactic(auto)]

ghost use Rattle.std.specs.Prelude.{◌≡◌, ◌≤◌};
ghost use Rattle.rules.specs.Pages.{too_few};
ghost use Rattle.rules.specs.Rows.{aligned_if, finished};
ghost use Rattle.bit_reader.specs.Cursor.{most_bits};
ghost use Rattle.settings.specs.Settings.{settings_of, is_group4, strict_for};
ghost use Rattle.settings.specs.Between.{row_for};

use context::reference::Reference;

#[derive(Clone, Copy, PartialEq, Eq)]
pub enum EncodingMode {
    Group4,
    Group3_1D,
    Group3_2D,
}

#[derive(Clone, Copy)]
pub struct DecodeSettings {
    pub columns: u32,
    // 0 stands for any number of rows.
    pub rows: u32,
    pub end_of_block: bool,
    pub end_of_line: bool,
    pub rows_are_byte_aligned: bool,
    pub encoding: EncodingMode,
    pub strict: bool,
    // No idle codes, and no page short of `rows`; strict, whatever `strict` says.
    pub exact: bool,
    // Runs are read by the plain engine (A14), not by the lookup. No answer depends on it.
    pub plain: bool,
}

// The next bit, the rows kept, and where the reference lies: it is lent, or it lies in the store right before `base`. The next row
// is written from `base` on. `eols` says whether EOLs are expected, in Group 3 alone.
#[derive(Clone, Copy)]
pub struct State {
    pub at: usize,
    pub rows: usize,
    pub reference: Reference,
    pub base: usize,
    pub eols: bool,
}

// A row that is kept: how many changes it has, its mark, the bit after it, and whether EOLs are expected behind it.
#[derive(Clone, Copy)]
pub struct KeptRow {
    pub changes: usize,
    pub mark: u32,
    pub at: usize,
    pub eols: bool,
}

// The page's end: its number, the bit at fault, the bytes, and how many changes are loose.
#[derive(Clone, Copy)]
pub struct PageStop {
    pub number: u32,
    pub place: usize,
    pub bytes: usize,
    pub loose: usize,
}

pub type Row = Result<KeptRow, PageStop>;

// A row that begins at a byte, where the settings say so.
pub fn align_if(aligned: bool, at: usize) -> usize
    requires { at ≤ most_bits }
    ensures { result ≡ aligned_if aligned at }
{
    if aligned {
        return bit_reader::align(at);
    }
    at
}

// Consumed bytes are rounded up.
pub fn end_at(at: usize) -> Row
    requires { at ≤ most_bits }
    ensures { result ≡ row_for (finished at) }
{
    let bytes = bit_reader::byte_pos(bit_reader::align(at));
    Err(PageStop {
        number: answer::COMPLETE,
        place: 0,
        bytes,
        loose: 0,
    })
}

// A count in the 64 bits that a row end has: more than 32, since a page may have more entries than those can count (A4).
pub fn row_end(count: usize) -> u64
    ensures { result ≡ count }
{
    count as u64
}

// The one encoding whose rows have no 1D lines and no tags.
pub fn is_group4(settings: DecodeSettings) -> bool
    ensures { result ≡ is_group4 settings.encoding }
{
    settings.encoding == EncodingMode::Group4
}

// How a page is read: exact implies strict (A12).
pub fn strict_if_exact(settings: DecodeSettings) -> DecodeSettings
    ensures { result ≡ strict_for settings }
{
    DecodeSettings {
        strict: settings.exact || settings.strict,
        ..settings
    }
}

// Whether an exact reading ends a page with too few rows.
pub fn is_short(settings: DecodeSettings, number: u32, rows: u64) -> bool
    ensures { result ≡ too_few (settings_of settings) number rows }
{
    settings.exact && number == answer::COMPLETE && rows < u64::from(settings.rows)
}
