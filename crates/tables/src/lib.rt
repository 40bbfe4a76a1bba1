// The code tables of T.4 and T.6, the table of pairs made of them, and the readers of all tables (tables.rs). The two lookup tables
// have a crate of their own, `lookups`. A constant is built anew on the stack wherever it is used, so a decoder or a writer makes
// each table once, and lends it.
#![tactic(auto)]

ghost use Rattle.std.specs.Prelude.{◌≡◌, ◌-◌, ◌≤◌, ◌<◌};
ghost use Rattle.rules.specs.Bits.{bits_for};
ghost use Rattle.rules.specs.Codes.{white, black, white_terminating, white_makeup, black_terminating};
ghost use Rattle.rules.specs.Codes.{black_makeup, common_makeup, terminating_of, makeup_of, code_at};
ghost use Rattle.rules.specs.Lookup.{lookup, entry_number, lookup_table};
ghost use Rattle.tables.specs.Pairs.{pair_table};
ghost use Rattle.tables.specs.Tables.{colour_of, rows, code_of, SameBits, Lookups, Terminating, Makeup};

mod code_tables;
mod lookup_pairs;

// The bits of a code: the lowest `size` bits of `word`, the highest of them first.
#[derive(Clone, Copy)]
pub struct Code {
    pub size: u32,
    pub word: u32,
}

// A black run and a white one behind it at once.
pub fn pair_lookup() -> [u16; 2048]
    ensures { result ≡ pair_table }
{
    lookup_pairs::PAIR_LOOKUP
}

// T.4's codes of white runs of 0 to 63,
pub fn white_terminating() -> [[u16; 3]; 64]
    ensures { result ≡ rows white_terminating }
{
    code_tables::WHITE_TERMINATING
}

// of white runs of 64 to 1728,
pub fn white_makeup() -> [[u16; 3]; 27]
    ensures { result ≡ rows white_makeup }
{
    code_tables::WHITE_MAKEUP
}

// of black runs of 0 to 63,
pub fn black_terminating() -> [[u16; 3]; 64]
    ensures { result ≡ rows black_terminating }
{
    code_tables::BLACK_TERMINATING
}

// of black runs of 64 to 1728,
pub fn black_makeup() -> [[u16; 3]; 27]
    ensures { result ≡ rows black_makeup }
{
    code_tables::BLACK_MAKEUP
}

// and of runs of 1792 to 2560 in either colour.
pub fn common_makeup() -> [[u16; 3]; 13]
    ensures { result ≡ rows common_makeup }
{
    code_tables::COMMON_MAKEUP
}

// What 13 bits begin with: a run in the low 12 bits, the length of its code above them. The colour 0 is white, any other black.
pub fn lookup<'a>(white: &'a [u16; 8192], black: &'a [u16; 8192], colour: usize, bits: usize) -> u16
    requires { (bits < 8192) × Lookups white.now black.now }
    ensures { result ≡ entry_number (lookup (colour_of colour) (bits_for 13 bits)) }
{
    if colour == 0 {
        white[bits]
    } else {
        black[bits]
    }
}

fn from_row(row: [u16; 3]) -> Code
    ensures { SameBits result (code_of row) }
{
    Code {
        size: u32::from(row[1]),
        word: u32::from(row[2]),
    }
}

// The terminating code of a run below 64.
pub fn terminating<'a>(
    white: &'a [[u16; 3]; 64],
    black: &'a [[u16; 3]; 64],
    colour: usize,
    run: usize,
) -> Code
    requires { (run < 64) × Terminating white.now black.now }
    ensures { SameBits result (code_at (terminating_of (colour_of colour)) run) }
{
    if colour == 0 {
        from_row(white[run])
    } else {
        from_row(black[run])
    }
}

// The make-up code of m × 64 pixels. Above 27 × 64 both colours share one table.
pub fn makeup<'a>(
    white: &'a [[u16; 3]; 27],
    black: &'a [[u16; 3]; 27],
    common: &'a [[u16; 3]; 13],
    colour: usize,
    m: usize,
) -> Code
    requires { (1 ≤ m) × (m ≤ 40) × Makeup white.now black.now common.now }
    ensures { SameBits result (code_at (makeup_of (colour_of colour)) (m - 1)) }
{
    if 27 < m {
        from_row(common[m - 28])
    } else if colour == 0 {
        from_row(white[m - 1])
    } else {
        from_row(black[m - 1])
    }
}
