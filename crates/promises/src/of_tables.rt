// Calls of the public functions of the crates of tables, each with the contract that its promises are about.
ghost use Rattle.std.specs.Prelude.{◌≡◌, ◌-◌, ◌≤◌, ◌<◌, get_or};
ghost use Rattle.rules.specs.Bits.{bits_for};
ghost use Rattle.rules.specs.Codes.{white, black, white_terminating, white_makeup, black_terminating};
ghost use Rattle.rules.specs.Codes.{black_makeup, common_makeup, terminating_of, makeup_of, code_at};
ghost use Rattle.rules.specs.Lookup.{lookup, entry_number, lookup_table};
ghost use Rattle.tables.specs.Pairs.{pair_table};
ghost use Rattle.tables.specs.Tables.{colour_of, rows, SameBits, Lookups, Terminating, Makeup};

use tables::Code;

pub fn white_lookup() -> [u16; 8192]
    ensures { result ≡ lookup_table white }
{
    lookups::white_lookup()
}

pub fn black_lookup() -> [u16; 8192]
    ensures { result ≡ lookup_table black }
{
    lookups::black_lookup()
}

pub fn pair_lookup() -> [u16; 2048]
    ensures { result ≡ pair_table }
{
    tables::pair_lookup()
}

pub fn entry(colour: usize, top: usize) -> u16
    requires { top < 8192 }
    ensures { result ≡ get_or (lookup_table (colour_of colour)) top 0 }
{
    squeezed::entry(colour, top)
}

pub fn pair(top: usize) -> u16
    requires { top < 2048 }
    ensures { result ≡ get_or pair_table top 0 }
{
    squeezed::pair(top)
}

pub fn white_terminating() -> [[u16; 3]; 64]
    ensures { result ≡ rows white_terminating }
{
    tables::white_terminating()
}

pub fn white_makeup() -> [[u16; 3]; 27]
    ensures { result ≡ rows white_makeup }
{
    tables::white_makeup()
}

pub fn black_terminating() -> [[u16; 3]; 64]
    ensures { result ≡ rows black_terminating }
{
    tables::black_terminating()
}

pub fn black_makeup() -> [[u16; 3]; 27]
    ensures { result ≡ rows black_makeup }
{
    tables::black_makeup()
}

pub fn common_makeup() -> [[u16; 3]; 13]
    ensures { result ≡ rows common_makeup }
{
    tables::common_makeup()
}

pub fn lookup<'a>(white: &'a [u16; 8192], black: &'a [u16; 8192], colour: usize, bits: usize) -> u16
    requires { (bits < 8192) × Lookups white.now black.now }
    ensures { result ≡ entry_number (lookup (colour_of colour) (bits_for 13 bits)) }
{
    tables::lookup(white, black, colour, bits)
}

pub fn terminating<'a>(
    white: &'a [[u16; 3]; 64],
    black: &'a [[u16; 3]; 64],
    colour: usize,
    run: usize,
) -> Code
    requires { (run < 64) × Terminating white.now black.now }
    ensures { SameBits result (code_at (terminating_of (colour_of colour)) run) }
{
    tables::terminating(white, black, colour, run)
}

pub fn makeup<'a>(
    white: &'a [[u16; 3]; 27],
    black: &'a [[u16; 3]; 27],
    common: &'a [[u16; 3]; 13],
    colour: usize,
    m: usize,
) -> Code
    requires { (1 ≤ m) × (m ≤ 40) × Makeup white.now black.now common.now }
    ensures { SameBits result (code_at (makeup_of (colour_of colour)) (m - 1)) }
{
    tables::makeup(white, black, common, colour, m)
}
