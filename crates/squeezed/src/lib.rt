// The entries of the lookup tables one by one, for the forms that read a row, a line or a unit a call: a table would be built anew on
// the stack at each of them, and takes longer than the row. Each table is a `match` of words with four entries each, which the compiler
// lays into read-only data.
#![tactic(auto)]

ghost use Rattle.std.specs.Prelude.{◌≡◌, ◌*◌, ◌/◌, ◌%◌, ◌^◌, ◌<◌, get_or};
ghost use Rattle.rules.specs.Lookup.{lookup_table};
ghost use Rattle.tables.specs.Tables.{colour_of};
ghost use Rattle.tables.specs.Pairs.{pair_table};
ghost use Rattle.squeezed.specs.Words.{entry_of, squeezed};

mod code_words;
mod pair_words;

// The word of the arms that no number comes to. No other arm has it: the compiler leaves out arms at the ends that have the word of
// the last one, and a jump would stand for them.
const NONE: u64 = 0xffff_ffff_ffff_ffff;

// What 13 bits begin with in a colour, as its lookup table has it. The colour 0 is white, any other black.
pub fn entry(colour: usize, top: usize) -> u16
    requires { top < 8192 }
    ensures { result ≡ get_or (lookup_table (colour_of colour)) top 0 }
{
    let at = place(colour, top);
    quarter(code_words::code_word(at / 4), at)
}

// A black run and a white one behind it, as the table of pairs has them for 11 bits.
pub fn pair(top: usize) -> u16
    requires { top < 2048 }
    ensures { result ≡ get_or pair_table top 0 }
{
    quarter(pair_words::pair_word(top / 4), top)
}

// The places of the squeezed lookups, each part behind the other: white by its first 9 bits (from 0 on), white with seven zeros in front
// by 12 bits, black with four zeros in front by all 13, and black by its first 6.
const WHITE_LONG: usize = 512;

const BLACK_LONG: usize = 544;

const BLACK: usize = 1056;

// Where they have the entry of 13 bits: few of them need all 13, so that 1,120 places serve the 16,384 entries.
fn place(colour: usize, top: usize) -> usize
    requires { top < 8192 }
    ensures { (result < 1120) × (squeezed result ≡ entry_of (colour_of colour) top) }
{
    if colour == 0 {
        if top < 64 {
            WHITE_LONG + top / 2
        } else {
            top / 16
        }
    } else {
        if top < 512 {
            BLACK_LONG + top
        } else {
            BLACK + top / 128
        }
    }
}

// The entry of a place in its word.
fn quarter(word: u64, at: usize) -> u16
    ensures { result ≡ (word / 2 ^ (16 * (at % 4))) % 65536 }
{
    ((word >> (16 * (at % 4))) % 65536) as u16
}
