// EOLs, and the tag bits that stand behind them in 2D data.
ghost use Rattle.std.specs.Prelude.{◌≡◌, length, drop};
ghost use Rattle.rules.specs.Bits.{bits_of, front_bit};
ghost use Rattle.rules.specs.Group3.{between_tags, eols3};
ghost use Rattle.bit_reader.specs.Loaded.{Loading};
ghost use Rattle.codes.specs.Eols.{eols_of};
ghost use Rattle.settings.specs.Settings.{tagging_of};
ghost use Rattle.group3.specs.Tags.{is_tagged, EolsRead};
ghost use Rattle.group3.specs.Ahead.{Single};

use codes::eol;
use codes::eol::Eols;
use settings::{DecodeSettings, EncodingMode};

pub(crate) fn is_tagged(settings: DecodeSettings) -> bool
    ensures { result ≡ is_tagged (tagging_of settings.encoding) }
{
    settings.encoding == EncodingMode::Group3_2D
}

// Whether the next bit is a one; past the data there is none.
pub(crate) fn is_one(src: &[u8], at: usize) -> bool
    requires { Loading src.now at }
    ensures { result ≡ front_bit (drop at (bits_of src.now)) }
{
    if bit_reader::at_end(src.len(), at) {
        return false;
    }
    bit_reader::bit(src, at) == 1
}

// A tag bit that no EOL follows belongs to the next line, unless it is the last one of an RTC.
fn between_tags(src: &[u8], first: Eols) -> Eols
    requires { EolsRead src.now first }
    ensures { eols_of result ≡ between_tags (length (bits_of src.now)) (bits_of src.now) (eols_of first) }
{
    let mut count = first.count;
    let mut at = first.at;
    while is_one(src, at) {
        let later = eol::read_all_eols(src, at + 1);
        if later.count == 0 {
            if 6 <= count {
                return Eols { count, at: at + 1 };
            }
            break;
        }
        count += later.count;
        at = later.at;
    }
    Eols { count, at }
}

pub(crate) fn read_eols(src: &[u8], settings: DecodeSettings, at: usize) -> Eols
    requires { Loading src.now at }
    ensures { eols_of result ≡ eols3 (bits_of src.now) (tagging_of settings.encoding) at }
{
    let first = eol::read_all_eols(src, at);
    if !is_tagged(settings) {
        return first;
    }
    if first.count == 0 {
        return first;
    }
    between_tags(src, first)
}

// Whether exactly one EOL begins here, without fill: seen at once in a word, and not looked for where the data has fewer bits left. The bit
// behind it may be a tag, which another EOL may follow, so a one is looked for behind that bit.
pub(crate) fn is_single(src: &[u8], at: usize) -> bool
    requires { Loading src.now at }
    ensures { Single src.now at result }
{
    if 8 * src.len() < at + 64 {
        return false;
    }
    let ahead = bit_reader::ahead(src, at);
    if ahead >> 52 != 1 {
        return false;
    }
    (ahead >> 41) % 1024 != 0
}
