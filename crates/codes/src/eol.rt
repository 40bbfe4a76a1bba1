// EOLs: at least eleven zeros, then a one. Zeros that no one closes are none, and are not consumed.
ghost use Rattle.std.specs.Prelude.{◌≡◌};
ghost use Rattle.rules.specs.Bits.{bits_of};
ghost use Rattle.rules.specs.Eols.{read_eols, all_eols, skip_to_eol};
ghost use Rattle.bit_reader.specs.Loaded.{Loading};
ghost use Rattle.codes.specs.Eols.{eols_of, skip_of};

// How many were read, and the bit after them.
#[derive(Clone, Copy)]
pub struct Eols {
    pub count: usize,
    pub at: usize,
}

// At most `max` of them.
pub fn read_eols(src: &[u8], from: usize, max: usize) -> Eols
    requires { Loading src.now from }
    ensures { eols_of result ≡ read_eols max (bits_of src.now) from }
{
    let end = 8 * src.len();
    let mut at = from;
    for count in 0..max {
        let ahead = bit_reader::peek(src, at) >> 20;
        // A one among the next eleven bits: no EOL begins here.
        if 1 < ahead {
            return Eols { count, at };
        }
        // Eleven zeros and a one: an EOL without fill. The next code need not wait for a count.
        if ahead == 1 {
            at += 12;
            continue;
        }
        // Twelve zeros, of the data or past it.
        let one = bit_reader::zeros::first_one(src, at);
        if one >= end {
            return Eols { count, at };
        }
        at = one + 1;
    }
    Eols { count: max, at }
}

// There are fewer of them than bits.
pub fn read_all_eols(src: &[u8], from: usize) -> Eols
    requires { Loading src.now from }
    ensures { eols_of result ≡ all_eols (bits_of src.now) from }
{
    read_eols(src, from, 8 * src.len())
}

// The first bit of the next EOL, fill included, if there is one. A one that closes fewer zeros is passed, and the count begins anew behind it.
pub fn skip_to_eol(src: &[u8], from: usize) -> Option<usize>
    requires { Loading src.now from }
    ensures { skip_of result ≡ skip_to_eol (bits_of src.now) from }
{
    let mut at = from;
    'search: loop {
        let b = bit_reader::buffer::load(src, at);
        let limit = b.limit;
        let mut bits = b.bits;
        // Up to the limit the next eleven bits are there.
        while at <= limit {
            let ahead = bits >> 53;
            if ahead == 0 {
                break 'search;
            }
            // No one among them closes eleven zeros, so the last of them is the one to begin behind.
            let n = 11 - u64::trailing_zeros(ahead) as usize;
            at += n;
            bits = bits << n;
        }
    }
    // Eleven zeros, of the data or past it: an EOL where a one closes them.
    if bit_reader::zeros::first_one(src, at) >= 8 * src.len() {
        return None;
    }
    Some(at)
}
