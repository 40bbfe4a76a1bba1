// A buffer for reading runs: it lives inside one loop over their codes, where loading the data at each code would cost the most.
ghost use Rattle.std.specs.Prelude.{◌+◌, ◌≡◌};
ghost use Rattle.bit_reader.specs.Loaded.{LoadedAt, Loading, Feeding, fed_at, Top};

use crate::word;

// `bits` has the bits from `at` on, the next one on top. Up to `limit`, which is inside the data, at least 13 of them are there.
#[derive(Clone, Copy)]
pub struct Buffer {
    pub at: usize,
    pub limit: usize,
    pub bits: u64,
}

// A buffer at a bit of the data, with at least the next 13 bits.
pub fn load(src: &[u8], at: usize) -> Buffer
    requires { Loading src.now at }
    ensures { LoadedAt src.now at result }
{
    let i = at / 8;
    // The last 13 of the 64 bits from byte `i` begin at bit 51 of them.
    let limit = usize::min(src.len() * 8, i * 8 + 51);
    let w = word::word(src, i);
    Buffer {
        at: at,
        limit: limit,
        bits: w << (at % 8),
    }
}

// `n` bits on; none where the data ends before, which is the crate's `UnexpectedEof`.
pub fn feed(src: &[u8], b: Buffer, n: usize) -> Option<Buffer>
    requires { Feeding src.now b n }
    ensures { fed_at src.now (b.at + n) result }
{
    let next = b.at + n;
    if next <= b.limit {
        return Some(Buffer {
            at: next,
            limit: b.limit,
            bits: b.bits << n,
        });
    }
    if src.len() * 8 < next {
        return None;
    }
    Some(load(src, next))
}

// The next 13 bits.
pub fn top13(b: Buffer) -> usize
    ensures { Top b result }
{
    (b.bits >> 51) as usize
}
