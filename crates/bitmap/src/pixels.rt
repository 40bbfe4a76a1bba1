// 64 pixels of a row as one number, the leftmost the highest bit, and a one for black.
ghost use Rattle.std.specs.Prelude.{◌≡◌, cond, ◌+◌, ◌-◌, ◌*◌, ◌^◌, ◌<◌, ◌≤◌, length};
ghost use Rattle.rules.specs.Codes.{white};
ghost use Rattle.bitmap.specs.Steps.{ones_from, Turnable, Standing, Has};

pub(crate) const ALL: u64 = 18446744073709551615;

// `next` changes of the row lie left of where these 64 pixels end, and behind them it goes on in black or not. The colour says nothing of the
// count, so it stands beside it.
#[derive(Clone, Copy)]
pub(crate) struct Span {
    pub(crate) next: usize,
    pub(crate) black: bool,
    pub(crate) bits: u64,
}

// 64 pixels of one colour.
fn flat(black: bool) -> u64
    ensures { result ≡ cond black 18446744073709551615 0 }
{
    if black {
        return ALL;
    }
    0
}

// The pixels from `at` on, which are all black or all white, are of the other colour then.
pub(crate) fn turned(bits: u64, black: bool, at: usize) -> u64
    requires { (at < 64) × Turnable black bits at }
    ensures { result ≡ cond black (bits - ones_from at) (bits + ones_from at) }
{
    bits ^ (ALL >> at)
}

// The 64 pixels from `from` on: each change turns those from it on.
pub(crate) fn word(width: u32, row: &[u32], first: usize, ink: bool, from: usize) -> Span
    requires { Standing width row.now first ink from × (from + 64 < 2 ^ 64) }
    ensures { Has width row.now from result }
{
    let end = from + 64;
    let mut next = first;
    let mut black = ink;
    let mut bits = flat(ink);
    // How many changes were passed is a part of the answer, so they are counted here and by no iterator.
    while next < row.len() {
        let x = row[next] as usize;
        if end <= x {
            return Span { next, black, bits };
        }
        bits = turned(bits, black, x - from);
        black = !black;
        next += 1;
    }
    Span { next, black, bits }
}
