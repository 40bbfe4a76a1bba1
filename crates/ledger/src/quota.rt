// The quota: whether it is passed, and what is left of it.
ghost use Rattle.std.specs.Prelude.{◌≡◌, pos, ◌-ℤ◌};
ghost use Rattle.ledger.specs.Books.{left, is_below, size, status_of};

use crate::Ledger;

fn is_negative(n: i32) -> bool
    ensures { result ≡ is_below n }
{
    n < 0
}

// How far a number lies from zero.
fn magnitude(n: i32) -> u64
    ensures { result ≡ size n }
{
    u64::from(n.unsigned_abs())
}

// Whether a quota is passed by so many heads, and what is left of it, or by how much it is passed.
fn is_below(quota: i32, heads: u32) -> bool
    ensures { result ≡ is_below (quota -ℤ pos heads) }
{
    is_negative(quota) || magnitude(quota) < u64::from(heads)
}

fn left_size(quota: i32, heads: u32) -> u64
    ensures { result ≡ size (quota -ℤ pos heads) }
{
    let before = magnitude(quota);
    let off = u64::from(heads);
    if is_negative(quota) {
        return before + off;
    }
    if before < off {
        return off - before;
    }
    before - off
}

// Whether the quota is passed, and what is left of it, or by how much it is passed.
pub fn is_passed(b: Ledger) -> bool
    ensures { result ≡ is_below (left b) }
{
    is_below(b.quota, b.heads)
}

pub fn size_left(b: Ledger) -> u64
    ensures { result ≡ size (left b) }
{
    left_size(b.quota, b.heads)
}

// What a run ends with: 0 where every page was counted and the quota is not passed, else 1.
pub fn status(b: Ledger) -> u32
    ensures { result ≡ status_of b }
{
    u32::from(b.looked != 0 || is_passed(b))
}
