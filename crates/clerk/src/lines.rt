// Parts of slices, and rows of changes, as several commands take them.
use by_row::{RowStep, Side};

// The first so many, or all.
pub(crate) fn front<T>(s: &[T], n: usize) -> &[T] {
    if n < s.len() { &s[0..n] } else { s }
}

// What is behind the first so many.
pub(crate) fn rest(s: &[u8], n: usize) -> &[u8] {
    if n < s.len() { &s[n..] } else { b"" }
}

// The changes that a call speaks of.
pub(crate) fn changes<'a>(step: RowStep, first: &'a [u32], second: &'a [u32]) -> &'a [u32] {
    match step.array {
        Side::First => front(first, step.count),
        Side::Second => front(second, step.count),
    }
}
