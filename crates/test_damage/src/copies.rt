// Damaged copies of a page. The same number gives the same damage.
use crate::damage::Damage;

// The first so many, or all.
pub(crate) fn front<T>(s: &[T], n: usize) -> &[T] {
    if n < s.len() { &s[..n] } else { s }
}

// The next of a row of numbers that have no pattern that matters here.
pub(crate) fn next(state: u64) -> u64 {
    (state % 2147483648 * 1103515245 + 12345) % 2147483648
}

// A number below `n`, drawn from a state.
pub(crate) fn drawn(state: u64, n: usize) -> usize {
    if n == 0 {
        return 0;
    }
    (state / 64) as usize % n
}

// A number from 1 to `most`.
fn some(state: u64, most: usize) -> usize {
    most.min(drawn(state, most).saturating_add(1))
}

// A byte so many places behind one.
fn put(out: &mut [u8], from: usize, k: usize, byte: u8) {
    if let Some(to) = out.get_mut(from.saturating_add(k)) {
        *to = byte;
    }
}

fn flip(out: &mut [u8], at: usize, k: usize) {
    if let Some(byte) = out.get_mut(at) {
        *byte ^= 128 >> k.min(7);
    }
}

fn low(n: usize) -> u8 {
    (n % 256) as u8
}

// Other bytes at so many places.
fn scatter(out: &mut [u8], size: usize, count: usize, seed: u64) {
    let mut state = seed;
    for _ in 0..count {
        let place = next(state);
        state = next(place);
        put(out, drawn(place, size), 0, low(drawn(state, 256)));
    }
}

// Zeros at so many places from one on.
fn blank(out: &mut [u8], from: usize, count: usize) {
    for k in 0..count {
        put(out, from, k, 0);
    }
}

// All that stands from one place on goes to another, with zeros behind it.
pub(crate) fn shift(src: &[u8], from: usize, out: &mut [u8], to: usize) {
    for k in 0..src.len() {
        let byte = src.get(from.saturating_add(k)).copied().unwrap_or(0);
        put(out, to, k, byte);
    }
}

// Drawn bytes at so many places from one on.
fn fill(out: &mut [u8], from: usize, count: usize, seed: u64) {
    let mut state = seed;
    for k in (0..count).rev() {
        state = next(state);
        put(out, from, k, low(drawn(state, 256)));
    }
}

// The sum of two, or `most`.
fn sum(a: usize, b: usize, most: usize) -> usize {
    most.min(a.saturating_add(b))
}

// Bytes are lost from a place on; how many the copy has.
fn lose(src: &[u8], at: usize, count: usize, out: &mut [u8]) -> usize {
    let size = src.len();
    let end = sum(at, count, size);
    shift(src, end, out, at);
    if size < end {
        return at;
    }
    sum(at, size - end, size)
}

// Drawn bytes stand in a place before those that were there; how many the copy has.
fn put_in(src: &[u8], at: usize, count: usize, seed: u64, out: &mut [u8]) -> usize {
    let most = out.len();
    let end = sum(at, count, most);
    shift(src, at, out, end);
    fill(out, at, count, seed);
    sum(src.len(), count, most)
}

// The number from which all of a copy is drawn.
pub(crate) fn start(damage: Damage, seed: u64) -> u64 {
    next(next(seed % 1000000 * 7919 + damage as u64 % 16))
}

// The most bytes that are changed, lost or put in, and the most zeros.
const FEW: usize = 16;

const MOST_ZEROS: usize = 32;

// A copy into `out`, which is 0 behind it, and how many bytes the copy has.
pub(crate) fn damaged(src: &[u8], damage: Damage, seed: u64, out: &mut [u8]) -> usize {
    if out.len() < src.len() {
        return 0;
    }
    let size = src.len();
    out[..size].copy_from_slice(src);
    let first = start(damage, seed);
    let second = next(first);
    let third = next(second);
    let at = drawn(first, size);
    match damage {
        Damage::Bit => flip(out, at, drawn(second, 8)),
        Damage::Byte => put(out, at, 0, low(drawn(second, 256))),
        Damage::Bytes => scatter(out, size, some(first, FEW), second),
        Damage::Zeros => blank(out, at, some(second, MOST_ZEROS)),
        Damage::Cut => {
            return drawn(third, size);
        }
        Damage::Lost => {
            return lose(src, at, some(second, FEW), out);
        }
        Damage::PutIn => {
            return put_in(src, at, some(second, FEW), third, out);
        }
        _ => {}
    }
    size
}
