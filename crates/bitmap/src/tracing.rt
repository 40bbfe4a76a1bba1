// The changes of packed rows. A word has a one for each pixel that is not of the colour before it; where it is 0 nothing changes.
ghost use Rattle.std.specs.Prelude.{◌≡◌, true, ◌+◌, ◌-◌, ◌*◌, ◌≤◌, ◌<◌, ◌%◌, [], ◌∷◌, length};
ghost use Rattle.rules.specs.Pages.{most_bytes};
ghost use Rattle.bitmap.specs.Packed.{packed, pixels_at, turns_from, rows_at};
ghost use Rattle.bitmap.specs.Turning.{bit_in, recorded, up_to, Roomy, Traced, Turns, Starts, Row, Lies, Rows};

use crate::{painting, pixels};

// Which change comes next, and whether the pixel before it is black: two facts of one place, and no refusal among them.
#[derive(Clone, Copy)]
pub(crate) struct Turn {
    pub(crate) next: usize,
    pub(crate) black: bool,
}

// Near the end of the data it is read in halves, with zeros behind it.
fn near_end(src: &[u8], at: usize) -> u64
    requires { (at ≤ 8 * length src.now) × (length src.now ≤ most_bytes) }
    ensures { result ≡ packed (bit_in src.now) 64 at }
{
    let high = bit_reader::peek(src, at) as u64;
    if 8 * src.len() < at + 32 {
        return high * 0x1_0000_0000;
    }
    high * 0x1_0000_0000 + bit_reader::peek(src, at + 32) as u64
}

// The 64 bits from a byte on.
fn load(src: &[u8], at: usize) -> u64
    requires { (at ≤ 8 * length src.now) × (at % 8 ≡ 0) × (length src.now ≤ most_bytes) }
    ensures { result ≡ packed (bit_in src.now) 64 at }
{
    if at + 64 <= 8 * src.len() {
        return bit_reader::ahead(src, at);
    }
    near_end(src, at)
}

// One change more. It is recorded only where `write` says so.
fn note(changes: &mut [u32], next: usize, x: u32, write: bool)
    requires { write ≡ true → next < length changes.old }
    ensures { changes.new ≡ recorded write next (x ∷ []) changes.old }
{
    if write {
        changes[next] = x;
    }
}

// The changes among the 64 pixels from `from` on: the first one of the word is a change, and from there on it is turned.
fn turns(
    one: bool,
    width: u32,
    src: &[u8],
    at: usize,
    from: usize,
    first: usize,
    ink: bool,
    changes: &mut [u32],
    write: bool,
) -> Turn
    requires { Traced one width src.now at from first ink × Roomy write first (turns_from (pixels_at one src.now at) (up_to width (from + 64) - from) from) changes.old }
    ensures { Turns (pixels_at one src.now at) width from first write changes.old result changes.new }
{
    let mut next = first;
    let mut black = ink;
    let mut rest = painting::shown(!ink, painting::shown(one, load(src, 8 * at + from)));
    while rest != 0 {
        let z = u64::leading_zeros(rest) as usize;
        let x = from + z;
        if width as usize <= x {
            return Turn { next, black };
        }
        note(changes, next, x as u32, write);
        next += 1;
        black = !black;
        rest = (pixels::ALL >> z) - rest;
    }
    Turn { next, black }
}

// The changes of the row that begins at byte `at`, behind `first` others; and how many there are then.
pub(crate) fn row(
    one: bool,
    width: u32,
    src: &[u8],
    at: usize,
    changes: &mut [u32],
    first: usize,
    write: bool,
) -> usize
    requires { Starts width src.now at first × Roomy write first (turns_from (pixels_at one src.now at) width 0) changes.old }
    ensures { Row (pixels_at one src.now at) width first write changes.old result changes.new }
{
    let mut next = first;
    let mut black = false;
    // By whole words: the place behind the last one may lie past the width, and is what the invariant speaks of.
    let mut from: usize = 0;
    while from < width as usize {
        let t = turns(one, width, src, at, from, next, black, changes, write);
        next = t.next;
        black = t.black;
        from += 64;
    }
    next
}

// Where a row ends. It is recorded only where `write` says so.
fn note_end(ends: &mut [u64], k: usize, next: usize, write: bool)
    requires { write ≡ true → k < length ends.old }
    ensures { ends.new ≡ recorded write k (next ∷ []) ends.old }
{
    if write {
        ends[k] = next as u64;
    }
}

// The changes of so many rows, and where each ends; and how many there are.
pub(crate) fn rows(
    one: bool,
    width: u32,
    stride: usize,
    count: usize,
    src: &[u8],
    changes: &mut [u32],
    ends: &mut [u64],
    write: bool,
) -> usize
    requires { Lies one width stride count src.now write (length changes.old) (length ends.old) }
    ensures { Rows (rows_at one width stride src.now count 0) write changes.old ends.old result changes.new ends.new }
{
    let mut next: usize = 0;
    for k in 0..count {
        next = row(one, width, src, k * stride, changes, next, write);
        note_end(ends, k, next, write);
    }
    next
}
