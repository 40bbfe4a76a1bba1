// A row's bytes, word by word, and the rows of a store, stride by stride.
ghost use Rattle.std.specs.Prelude.{◌≡◌, cond, ◌+◌, ◌-◌, ◌^◌, ◌≤◌, ◌<◌, [], length};
ghost use Rattle.rules.specs.Rows.{bytes_to};
ghost use Rattle.rules.specs.Write.{rows_in};
ghost use Rattle.bitmap.specs.Packed.{packed, row_bytes, painted_from};
ghost use Rattle.bitmap.specs.Steps.{Standing, black_in, Sheet, Sheets};

use crate::{pixels, put};

// A word of pixels as the caller wants it: black is 1, or 0.
pub(crate) fn shown(one: bool, bits: u64) -> u64
    ensures { result ≡ cond one bits (18446744073709551615 - bits) }
{
    if one {
        return bits;
    }
    pixels::ALL - bits
}

// Eight white pixels.
fn white_byte(one: bool) -> u8
    ensures { result ≡ cond one 0 255 }
{
    if one {
        return 0;
    }
    255
}

// The word in which the row ends. A row that ends in black turns white at the width.
fn last(width: u32, row: &[u32], next: usize, black: bool, from: usize) -> u64
    requires { Standing width row.now next black from × (from < width) × (width ≤ from + 64) }
    ensures { result ≡ packed (black_in width row.now) 64 from }
{
    let w = pixels::word(width, row, next, black, from);
    let used = width as usize - from;
    if !w.black {
        return w.bits;
    }
    if 64 <= used {
        return w.bits;
    }
    pixels::turned(w.bits, true, used)
}

// The bytes of one row.
fn row(one: bool, width: u32, row: &[u32], out: &mut [u8])
    requires { Sheet width row.now out.old }
    ensures { out.new ≡ row_bytes one width row.now }
{
    let mut next: usize = 0;
    let mut black = false;
    // The word in which the row ends begins where this loop stops.
    let mut i: usize = 0;
    while i + 8 < out.len() {
        let w = pixels::word(width, row, next, black, 8 * i);
        put::eight(out, i, shown(one, w.bits));
        next = w.next;
        black = w.black;
        i += 8;
    }
    let bits = shown(one, last(width, row, next, black, 8 * i));
    if i + 8 == out.len() {
        put::eight(out, i, bits);
        return;
    }
    put::rest(out, i, bits);
}

// A row without changes is white: the same byte everywhere.
fn blank(one: bool, width: u32, out: &mut [u8])
    requires { length out.old ≡ bytes_to width }
    ensures { out.new ≡ row_bytes one width [] }
{
    // `out.fill` was tried: it writes byte by byte, and a page took a quarter more instructions.
    let byte = white_byte(one);
    let mut i: usize = 0;
    while i < out.len() {
        out[i] = byte;
        i += 1;
    }
}

fn row_or_blank(one: bool, width: u32, changes: &[u32], out: &mut [u8])
    requires { Sheet width changes.now out.old }
    ensures { out.new ≡ row_bytes one width changes.now }
{
    if changes.len() == 0 {
        blank(one, width, out);
        return;
    }
    row(one, width, changes, out);
}

// The rows of a store, the bytes between them left as they are.
pub(crate) fn rows(
    one: bool,
    width: u32,
    stride: usize,
    changes: &[u32],
    ends: &[u64],
    out: &mut [u8],
)
    requires { Sheets width stride changes.now ends.now (length out.old) }
    ensures { out.new ≡ painted_from one width stride 0 (rows_in 0 changes.now ends.now) out.old }
{
    let size = (width as usize + 7) / 8;
    // With a `for` here and in `put::rest` a page took a fifth more instructions.
    let mut base: usize = 0;
    let mut k: usize = 0;
    while k < ends.len() {
        let end = ends[k] as usize;
        let at = k * stride;
        let to = at + size;
        row_or_blank(one, width, &changes[base..end], &mut out[at..to]);
        base = end;
        k += 1;
    }
}
