// A portable bitmap (PBM) as rows of changes: P4 has eight pixels to a byte and each row begins at one, P1 a 0 or 1 for each pixel. 1 is black.
use crate::text;

// What the file begins with, and the bytes of its pixels.
#[derive(Clone, Copy)]
pub(crate) struct Bitmap<'a> {
    pub(crate) plain: bool,
    pub(crate) columns: u32,
    pub(crate) rows: u32,
    pub(crate) pixels: &'a [u8],
}

// Why the rows cannot be taken into the store: what lacks.
#[derive(Clone, Copy)]
pub(crate) enum Fault {
    Pixels,
    Room,
}

// What stands behind a blank, of which there must be one.
fn behind_blank(text: &[u8]) -> Option<&[u8]> {
    match text.split_first() {
        Some((byte, rest)) if text::is_blank(*byte) => Some(rest),
        _ => None,
    }
}

// The next number, and what is left: each side has 1 to 65,536 pixels.
fn side(text: &[u8]) -> Option<(u32, &[u8])> {
    let (value, rest) = text::number(text::skip(text));
    match value? {
        0 => None,
        n if 65536 < n => None,
        n => Some((n, rest)),
    }
}

pub(crate) fn head(src: &[u8]) -> Option<Bitmap<'_>> {
    let plain = src.starts_with(b"P1");
    let rest = if plain {
        src.strip_prefix(b"P1")?
    } else {
        src.strip_prefix(b"P4")?
    };
    let (columns, rest) = side(behind_blank(rest)?)?;
    let (rows, rest) = side(rest)?;
    // One blank stands before the bytes of P4, and before the pixels of P1.
    let pixels = behind_blank(rest)?;
    Some(Bitmap {
        plain,
        columns,
        rows,
        pixels,
    })
}

// The next pixel of P1, whether it is black, and what is left.
fn pixel(text: &[u8]) -> Option<(bool, &[u8])> {
    match text::skip(text).split_first() {
        Some((b'0', rest)) => Some((false, rest)),
        Some((b'1', rest)) => Some((true, rest)),
        _ => None,
    }
}

// A row into the store behind `base` entries: where its changes end, and what is left.
fn row<'a>(
    pixels: &'a [u8],
    columns: u32,
    changes: &mut [u32],
    base: usize,
) -> Result<(usize, &'a [u8]), Fault> {
    let mut rest = pixels;
    let mut end = base;
    let mut black = false;
    for x in 0..columns {
        let Some((shade, next)) = pixel(rest) else {
            return Err(Fault::Pixels);
        };
        rest = next;
        if shade != black {
            if changes.len() <= end {
                return Err(Fault::Room);
            }
            changes[end] = x;
            end += 1;
            black = shade;
        }
    }
    Ok((end, rest))
}

// How many bytes a row of P4 has.
pub(crate) fn row_bytes(columns: u32) -> usize {
    columns.div_ceil(8) as usize
}

// The rows of P1, a pixel at a time.
fn plain_rows(bitmap: Bitmap<'_>, changes: &mut [u32], ends: &mut [u64]) -> Result<(), Fault> {
    let mut rest = bitmap.pixels;
    let mut end = 0;
    for y in 0..bitmap.rows as usize {
        let (here, next) = row(rest, bitmap.columns, changes, end)?;
        if ends.len() <= y {
            return Err(Fault::Room);
        }
        ends[y] = here as u64;
        end = here;
        rest = next;
    }
    Ok(())
}

// Those of P4, by the proved reader of packed pixels.
fn packed_rows(bitmap: Bitmap<'_>, changes: &mut [u32], ends: &mut [u64]) -> Result<(), Fault> {
    let read = bitmap::unpaint(
        bitmap.columns,
        u64::from(bitmap.rows),
        true,
        row_bytes(bitmap.columns) as u64,
        bitmap.pixels,
        changes,
        ends,
    );
    match read.number {
        answer::COMPLETE => Ok(()),
        answer::NO_ENTRY | answer::NO_ROW_END => Err(Fault::Room),
        _ => Err(Fault::Pixels),
    }
}

// The rows of a bitmap into a store.
pub(crate) fn rows(bitmap: Bitmap<'_>, changes: &mut [u32], ends: &mut [u64]) -> Result<(), Fault> {
    if bitmap.plain {
        plain_rows(bitmap, changes, ends)
    } else {
        packed_rows(bitmap, changes, ends)
    }
}
