// Calls of the public functions of look, each with the contract that its promises are about.
ghost use Rattle.std.specs.Prelude.{◌≡◌, true, ◌+◌, ◌*◌, length, get_or};
ghost use Rattle.row_store.specs.Store.{good_rows};
ghost use Rattle.heads.specs.Form.{page_in};
ghost use Rattle.heads.specs.Numbers.{box_in};
ghost use Rattle.look.specs.Base64.{Encodes};
ghost use Rattle.look.specs.Bitmap.{stride_of, bitmap_head};
ghost use Rattle.look.specs.Pieces as Pieces;
ghost use Rattle.look.specs.Pieces.{Tells, part, plot, bar, read_text, found, sheet, drawing, box_text, place_text, is_marked, band, has_row, row_mark};

use ledger::{Ledger, Verdict};

pub fn put_part(out: &mut [u8], k: usize) -> usize
    ensures { Tells true 0 (part k) out.old result out.new }
{
    look::put_part(out, k)
}

pub fn put_top(out: &mut [u8], form: &[u8], b: Ledger) -> usize
    ensures { Tells true (length form.now) (Pieces.top form.now b) out.old result out.new }
{
    look::put_top(out, form, b)
}

pub fn put_row(out: &mut [u8], name: &[u8], v: Verdict, b: Ledger) -> usize
    ensures { Tells true (length name.now) (Pieces.row name.now v b) out.old result out.new }
{
    look::put_row(out, name, v, b)
}

pub fn put_page(out: &mut [u8], name: &[u8], v: Verdict, b: Ledger) -> usize
    ensures { Tells true (length name.now) (Pieces.page name.now v b) out.old result out.new }
{
    look::put_page(out, name, v, b)
}

pub fn put_plot(out: &mut [u8], end: bool, b: Ledger) -> usize
    ensures { Tells true 0 (plot end b) out.old result out.new }
{
    look::put_plot(out, end, b)
}

pub fn put_bar(out: &mut [u8], v: Verdict, b: Ledger) -> usize
    ensures { Tells true 0 (bar v b) out.old result out.new }
{
    look::put_bar(out, v, b)
}

pub fn put_read(out: &mut [u8], columns: u32, marks: &[u8]) -> usize
    ensures { Tells true 0 (read_text columns marks.now) out.old result out.new }
{
    look::put_read(out, columns, marks)
}

pub fn put_found(out: &mut [u8], x: u32, y: u32, left: u32, top: u32) -> usize
    ensures { Tells true 0 (found x y left top) out.old result out.new }
{
    look::put_found(out, x, y, left, top)
}

pub fn put_sheet(out: &mut [u8], pictured: bool, columns: u32, rows: u32, most: u32) -> usize
    ensures { Tells true 0 (sheet pictured columns rows most) out.old result out.new }
{
    look::put_sheet(out, pictured, columns, rows, most)
}

pub fn put_drawing(out: &mut [u8], columns: u32, rows: u32, most: u32) -> usize
    ensures { Tells true 0 (drawing columns rows most) out.old result out.new }
{
    look::put_drawing(out, columns, rows, most)
}

pub fn put_box(
    out: &mut [u8],
    columns: u32,
    changes: &[u32],
    ends: &[u64],
    boxes: &[u32],
    which: u32,
    doubt: u32,
    tick: u32,
) -> usize
    ensures { Tells (good_rows columns changes.now 0 ends.now) 0 (box_text (page_in columns changes.now ends.now) (box_in boxes.now (4 * which)) which doubt tick) out.old result out.new }
{
    look::put_box(out, columns, changes, ends, boxes, which, doubt, tick)
}

pub fn put_place(
    out: &mut [u8],
    columns: u32,
    changes: &[u32],
    ends: &[u64],
    places: &[u32],
    which: u32,
) -> usize
    ensures { Tells (good_rows columns changes.now 0 ends.now) 0 (place_text (page_in columns changes.now ends.now) (box_in places.now (7 * which + 1)) (get_or places.now (7 * which) 0) (get_or places.now (7 * which + 5) 0) (get_or places.now (7 * which + 6) 0)) out.old result out.new }
{
    look::put_place(out, columns, changes, ends, places, which)
}

pub fn put_band(out: &mut [u8], columns: u32, marks: &[u8], y: u32) -> usize
    ensures { Tells (is_marked marks.now y) 0 (band columns marks.now y) out.old result out.new }
{
    look::put_band(out, columns, marks, y)
}

pub fn put_row_mark(out: &mut [u8], columns: u32, v: Verdict) -> usize
    ensures { Tells (has_row v) 0 (row_mark columns v) out.old result out.new }
{
    look::put_row_mark(out, columns, v)
}

pub fn put_base64(out: &mut [u8], bytes: &[u8]) -> usize
    ensures { Encodes bytes.now out.old result out.new }
{
    look::put_base64(out, bytes)
}

pub fn stride(columns: u32) -> u64
    ensures { result ≡ stride_of columns }
{
    look::stride(columns)
}

pub fn bitmap_head(columns: u32, rows: u32) -> [u8; 66]
    ensures { result ≡ bitmap_head columns rows }
{
    look::bitmap_head(columns, rows)
}
