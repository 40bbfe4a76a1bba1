// A row of a Group 3 page that data is held against: what stands before its line, and the line, of either kind; and what stands behind
// the last one.
ghost use Rattle.std.specs.Prelude.{[]};
ghost use Rattle.rules.specs.WriteGroup3.{ahead, ending};
ghost use Rattle.bit_reader.specs.Loaded.{Loading};
ghost use Rattle.writer.specs.Coding.{Lent};
ghost use Rattle.writer.specs.Paging3.{layout_of, kind_from, line_from, row3_of};
ghost use Rattle.writer.specs.Meeting.{Meets, met_of, Facing};

use crate::layout::Layout;
use crate::met::Unmet;
use crate::{eols, met, same_eols, same_line, same_line1};

// What stands before a line, at bit `at` of the data; without EOLs that is nothing.
fn same_ahead(src: &[u8], at: usize, layout: Layout, single: bool) -> Result<usize, Unmet>
    requires { Loading src.now at }
    ensures { Meets src.now at (ahead (layout_of layout) (kind_from single [])) (met_of result) }
{
    match layout {
        Layout::Bare => Ok(at),
        Layout::Filled(fill) => same_eols::same_filled(src, at, fill),
        Layout::Mixed(_) => met::meet(src, at, eols::tagged(single)),
    }
}

// A 1D line, or a 2D line under the row above.
fn same_kind<'a>(
    wt: &'a [[u16; 3]; 64],
    bt: &'a [[u16; 3]; 64],
    wm: &'a [[u16; 3]; 27],
    bm: &'a [[u16; 3]; 27],
    common: &'a [[u16; 3]; 13],
    width: u32,
    single: bool,
    above: &[u32],
    row: &[u32],
    src: &[u8],
    at: usize,
) -> Result<usize, Unmet>
    requires { Lent wt.now bt.now wm.now bm.now common.now × Facing width above.now row.now × Loading src.now at }
    ensures { Meets src.now at (line_from width single above.now row.now) (met_of result) }
{
    if single {
        return same_line1::same_line1(wt, bt, wm, bm, common, width, row, src, at);
    }
    same_line::same_line(wt, bt, wm, bm, common, width, above, row, src, at)
}

// A row at bit `at` of the data, to the first code that is not met.
pub(crate) fn same_row<'a>(
    wt: &'a [[u16; 3]; 64],
    bt: &'a [[u16; 3]; 64],
    wm: &'a [[u16; 3]; 27],
    bm: &'a [[u16; 3]; 27],
    common: &'a [[u16; 3]; 13],
    layout: Layout,
    width: u32,
    single: bool,
    above: &[u32],
    row: &[u32],
    src: &[u8],
    at: usize,
) -> Result<usize, Unmet>
    requires { Lent wt.now bt.now wm.now bm.now common.now × Facing width above.now row.now × Loading src.now at }
    ensures { Meets src.now at (row3_of (layout_of layout) width single above.now row.now) (met_of result) }
{
    let met = same_ahead(src, at, layout, single)?;
    same_kind(wt, bt, wm, bm, common, width, single, above, row, src, met)
}

// What stands behind the last line: six EOLs, with fill before the first alone, or with tag bits of 1; without EOLs nothing.
pub(crate) fn same_end(src: &[u8], at: usize, layout: Layout) -> Result<usize, Unmet>
    requires { Loading src.now at }
    ensures { Meets src.now at (ending (layout_of layout)) (met_of result) }
{
    match layout {
        Layout::Bare => Ok(at),
        Layout::Filled(fill) => {
            let met = same_eols::same_filled(src, at, fill)?;
            same_eols::same_times(src, met, eols::eol(), 5)
        }
        Layout::Mixed(_) => same_eols::same_times(src, at, eols::tagged(true), 6),
    }
}
