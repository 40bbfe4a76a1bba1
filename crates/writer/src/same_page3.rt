// A Group 3 page that data is held against. The data tells what stands between its lines, and which of them are 1D.
ghost use Rattle.std.specs.Prelude.{◌≡◌};
ghost use Rattle.writer.specs.Coding.{Lent};
ghost use Rattle.writer.specs.Paging3.{layout_of};
ghost use Rattle.writer.specs.Meeting.{Meets, met_of, Facings, parting_from};
ghost use Rattle.writer.specs.Outcome.{Refuses};
ghost use Rattle.writer.specs.Meeting3.{all_tests, found_page};

use crate::layout::Layout;
use crate::met::Unmet;
use crate::{Parting, kinds, layout, outcome, same_page, same_row3};

// 6, 7 and 8, also for no rows; nothing where all are passed.
pub(crate) fn refused(columns: u32, changes: &[u32], ends: &[u64], bytes: usize) -> Option<u32>
    ensures { Refuses (all_tests columns changes.now ends.now bytes) result }
{
    if let Some(number) = outcome::refused(columns, bytes) {
        return Some(number);
    }
    if ends.len() == 0 {
        return Some(answer::BAD_ROWS);
    }
    if !row_store::ascend(columns, changes, ends) {
        return Some(answer::BAD_ROWS);
    }
    None
}

// The page's bits from bit 0 on, to the first code that is not met. K is found on the way: what is met before that has the same bits
// whatever K is.
fn same_page3<'a>(
    wt: &'a [[u16; 3]; 64],
    bt: &'a [[u16; 3]; 64],
    wm: &'a [[u16; 3]; 27],
    bm: &'a [[u16; 3]; 27],
    common: &'a [[u16; 3]; 13],
    layout: Layout,
    width: u32,
    changes: &[u32],
    ends: &[u64],
    src: &[u8],
) -> Result<usize, Unmet>
    requires { Lent wt.now bt.now wm.now bm.now common.now × Facings width changes.now ends.now src.now }
    ensures { Meets src.now 0 (found_page (layout_of layout) width changes.now ends.now src.now) (met_of result) }
{
    let mut next: usize = 0;
    let mut from: usize = 0;
    let mut base: usize = 0;
    let mut every = layout::every(layout);
    let mut left: u32 = 0;
    for row_end in ends {
        let end = *row_end as usize;
        let above = &changes[from..base];
        let row = &changes[base..end];
        let turned = kinds::turn(src, next, every, left);
        next = same_row3::same_row(
            wt,
            bt,
            wm,
            bm,
            common,
            layout,
            width,
            turned.single,
            above,
            row,
            src,
            next,
        )?;
        from = base;
        base = end;
        every = turned.every;
        left = turned.left;
    }
    same_row3::same_end(src, next, layout)
}

// The tables are made once, here.
pub(crate) fn parts(
    layout: Layout,
    columns: u32,
    changes: &[u32],
    ends: &[u64],
    src: &[u8],
) -> Parting
    requires { Facings columns changes.now ends.now src.now }
    ensures { result ≡ parting_from (found_page (layout_of layout) columns changes.now ends.now src.now) src.now }
{
    let wt = tables::white_terminating();
    let bt = tables::black_terminating();
    let wm = tables::white_makeup();
    let bm = tables::black_makeup();
    let common = tables::common_makeup();
    let met = same_page3(
        &wt, &bt, &wm, &bm, &common, layout, columns, changes, ends, src,
    );
    same_page::parting(src, met)
}
