// A T.6 page that data is held against: its rows, each under the one before it, EOFB, and zeros to a byte.
ghost use Rattle.std.specs.Prelude.{◌≡◌, Bool, List};
ghost use Rattle.rules.specs.Proper.{padded};
ghost use Rattle.rules.specs.Write.{eofb, to_byte};
ghost use Rattle.bit_reader.specs.Loaded.{Loading};
ghost use Rattle.writer.specs.Coding.{Lent};
ghost use Rattle.writer.specs.Paging.{page_of};
ghost use Rattle.writer.specs.Meeting.{Meets, met_of, Facings, parting_from};

use crate::met::Unmet;
use crate::{Parting, eols, met, same_line};
use tables::Code;

// Two EOLs.
fn same_eofb(src: &[u8], at: usize) -> Result<usize, Unmet>
    requires { Loading src.now at }
    ensures { Meets src.now at eofb (met_of result) }
{
    let met = met::meet(src, at, eols::eol())?;
    met::meet(src, met, eols::eol())
}

// The page's bits from bit 0 on, to the first code that is not met.
fn same_page<'a>(
    wt: &'a [[u16; 3]; 64],
    bt: &'a [[u16; 3]; 64],
    wm: &'a [[u16; 3]; 27],
    bm: &'a [[u16; 3]; 27],
    common: &'a [[u16; 3]; 13],
    width: u32,
    changes: &[u32],
    ends: &[u64],
    src: &[u8],
) -> Result<usize, Unmet>
    requires { Lent wt.now bt.now wm.now bm.now common.now × Facings width changes.now ends.now src.now }
    ensures { Meets src.now 0 (page_of width changes.now ends.now) (met_of result) }
{
    let mut next: usize = 0;
    let mut from: usize = 0;
    let mut base: usize = 0;
    for row_end in ends {
        let end = *row_end as usize;
        let above = &changes[from..base];
        let row = &changes[base..end];
        next = same_line::same_line(wt, bt, wm, bm, common, width, above, row, src, next)?;
        from = base;
        base = end;
    }
    same_eofb(src, next)
}

// Zeros to a byte, behind a page that ends at bit `at`.
fn same_zeros(src: &[u8], at: usize) -> Result<usize, Unmet>
    requires { Loading src.now at }
    ensures { Meets src.now at (to_byte at) (met_of result) }
{
    let size = (bit_reader::align(at) - at) as u32;
    if size == 0 {
        return Ok(at);
    }
    let zeros = Code { size, word: 0 };
    met::meet(src, at, zeros)
}

// A page that was met so far, with zeros to a byte behind it.
fn same_padded(src: &[u8], met: Result<usize, Unmet>) -> Result<usize, Unmet>
    requires { Loading src.now (met_of met).at }
    ensures { (xs : List Bool) → Meets src.now 0 xs (met_of met) → Meets src.now 0 (padded xs) (met_of result) }
{
    same_zeros(src, met?)
}

// What is answered where a page was met so far: the data ends behind its zeros, or parts from it.
pub(crate) fn parting(src: &[u8], met: Result<usize, Unmet>) -> Parting
    requires { Loading src.now (met_of met).at }
    ensures { (xs : List Bool) → Meets src.now 0 xs (met_of met) → result ≡ parting_from xs src.now }
{
    match same_padded(src, met) {
        Ok(end) => Parting {
            number: answer::COMPLETE,
            same: end == 8 * src.len(),
            place: end as u64,
        },
        Err(unmet) => Parting {
            number: answer::COMPLETE,
            same: false,
            place: unmet.at as u64,
        },
    }
}

// The tables are made once, here.
pub(crate) fn parts(columns: u32, changes: &[u32], ends: &[u64], src: &[u8]) -> Parting
    requires { Facings columns changes.now ends.now src.now }
    ensures { result ≡ parting_from (page_of columns changes.now ends.now) src.now }
{
    let wt = tables::white_terminating();
    let bt = tables::black_terminating();
    let wm = tables::white_makeup();
    let bm = tables::black_makeup();
    let common = tables::common_makeup();
    let met = same_page(&wt, &bt, &wm, &bm, &common, columns, changes, ends, src);
    parting(src, met)
}
