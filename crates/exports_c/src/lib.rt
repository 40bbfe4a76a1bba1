// The functions of `exports` for C (include/ccitt.h): each under its own name and with its own contract, by one call.
#![tactic(auto)]

ghost use Rattle.settings.specs.declared.EncodingMode.TheVariants.{Group4, Group3_1D, Group3_2D};
ghost use Rattle.ccitt.specs.Decode.{Decodes};
ghost use Rattle.proper.specs.Checked.{Checks};
ghost use Rattle.one_line.specs.OneLine.{ReadOne};
ghost use Rattle.rules.specs.Write.{write_line, write_page};
ghost use Rattle.rules.specs.WriteGroup3.{write_1d, write_2d};
ghost use Rattle.writer.specs.Outcome.{Answers};
ghost use Rattle.heads.specs.Numbers.{heads_from};
ghost use Rattle.std.specs.Prelude.{false, ◌≡◌, length};
ghost use Rattle.bitmap.specs.Packed.{paint, unpaint};
ghost use Rattle.bitmap.specs.Outcome.{Paints, Unpaints};
ghost use Rattle.exports.specs.Exports.{settings_for};
ghost use Rattle.exports.specs.RowState.{mode_of, ReadsRowForC};
ghost use Rattle.exports.specs.UnitState.{ReadsUnitsForC};
ghost use Rattle.booking.specs.Booked.{given};
ghost use Rattle.exports.specs.Verdict.{FindsForC};

use answer::Answer;
use exports::UnitAnswer;
use heads::HeadsAnswer;
use ledger::Verdict;
use proper::Checked;

// A Group 4 page (T.6) into lent arrays.
#[unsafe(no_mangle)]
pub extern "C" fn ccitt_decode_group4(
    src: &[u8],
    columns: u32,
    rows: u32,
    end_of_block: bool,
    rows_are_byte_aligned: bool,
    strict: bool,
    exact: bool,
    plain: bool,
    changes: &mut [u32],
    ends: &mut [u64],
    marks: &mut [u8],
) -> Answer
    ensures { Decodes src.now (settings_for columns rows end_of_block false rows_are_byte_aligned Group4 strict exact plain) changes.old ends.old marks.old result changes.new ends.new marks.new }
{
    exports::ccitt_decode_group4(
        src,
        columns,
        rows,
        end_of_block,
        rows_are_byte_aligned,
        strict,
        exact,
        plain,
        changes,
        ends,
        marks,
    )
}

// A Group 3 page of 1D lines (T.4).
#[unsafe(no_mangle)]
pub extern "C" fn ccitt_decode_group3_1d(
    src: &[u8],
    columns: u32,
    rows: u32,
    end_of_block: bool,
    end_of_line: bool,
    rows_are_byte_aligned: bool,
    strict: bool,
    exact: bool,
    plain: bool,
    changes: &mut [u32],
    ends: &mut [u64],
    marks: &mut [u8],
) -> Answer
    ensures { Decodes src.now (settings_for columns rows end_of_block end_of_line rows_are_byte_aligned Group3_1D strict exact plain) changes.old ends.old marks.old result changes.new ends.new marks.new }
{
    exports::ccitt_decode_group3_1d(
        src,
        columns,
        rows,
        end_of_block,
        end_of_line,
        rows_are_byte_aligned,
        strict,
        exact,
        plain,
        changes,
        ends,
        marks,
    )
}

// A Group 3 page whose lines have tag bits (T.4).
#[unsafe(no_mangle)]
pub extern "C" fn ccitt_decode_group3_2d(
    src: &[u8],
    columns: u32,
    rows: u32,
    end_of_block: bool,
    end_of_line: bool,
    rows_are_byte_aligned: bool,
    strict: bool,
    exact: bool,
    plain: bool,
    changes: &mut [u32],
    ends: &mut [u64],
    marks: &mut [u8],
) -> Answer
    ensures { Decodes src.now (settings_for columns rows end_of_block end_of_line rows_are_byte_aligned Group3_2D strict exact plain) changes.old ends.old marks.old result changes.new ends.new marks.new }
{
    exports::ccitt_decode_group3_2d(
        src,
        columns,
        rows,
        end_of_block,
        end_of_line,
        rows_are_byte_aligned,
        strict,
        exact,
        plain,
        changes,
        ends,
        marks,
    )
}

// A Group 4 page (T.6) into lent arrays, with what a careful reader asks of it: whether EOLs were given up, whether it is proper, and
// where it parts from what would be written.
#[unsafe(no_mangle)]
pub extern "C" fn ccitt_check_group4(
    src: &[u8],
    columns: u32,
    rows: u32,
    end_of_block: bool,
    rows_are_byte_aligned: bool,
    strict: bool,
    exact: bool,
    plain: bool,
    changes: &mut [u32],
    ends: &mut [u64],
    marks: &mut [u8],
) -> Checked
    ensures { Checks src.now (settings_for columns rows end_of_block false rows_are_byte_aligned Group4 strict exact plain) changes.old ends.old marks.old result changes.new ends.new marks.new }
{
    exports::ccitt_check_group4(
        src,
        columns,
        rows,
        end_of_block,
        rows_are_byte_aligned,
        strict,
        exact,
        plain,
        changes,
        ends,
        marks,
    )
}

// The same of a Group 3 page of 1D lines (T.4).
#[unsafe(no_mangle)]
pub extern "C" fn ccitt_check_group3_1d(
    src: &[u8],
    columns: u32,
    rows: u32,
    end_of_block: bool,
    end_of_line: bool,
    rows_are_byte_aligned: bool,
    strict: bool,
    exact: bool,
    plain: bool,
    changes: &mut [u32],
    ends: &mut [u64],
    marks: &mut [u8],
) -> Checked
    ensures { Checks src.now (settings_for columns rows end_of_block end_of_line rows_are_byte_aligned Group3_1D strict exact plain) changes.old ends.old marks.old result changes.new ends.new marks.new }
{
    exports::ccitt_check_group3_1d(
        src,
        columns,
        rows,
        end_of_block,
        end_of_line,
        rows_are_byte_aligned,
        strict,
        exact,
        plain,
        changes,
        ends,
        marks,
    )
}

// And of one whose lines have tag bits (T.4).
#[unsafe(no_mangle)]
pub extern "C" fn ccitt_check_group3_2d(
    src: &[u8],
    columns: u32,
    rows: u32,
    end_of_block: bool,
    end_of_line: bool,
    rows_are_byte_aligned: bool,
    strict: bool,
    exact: bool,
    plain: bool,
    changes: &mut [u32],
    ends: &mut [u64],
    marks: &mut [u8],
) -> Checked
    ensures { Checks src.now (settings_for columns rows end_of_block end_of_line rows_are_byte_aligned Group3_2D strict exact plain) changes.old ends.old marks.old result changes.new ends.new marks.new }
{
    exports::ccitt_check_group3_2d(
        src,
        columns,
        rows,
        end_of_block,
        end_of_line,
        rows_are_byte_aligned,
        strict,
        exact,
        plain,
        changes,
        ends,
        marks,
    )
}

// One 2D line under a lent reference, from a bit on.
#[unsafe(no_mangle)]
pub extern "C" fn ccitt_read_line(
    src: &[u8],
    at: u64,
    columns: u32,
    strict: bool,
    reference: &[u32],
    changes: &mut [u32],
) -> Answer
    ensures { ReadOne src.now at columns strict reference.now changes.old result changes.new }
{
    exports::ccitt_read_line(src, at, columns, strict, reference, changes)
}

// One row a call, of any encoding (A1); the state is ten numbers, all 0 before the first call.
#[unsafe(no_mangle)]
pub extern "C" fn ccitt_read_row(
    src: &[u8],
    columns: u32,
    rows: u32,
    end_of_block: bool,
    end_of_line: bool,
    rows_are_byte_aligned: bool,
    encoding: u32,
    strict: bool,
    exact: bool,
    plain: bool,
    state: &mut [u64],
    first: &mut [u32],
    second: &mut [u32],
) -> Answer
    ensures { ReadsRowForC src.now (settings_for columns rows end_of_block end_of_line rows_are_byte_aligned (mode_of encoding) strict exact plain) encoding state.old first.old second.old result state.new first.new second.new }
{
    exports::ccitt_read_row(
        src,
        columns,
        rows,
        end_of_block,
        end_of_line,
        rows_are_byte_aligned,
        encoding,
        strict,
        exact,
        plain,
        state,
        first,
        second,
    )
}

// A Group 4 page, at most `n` units a call (A9); the state is sixteen numbers, all 0 before the first call.
#[unsafe(no_mangle)]
pub extern "C" fn ccitt_read_units(
    src: &[u8],
    columns: u32,
    rows: u32,
    end_of_block: bool,
    rows_are_byte_aligned: bool,
    strict: bool,
    exact: bool,
    plain: bool,
    changes: &mut [u32],
    ends: &mut [u64],
    marks: &mut [u8],
    state: &mut [u64],
    n: u64,
) -> UnitAnswer
    ensures { ReadsUnitsForC src.now (settings_for columns rows end_of_block false rows_are_byte_aligned Group4 strict exact plain) changes.old ends.old marks.old state.old n result changes.new ends.new marks.new state.new }
{
    exports::ccitt_read_units(
        src,
        columns,
        rows,
        end_of_block,
        rows_are_byte_aligned,
        strict,
        exact,
        plain,
        changes,
        ends,
        marks,
        state,
        n,
    )
}

// One line by T.6 under a lent reference, from a bit on.
#[unsafe(no_mangle)]
pub extern "C" fn ccitt_write_line(
    columns: u32,
    reference: &[u32],
    row: &[u32],
    out: &mut [u8],
    at: u64,
) -> Answer
    ensures { Answers (write_line columns reference.now row.now out.old at) out.old result out.new }
{
    exports::ccitt_write_line(columns, reference, row, out, at)
}

// A Group 4 page with its EOFB.
#[unsafe(no_mangle)]
pub extern "C" fn ccitt_write_page(
    columns: u32,
    changes: &[u32],
    ends: &[u64],
    out: &mut [u8],
) -> Answer
    ensures { Answers (write_page columns changes.now ends.now out.old) out.old result out.new }
{
    exports::ccitt_write_page(columns, changes, ends, out)
}

// A Group 3 page of 1D lines, with EOLs and fill or without (A3).
#[unsafe(no_mangle)]
pub extern "C" fn ccitt_write_group3_1d(
    columns: u32,
    changes: &[u32],
    ends: &[u64],
    eols: bool,
    fill: u32,
    out: &mut [u8],
) -> Answer
    ensures { Answers (write_1d eols fill columns changes.now ends.now out.old) out.old result out.new }
{
    exports::ccitt_write_group3_1d(columns, changes, ends, eols, fill, out)
}

// A Group 3 page of 1D and 2D lines with tag bits: behind each 1D line up to k - 1 2D lines (A10).
#[unsafe(no_mangle)]
pub extern "C" fn ccitt_write_group3_2d(
    columns: u32,
    changes: &[u32],
    ends: &[u64],
    k: u32,
    out: &mut [u8],
) -> Answer
    ensures { Answers (write_2d k columns changes.now ends.now out.old) out.old result out.new }
{
    exports::ccitt_write_group3_2d(columns, changes, ends, k, out)
}

// The rows of a store as packed pixels, a stride from one to the next.
#[unsafe(no_mangle)]
pub extern "C" fn ccitt_paint(
    columns: u32,
    changes: &[u32],
    ends: &[u64],
    one: bool,
    stride: u64,
    out: &mut [u8],
) -> Answer
    ensures { Paints (paint one columns stride changes.now ends.now out.old) result out.new }
{
    exports::ccitt_paint(columns, changes, ends, one, stride, out)
}

// And so many packed rows as a store of rows.
#[unsafe(no_mangle)]
pub extern "C" fn ccitt_unpaint(
    columns: u32,
    rows: u64,
    one: bool,
    stride: u64,
    src: &[u8],
    changes: &mut [u32],
    ends: &mut [u64],
) -> Answer
    ensures { Unpaints (unpaint one columns stride rows src.now (length changes.old) (length ends.old)) changes.old ends.old result changes.new ends.new }
{
    exports::ccitt_unpaint(columns, rows, one, stride, src, changes, ends)
}

// `boxes` has eighty numbers: for each digit from 0 to 9 its tens box and its units box, each as left, right, top and bottom.
#[unsafe(no_mangle)]
pub extern "C" fn ccitt_heads(
    columns: u32,
    changes: &[u32],
    ends: &[u64],
    marks: &[u8],
    boxes: &[u32],
    least: u64,
    quota: i32,
) -> HeadsAnswer
    ensures { result ≡ heads_from columns changes.now ends.now marks.now boxes.now least quota }
{
    exports::ccitt_heads(columns, changes, ends, marks, boxes, least, quota)
}

// The verdict on a faxed form: the text of the form file and the bytes of the page in. `how` is 0 as the desk reads, 1 leniently,
// 2 strictly, else exactly; columns 0 are the form's. An encoding off the list is refused with 10.
#[unsafe(no_mangle)]
pub extern "C" fn ccitt_verdict(
    form: &[u8],
    src: &[u8],
    how: u32,
    encoding: u32,
    columns: u32,
    rows: u32,
    end_of_block: bool,
    end_of_line: bool,
    rows_are_byte_aligned: bool,
    plain: bool,
    boxes: &mut [u32],
    places: &mut [u32],
    changes: &mut [u32],
    ends: &mut [u64],
    marks: &mut [u8],
) -> Verdict
    ensures { FindsForC encoding (given form.now src.now how (settings_for columns rows end_of_block end_of_line rows_are_byte_aligned (mode_of encoding) false false plain) boxes.old places.old changes.old ends.old marks.old) result boxes.new places.new changes.new ends.new marks.new }
{
    exports::ccitt_verdict(
        form,
        src,
        how,
        encoding,
        columns,
        rows,
        end_of_block,
        end_of_line,
        rows_are_byte_aligned,
        plain,
        boxes,
        places,
        changes,
        ends,
        marks,
    )
}
