// One row of a Group 4 page: the EOLs before it, the page's end, and the line (group4.rs).
#![tactic(auto)]

ghost use Rattle.std.specs.Prelude.{◌≡◌, ◌&&◌, [], ◌+◌, ◌-◌, ◌*◌, ◌≤◌, leb, length};
ghost use Rattle.rules.specs.Bits.{bits_of};
ghost use Rattle.rules.specs.Group4.{eols_before, over, row4};
ghost use Rattle.bit_reader.specs.Loaded.{Loading};
ghost use Rattle.codes.specs.Eols.{eols_of};
ghost use Rattle.context.specs.Coding.{TabledFor};
ghost use Rattle.settings.specs.Settings.{settings_of};
ghost use Rattle.settings.specs.Between.{state_of, RowFrom, RowGives};
ghost use Rattle.group4.specs.Lined.{LineFrom, row_at, full_at, Begun, white_at};

use codes::eol;
use codes::eol::Eols;
use context::step::Rules;
use one_line::line_2d;
use settings::{DecodeSettings, KeptRow, PageStop, Row, State};

// EOLs are no part of Group 4, but PDF wants them accepted. Data behind an EOFB may begin like an EOL, so no more than its two are read.
fn eols_before(src: &[u8], settings: DecodeSettings, state: State) -> Eols
    requires { Loading src.now state.at }
    ensures { eols_of result ≡ eols_before (settings_of settings) (bits_of src.now) (state_of [] [] state) }
{
    if settings.end_of_block {
        return eol::read_eols(src, state.at, 2);
    }
    eol::read_all_eols(src, state.at)
}

// An EOFB is two EOLs.
fn is_eofb(settings: DecodeSettings, count: usize) -> bool
    ensures { result ≡ settings.end_of_block && leb 2 count }
{
    settings.end_of_block && 2 <= count
}

// 0 rows in the settings stand for any number.
fn is_full(settings: DecodeSettings, rows: usize) -> bool
    ensures { result ≡ full_at settings rows }
{
    settings.rows != 0 && rows == settings.rows as usize
}

// Whether the page ends before the next row: by EOFB, by its number of rows, or with the data.
pub fn is_over(src: &[u8], settings: DecodeSettings, state: State, eols: Eols) -> bool
    ensures { result ≡ over (settings_of settings) (bits_of src.now) (state_of [] [] state) (eols_of eols) }
{
    is_eofb(settings, eols.count)
        || (is_full(settings, state.rows) || bit_reader::at_end(src.len(), eols.at))
}

// A row whose line begins at a bit.
fn row_at<'a>(
    white: &'a [u16],
    black: &'a [u16],
    src: &[u8],
    settings: DecodeSettings,
    lent: &[u32],
    changes: &mut [u32],
    state: State,
    start: usize,
) -> Row
    requires { LineFrom src.now lent.now changes.old settings state start × TabledFor state.reference white.now black.now }
    ensures { RowGives state.base changes.old (row_at settings src.now lent.now changes.old state start) result changes.new }
{
    let place = state.reference;
    match line_2d::decode_2d_line(
        white,
        black,
        src,
        lent,
        changes,
        state.base,
        place,
        settings.columns,
        start,
        Rules {
            strict: settings.strict,
            exact: settings.exact,
            plain: settings.plain,
        },
    ) {
        Ok((line, at)) => Ok(KeptRow {
            changes: line.changes,
            mark: line.cut,
            at: settings::align_if(settings.rows_are_byte_aligned, at),
            eols: state.eols,
        }),
        Err(stop) => Err(PageStop {
            number: stop.number,
            place: stop.place,
            bytes: 0,
            loose: stop.line.changes,
        }),
    }
}

// The next row of a Group 4 page; or the page's end.
pub fn row<'a>(
    white: &'a [u16],
    black: &'a [u16],
    src: &[u8],
    settings: DecodeSettings,
    lent: &[u32],
    changes: &mut [u32],
    state: State,
) -> Row
    requires { RowFrom src.now lent.now changes.old settings state × TabledFor state.reference white.now black.now }
    ensures { RowGives state.base changes.old (row4 (settings_of settings) (bits_of src.now) (length changes.old - state.base) (state_of lent.now changes.old state)) result changes.new }
{
    let eols = eols_before(src, settings, state);
    if is_over(src, settings, state, eols) {
        return settings::end_at(eols.at);
    }
    row_at(white, black, src, settings, lent, changes, state, eols.at)
}

// Whether the next bits are a line's, seen at once in a word of the data: the page goes on, and no EOL begins here.
fn begins(src: &[u8], settings: DecodeSettings, state: State) -> bool
    requires { Loading src.now state.at }
    ensures { Begun settings src.now state result }
{
    !is_full(settings, state.rows)
        && (state.at + 64 <= 8 * src.len() && bit_reader::ahead(src, state.at) >> 53 != 0)
}

// A white row under a white one is the one bit of V(0).
fn is_white(src: &[u8], lent: &[u32], state: State) -> bool
    requires { state.at + 64 ≤ 8 * length src.now }
    ensures { result ≡ white_at src.now lent.now state }
{
    line_2d::is_under_white(state.reference, state.base, lent)
        && bit_reader::ahead(src, state.at) >> 63 == 1
}

// A function of its own, so that the state is put into memory only where a row is not swift.
fn any_row<'a>(
    white: &'a [u16],
    black: &'a [u16],
    src: &[u8],
    settings: DecodeSettings,
    lent: &[u32],
    changes: &mut [u32],
    state: State,
) -> Row
    requires { RowFrom src.now lent.now changes.old settings state × TabledFor state.reference white.now black.now }
    ensures { RowGives state.base changes.old (row4 (settings_of settings) (bits_of src.now) (length changes.old - state.base) (state_of lent.now changes.old state)) result changes.new }
{
    row(white, black, src, settings, lent, changes, state)
}

// The same row, with what is usual first. The page loop alone calls it, so that it is compiled in place there. `lone_row` is its twin: one
// function behind both, even with a const parameter, has the state put into memory at each row, by 30 instructions.
pub fn swift_row<'a>(
    white: &'a [u16],
    black: &'a [u16],
    src: &[u8],
    settings: DecodeSettings,
    lent: &[u32],
    changes: &mut [u32],
    state: State,
) -> Row
    requires { RowFrom src.now lent.now changes.old settings state × TabledFor state.reference white.now black.now }
    ensures { RowGives state.base changes.old (row4 (settings_of settings) (bits_of src.now) (length changes.old - state.base) (state_of lent.now changes.old state)) result changes.new }
{
    if !begins(src, settings, state) {
        return any_row(white, black, src, settings, lent, changes, state);
    }
    if is_white(src, lent, state) {
        return Ok(KeptRow {
            changes: 0,
            mark: 0,
            at: settings::align_if(settings.rows_are_byte_aligned, state.at + 1),
            eols: state.eols,
        });
    }
    row_at(white, black, src, settings, lent, changes, state, state.at)
}

// The same for a row by itself: a function of its own, so that `swift_row` keeps its one caller.
pub fn lone_row<'a>(
    white: &'a [u16],
    black: &'a [u16],
    src: &[u8],
    settings: DecodeSettings,
    lent: &[u32],
    changes: &mut [u32],
    state: State,
) -> Row
    requires { RowFrom src.now lent.now changes.old settings state × TabledFor state.reference white.now black.now }
    ensures { RowGives state.base changes.old (row4 (settings_of settings) (bits_of src.now) (length changes.old - state.base) (state_of lent.now changes.old state)) result changes.new }
{
    if !begins(src, settings, state) {
        return row(white, black, src, settings, lent, changes, state);
    }
    if is_white(src, lent, state) {
        return Ok(KeptRow {
            changes: 0,
            mark: 0,
            at: settings::align_if(settings.rows_are_byte_aligned, state.at + 1),
            eols: state.eols,
        });
    }
    row_at(white, black, src, settings, lent, changes, state, state.at)
}
