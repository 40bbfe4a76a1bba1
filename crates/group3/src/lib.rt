// One row of a Group 3 page, 1D or 2D: what comes before it, its line, and the recovery of a damaged one (group3.rs).
#![tactic(auto)]

mod eob;
mod eols;
mod line;
mod recover;

ghost use Rattle.std.specs.Prelude.{◌≡◌, true, false, ◌+◌, ◌-◌, ◌*◌, ◌≤◌, length};
ghost use Rattle.rules.specs.Bits.{bits_of};
ghost use Rattle.rules.specs.Codes as Colour;
ghost use Rattle.rules.specs.Group3.{row3};
ghost use Rattle.rules.specs.Lookup.{lookup_table};
ghost use Rattle.bit_reader.specs.Loaded.{Loading};
ghost use Rattle.context.specs.Coding.{is_kept, PairedFor};
ghost use Rattle.settings.specs.Settings.{settings_of, tagging_of};
ghost use Rattle.settings.specs.Between.{state_of, RowFrom, RowGives};
ghost use Rattle.group3.specs.Tags.{is_tagged};
ghost use Rattle.group3.specs.Lined.{LineFrom, line_in, WhiteAt, white_2d};
ghost use Rattle.group3.specs.Recovery.{after_line_in};

use crate::eob::Before;
use context::reference;
use context::reference::Reference;
use one_line::line_2d;
use settings::{DecodeSettings, KeptRow, PageStop, Row, State};
use swift_loops::fast_1d::BeforePair;
use swift_loops::{fast_1d, unlent_1d};

// A row whose line begins at a bit.
fn row_at<'a>(
    white: &'a [u16],
    black: &'a [u16],
    both: &'a [u16],
    src: &[u8],
    settings: DecodeSettings,
    lent: &[u32],
    changes: &mut [u32],
    state: State,
    at: usize,
    expected: bool,
) -> Row
    requires { LineFrom src.now lent.now changes.old settings state at × PairedFor state.reference white.now black.now both.now }
    ensures { RowGives state.base changes.old (after_line_in settings src.now lent.now changes.old state at expected (line_in settings src.now lent.now changes.old state at)) result changes.new }
{
    match line::decode(white, black, both, src, settings, lent, changes, state, at) {
        Ok((line, next)) => Ok(KeptRow {
            changes: line.changes,
            mark: line.cut,
            at: next,
            eols: expected,
        }),
        Err(stop) => {
            recover::recover(
                changes,
                settings,
                state,
                at,
                expected,
                stop.number,
                stop.place,
                stop.line,
            )
        }
    }
}

// The next row of a Group 3 page, 1D or 2D; or the page's end.
pub fn row<'a>(
    white: &'a [u16],
    black: &'a [u16],
    both: &'a [u16],
    src: &[u8],
    settings: DecodeSettings,
    lent: &[u32],
    changes: &mut [u32],
    state: State,
) -> Row
    requires { RowFrom src.now lent.now changes.old settings state × PairedFor state.reference white.now black.now both.now }
    ensures { RowGives state.base changes.old (row3 (settings_of settings) (tagging_of settings.encoding) (bits_of src.now) (length changes.old - state.base) (state_of lent.now changes.old state)) result changes.new }
{
    match eob::between(src, settings, state) {
        Before::End(at) => settings::end_at(at),
        Before::NoEol(at) => Err(PageStop {
            number: answer::INVALID_CODE,
            place: at,
            bytes: 0,
            loose: 0,
        }),
        Before::Line(at, expected) => {
            row_at(
                white, black, both, src, settings, lent, changes, state, at, expected,
            )
        }
    }
}

// A function of its own, so that the state is put into memory only where a row is not swift (group4: `any_row`).
fn any_row<'a>(
    white: &'a [u16],
    black: &'a [u16],
    both: &'a [u16],
    src: &[u8],
    settings: DecodeSettings,
    lent: &[u32],
    changes: &mut [u32],
    state: State,
) -> Row
    requires { RowFrom src.now lent.now changes.old settings state × PairedFor state.reference white.now black.now both.now }
    ensures { RowGives state.base changes.old (row3 (settings_of settings) (tagging_of settings.encoding) (bits_of src.now) (length changes.old - state.base) (state_of lent.now changes.old state)) result changes.new }
{
    row(white, black, both, src, settings, lent, changes, state)
}

// A row whose line begins behind one EOL: a function of its own for the same reason.
fn line_row<'a>(
    white: &'a [u16],
    black: &'a [u16],
    both: &'a [u16],
    src: &[u8],
    settings: DecodeSettings,
    lent: &[u32],
    changes: &mut [u32],
    state: State,
) -> Row
    requires { LineFrom src.now lent.now changes.old settings state (state.at + 12) × PairedFor state.reference white.now black.now both.now }
    ensures { RowGives state.base changes.old (after_line_in settings src.now lent.now changes.old state (state.at + 12) state.eols (line_in settings src.now lent.now changes.old state (state.at + 12))) result changes.new }
{
    row_at(
        white,
        black,
        both,
        src,
        settings,
        lent,
        changes,
        state,
        state.at + 12,
        state.eols,
    )
}

// Whether the row before it is white, and lines have no tag bits: then a white row is looked for first.
fn follows_white(settings: DecodeSettings, state: State) -> bool
    ensures { result ≡ true → is_tagged (tagging_of settings.encoding) ≡ false }
{
    if eols::is_tagged(settings) {
        return false;
    }
    let place = state.reference;
    match place {
        Reference::Lent => false,
        Reference::Kept(start) => start == state.base,
    }
}

// A white line at a bit, behind a white row, seen at once.
fn white_line(
    white: &[u16],
    src: &[u8],
    settings: DecodeSettings,
    state: State,
    at: usize,
    room: usize,
) -> Option<BeforePair>
    requires { Loading src.now at × (is_kept state.reference ≡ true → white.now ≡ lookup_table Colour.white) }
    ensures { WhiteAt src.now settings room at result }
{
    if !follows_white(settings, state) {
        return None;
    }
    let place = state.reference;
    fast_1d::whole_run(
        reference::is_kept(place),
        white,
        src,
        settings.columns,
        at,
        room,
        settings.plain,
    )
}

// Whether a white 2D line stands behind an EOL, under a white row: its tag bit, a zero, and the one bit of V(0).
fn is_white_2d(src: &[u8], settings: DecodeSettings, lent: &[u32], state: State) -> bool
    requires { state.at + 64 ≤ 8 * length src.now }
    ensures { result ≡ white_2d settings src.now lent.now state (state.at + 12) }
{
    if !eols::is_tagged(settings) {
        return false;
    }
    let place = state.reference;
    if !line_2d::is_under_white(place, state.base, lent) {
        return false;
    }
    (bit_reader::ahead(src, state.at) >> 50) % 4 == 1
}

// The same row, with what is usual first. The page loop alone calls it, so that it is compiled in place there.
pub fn swift_row<'a>(
    white: &'a [u16],
    black: &'a [u16],
    both: &'a [u16],
    src: &[u8],
    settings: DecodeSettings,
    lent: &[u32],
    changes: &mut [u32],
    state: State,
) -> Row
    requires { RowFrom src.now lent.now changes.old settings state × PairedFor state.reference white.now black.now both.now }
    ensures { RowGives state.base changes.old (row3 (settings_of settings) (tagging_of settings.encoding) (bits_of src.now) (length changes.old - state.base) (state_of lent.now changes.old state)) result changes.new }
{
    if !eob::is_usual(src, settings, state) {
        return any_row(white, black, both, src, settings, lent, changes, state);
    }
    let start = state.at + 12;
    if is_white_2d(src, settings, lent, state) {
        return Ok(KeptRow {
            changes: 0,
            mark: 0,
            at: start + 2,
            eols: state.eols,
        });
    }
    let room = changes.len() - state.base;
    match white_line(white, src, settings, state, start, room) {
        Some(line) => Ok(KeptRow {
            changes: line.count,
            mark: 0,
            at: line.at,
            eols: state.eols,
        }),
        None => { line_row(white, black, both, src, settings, lent, changes, state) }
    }
}

// A white line at a bit, under a lent row that is white. It stands beside `white_line`, which keeps its one caller.
fn lone_white(
    white: &[u16],
    src: &[u8],
    settings: DecodeSettings,
    lent: &[u32],
    at: usize,
    room: usize,
) -> Option<BeforePair>
    requires { Loading src.now at }
    ensures { WhiteAt src.now settings room at result }
{
    let tagged = eols::is_tagged(settings);
    if tagged {
        return None;
    }
    if lent.len() != 0 {
        return None;
    }
    let width = settings.columns;
    unlent_1d::whole_run(white, src, width, at, room, settings.plain)
}

// The same for a row by itself: a function of its own, so that `swift_row` keeps its one caller.
pub fn lone_row<'a>(
    white: &'a [u16],
    black: &'a [u16],
    both: &'a [u16],
    src: &[u8],
    settings: DecodeSettings,
    lent: &[u32],
    changes: &mut [u32],
    state: State,
) -> Row
    requires { RowFrom src.now lent.now changes.old settings state × PairedFor state.reference white.now black.now both.now }
    ensures { RowGives state.base changes.old (row3 (settings_of settings) (tagging_of settings.encoding) (bits_of src.now) (length changes.old - state.base) (state_of lent.now changes.old state)) result changes.new }
{
    if !eob::is_usual(src, settings, state) {
        return row(white, black, both, src, settings, lent, changes, state);
    }
    let start = state.at + 12;
    if is_white_2d(src, settings, lent, state) {
        return Ok(KeptRow {
            changes: 0,
            mark: 0,
            at: start + 2,
            eols: state.eols,
        });
    }
    let room = changes.len() - state.base;
    match lone_white(white, src, settings, lent, start, room) {
        Some(line) => Ok(KeptRow {
            changes: line.count,
            mark: 0,
            at: line.at,
            eols: state.eols,
        }),
        None => {
            row_at(
                white, black, both, src, settings, lent, changes, state, start, state.eols,
            )
        }
    }
}
