// The line of a row, of the kind that its tag bit tells.
ghost use Rattle.std.specs.Prelude.{◌≡◌};
ghost use Rattle.bit_reader.specs.Loaded.{Loading};
ghost use Rattle.context.specs.Coding.{PairedFor, StepsAt};
ghost use Rattle.settings.specs.Settings.{tagging_of};
ghost use Rattle.group3.specs.Lined.{KindAt, LineFrom, line_in};

use crate::eols;
use context::step::{Rules, Step, Stop};
use context::{line, reference};
use one_line::{line_1d, line_2d};
use settings::{DecodeSettings, State};

// Where the codes of a 1D or a 2D line begin; or no tag bit is left.
#[derive(Clone, Copy)]
enum LineKind {
    One(usize),
    Two(usize),
    NoTag,
}

fn kind_at(src: &[u8], settings: DecodeSettings, at: usize) -> LineKind
    requires { Loading src.now at }
    ensures { KindAt src.now (tagging_of settings.encoding) at result }
{
    if !eols::is_tagged(settings) {
        return LineKind::One(at);
    }
    if bit_reader::at_end(src.len(), at) {
        return LineKind::NoTag;
    }
    if eols::is_one(src, at) {
        return LineKind::One(at + 1);
    }
    LineKind::Two(at + 1)
}

pub(crate) fn decode<'a>(
    white: &'a [u16],
    black: &'a [u16],
    both: &'a [u16],
    src: &[u8],
    settings: DecodeSettings,
    lent: &[u32],
    changes: &mut [u32],
    state: State,
    at: usize,
) -> Step
    requires { LineFrom src.now lent.now changes.old settings state at × PairedFor state.reference white.now black.now both.now }
    ensures { StepsAt state.base settings.columns changes.old (line_in settings src.now lent.now changes.old state at) result changes.new }
{
    let columns = settings.columns;
    let base = state.base;
    let rules = Rules {
        strict: settings.strict,
        exact: settings.exact,
        plain: settings.plain,
    };
    match kind_at(src, settings, at) {
        LineKind::NoTag => {
            Err(Stop {
                line: line::new_line(columns),
                place: 8 * src.len(),
                number: answer::UNEXPECTED_EOF,
            })
        }
        LineKind::One(start) => {
            let place = state.reference;
            line_1d::decode_1d_line(
                reference::is_kept(place),
                white,
                black,
                both,
                src,
                &mut changes[base..],
                columns,
                start,
                rules,
            )
        }
        LineKind::Two(start) => {
            let place = state.reference;
            line_2d::decode_2d_line(
                white, black, src, lent, changes, base, place, columns, start, rules,
            )
        }
    }
}
