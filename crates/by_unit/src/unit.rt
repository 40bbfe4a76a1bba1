// One unit: an EOL, a mode code, or a code of a run; or the swift units of a line. And what closes behind them.
ghost use Rattle.std.specs.Prelude.{◌≡◌, ◌<◌};
ghost use Rattle.bit_reader.specs.Loaded.{Loading};
ghost use Rattle.by_unit.specs.Standing.{next_of};
ghost use Rattle.by_unit.specs.OneUnit.{rules_in, eol_unit_for, CodeEnds, AfterCodes, AfterRuns, UnitFrom, UnitGives, SomeGive};

use crate::stand::{Half, Kept, Out, Stand};
use crate::take::TakenUnits;
use crate::{stand, swift};
use codes::eol::Eols;
use codes::run::RunCode;
use context::line::Line;
use context::reference;
use context::step::{Rules, Step};
use one_line::one_code;
use one_line::one_code::OneCode;
use settings::DecodeSettings;

fn rules_of(settings: DecodeSettings) -> Rules
    ensures { result ≡ rules_in settings }
{
    Rules {
        strict: settings.strict,
        exact: settings.exact,
        plain: settings.plain,
    }
}

// A page that is settled between rows has an EOL there.
fn eol_unit(src: &[u8], settings: DecodeSettings, kept: Kept, eols: Eols) -> Out
    requires { Loading src.now eols.at }
    ensures { result ≡ eol_unit_for src.now settings kept eols (next_of src.now settings eols) }
{
    match stand::next_eol(src, settings, eols) {
        None => stand::between(src, settings, kept, eols),
        Some(at) => {
            let count = eols.count + 1;
            stand::between(src, settings, kept, Eols { count, at })
        }
    }
}

// A code that fails ends the page, and one that does not may complete the row.
fn after_code(
    src: &[u8],
    settings: DecodeSettings,
    ends: &mut [u64],
    marks: &mut [u8],
    kept: Kept,
    step: Step,
    seen: usize,
) -> Out
    requires { CodeEnds src.now kept step }
    ensures { AfterCodes src.now settings ends.old marks.old kept step seen result ends.new marks.new }
{
    match step {
        Err(stop) => Out::Done(stand::said(stop.number, stop.place, 0, kept, stop.line.changes)),
        Ok((line, at)) => {
            stand::settle(
                src,
                settings,
                ends,
                marks,
                kept,
                Stand::InLine(line, at),
                seen,
            )
        }
    }
}

fn mode_unit(
    src: &[u8],
    settings: DecodeSettings,
    changes: &mut [u32],
    ends: &mut [u64],
    marks: &mut [u8],
    kept: Kept,
    line: Line,
    at: usize,
    seen: usize,
) -> Out
    requires { UnitFrom src.now settings changes.old ends.old marks.old kept (Stand.InLine line at) seen }
    ensures { UnitGives src.now settings changes.old ends.old marks.old kept (Stand.InLine line at) result changes.new ends.new marks.new }
{
    let start = kept.start;
    let base = kept.base;
    let found = reference::find(
        &changes[start..base],
        seen,
        line.width,
        line.position,
        line.colour,
    );
    let rules = rules_of(settings);
    match one_code::mode_code(
        src,
        &mut changes[base..],
        line,
        at,
        found.b1,
        found.b2,
        rules,
    ) {
        OneCode::Runs(next) => {
            Out::More(
                kept,
                Stand::InRun(Half::First(at), line, next, 0, next),
                found.seen,
            )
        }
        OneCode::Did(step) => after_code(src, settings, ends, marks, kept, step, found.seen),
    }
}

// Behind the first run comes the second, behind the second the next mode code. `line` is as it was before the run.
fn after_run(
    src: &[u8],
    settings: DecodeSettings,
    ends: &mut [u64],
    marks: &mut [u8],
    kept: Kept,
    half: Half,
    line: Line,
    step: Step,
    seen: usize,
) -> Out
    requires { CodeEnds src.now kept step }
    ensures { AfterRuns src.now settings ends.old marks.old kept half line step seen result ends.new marks.new }
{
    match half {
        Half::First(mode) => match step {
            Err(stop) => Out::Done(stand::said(
                stop.number,
                stop.place,
                0,
                kept,
                stop.line.changes,
            )),
            Ok((pushed, next)) => {
                let blank = pushed.position == line.position;
                Out::More(
                    kept,
                    Stand::InRun(Half::Second(mode, blank), pushed, next, 0, next),
                    seen,
                )
            }
        },
        Half::Second(mode, blank) => {
            let tested = one_code::unless_unmoved(step, line, mode, blank, settings.exact);
            after_code(src, settings, ends, marks, kept, tested, seen)
        }
    }
}

fn run_unit(
    src: &[u8],
    settings: DecodeSettings,
    changes: &mut [u32],
    ends: &mut [u64],
    marks: &mut [u8],
    kept: Kept,
    half: Half,
    line: Line,
    from: usize,
    total: u32,
    at: usize,
    seen: usize,
) -> Out
    requires { UnitFrom src.now settings changes.old ends.old marks.old kept (Stand.InRun half line from total at) seen }
    ensures { UnitGives src.now settings changes.old ends.old marks.old kept (Stand.InRun half line from total at) result changes.new ends.new marks.new }
{
    let colour = line.colour as usize;
    match one_code::run_code(colour, src, at, total, settings.plain) {
        Err(fault) => Out::Done(stand::said(
            answer::number(fault.error),
            fault.at,
            0,
            kept,
            line.changes,
        )),
        Ok(RunCode::More(sum, next)) => {
            Out::More(kept, Stand::InRun(half, line, from, sum, next), seen)
        }
        Ok(RunCode::Last(sum, next)) => {
            let base = kept.base;
            let rules = rules_of(settings);
            let step = one_code::end_run(&mut changes[base..], line, sum, from, next, rules);
            after_run(src, settings, ends, marks, kept, half, line, step, seen)
        }
    }
}

// Swift units of a line; where the next code is another, that one.
fn line_units(
    src: &[u8],
    settings: DecodeSettings,
    changes: &mut [u32],
    ends: &mut [u64],
    marks: &mut [u8],
    kept: Kept,
    line: Line,
    at: usize,
    seen: usize,
    left: usize,
) -> TakenUnits
    requires { UnitFrom src.now settings changes.old ends.old marks.old kept (Stand.InLine line at) seen × (0 < left) }
    ensures { SomeGive src.now settings changes.old ends.old marks.old kept (Stand.InLine line at) left result changes.new ends.new marks.new }
{
    let start = kept.start;
    let base = kept.base;
    let u = swift::swiftly(
        src,
        changes,
        start,
        base,
        line,
        at,
        seen,
        left,
        settings.plain,
    );
    if u.left == left {
        let out = mode_unit(src, settings, changes, ends, marks, kept, line, at, seen);
        return TakenUnits { out, units: 1 };
    }
    let s = u.stand;
    let next = Line {
        position: s.position,
        changes: s.count,
        colour: (s.place % 2) as u32,
        ..line
    };
    let out = stand::settle(
        src,
        settings,
        ends,
        marks,
        kept,
        Stand::InLine(next, s.at),
        seen,
    );
    TakenUnits {
        out,
        units: left - u.left,
    }
}

// One of those that are left, or more where they are swift.
pub(crate) fn units(
    src: &[u8],
    settings: DecodeSettings,
    changes: &mut [u32],
    ends: &mut [u64],
    marks: &mut [u8],
    kept: Kept,
    stand: Stand,
    seen: usize,
    left: usize,
) -> TakenUnits
    requires { UnitFrom src.now settings changes.old ends.old marks.old kept stand seen × (0 < left) }
    ensures { SomeGive src.now settings changes.old ends.old marks.old kept stand left result changes.new ends.new marks.new }
{
    match stand {
        Stand::Between(eols) => {
            let out = eol_unit(src, settings, kept, eols);
            TakenUnits { out, units: 1 }
        }
        Stand::InLine(line, at) => {
            line_units(
                src, settings, changes, ends, marks, kept, line, at, seen, left,
            )
        }
        Stand::InRun(half, line, from, total, at) => {
            let out = run_unit(
                src, settings, changes, ends, marks, kept, half, line, from, total, at, seen,
            );
            TakenUnits { out, units: 1 }
        }
    }
}
