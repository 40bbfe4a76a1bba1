// Calls of the public functions of group3, each with the contract that its promises are about.
ghost use Rattle.std.specs.Prelude.{◌≡◌, ◌-◌, length};
ghost use Rattle.rules.specs.Bits.{bits_of};
ghost use Rattle.rules.specs.Group3.{row3};
ghost use Rattle.context.specs.Coding.{PairedFor};
ghost use Rattle.settings.specs.Settings.{settings_of, tagging_of};
ghost use Rattle.settings.specs.Between.{state_of, RowFrom, RowGives};

use settings::{DecodeSettings, Row, State};

pub fn row<'a>(
    white: &'a [u16],
    black: &'a [u16],
    both: &'a [u16],
    src: &[u8],
    settings: DecodeSettings,
    lent: &[u32],
    changes: &mut [u32],
    state: State,
) -> Row
    requires { RowFrom src.now lent.now changes.old settings state × PairedFor state.reference white.now black.now both.now }
    ensures { RowGives state.base changes.old (row3 (settings_of settings) (tagging_of settings.encoding) (bits_of src.now) (length changes.old - state.base) (state_of lent.now changes.old state)) result changes.new }
{
    group3::row(white, black, both, src, settings, lent, changes, state)
}

pub fn swift_row<'a>(
    white: &'a [u16],
    black: &'a [u16],
    both: &'a [u16],
    src: &[u8],
    settings: DecodeSettings,
    lent: &[u32],
    changes: &mut [u32],
    state: State,
) -> Row
    requires { RowFrom src.now lent.now changes.old settings state × PairedFor state.reference white.now black.now both.now }
    ensures { RowGives state.base changes.old (row3 (settings_of settings) (tagging_of settings.encoding) (bits_of src.now) (length changes.old - state.base) (state_of lent.now changes.old state)) result changes.new }
{
    group3::swift_row(white, black, both, src, settings, lent, changes, state)
}

pub fn lone_row<'a>(
    white: &'a [u16],
    black: &'a [u16],
    both: &'a [u16],
    src: &[u8],
    settings: DecodeSettings,
    lent: &[u32],
    changes: &mut [u32],
    state: State,
) -> Row
    requires { RowFrom src.now lent.now changes.old settings state × PairedFor state.reference white.now black.now both.now }
    ensures { RowGives state.base changes.old (row3 (settings_of settings) (tagging_of settings.encoding) (bits_of src.now) (length changes.old - state.base) (state_of lent.now changes.old state)) result changes.new }
{
    group3::lone_row(white, black, both, src, settings, lent, changes, state)
}
