// Calls of the public functions of group4, each with the contract that its promises are about.
ghost use Rattle.std.specs.Prelude.{◌≡◌, [], ◌-◌, length};
ghost use Rattle.rules.specs.Bits.{bits_of};
ghost use Rattle.rules.specs.Group4.{over, row4};
ghost use Rattle.codes.specs.Eols.{eols_of};
ghost use Rattle.context.specs.Coding.{TabledFor};
ghost use Rattle.settings.specs.Settings.{settings_of};
ghost use Rattle.settings.specs.Between.{state_of, RowFrom, RowGives};

use codes::eol::Eols;
use settings::{DecodeSettings, Row, State};

pub fn is_over(src: &[u8], settings: DecodeSettings, state: State, eols: Eols) -> bool
    ensures { result ≡ over (settings_of settings) (bits_of src.now) (state_of [] [] state) (eols_of eols) }
{
    group4::is_over(src, settings, state, eols)
}

pub fn row<'a>(
    white: &'a [u16],
    black: &'a [u16],
    src: &[u8],
    settings: DecodeSettings,
    lent: &[u32],
    changes: &mut [u32],
    state: State,
) -> Row
    requires { RowFrom src.now lent.now changes.old settings state × TabledFor state.reference white.now black.now }
    ensures { RowGives state.base changes.old (row4 (settings_of settings) (bits_of src.now) (length changes.old - state.base) (state_of lent.now changes.old state)) result changes.new }
{
    group4::row(white, black, src, settings, lent, changes, state)
}

pub fn swift_row<'a>(
    white: &'a [u16],
    black: &'a [u16],
    src: &[u8],
    settings: DecodeSettings,
    lent: &[u32],
    changes: &mut [u32],
    state: State,
) -> Row
    requires { RowFrom src.now lent.now changes.old settings state × TabledFor state.reference white.now black.now }
    ensures { RowGives state.base changes.old (row4 (settings_of settings) (bits_of src.now) (length changes.old - state.base) (state_of lent.now changes.old state)) result changes.new }
{
    group4::swift_row(white, black, src, settings, lent, changes, state)
}

pub fn lone_row<'a>(
    white: &'a [u16],
    black: &'a [u16],
    src: &[u8],
    settings: DecodeSettings,
    lent: &[u32],
    changes: &mut [u32],
    state: State,
) -> Row
    requires { RowFrom src.now lent.now changes.old settings state × TabledFor state.reference white.now black.now }
    ensures { RowGives state.base changes.old (row4 (settings_of settings) (bits_of src.now) (length changes.old - state.base) (state_of lent.now changes.old state)) result changes.new }
{
    group4::lone_row(white, black, src, settings, lent, changes, state)
}
