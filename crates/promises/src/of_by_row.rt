// Calls of the public functions of by_row, each with the contract that its promises are about.
ghost use Rattle.std.specs.Prelude.{◌≡◌};
ghost use Rattle.rules.specs.ByRow.{row_start};
ghost use Rattle.by_row.specs.ByRow.{row_state_of, ReadsRow};

use by_row::{RowState, RowStep};
use settings::DecodeSettings;

pub fn row_start() -> RowState
    ensures { row_state_of result ≡ row_start }
{
    by_row::row_start()
}

pub fn read_row(
    src: &[u8],
    settings: DecodeSettings,
    state: RowState,
    first: &mut [u32],
    second: &mut [u32],
) -> RowStep
    ensures { ReadsRow src.now settings state first.old second.old result first.new second.new }
{
    by_row::read_row(src, settings, state, first, second)
}
