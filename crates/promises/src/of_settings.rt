// Calls of the public functions of settings, each with the contract that its promises are about.
ghost use Rattle.std.specs.Prelude.{◌≡◌, ◌≤◌};
ghost use Rattle.rules.specs.Pages.{too_few};
ghost use Rattle.rules.specs.Rows.{aligned_if, finished};
ghost use Rattle.bit_reader.specs.Cursor.{most_bits};
ghost use Rattle.settings.specs.Settings.{settings_of, is_group4, strict_for};
ghost use Rattle.settings.specs.Between.{row_for};

use settings::{DecodeSettings, Row};

pub fn align_if(aligned: bool, at: usize) -> usize
    requires { at ≤ most_bits }
    ensures { result ≡ aligned_if aligned at }
{
    settings::align_if(aligned, at)
}

pub fn end_at(at: usize) -> Row
    requires { at ≤ most_bits }
    ensures { result ≡ row_for (finished at) }
{
    settings::end_at(at)
}

pub fn row_end(count: usize) -> u64
    ensures { result ≡ count }
{
    settings::row_end(count)
}

pub fn is_group4(settings: DecodeSettings) -> bool
    ensures { result ≡ is_group4 settings.encoding }
{
    settings::is_group4(settings)
}

pub fn strict_if_exact(settings: DecodeSettings) -> DecodeSettings
    ensures { result ≡ strict_for settings }
{
    settings::strict_if_exact(settings)
}

pub fn is_short(settings: DecodeSettings, number: u32, rows: u64) -> bool
    ensures { result ≡ too_few (settings_of settings) number rows }
{
    settings::is_short(settings, number, rows)
}
