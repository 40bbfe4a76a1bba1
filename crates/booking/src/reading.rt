// How the desk reads a page.
ghost use Rattle.std.specs.Prelude.{◌≡◌};
ghost use Rattle.booking.specs.Verdict.{by_lines, reading, columns_for, read_as};

use form_file::Form;
use settings::{DecodeSettings, EncodingMode};

// As the desk reads, leniently, strictly; with every other number exactly.
pub const AS_THE_DESK: u32 = 0;

pub const LENIENTLY: u32 = 1;

pub const STRICTLY: u32 = 2;

fn reading(settings: DecodeSettings, columns: u32, strict: bool, exact: bool) -> DecodeSettings
    ensures { result ≡ reading settings columns strict exact }
{
    DecodeSettings {
        columns,
        strict,
        exact,
        ..settings
    }
}

// Whether one bad line costs one row.
fn by_lines(encoding: EncodingMode, eols: bool) -> bool
    ensures { result ≡ by_lines encoding eols }
{
    match encoding {
        EncodingMode::Group4 => false,
        EncodingMode::Group3_1D => eols,
        EncodingMode::Group3_2D => eols,
    }
}

// Settings of no columns have the form's.
fn columns_for(form: Form, settings: DecodeSettings) -> u32
    ensures { result ≡ columns_for form settings }
{
    if settings.columns == 0 {
        return form.columns;
    }
    settings.columns
}

// The settings by which a page is read: by itself the desk reads Group 3 with end-of-line marks leniently, and all else exactly.
pub fn read_as(how: u32, form: Form, settings: DecodeSettings) -> DecodeSettings
    ensures { result ≡ read_as how form settings }
{
    let encoding = settings.encoding;
    let columns = columns_for(form, settings);
    if how == AS_THE_DESK {
        let exact = !by_lines(encoding, settings.end_of_line);
        return reading(settings, columns, false, exact);
    }
    if how == LENIENTLY {
        return reading(settings, columns, false, false);
    }
    reading(settings, columns, true, how != STRICTLY)
}
