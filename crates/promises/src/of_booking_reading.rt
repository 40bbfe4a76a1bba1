// Calls of the public functions of booking::reading, each with the contract that its promises are about.
ghost use Rattle.std.specs.Prelude.{◌≡◌};
ghost use Rattle.booking.specs.Verdict.{read_as};

use form_file::Form;
use settings::DecodeSettings;

pub fn read_as(how: u32, form: Form, settings: DecodeSettings) -> DecodeSettings
    ensures { result ≡ read_as how form settings }
{
    booking::reading::read_as(how, form, settings)
}
