// Calls of the public functions of listing_text::settings_line, each with the contract that its promises are about.
ghost use Rattle.listing_text.specs.Line.{Says};

use listing_text::settings_line::Parsed;

pub fn parse(bytes: &[u8]) -> Option<Parsed>
    ensures { Says bytes.now result }
{
    listing_text::settings_line::parse(bytes)
}
