// Calls of the public functions of listing_text::text_lines, each with the contract that its promises are about.
ghost use Rattle.std.specs.Prelude.{◌≤◌, length};
ghost use Rattle.listing_text.specs.Lines.{LineTo, LineFrom};

pub fn line_end(text: &[u8], at: usize) -> usize
    requires { at ≤ length text.now }
    ensures { LineTo text.now at result }
{
    listing_text::text_lines::line_end(text, at)
}

pub fn line_start(text: &[u8], k: usize) -> usize
    ensures { LineFrom text.now k result }
{
    listing_text::text_lines::line_start(text, k)
}
