// The lines of a text.
ghost use Rattle.std.specs.Prelude.{◌≤◌, length};
ghost use Rattle.listing_text.specs.Lines.{LineTo, LineFrom};

// The end of the line that begins at a place: its line feed, or the end of the text.
pub fn line_end(text: &[u8], at: usize) -> usize
    requires { at ≤ length text.now }
    ensures { LineTo text.now at result }
{
    for i in at..text.len() {
        if text[i] == b'\n' {
            return i;
        }
    }
    text.len()
}

// Where the line of a number begins; the end of the text where it has no such line.
pub fn line_start(text: &[u8], k: usize) -> usize
    ensures { LineFrom text.now k result }
{
    let mut at = 0;
    for passed in 0..k {
        let end = line_end(text, at);
        if end == text.len() {
            return end;
        }
        at = end + 1;
    }
    at
}
