// Calls of the public functions of listing_text::lines, each with the contract that its promises are about.
ghost use Rattle.listing_text.specs.Sheet.{bad_input};
ghost use Rattle.listing_text.specs.Writing.{Room};
ghost use Rattle.listing_text.specs.Listed.{Listing, listing_of, Prints};

use answer::Answer;

pub fn list(
    out: &mut [u8],
    columns: u32,
    answer: Answer,
    changes: &[u32],
    ends: &[u64],
    marks: &[u8],
) -> usize
    requires { Listing out.old answer changes.now ends.now marks.now }
    ensures { Prints out.old (listing_of columns answer changes.now ends.now marks.now) result out.new }
{
    listing_text::list(out, columns, answer, changes, ends, marks)
}

pub fn bad_input(out: &mut [u8]) -> usize
    requires { Room out.old 0 bad_input }
    ensures { Prints out.old bad_input result out.new }
{
    listing_text::bad_input(out)
}
