// Calls of the public functions of listing_text::put, each with the contract that its promises are about.
ghost use Rattle.std.specs.Prelude.{[], ◌∷◌};
ghost use Rattle.listing_text.specs.Text.{decimal};
ghost use Rattle.listing_text.specs.Writing.{Room, Puts};

pub fn put_byte(out: &mut [u8], at: usize, b: u8) -> usize
    requires { Room out.old at (b ∷ []) }
    ensures { Puts out.old at (b ∷ []) result out.new }
{
    listing_text::put::put_byte(out, at, b)
}

pub fn put_number(out: &mut [u8], at: usize, n: u64) -> usize
    requires { Room out.old at (decimal n) }
    ensures { Puts out.old at (decimal n) result out.new }
{
    listing_text::put::put_number(out, at, n)
}
