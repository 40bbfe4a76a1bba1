// Calls of the public functions of reader, each with the contract that its promises are about.
ghost use Rattle.std.specs.Prelude.{◌≡◌};
ghost use Rattle.reader.specs.Reader.{word_after};

use reader::Word;

pub fn word_after(src: &[u8], n: usize) -> Word
    ensures { result ≡ word_after src.now n }
{
    reader::word_after(src, n)
}
