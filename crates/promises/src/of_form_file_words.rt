// Calls of the public functions of form_file's words, each with the contract that its promises are about.
ghost use Rattle.std.specs.Prelude.{◌≡◌};
ghost use Rattle.form_file.specs.Words.{same as sameBytes, value_of};

pub fn same(word: &[u8], with: &[u8]) -> bool
    ensures { result ≡ sameBytes word.now with.now }
{
    form_file::words::same(word, with)
}

pub fn value(word: &[u8]) -> u64
    ensures { result ≡ value_of word.now }
{
    form_file::words::value(word)
}
