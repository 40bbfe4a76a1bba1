// Calls of the public functions of codes::eol, each with the contract that its promises are about.
ghost use Rattle.std.specs.Prelude.{◌≡◌};
ghost use Rattle.rules.specs.Bits.{bits_of};
ghost use Rattle.rules.specs.Eols.{read_eols, all_eols, skip_to_eol};
ghost use Rattle.bit_reader.specs.Loaded.{Loading};
ghost use Rattle.codes.specs.Eols.{eols_of, skip_of};

use codes::eol::Eols;

pub fn read_eols(src: &[u8], from: usize, max: usize) -> Eols
    requires { Loading src.now from }
    ensures { eols_of result ≡ read_eols max (bits_of src.now) from }
{
    codes::eol::read_eols(src, from, max)
}

pub fn read_all_eols(src: &[u8], from: usize) -> Eols
    requires { Loading src.now from }
    ensures { eols_of result ≡ all_eols (bits_of src.now) from }
{
    codes::eol::read_all_eols(src, from)
}

pub fn skip_to_eol(src: &[u8], from: usize) -> Option<usize>
    requires { Loading src.now from }
    ensures { skip_of result ≡ skip_to_eol (bits_of src.now) from }
{
    codes::eol::skip_to_eol(src, from)
}
