// Calls of the public functions of bit_reader::zeros, each with the contract that its promises are about.
ghost use Rattle.std.specs.Prelude.{◌≡◌, ◌*◌, length, drop};
ghost use Rattle.rules.specs.Bits.{bits_of};
ghost use Rattle.rules.specs.Eols.{zero_run};
ghost use Rattle.bit_reader.specs.Loaded.{Loading};
ghost use Rattle.bit_reader.specs.Zeros.{one_or_end};

pub fn first_one(src: &[u8], from: usize) -> usize
    requires { Loading src.now from }
    ensures { result ≡ one_or_end (8 * length src.now) from (zero_run (drop from (bits_of src.now))) }
{
    bit_reader::zeros::first_one(src, from)
}
