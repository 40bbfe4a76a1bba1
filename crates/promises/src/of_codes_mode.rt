// Calls of the public functions of codes::mode, each with the contract that its promises are about.
ghost use Rattle.std.specs.Prelude.{◌≡◌, ◌-◌, drop};
ghost use Rattle.rules.specs.Bits.{bits_of, peek};
ghost use Rattle.rules.specs.Modes.{read_mode};
ghost use Rattle.bit_reader.specs.Loaded.{Loading};
ghost use Rattle.codes.specs.Modes.{mode_of};

use codes::Fault;
use codes::mode::Mode;

pub fn by_zeros(src: &[u8], at: usize, bits: u32) -> Result<(Mode, usize), Fault>
    requires { (Loading src.now at) × (bits ≡ peek 32 (drop at (bits_of src.now))) }
    ensures { mode_of result ≡ read_mode (bits_of src.now) at }
{
    codes::mode::by_zeros(src, at, bits)
}

pub fn read_mode<const ALONE: bool>(src: &[u8], at: usize) -> Result<(Mode, usize), Fault>
    requires { Loading src.now at }
    ensures { mode_of result ≡ read_mode (bits_of src.now) at }
{
    codes::mode::read_mode::<ALONE>(src, at)
}
