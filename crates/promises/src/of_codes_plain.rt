// Calls of the public functions of codes::plain, each with the contract that its promises are about.
ghost use Rattle.std.specs.Prelude.{◌≡◌, drop};
ghost use Rattle.rules.specs.Bits.{bits_of};
ghost use Rattle.rules.specs.Plain.{plain};
ghost use Rattle.rules.specs.Runs.{sum, run_step};
ghost use Rattle.tables.specs.Tables.{colour_of};
ghost use Rattle.bit_reader.specs.Loaded.{Loading};
ghost use Rattle.codes.specs.Plain.{found_of};
ghost use Rattle.codes.specs.Runs.{RunRead, code_of};

use bit_reader::buffer::Buffer;
use codes::Fault;
use codes::plain::{Code, LostCode};
use codes::run::RunCode;

pub fn read_code<const ALONE: bool>(colour: usize, src: &[u8], at: usize) -> Result<Code, LostCode>
    requires { Loading src.now at }
    ensures { found_of result ≡ plain (colour_of colour) (drop at (bits_of src.now)) }
{
    codes::plain::read_code::<ALONE>(colour, src, at)
}

pub fn read_run(colour: usize, src: &[u8], start: usize) -> Result<(u32, Buffer), Fault>
    requires { Loading src.now start }
    ensures { RunRead (colour_of colour) src.now start result }
{
    codes::plain::read_run(colour, src, start)
}

pub fn next_code(colour: usize, src: &[u8], at: usize, total: u32) -> Result<RunCode, Fault>
    requires { Loading src.now at }
    ensures { code_of result ≡ run_step (colour_of colour) (bits_of src.now) (sum at total) }
{
    codes::plain::next_code(colour, src, at, total)
}
