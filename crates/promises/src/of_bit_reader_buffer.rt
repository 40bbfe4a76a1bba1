// Calls of the public functions of bit_reader::buffer, each with the contract that its promises are about.
ghost use Rattle.std.specs.Prelude.{◌+◌};
ghost use Rattle.bit_reader.specs.Loaded.{LoadedAt, Loading, Feeding, fed_at, Top};

use bit_reader::buffer::Buffer;

pub fn load(src: &[u8], at: usize) -> Buffer
    requires { Loading src.now at }
    ensures { LoadedAt src.now at result }
{
    bit_reader::buffer::load(src, at)
}

pub fn feed(src: &[u8], b: Buffer, n: usize) -> Option<Buffer>
    requires { Feeding src.now b n }
    ensures { fed_at src.now (b.at + n) result }
{
    bit_reader::buffer::feed(src, b, n)
}

pub fn top13(b: Buffer) -> usize
    ensures { Top b result }
{
    bit_reader::buffer::top13(b)
}
