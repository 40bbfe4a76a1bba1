// A call of the white line where no table is lent, with the contract that its promises are about.
ghost use Rattle.bit_reader.specs.Loaded.{Loading};
ghost use Rattle.swift_loops.specs.Pairs.{Filled};

use swift_loops::fast_1d::BeforePair;

pub fn whole_run(
    white: &[u16],
    src: &[u8],
    width: u32,
    at: usize,
    room: usize,
    plain: bool,
) -> Option<BeforePair>
    requires { Loading src.now at }
    ensures { Filled src.now room width at result }
{
    swift_loops::unlent_1d::whole_run(white, src, width, at, room, plain)
}
