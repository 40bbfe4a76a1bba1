// Calls of the public functions of context::offset, each with the contract that its promises are about.
ghost use Rattle.std.specs.Prelude.{◌≡◌};
ghost use Rattle.codes.specs.Modes.{offset_mode};
ghost use Rattle.context.specs.Offset.{Offset, move_by};

pub fn moved(b1: u32, offset: i64, position: u32) -> Option<u32>
    requires { Offset offset }
    ensures { result ≡ move_by b1 (offset_mode offset) position }
{
    context::offset::moved(b1, offset, position)
}
