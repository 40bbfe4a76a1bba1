// The signed move of vertical mode, in 64 bits, where no sum of a place and an offset leaves the type.
ghost use Rattle.std.specs.Prelude.{◌≡◌};
ghost use Rattle.context.specs.Offset.{Offset, move_by};
ghost use Rattle.codes.specs.Modes.{offset_mode};

const MOST_PLACE: i64 = answer::MOST_PIXELS as i64;

// By how many pixels the line goes from the position to a1, which is b1 and the offset; or a1 is no place to which it can go.
pub fn moved(b1: u32, offset: i64, position: u32) -> Option<u32>
    requires { Offset offset }
    ensures { result ≡ move_by b1 (offset_mode offset) position }
{
    let a1 = b1 as i64 + offset;
    if MOST_PLACE < a1 {
        return None;
    }
    let count = a1 - position as i64;
    if count < 0 {
        return None;
    }
    Some(count as u32)
}
