// What the readers of codes refuse with.
ghost use Rattle.std.specs.Prelude.{◌≡◌};

use answer::DecodeError;

// The error, and the bit at which the failing code began.
#[derive(Clone, Copy)]
pub struct Fault {
    pub error: DecodeError,
    pub at: usize,
}

impl Fault {
    pub(crate) fn new(error: DecodeError, at: usize) -> Fault
        ensures { result ≡ record { error = error; at = at } }
    {
        Fault { error, at }
    }
}
