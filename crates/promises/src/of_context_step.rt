// Calls of the public functions of context::step, each with the contract that its promises are about.
ghost use Rattle.std.specs.Prelude.{◌≡◌};
ghost use Rattle.context.specs.Outcome.{place_for};

pub fn place_of(number: u32, place: usize) -> usize
    ensures { result ≡ place_for number place }
{
    context::step::place_of(number, place)
}
