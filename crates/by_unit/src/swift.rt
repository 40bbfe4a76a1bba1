// The swift units of a line, by the lookup's engine alone (A14).
ghost use Rattle.std.specs.Prelude.{◌≡◌, true};
ghost use Rattle.rules.specs.Lines.{right_of_a0};
ghost use Rattle.rules.specs.Rising.{Rising};
ghost use Rattle.context.specs.Reference.{Passed, Searches};
ghost use Rattle.by_unit.specs.Swift.{SwiftFrom, SwiftTook};

use context::line::Line;
use context::reference;
use swift_loops::fast_2d::BetweenCodes;
use swift_units::UnitsLeft;

// Whether so many changes of the reference lie left of the line, and more than were seen to: the last of them is looked at.
fn is_passed(reference: &[u32], seen: usize, width: u32, position: u32, guess: usize) -> bool
    requires { Rising width 0 reference.now }
    ensures { result ≡ true → Passed (right_of_a0 position) guess reference.now }
{
    if guess <= seen {
        return false;
    }
    if reference.len() < guess {
        return false;
    }
    if position == 0 {
        return false;
    }
    reference[guess - 1] <= position
}

// By how much less is guessed where as many changes as the line has are too many.
const LESS: usize = 8;

const MUCH_LESS: usize = 32;

// From where on b1 is searched at a call's start. A row has about as many changes as the one before it, so as many as the line has are
// passed over, or somewhat fewer of them.
fn search_from(reference: &[u32], seen: usize, line: Line) -> usize
    requires { Searches reference.now seen line.width line.position line.colour }
    ensures { Passed (right_of_a0 line.position) result reference.now }
{
    let guess = line.changes;
    let width = line.width;
    let position = line.position;
    if is_passed(reference, seen, width, position, guess) {
        return guess;
    }
    if LESS <= guess {
        if is_passed(reference, seen, width, position, guess - LESS) {
            return guess - LESS;
        }
    }
    if MUCH_LESS <= guess {
        if is_passed(reference, seen, width, position, guess - MUCH_LESS) {
            return guess - MUCH_LESS;
        }
    }
    if is_passed(reference, seen, width, position, guess / 2) {
        return guess / 2;
    }
    seen
}

// As many of those that are left as come.
pub(crate) fn swiftly(
    src: &[u8],
    changes: &mut [u32],
    start: usize,
    base: usize,
    line: Line,
    at: usize,
    seen: usize,
    left: usize,
    plain: bool,
) -> UnitsLeft
    requires { SwiftFrom src.now changes.old start base line at seen }
    ensures { SwiftTook src.now changes.old start base line at left result changes.new }
{
    let first = search_from(&changes[start..base], seen, line);
    let place = reference::b1_from(
        &changes[start..base],
        first,
        line.width,
        line.position,
        line.colour,
    );
    let from = BetweenCodes {
        at,
        position: line.position,
        count: line.changes,
        place,
    };
    if plain {
        return UnitsLeft { stand: from, left };
    }
    swift_units::swift_units(src, changes, start, base, line.width, from, left)
}
