// Calls of the public functions of swift_loops, each with the contract that its promises are about.
ghost use Rattle.std.specs.Prelude.{◌≡◌, true, [], ◌+◌, ◌-◌, ◌/◌, ◌%◌, ◌^◌, ◌≤◌, ◌<◌, leb, length};
ghost use Rattle.rules.specs.Bits.{bits_of};
ghost use Rattle.rules.specs.Codes as Colour;
ghost use Rattle.rules.specs.Lookup.{lookup_table};
ghost use Rattle.tables.specs.Tables.{Lookups};
ghost use Rattle.bit_reader.specs.Loaded.{Loading};
ghost use Rattle.context.specs.declared.reference.Reference.TheVariants.{Kept};
ghost use Rattle.context.specs.Places.{Onward, Reached, Turning};
ghost use Rattle.swift_loops.specs.Pairs.{halt_line, start_at, Ran, Filled, Pairing};
ghost use Rattle.swift_loops.specs.Swift.{Noted, Walks, WalkedIn};

use context::line::Line;
use swift_loops::fast_1d::{BeforePair, BetweenRuns};
use swift_loops::fast_2d::BetweenCodes;

pub fn line_of(width: u32, s: BetweenRuns) -> Line
    ensures { result ≡ halt_line width s }
{
    swift_loops::fast_1d::line_of(width, s)
}

pub fn pairs<'a>(
    lent: bool,
    white: &'a [u16],
    black: &'a [u16],
    both: &'a [u16],
    src: &[u8],
    row: &mut [u32],
    width: u32,
    at: usize,
    plain: bool,
) -> BetweenRuns
    requires { Pairing lent white.now black.now both.now src.now width at }
    ensures { Ran (bits_of src.now) (length row.old) width row.old (start_at at) row.new result }
{
    swift_loops::fast_1d::pairs(lent, white, black, both, src, row, width, at, plain)
}

pub fn whole_run(
    lent: bool,
    white: &[u16],
    src: &[u8],
    width: u32,
    at: usize,
    room: usize,
    plain: bool,
) -> Option<BeforePair>
    requires { Loading src.now at × (lent ≡ true → white.now ≡ lookup_table Colour.white) }
    ensures { Filled src.now room width at result }
{
    swift_loops::fast_1d::whole_run(lent, white, src, width, at, room, plain)
}

pub fn swift_codes<'a>(
    white: &'a [u16],
    black: &'a [u16],
    src: &[u8],
    changes: &mut [u32],
    start: usize,
    base: usize,
    width: u32,
    from: BetweenCodes,
) -> BetweenCodes
    requires { Lookups white.now black.now × Walks src.now (Kept start) [] changes.old base width from }
    ensures { WalkedIn src.now (Kept start) [] changes.old base width from changes.new result }
{
    swift_loops::fast_2d::swift_codes(white, black, src, changes, start, base, width, from)
}

pub fn note(row: &mut [u32], s: BetweenCodes) -> usize
    requires { s.count < length row.old }
    ensures { Noted row.old s result row.new }
{
    swift_loops::fast_2d::note(row, s)
}

pub fn bit_of(bits: u64, k: usize) -> usize
    requires { k < 64 }
    ensures { result ≡ bits / 2 ^ k % 2 }
{
    swift_loops::fast_2d::bit_of(bits, k)
}

pub fn has_room(room: usize, width: u32, s: BetweenCodes) -> bool
    requires { (s.position ≤ width) × (s.count ≤ room) }
    ensures { result ≡ leb (width - s.position) (room - s.count) }
{
    swift_loops::fast_2d::has_room(room, width, s)
}

pub fn onward(reference: &[u32], from: usize, position: u32) -> usize
    requires { Onward reference.now from position }
    ensures { Reached reference.now (position + 1) from result }
{
    swift_loops::fast_2d::onward(reference, from, position)
}

pub fn behind(reference: &[u32], place: usize, d: usize, a1: u32) -> usize
    requires { Turning reference.now place d a1 }
    ensures { Reached reference.now (a1 + 1) (place + 1) result }
{
    swift_loops::fast_2d::behind(reference, place, d, a1)
}
