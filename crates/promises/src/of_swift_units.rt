// A call of the swift codes that are counted in units, with the contract that its promises are about.
ghost use Rattle.std.specs.Prelude.{[]};
ghost use Rattle.context.specs.declared.reference.Reference.TheVariants.{Kept};
ghost use Rattle.swift_loops.specs.Swift.{Walks};
ghost use Rattle.swift_units.specs.Counted.{Spent};

use swift_loops::fast_2d::BetweenCodes;
use swift_units::UnitsLeft;

pub fn swift_units(
    src: &[u8],
    changes: &mut [u32],
    start: usize,
    base: usize,
    width: u32,
    from: BetweenCodes,
    units: usize,
) -> UnitsLeft
    requires { Walks src.now (Kept start) [] changes.old base width from }
    ensures { Spent src.now start changes.old base width from units result changes.new }
{
    swift_units::swift_units(src, changes, start, base, width, from, units)
}
