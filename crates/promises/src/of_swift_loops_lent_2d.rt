// A call of the swift codes under a lent reference, with the contract that its promises are about.
ghost use Rattle.context.specs.declared.reference.Reference.TheVariants.{Lent};
ghost use Rattle.swift_loops.specs.Swift.{Walks, WalkedIn};

use swift_loops::fast_2d::BetweenCodes;

pub fn swift_codes(
    src: &[u8],
    reference: &[u32],
    row: &mut [u32],
    width: u32,
    from: BetweenCodes,
) -> BetweenCodes
    requires { Walks src.now Lent reference.now row.old 0 width from }
    ensures { WalkedIn src.now Lent reference.now row.old 0 width from row.new result }
{
    swift_loops::lent_2d::swift_codes(src, reference, row, width, from)
}
