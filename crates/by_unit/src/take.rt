// The units of a call, counted down.
ghost use Rattle.by_unit.specs.Taking.{TakeFrom, Takes};

use crate::stand::{Kept, Out, Stand};
use crate::{stand, unit};
use settings::DecodeSettings;

// Where they have come to, and how many they are.
#[derive(Clone, Copy)]
pub(crate) struct TakenUnits {
    pub out: Out,
    pub units: usize,
}

// What can be closed is closed first: a state of the caller's own may stand at a row's end.
pub(crate) fn take(
    src: &[u8],
    settings: DecodeSettings,
    changes: &mut [u32],
    ends: &mut [u64],
    marks: &mut [u8],
    kept: Kept,
    stand: Stand,
    n: usize,
) -> TakenUnits
    requires { TakeFrom src.now settings changes.old ends.old marks.old kept stand }
    ensures { Takes src.now settings changes.old ends.old marks.old kept stand n result changes.new ends.new marks.new }
{
    let mut out = stand::settle(src, settings, ends, marks, kept, stand, 0);
    let mut left = n;
    while 0 < left {
        match out {
            Out::Done(_) => {
                return TakenUnits {
                    out,
                    units: n - left,
                };
            }
            Out::More(next, at, seen) => {
                let taken = unit::units(src, settings, changes, ends, marks, next, at, seen, left);
                out = taken.out;
                left -= taken.units;
            }
        }
    }
    TakenUnits {
        out,
        units: n - left,
    }
}
