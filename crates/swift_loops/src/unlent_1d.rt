// The pairs of a 1D line where no tables are lent, as fast_1d.rt reads them: a row by itself.
ghost use Rattle.std.specs.Prelude.{◌<◌, length};
ghost use Rattle.rules.specs.Bits.{bits_of};
ghost use Rattle.bit_reader.specs.Loaded.{Loading};
ghost use Rattle.swift_loops.specs.Pairs.{pace_of, Paired, Stepping, PacedTo, Pacing, Ran, Filled};

use crate::fast_1d;
use crate::fast_1d::{BeforePair, Pair};
use codes::front;

fn by_codes(top: usize, window: u64) -> Pair
    requires { top < 8192 }
    ensures { Paired top window result }
{
    let first = front::front_run_of(fast_1d::BLACK, top, window);
    let rest = window << first.size;
    let second = front::front_run_of(fast_1d::WHITE, front::top13(rest), rest);
    fast_1d::both_of(first, second)
}

fn pair_at(top: usize, window: u64) -> Pair
    requires { top < 8192 }
    ensures { Paired top window result }
{
    let entry = squeezed::pair(top / 4);
    if entry == 0 {
        return by_codes(top, window);
    }
    fast_1d::by_entry(entry)
}

fn step(src: &[u8], row: &mut [u32], width: u32, last: usize, s: BeforePair) -> Option<BeforePair>
    requires { Stepping src.now row.old width last s }
    ensures { PacedTo src.now row.old width s result row.new }
{
    let window = bit_reader::ahead(src, s.at);
    let top = front::top13(s.bits);
    let pair = pair_at(top, window);
    let bits = fast_1d::bits_behind(src, last, s.at, pair.size, window);
    fast_1d::put(row, width, s, pair, bits)
}

pub(crate) fn pairs_from(
    src: &[u8],
    row: &mut [u32],
    width: u32,
    last: usize,
    from: BeforePair,
) -> BeforePair
    requires { Pacing src.now row.old width last from }
    ensures { Ran (bits_of src.now) (length row.old) width row.old (pace_of from) row.new (pace_of result) }
{
    let mut s = from;
    while s.position < width {
        if last < s.at {
            return s;
        }
        let Some(next) = step(src, row, width, last, s) else {
            return s;
        };
        s = next;
    }
    s
}

// A white line, as `fast_1d::whole_run` sees it, which keeps its one caller so. What is lent for the table of white runs is not looked at.
pub fn whole_run(
    white: &[u16],
    src: &[u8],
    width: u32,
    at: usize,
    room: usize,
    plain: bool,
) -> Option<BeforePair>
    requires { Loading src.now at }
    ensures { Filled src.now room width at result }
{
    if !fast_1d::fit(plain, room, width, src.len(), at) {
        return None;
    }
    let t = fast_1d::begun(false, white, width, at, bit_reader::ahead(src, at))?;
    if t.position != width {
        return None;
    }
    Some(t)
}
