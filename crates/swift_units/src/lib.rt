// The swift codes of a 2D line under the row before it, as many units of them as are left (A9): one for a vertical or a pass code, and for
// a horizontal one its own and those of its runs. They are the codes of `fast_2d`, whose loops count nothing: a page would feel it.
#![tactic(auto)]

ghost use Rattle.std.specs.Prelude.{◌≡◌, cond, [], ◌+◌, ◌-◌, ◌/◌, ◌^◌, ◌≤◌, ◌<◌, ltb, length};
ghost use Rattle.rules.specs.Modes.{pass, horizontal};
ghost use Rattle.bit_reader.specs.Cursor.{most_bits};
ghost use Rattle.context.specs.declared.reference.Reference.TheVariants.{Kept};
ghost use Rattle.swift_loops.specs.Swift.{side_mode, Asks, Sided, Turned, Walks, Roomy, room_in};
ghost use Rattle.swift_units.specs.Counted.{Spent, CountsMode, CountsAhead, CountsBits, CountedEach};

use codes::front;
use context::reference;
use swift_loops::fast_2d;
use swift_loops::fast_2d::BetweenCodes;

// Where the line stands, and how many units are left. A function that takes a code answers this behind it, and none where the code is
// another.
#[derive(Clone, Copy)]
pub struct UnitsLeft {
    pub stand: BetweenCodes,
    pub left: usize,
}

// To `d` pixels right of b1 where `twice` is twice d, left of it where it is 0.
fn vertical(
    changes: &mut [u32],
    start: usize,
    base: usize,
    width: u32,
    s: BetweenCodes,
    left: usize,
    b1: u32,
    d: usize,
    twice: usize,
    size: usize,
) -> Option<UnitsLeft>
    requires { Sided (Kept start) [] changes.old base width s b1 d twice size × (0 < left) }
    ensures { CountsMode start changes.old base width s left (s.at + size) (side_mode d twice) result changes.new }
{
    let to = b1 as usize + twice;
    if to <= s.position as usize + d {
        return None;
    }
    if width as usize + d < to {
        return None;
    }
    let a1 = (to - d) as u32;
    let count = fast_2d::note(&mut changes[base..], s);
    let place = fast_2d::behind(&changes[start..base], s.place, d, a1);
    let stand = BetweenCodes {
        at: s.at + size,
        position: a1,
        count: count,
        place: place,
    };
    Some(UnitsLeft {
        stand,
        left: left - 1,
    })
}

// V0 codes, as long as `ones` begins with a one, the reference has a change, and the line fewer than `most`. Behind one of them the next
// pixels begin with a change, right of the position, so nothing else is tested.
fn to_each(
    changes: &mut [u32],
    start: usize,
    base: usize,
    width: u32,
    from: BetweenCodes,
    ones: u64,
    most: usize,
) -> BetweenCodes
    requires { Turned (Kept start) [] changes.old base width from × (from.at ≤ most_bits + 71) × (from.count ≤ most) }
    ensures { CountedEach start changes.old base width from ones most result changes.new }
{
    let end = base - start;
    let mut s = from;
    let mut rest = ones;
    while rest >> 63 == 1 {
        let place = s.place;
        if end <= place {
            return s;
        }
        if most <= s.count {
            return s;
        }
        let last = base + s.count;
        let position = s.position;
        changes[last] = position;
        let next = start + place;
        let b1 = changes[next];
        s = BetweenCodes {
            at: s.at + 1,
            position: b1,
            count: s.count + 1,
            place: place + 1,
        };
        rest = rest << 1;
    }
    s
}

// No more V0 codes lie in 64 bits.
fn at_most_64(units: usize) -> usize
    ensures { (result ≤ units) × (result ≤ 64) }
{
    usize::min(units, 64)
}

// V0, and those that follow it in the same bits.
fn straight(
    changes: &mut [u32],
    start: usize,
    base: usize,
    width: u32,
    s: BetweenCodes,
    left: usize,
    b1: u32,
    bits: u64,
) -> Option<UnitsLeft>
    requires { Asks (Kept start) [] changes.old base width s b1 × (s.at ≤ most_bits) × (bits / 2 ^ 63 ≡ 1) × (0 < left) }
    ensures { CountsAhead start changes.old base width s left bits result changes.new }
{
    let count = fast_2d::note(&mut changes[base..], s);
    let first = BetweenCodes {
        at: s.at + 1,
        position: b1,
        count: count,
        place: s.place + 1,
    };
    let others = left - 1;
    let most = count + at_most_64(others);
    let last = to_each(changes, start, base, width, first, bits << 1, most);
    Some(UnitsLeft {
        stand: last,
        left: others - (last.count - count),
    })
}

// To b2, in the same colour.
fn to_b2(
    changes: &mut [u32],
    start: usize,
    base: usize,
    width: u32,
    s: BetweenCodes,
    left: usize,
    b1: u32,
) -> Option<UnitsLeft>
    requires { Asks (Kept start) [] changes.old base width s b1 × (0 < left) }
    ensures { CountsMode start changes.old base width s left (s.at + 4) pass result changes.new }
{
    let count = fast_2d::note(&mut changes[base..], s);
    let b2 = reference::change_or(&changes[start..base], s.place + 1, width);
    let stand = BetweenCodes {
        at: s.at + 4,
        position: b2,
        count: count,
        place: s.place + 2,
    };
    Some(UnitsLeft {
        stand,
        left: left - 1,
    })
}

// A run at the front of some bits is one code, or two where it is 64 pixels or more.
fn codes_of(pixels: u32) -> usize
    ensures { (result ≡ cond (ltb pixels 64) 1 2) × (result ≤ 2) }
{
    if pixels < 64 { 1 } else { 2 }
}

// Two runs, out of the same bits; they are five units at most.
fn two_runs(
    changes: &mut [u32],
    start: usize,
    base: usize,
    width: u32,
    s: BetweenCodes,
    left: usize,
    b1: u32,
    bits: u64,
) -> Option<UnitsLeft>
    requires { Asks (Kept start) [] changes.old base width s b1 }
    ensures { CountsBits start changes.old base width s left bits (s.at + 3) horizontal result changes.new }
{
    if left < 5 {
        return None;
    }
    let ahead = bits << 3;
    let parity = s.place % 2;
    let one = front::front_run_of(parity, front::top13(ahead), ahead);
    let rest = ahead << one.size;
    let two = front::front_run_of(1 - parity, front::top13(rest), rest);
    if one.pixels == 0 {
        return None;
    }
    if two.pixels == 0 {
        return None;
    }
    if width - s.position < one.pixels + two.pixels {
        return None;
    }
    let count = fast_2d::note(&mut changes[base..], s);
    let a1 = s.position + one.pixels;
    let last = base + count;
    changes[last] = a1;
    let position = a1 + two.pixels;
    let place = fast_2d::onward(&changes[start..base], s.place, position);
    let stand = BetweenCodes {
        at: s.at + 3 + one.size + two.size,
        position: position,
        count: count + 1,
        place: place,
    };
    Some(UnitsLeft {
        stand,
        left: left - 1 - codes_of(one.pixels) - codes_of(two.pixels),
    })
}

// One code, by its leading zeros; where there are none, the V0 codes that follow too.
fn code(
    changes: &mut [u32],
    start: usize,
    base: usize,
    width: u32,
    s: BetweenCodes,
    left: usize,
    b1: u32,
    bits: u64,
) -> Option<UnitsLeft>
    requires { Asks (Kept start) [] changes.old base width s b1 × (s.at ≤ most_bits) × (0 < left) }
    ensures { CountsAhead start changes.old base width s left bits result changes.new }
{
    if bits >> 63 == 1 {
        return straight(changes, start, base, width, s, left, b1, bits);
    }
    match u64::leading_zeros(bits) {
        1 => vertical(
            changes,
            start,
            base,
            width,
            s,
            left,
            b1,
            1,
            2 * fast_2d::bit_of(bits, 61),
            3,
        ),
        2 => two_runs(changes, start, base, width, s, left, b1, bits),
        3 => to_b2(changes, start, base, width, s, left, b1),
        4 => vertical(
            changes,
            start,
            base,
            width,
            s,
            left,
            b1,
            2,
            4 * fast_2d::bit_of(bits, 58),
            6,
        ),
        5 => vertical(
            changes,
            start,
            base,
            width,
            s,
            left,
            b1,
            3,
            6 * fast_2d::bit_of(bits, 57),
            7,
        ),
        _ => None,
    }
}

// Swift codes while they come and units are left.
fn codes(
    src: &[u8],
    changes: &mut [u32],
    start: usize,
    base: usize,
    width: u32,
    from: BetweenCodes,
    units: usize,
) -> UnitsLeft
    requires { Walks src.now (Kept start) [] changes.old base width from × Roomy (room_in base changes.old) width from }
    ensures { Spent src.now start changes.old base width from units result changes.new }
{
    let mut u = UnitsLeft {
        stand: from,
        left: units,
    };
    if src.len() < 8 {
        return u;
    }
    // The last bit from which 64 are in the data.
    let last = 8 * src.len() - 64;
    while 0 < u.left {
        let s = u.stand;
        if last < s.at {
            return u;
        }
        let b1 = reference::change_or(&changes[start..base], s.place, width);
        // The line is full; or it begins, and so does the reference, with a change at 0.
        if b1 <= s.position {
            return u;
        }
        let bits = bit_reader::ahead(src, s.at);
        let Some(next) = code(changes, start, base, width, s, u.left, b1, bits) else {
            return u;
        };
        u = next;
    }
    u
}

// Swift codes while they come and units are left, where the room lasts, whatever the line holds; none where it may not.
pub fn swift_units(
    src: &[u8],
    changes: &mut [u32],
    start: usize,
    base: usize,
    width: u32,
    from: BetweenCodes,
    units: usize,
) -> UnitsLeft
    requires { Walks src.now (Kept start) [] changes.old base width from }
    ensures { Spent src.now start changes.old base width from units result changes.new }
{
    if fast_2d::has_room(changes.len() - base, width, from) {
        return codes(src, changes, start, base, width, from, units);
    }
    UnitsLeft {
        stand: from,
        left: units,
    }
}
