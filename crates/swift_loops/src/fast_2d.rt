// The swift codes of a 2D line under the row before it: those whose bits are all in the data, whose pixels fit the line, and whose
// runs are short. Any other code is left to `line_2d::code_2d`.
ghost use Rattle.std.specs.Prelude.{◌≡◌, cond, [], ◌+◌, ◌-◌, ◌/◌, ◌%◌, ◌^◌, ◌≤◌, ◌<◌, eqb, leb, length};
ghost use Rattle.std.specs.Int.Count.{count_leading_zeros};
ghost use Rattle.rules.specs.Modes.{pass, horizontal};
ghost use Rattle.tables.specs.Tables.{Lookups};
ghost use Rattle.context.specs.declared.reference.Reference.TheVariants.{Kept};
ghost use Rattle.context.specs.Places.{Onward, Reached, Turning, Back};
ghost use Rattle.bit_reader.specs.Cursor.{most_bits};
ghost use Rattle.swift_loops.specs.Swift.{Noted, room_in, WalkedIn, TookMode, TookBits, TookAhead, Turns, WalkedTo};
ghost use Rattle.swift_loops.specs.Swift.{Asks, Sided, Turned, SideTaken, GoesAlong, WentStraight, Walks, Roomy};

use codes::front;
use context::{line, reference};

// Where a line stands between two codes: the next bit, the position, the changes it has, and b1's place on the reference. Its colour is the
// place's parity. A function that takes a code answers where it stands behind the code, and none where the code is another.
#[derive(Clone, Copy)]
pub struct BetweenCodes {
    pub at: usize,
    pub position: u32,
    pub count: usize,
    pub place: usize,
}

// How many changes there are once pixels of the line's colour follow: one more where the colour is not that of the last pixel.
pub fn note(row: &mut [u32], s: BetweenCodes) -> usize
    requires { s.count < length row.old }
    ensures { Noted row.old s result row.new }
{
    let count = s.count;
    let position = s.position;
    if line::is_change(count, (s.place % 2) as u32) {
        row[count] = position;
        return count + 1;
    }
    count
}

// The first place right of `position`, from `from` on, of the same parity. A `for` by twos would lose it behind the last change, where it
// still counts.
pub fn onward(reference: &[u32], from: usize, position: u32) -> usize
    requires { Onward reference.now from position }
    ensures { Reached reference.now (position + 1) from result }
{
    let mut place = from;
    while place < reference.len() {
        if position < reference[place] {
            return place;
        }
        place += 2;
    }
    place
}

// Whether the change before b1 lies right of a1, `d` pixels from b1. Only where d is 2 or more it can.
fn goes_back(reference: &[u32], place: usize, d: usize, a1: u32) -> bool
    requires { Turning reference.now place d a1 }
    ensures { Back reference.now place a1 result }
{
    if d < 2 {
        return false;
    }
    if place == 0 {
        return false;
    }
    // Behind the last change there is none, and 0 stands for it.
    a1 < reference::change_or(reference, place - 1, 0)
}

// b1's place behind a vertical code to a1.
pub fn behind(reference: &[u32], place: usize, d: usize, a1: u32) -> usize
    requires { Turning reference.now place d a1 }
    ensures { Reached reference.now (a1 + 1) (place + 1) result }
{
    if goes_back(reference, place, d, a1) {
        return place - 1;
    }
    onward(reference, place + 1, a1)
}

// To `d` pixels right of b1 where `twice` is twice d, left of it where it is 0.
fn vertical(
    changes: &mut [u32],
    start: usize,
    base: usize,
    width: u32,
    s: BetweenCodes,
    b1: u32,
    d: usize,
    twice: usize,
    size: usize,
) -> Option<BetweenCodes>
    requires { Sided (Kept start) [] changes.old base width s b1 d twice size }
    ensures { SideTaken (Kept start) [] changes.old base width s d twice size result changes.new }
{
    let to = b1 as usize + twice;
    if to <= s.position as usize + d {
        return None;
    }
    if width as usize + d < to {
        return None;
    }
    let a1 = (to - d) as u32;
    let count = note(&mut changes[base..], s);
    let place = behind(&changes[start..base], s.place, d, a1);
    Some(BetweenCodes {
        at: s.at + size,
        position: a1,
        count: count,
        place: place,
    })
}

// V0 codes, as long as `ones` begins with a one and the reference has a change. Behind one of them the next pixels begin with a
// change, right of the position, so nothing is tested.
fn to_each(
    changes: &mut [u32],
    start: usize,
    base: usize,
    width: u32,
    from: BetweenCodes,
    ones: u64,
) -> BetweenCodes
    requires { Turned (Kept start) [] changes.old base width from × (from.at ≤ most_bits + 71) }
    ensures { WentStraight (Kept start) [] changes.old base width from ones result changes.new }
{
    let end = base - start;
    let mut s = from;
    let mut rest = ones;
    while rest >> 63 == 1 {
        let place = s.place;
        if end <= place {
            return s;
        }
        let last = base + s.count;
        let position = s.position;
        changes[last] = position;
        let next = start + place;
        let b1 = changes[next];
        s = BetweenCodes {
            at: s.at + 1,
            position: b1,
            count: s.count + 1,
            place: place + 1,
        };
        rest = rest << 1;
    }
    s
}

pub fn bit_of(bits: u64, k: usize) -> usize
    requires { k < 64 }
    ensures { result ≡ bits / 2 ^ k % 2 }
{
    ((bits >> k) % 2) as usize
}

// VR1 or VL1, where `rest` begins with it, behind a code that turned the line: the bits are at hand, and no other mode is asked for.
fn beside(
    changes: &mut [u32],
    start: usize,
    base: usize,
    width: u32,
    s: BetweenCodes,
    rest: u64,
) -> Option<BetweenCodes>
    requires { Turned (Kept start) [] changes.old base width s × (s.at ≤ most_bits + 64) }
    ensures { Turns (Kept start) [] changes.old base width s rest result changes.new }
{
    if rest >> 62 != 1 {
        return None;
    }
    let b1 = reference::change_or(&changes[start..base], s.place, width);
    if b1 <= s.position {
        return None;
    }
    vertical(
        changes,
        start,
        base,
        width,
        s,
        b1,
        1,
        2 * bit_of(rest, 61),
        3,
    )
}

// V0, VR1 and VL1 codes while they come and their bits are at hand: none but V0 begins at `stop` or behind it.
fn along(
    changes: &mut [u32],
    start: usize,
    base: usize,
    width: u32,
    from: BetweenCodes,
    bits: u64,
    stop: usize,
) -> BetweenCodes
    requires { GoesAlong (Kept start) [] changes.old base width from stop }
    ensures { WalkedTo (Kept start) [] changes.old base width from bits stop result changes.new }
{
    let mut s = from;
    let mut rest = bits;
    loop {
        let t = to_each(changes, start, base, width, s, rest);
        if stop <= t.at {
            return t;
        }
        let left = rest << (t.at - s.at);
        let Some(next) = beside(changes, start, base, width, t, left) else {
            return t;
        };
        rest = left << (next.at - t.at);
        s = next;
    }
}

// To b1, or a pixel beside it: V0 where no zeros come first, VR1 or VL1 where one does.
fn to_b1(
    changes: &mut [u32],
    start: usize,
    base: usize,
    width: u32,
    s: BetweenCodes,
    b1: u32,
    bits: u64,
    zeros: u32,
) -> Option<BetweenCodes>
    requires { Asks (Kept start) [] changes.old base width s b1 × (zeros ≡ count_leading_zeros 64 bits) × (zeros ≤ 1) }
    ensures { Turns (Kept start) [] changes.old base width s bits result changes.new }
{
    if zeros == 0 {
        let count = note(&mut changes[base..], s);
        return Some(BetweenCodes {
            at: s.at + 1,
            position: b1,
            count: count,
            place: s.place + 1,
        });
    }
    vertical(
        changes,
        start,
        base,
        width,
        s,
        b1,
        1,
        2 * bit_of(bits, 61),
        3,
    )
}

// A code to b1 or a pixel beside it, and those of the kind that follow in the same bits: of these, 57 are the data's.
fn straight(
    changes: &mut [u32],
    start: usize,
    base: usize,
    width: u32,
    s: BetweenCodes,
    b1: u32,
    bits: u64,
    zeros: u32,
) -> Option<BetweenCodes>
    requires { Asks (Kept start) [] changes.old base width s b1 × (s.at ≤ most_bits) × (zeros ≡ count_leading_zeros 64 bits) × (zeros ≤ 1) }
    ensures { TookAhead (Kept start) [] changes.old base width s bits result changes.new }
{
    let first = to_b1(changes, start, base, width, s, b1, bits, zeros)?;
    let rest = bits << (first.at - s.at);
    let last = along(changes, start, base, width, first, rest, s.at + 50);
    Some(last)
}

// To b2, in the same colour.
fn to_b2(
    changes: &mut [u32],
    start: usize,
    base: usize,
    width: u32,
    s: BetweenCodes,
    b1: u32,
) -> Option<BetweenCodes>
    requires { Asks (Kept start) [] changes.old base width s b1 }
    ensures { TookMode (Kept start) [] changes.old base width s (s.at + 4) pass result changes.new }
{
    let count = note(&mut changes[base..], s);
    let b2 = reference::change_or(&changes[start..base], s.place + 1, width);
    Some(BetweenCodes {
        at: s.at + 4,
        position: b2,
        count: count,
        place: s.place + 2,
    })
}

fn pick<'a>(even: &'a [u16], odd: &'a [u16], parity: usize) -> &'a [u16]
    ensures { result.now ≡ cond (eqb parity 0) even.now odd.now }
{
    if parity == 0 { even } else { odd }
}

// Two runs, out of the same bits.
fn two_runs<'a>(
    white: &'a [u16],
    black: &'a [u16],
    changes: &mut [u32],
    start: usize,
    base: usize,
    width: u32,
    s: BetweenCodes,
    b1: u32,
    bits: u64,
) -> Option<BetweenCodes>
    requires { Lookups white.now black.now × Asks (Kept start) [] changes.old base width s b1 }
    ensures { TookBits (Kept start) [] changes.old base width s bits 57 (s.at + 3) horizontal result changes.new }
{
    let ahead = bits << 3;
    let parity = s.place % 2;
    let own = pick(white, black, parity);
    let one = front::front_run(own, front::top13(ahead), ahead);
    let rest = ahead << one.size;
    let other = pick(black, white, parity);
    let two = front::front_run(other, front::top13(rest), rest);
    if one.pixels == 0 {
        return None;
    }
    if two.pixels == 0 {
        return None;
    }
    if width - s.position < one.pixels + two.pixels {
        return None;
    }
    let count = note(&mut changes[base..], s);
    let a1 = s.position + one.pixels;
    let last = base + count;
    changes[last] = a1;
    let position = a1 + two.pixels;
    let place = onward(&changes[start..base], s.place, position);
    Some(BetweenCodes {
        at: s.at + 3 + one.size + two.size,
        position: position,
        count: count + 1,
        place: place,
    })
}

// One code, by its leading zeros. `two_runs` picks its tables itself, so that it has one call alone and is compiled in place:
// otherwise the stand would go through memory at every code.
fn code<'a>(
    white: &'a [u16],
    black: &'a [u16],
    changes: &mut [u32],
    start: usize,
    base: usize,
    width: u32,
    s: BetweenCodes,
    b1: u32,
    bits: u64,
) -> Option<BetweenCodes>
    requires { Lookups white.now black.now × Asks (Kept start) [] changes.old base width s b1 × (s.at ≤ most_bits) }
    ensures { TookAhead (Kept start) [] changes.old base width s bits result changes.new }
{
    let zeros = u64::leading_zeros(bits);
    if zeros < 2 {
        return straight(changes, start, base, width, s, b1, bits, zeros);
    }
    match zeros {
        2 => two_runs(white, black, changes, start, base, width, s, b1, bits),
        3 => to_b2(changes, start, base, width, s, b1),
        4 => vertical(
            changes,
            start,
            base,
            width,
            s,
            b1,
            2,
            4 * bit_of(bits, 58),
            6,
        ),
        5 => vertical(
            changes,
            start,
            base,
            width,
            s,
            b1,
            3,
            6 * bit_of(bits, 57),
            7,
        ),
        _ => None,
    }
}

// Swift codes while they come.
fn codes<'a>(
    white: &'a [u16],
    black: &'a [u16],
    src: &[u8],
    changes: &mut [u32],
    start: usize,
    base: usize,
    width: u32,
    from: BetweenCodes,
) -> BetweenCodes
    requires { Lookups white.now black.now × Walks src.now (Kept start) [] changes.old base width from × Roomy (room_in base changes.old) width from }
    ensures { WalkedIn src.now (Kept start) [] changes.old base width from changes.new result }
{
    if src.len() < 8 {
        return from;
    }
    // The last bit from which 64 are in the data.
    let last = 8 * src.len() - 64;
    let mut s = from;
    while s.at <= last {
        let b1 = reference::change_or(&changes[start..base], s.place, width);
        // The line is full; or it begins, and so does the reference, with a change at 0.
        if b1 <= s.position {
            return s;
        }
        let bits = bit_reader::ahead(src, s.at);
        let Some(next) = code(white, black, changes, start, base, width, s, b1, bits) else {
            return s;
        };
        s = next;
    }
    s
}

pub fn has_room(room: usize, width: u32, s: BetweenCodes) -> bool
    requires { (s.position ≤ width) × (s.count ≤ room) }
    ensures { result ≡ leb (width - s.position) (room - s.count) }
{
    (width - s.position) as usize <= room - s.count
}

// Swift codes while they come, where the room lasts, whatever the line holds; none where it may not.
pub fn swift_codes<'a>(
    white: &'a [u16],
    black: &'a [u16],
    src: &[u8],
    changes: &mut [u32],
    start: usize,
    base: usize,
    width: u32,
    from: BetweenCodes,
) -> BetweenCodes
    requires { Lookups white.now black.now × Walks src.now (Kept start) [] changes.old base width from }
    ensures { WalkedIn src.now (Kept start) [] changes.old base width from changes.new result }
{
    if has_room(changes.len() - base, width, from) {
        return codes(white, black, src, changes, start, base, width, from);
    }
    from
}
