// The swift codes of a 2D line under a reference that is lent, as those of `fast_2d` under the row before it: one loop for both would
// cost a page 5 to 8 %. The runs are looked up without a lent table.
ghost use Rattle.std.specs.Prelude.{◌≡◌, ◌+◌, ◌≤◌, length};
ghost use Rattle.std.specs.Int.Count.{count_leading_zeros};
ghost use Rattle.rules.specs.Modes.{pass, horizontal};
ghost use Rattle.context.specs.declared.reference.Reference.TheVariants.{Lent};
ghost use Rattle.bit_reader.specs.Cursor.{most_bits};
ghost use Rattle.swift_loops.specs.Swift.{WalkedIn, TookMode, TookBits, TookAhead, Turns, WalkedTo};
ghost use Rattle.swift_loops.specs.Swift.{Asks, Sided, Turned, SideTaken, GoesAlong, WentStraight, Walks, Roomy};

use crate::fast_2d;
use crate::fast_2d::BetweenCodes;
use codes::front;
use context::reference;

// To `d` pixels right of b1 where `twice` is twice d, left of it where it is 0.
fn vertical(
    reference: &[u32],
    row: &mut [u32],
    width: u32,
    s: BetweenCodes,
    b1: u32,
    d: usize,
    twice: usize,
    size: usize,
) -> Option<BetweenCodes>
    requires { Sided Lent reference.now row.old 0 width s b1 d twice size }
    ensures { SideTaken Lent reference.now row.old 0 width s d twice size result row.new }
{
    let to = b1 as usize + twice;
    if to <= s.position as usize + d {
        return None;
    }
    if width as usize + d < to {
        return None;
    }
    let a1 = (to - d) as u32;
    let count = fast_2d::note(row, s);
    let place = fast_2d::behind(reference, s.place, d, a1);
    Some(BetweenCodes {
        at: s.at + size,
        position: a1,
        count: count,
        place: place,
    })
}

// V0 codes, as long as `ones` begins with a one and the reference has a change. Behind one of them the next pixels begin with a
// change, right of the position, so nothing is tested.
fn to_each(
    reference: &[u32],
    row: &mut [u32],
    width: u32,
    from: BetweenCodes,
    ones: u64,
) -> BetweenCodes
    requires { Turned Lent reference.now row.old 0 width from × (from.at ≤ most_bits + 71) }
    ensures { WentStraight Lent reference.now row.old 0 width from ones result row.new }
{
    let end = reference.len();
    let mut s = from;
    let mut rest = ones;
    while rest >> 63 == 1 {
        let place = s.place;
        if end <= place {
            return s;
        }
        let last = s.count;
        let position = s.position;
        row[last] = position;
        let b1 = reference[place];
        s = BetweenCodes {
            at: s.at + 1,
            position: b1,
            count: last + 1,
            place: place + 1,
        };
        rest = rest << 1;
    }
    s
}

// VR1 or VL1, where `rest` begins with it, behind a code that turned the line: the bits are at hand, and no other mode is asked for.
fn beside(
    reference: &[u32],
    row: &mut [u32],
    width: u32,
    s: BetweenCodes,
    rest: u64,
) -> Option<BetweenCodes>
    requires { Turned Lent reference.now row.old 0 width s × (s.at ≤ most_bits + 64) }
    ensures { Turns Lent reference.now row.old 0 width s rest result row.new }
{
    if rest >> 62 != 1 {
        return None;
    }
    let b1 = reference::change_or(reference, s.place, width);
    if b1 <= s.position {
        return None;
    }
    vertical(
        reference,
        row,
        width,
        s,
        b1,
        1,
        2 * fast_2d::bit_of(rest, 61),
        3,
    )
}

// V0, VR1 and VL1 codes while they come and their bits are at hand: none but V0 begins at `stop` or behind it.
fn along(
    reference: &[u32],
    row: &mut [u32],
    width: u32,
    from: BetweenCodes,
    bits: u64,
    stop: usize,
) -> BetweenCodes
    requires { GoesAlong Lent reference.now row.old 0 width from stop }
    ensures { WalkedTo Lent reference.now row.old 0 width from bits stop result row.new }
{
    let mut s = from;
    let mut rest = bits;
    loop {
        let t = to_each(reference, row, width, s, rest);
        if stop <= t.at {
            return t;
        }
        let left = rest << (t.at - s.at);
        let Some(next) = beside(reference, row, width, t, left) else {
            return t;
        };
        rest = left << (next.at - t.at);
        s = next;
    }
}

// To b1, or a pixel beside it: V0 where no zeros come first, VR1 or VL1 where one does.
fn to_b1(
    reference: &[u32],
    row: &mut [u32],
    width: u32,
    s: BetweenCodes,
    b1: u32,
    bits: u64,
    zeros: u32,
) -> Option<BetweenCodes>
    requires { Asks Lent reference.now row.old 0 width s b1 × (zeros ≡ count_leading_zeros 64 bits) × (zeros ≤ 1) }
    ensures { Turns Lent reference.now row.old 0 width s bits result row.new }
{
    if zeros == 0 {
        let count = fast_2d::note(row, s);
        return Some(BetweenCodes {
            at: s.at + 1,
            position: b1,
            count: count,
            place: s.place + 1,
        });
    }
    vertical(
        reference,
        row,
        width,
        s,
        b1,
        1,
        2 * fast_2d::bit_of(bits, 61),
        3,
    )
}

// A code to b1 or a pixel beside it, and those of the kind that follow in the same bits: of these, 57 are the data's.
fn straight(
    reference: &[u32],
    row: &mut [u32],
    width: u32,
    s: BetweenCodes,
    b1: u32,
    bits: u64,
    zeros: u32,
) -> Option<BetweenCodes>
    requires { Asks Lent reference.now row.old 0 width s b1 × (s.at ≤ most_bits) × (zeros ≡ count_leading_zeros 64 bits) × (zeros ≤ 1) }
    ensures { TookAhead Lent reference.now row.old 0 width s bits result row.new }
{
    let first = to_b1(reference, row, width, s, b1, bits, zeros)?;
    let rest = bits << (first.at - s.at);
    let last = along(reference, row, width, first, rest, s.at + 50);
    Some(last)
}

// To b2, in the same colour.
fn to_b2(
    reference: &[u32],
    row: &mut [u32],
    width: u32,
    s: BetweenCodes,
    b1: u32,
) -> Option<BetweenCodes>
    requires { Asks Lent reference.now row.old 0 width s b1 }
    ensures { TookMode Lent reference.now row.old 0 width s (s.at + 4) pass result row.new }
{
    let count = fast_2d::note(row, s);
    let b2 = reference::change_or(reference, s.place + 1, width);
    Some(BetweenCodes {
        at: s.at + 4,
        position: b2,
        count: count,
        place: s.place + 2,
    })
}

// Two runs, out of the same bits.
fn two_runs(
    reference: &[u32],
    row: &mut [u32],
    width: u32,
    s: BetweenCodes,
    b1: u32,
    bits: u64,
) -> Option<BetweenCodes>
    requires { Asks Lent reference.now row.old 0 width s b1 }
    ensures { TookBits Lent reference.now row.old 0 width s bits 57 (s.at + 3) horizontal result row.new }
{
    let ahead = bits << 3;
    let parity = s.place % 2;
    let one = front::front_run_of(parity, front::top13(ahead), ahead);
    let rest = ahead << one.size;
    let two = front::front_run_of(1 - parity, front::top13(rest), rest);
    if one.pixels == 0 {
        return None;
    }
    if two.pixels == 0 {
        return None;
    }
    if width - s.position < one.pixels + two.pixels {
        return None;
    }
    let count = fast_2d::note(row, s);
    let a1 = s.position + one.pixels;
    row[count] = a1;
    let position = a1 + two.pixels;
    let place = fast_2d::onward(reference, s.place, position);
    Some(BetweenCodes {
        at: s.at + 3 + one.size + two.size,
        position: position,
        count: count + 1,
        place: place,
    })
}

// One code, by its leading zeros.
fn code(
    reference: &[u32],
    row: &mut [u32],
    width: u32,
    s: BetweenCodes,
    b1: u32,
    bits: u64,
) -> Option<BetweenCodes>
    requires { Asks Lent reference.now row.old 0 width s b1 × (s.at ≤ most_bits) }
    ensures { TookAhead Lent reference.now row.old 0 width s bits result row.new }
{
    let zeros = u64::leading_zeros(bits);
    if zeros < 2 {
        return straight(reference, row, width, s, b1, bits, zeros);
    }
    match zeros {
        2 => two_runs(reference, row, width, s, b1, bits),
        3 => to_b2(reference, row, width, s, b1),
        4 => vertical(
            reference,
            row,
            width,
            s,
            b1,
            2,
            4 * fast_2d::bit_of(bits, 58),
            6,
        ),
        5 => vertical(
            reference,
            row,
            width,
            s,
            b1,
            3,
            6 * fast_2d::bit_of(bits, 57),
            7,
        ),
        _ => None,
    }
}

// Swift codes while they come.
fn codes(
    src: &[u8],
    reference: &[u32],
    row: &mut [u32],
    width: u32,
    from: BetweenCodes,
) -> BetweenCodes
    requires { Walks src.now Lent reference.now row.old 0 width from × Roomy (length row.old) width from }
    ensures { WalkedIn src.now Lent reference.now row.old 0 width from row.new result }
{
    if src.len() < 8 {
        return from;
    }
    // The last bit from which 64 are in the data.
    let last = 8 * src.len() - 64;
    let mut s = from;
    while s.at <= last {
        let b1 = reference::change_or(reference, s.place, width);
        // The line is full; or it begins, and so does the reference, with a change at 0.
        if b1 <= s.position {
            return s;
        }
        let bits = bit_reader::ahead(src, s.at);
        let Some(next) = code(reference, row, width, s, b1, bits) else {
            return s;
        };
        s = next;
    }
    s
}

// Swift codes while they come, where the room lasts, whatever the line holds; none where it may not.
pub fn swift_codes(
    src: &[u8],
    reference: &[u32],
    row: &mut [u32],
    width: u32,
    from: BetweenCodes,
) -> BetweenCodes
    requires { Walks src.now Lent reference.now row.old 0 width from }
    ensures { WalkedIn src.now Lent reference.now row.old 0 width from row.new result }
{
    if fast_2d::has_room(row.len(), width, from) {
        return codes(src, reference, row, width, from);
    }
    from
}
