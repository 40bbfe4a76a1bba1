// The pairs of a 1D line, a black run and a white one behind it, from its first run on: all bits in the data, no run of 0, one
// make-up code in a run at most, and no more pixels than the line has left. What is left of the line goes to `runs`.
// Where no tables are lent another loop reads the pairs (unlent_1d): one loop for both would test at each pair which it is.
ghost use Rattle.std.specs.Prelude.{◌≡◌, true, ◌≤◌, ◌<◌, length};
ghost use Rattle.rules.specs.Bits.{bits_of};
ghost use Rattle.rules.specs.Pages.{most_bytes};
ghost use Rattle.rules.specs.Codes as Colour;
ghost use Rattle.rules.specs.Lookup.{lookup_table};
ghost use Rattle.tables.specs.Pairs.{pair_table};
ghost use Rattle.tables.specs.Tables.{Lookups};
ghost use Rattle.bit_reader.specs.Loaded.{Loading};
ghost use Rattle.swift_loops.specs.Pairs.{halt_line, start_at, pace_of, entry_pair, both_of, Paired, Leaping, Leapt, Putting};
ghost use Rattle.swift_loops.specs.Pairs.{Puts, Stepping, PacedTo, Pacing, Ran, Beginning, Begins, Fit, Filled, Tabled, Pairing};

use crate::unlent_1d;
use codes::front;
use codes::front::Front;
use context::line::Line;

// The colours of two runs, as the tables are asked for them.
pub(crate) const WHITE: usize = 0;

pub(crate) const BLACK: usize = 1;

// Where a line stands before a black run, which begins with a change: the next bit, the position, the changes it has, an even
// count, and the next bits, 13 of them at least.
#[derive(Clone, Copy)]
pub struct BeforePair {
    pub at: usize,
    pub position: u32,
    pub count: usize,
    pub bits: u64,
}

// Where a line stands between two runs.
#[derive(Clone, Copy)]
pub struct BetweenRuns {
    pub at: usize,
    pub position: u32,
    pub count: usize,
    pub colour: u32,
}

// A black run, a white run, and the bits of both; no white pixels where they are no such pair.
#[derive(Clone, Copy)]
pub struct Pair {
    pub black: u32,
    pub white: u32,
    pub size: usize,
}

// The line that stands so between two runs; nothing was cut in it.
pub fn line_of(width: u32, s: BetweenRuns) -> Line
    ensures { result ≡ halt_line width s }
{
    Line {
        width: width,
        position: s.position,
        changes: s.count,
        colour: s.colour,
        cut: 0,
    }
}

// A black run and the white one behind it; no pair where the first has no pixels.
pub(crate) fn both_of(first: Front, second: Front) -> Pair
    requires { (first.size ≤ 30) × (second.size ≤ 30) }
    ensures { result ≡ both_of first second }
{
    if first.pixels == 0 {
        return Pair {
            black: 0,
            white: 0,
            size: 0,
        };
    }
    Pair {
        black: first.pixels,
        white: second.pixels,
        size: first.size + second.size,
    }
}

// The two, one behind the other, at the front of some bits. `top` is the first 13 of them, which are known earlier.
fn by_codes<'a>(white: &'a [u16], black: &'a [u16], top: usize, window: u64) -> Pair
    requires { (top < 8192) × Lookups white.now black.now }
    ensures { Paired top window result }
{
    let first = front::front_run(black, top, window);
    let rest = window << first.size;
    let second = front::front_run(white, front::top13(rest), rest);
    both_of(first, second)
}

// The two at once, by an entry of the pair table.
pub(crate) fn by_entry(entry: u16) -> Pair
    ensures { (result ≡ entry_pair entry) × (entry < 65536) }
{
    Pair {
        black: (entry % 64) as u32,
        white: (entry / 64 % 64) as u32,
        size: (entry / 4096) as usize,
    }
}

// The two at the front of some bits, at once where the first 11 of them have both.
fn pair_at<'a>(white: &'a [u16], black: &'a [u16], both: &'a [u16], top: usize, window: u64) -> Pair
    requires { (top < 8192) × Lookups white.now black.now × (both.now ≡ pair_table) }
    ensures { Paired top window result }
{
    let entry = both[top / 4];
    if entry == 0 {
        return by_codes(white, black, top, window);
    }
    by_entry(entry)
}

// The bits behind a pair of `size` bits at `at`. They are loaded anew where two make-up codes leave fewer than 13, and the data has
// 64 there.
pub(crate) fn bits_behind(src: &[u8], last: usize, at: usize, size: usize, window: u64) -> u64
    requires { Leaping src.now last at size }
    ensures { Leapt src.now at size window result }
{
    if size <= 44 {
        return window << size;
    }
    if last < at + size {
        return 0;
    }
    bit_reader::ahead(src, at + size)
}

// Both runs pushed, each with its change: where the line stands behind them; none where they are no pair, or run past the line.
pub(crate) fn put(
    row: &mut [u32],
    width: u32,
    s: BeforePair,
    pair: Pair,
    bits: u64,
) -> Option<BeforePair>
    requires { Putting row.old width s pair }
    ensures { Puts row.old width s pair bits result row.new }
{
    if pair.white == 0 {
        return None;
    }
    if width - s.position < pair.black + pair.white {
        return None;
    }
    let count = s.count;
    let position = s.position;
    let middle = position + pair.black;
    let next = count + 1;
    row[count] = position;
    row[next] = middle;
    Some(BeforePair {
        at: s.at + pair.size,
        position: middle + pair.white,
        count: count + 2,
        bits: bits,
    })
}

// Where the line stands behind one pair; none where the next runs are no such pair. The window is loaded while the bits of the pair before
// it still tell the first code: so no load stands between one code and the next.
fn step<'a>(
    white: &'a [u16],
    black: &'a [u16],
    both: &'a [u16],
    src: &[u8],
    row: &mut [u32],
    width: u32,
    last: usize,
    s: BeforePair,
) -> Option<BeforePair>
    requires { Stepping src.now row.old width last s × Lookups white.now black.now × (both.now ≡ pair_table) }
    ensures { PacedTo src.now row.old width s result row.new }
{
    let window = bit_reader::ahead(src, s.at);
    let top = front::top13(s.bits);
    let pair = pair_at(white, black, both, top, window);
    let bits = bits_behind(src, last, s.at, pair.size, window);
    put(row, width, s, pair, bits)
}

// Pairs while they come. `last` is the last bit from which 64 are in the data.
fn pairs_from<'a>(
    white: &'a [u16],
    black: &'a [u16],
    both: &'a [u16],
    src: &[u8],
    row: &mut [u32],
    width: u32,
    last: usize,
    from: BeforePair,
) -> BeforePair
    requires { Pacing src.now row.old width last from × Lookups white.now black.now × (both.now ≡ pair_table) }
    ensures { Ran (bits_of src.now) (length row.old) width row.old (pace_of from) row.new (pace_of result) }
{
    let mut s = from;
    while s.position < width {
        if last < s.at {
            return s;
        }
        let Some(next) = step(white, black, both, src, row, width, last, s) else {
            return s;
        };
        s = next;
    }
    s
}

// The line before its first pair. The white run that opens it records nothing; where it begins with black that is a run of 0.
pub(crate) fn begun(
    lent: bool,
    white: &[u16],
    width: u32,
    at: usize,
    bits: u64,
) -> Option<BeforePair>
    requires { Beginning width at × (lent ≡ true → white.now ≡ lookup_table Colour.white) }
    ensures { Begins width at bits result }
{
    let first = front::front_run_by(lent, white, WHITE, front::top13(bits), bits);
    if first.size == 0 {
        return None;
    }
    if width < first.pixels {
        return None;
    }
    Some(BeforePair {
        at: at + first.size,
        position: first.pixels,
        count: 0,
        bits: bits << first.size,
    })
}

// Whether pairs are looked for: by the lookup's engine alone (A14), where the row has room for any line, and the data 64 bits.
pub(crate) fn fit(plain: bool, room: usize, width: u32, len: usize, at: usize) -> bool
    requires { len ≤ most_bytes }
    ensures { Fit room width len at result }
{
    if plain {
        return false;
    }
    if width == 0 {
        return false;
    }
    if room < width as usize {
        return false;
    }
    if len < 8 {
        return false;
    }
    at <= 8 * len - 64
}

// A line that its first run fills, seen at once: a white one. It is looked for behind a white row.
pub fn whole_run(
    lent: bool,
    white: &[u16],
    src: &[u8],
    width: u32,
    at: usize,
    room: usize,
    plain: bool,
) -> Option<BeforePair>
    requires { Loading src.now at × (lent ≡ true → white.now ≡ lookup_table Colour.white) }
    ensures { Filled src.now room width at result }
{
    if !fit(plain, room, width, src.len(), at) {
        return None;
    }
    let t = begun(lent, white, width, at, bit_reader::ahead(src, at))?;
    if t.position != width {
        return None;
    }
    Some(t)
}

fn halted(s: BeforePair) -> BetweenRuns
    ensures { result ≡ pace_of s }
{
    BetweenRuns {
        at: s.at,
        position: s.position,
        count: s.count,
        colour: 1,
    }
}

// From the line's start. Where no pair comes, what was read so far is its first run, or nothing.
pub fn pairs<'a>(
    lent: bool,
    white: &'a [u16],
    black: &'a [u16],
    both: &'a [u16],
    src: &[u8],
    row: &mut [u32],
    width: u32,
    at: usize,
    plain: bool,
) -> BetweenRuns
    requires { Pairing lent white.now black.now both.now src.now width at }
    ensures { Ran (bits_of src.now) (length row.old) width row.old (start_at at) row.new result }
{
    let start = BetweenRuns {
        at: at,
        position: 0,
        count: 0,
        colour: 0,
    };
    if !fit(plain, row.len(), width, src.len(), at) {
        return start;
    }
    let last = 8 * src.len() - 64;
    let Some(from) = begun(lent, white, width, at, bit_reader::ahead(src, at)) else {
        return start;
    };
    if lent {
        let t = pairs_from(white, black, both, src, row, width, last, from);
        return halted(t);
    }
    let t = unlent_1d::pairs_from(src, row, width, last, from);
    halted(t)
}
