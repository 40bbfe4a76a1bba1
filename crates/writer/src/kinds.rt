// Which lines of a Group 3 page are 1D, where K is not told: it is found in the tag bits of the data.
ghost use Rattle.std.specs.Prelude.{◌||◌, ◌≡◌, ◌≤◌, ◌+◌, eqb, drop};
ghost use Rattle.rules.specs.Bits.{bits_of, front_bit};
ghost use Rattle.rules.specs.Proper.{most_k};
ghost use Rattle.bit_reader.specs.Loaded.{Loading};
ghost use Rattle.writer.specs.Meeting3.{open_turn, known_turn, turn_of};

// No K is larger (A10).
const MOST_K: u32 = 65535;

// A tag bit stands behind the twelve bits of an EOL.
const EOL_BITS: usize = 12;

// Whether a line is 1D, and what holds behind it: K, or 0 while it is not known; and how many 2D lines may come before the next 1D line,
// or how many lines came while K is not known. Both numbers hold for lines of either kind, so the kind stands beside them.
#[derive(Clone, Copy)]
pub(crate) struct Turned {
    pub(crate) single: bool,
    pub(crate) every: u32,
    pub(crate) left: u32,
}

// The tag bit of a line whose EOL begins at bit `at`; past the data it is 0.
fn tag(src: &[u8], at: usize) -> bool
    requires { Loading src.now at }
    ensures { result ≡ front_bit (drop (at + 12) (bits_of src.now)) }
{
    let place = at + EOL_BITS;
    if 8 * src.len() <= place {
        return false;
    }
    bit_reader::bit(src, place) == 1
}

// Whether a line behind so many is 1D, where all but the first were 2D: by its tag bit, or since no K is larger.
fn settles(tag: bool, lines: u32) -> bool
    ensures { result ≡ (tag || eqb lines most_k) }
{
    tag || lines == MOST_K
}

// While K is not known: the first line is 1D, and the next 1D line gives K.
fn open_turn(tag: bool, lines: u32) -> Turned
    requires { lines ≤ 65535 }
    ensures { result ≡ open_turn tag lines }
{
    if lines == 0 {
        return Turned {
            single: true,
            every: 0,
            left: 1,
        };
    }
    if settles(tag, lines) {
        return Turned {
            single: true,
            every: lines,
            left: lines - 1,
        };
    }
    Turned {
        single: false,
        every: 0,
        left: lines + 1,
    }
}

// Where it is known: after a 1D line K - 1 2D lines come.
fn known_turn(every: u32, left: u32) -> Turned
    requires { 1 ≤ every }
    ensures { result ≡ known_turn every left }
{
    if left == 0 {
        return Turned {
            single: true,
            every,
            left: every - 1,
        };
    }
    Turned {
        single: false,
        every,
        left: left - 1,
    }
}

// The line whose EOL begins at bit `at` of the data.
pub(crate) fn turn(src: &[u8], at: usize, every: u32, left: u32) -> Turned
    requires { Loading src.now at × (every ≡ 0 → left ≤ 65535) }
    ensures { result ≡ turn_of (front_bit (drop (at + 12) (bits_of src.now))) every left }
{
    if every == 0 {
        return open_turn(tag(src, at), left);
    }
    known_turn(every, left)
}
