// The numbers of a question.

// What is left from the next digit on.
fn from_digit(input: &[u8]) -> &[u8] {
    for (at, byte) in input.iter().enumerate() {
        if byte.is_ascii_digit() {
            return &input[at..];
        }
    }
    b""
}

fn digit(byte: u8) -> Option<u32> {
    match byte {
        b'0'..=b'9' => Some(u32::from(byte - b'0')),
        _ => None,
    }
}

// The number with whose digits the input begins, and what is left; every number of the sample is below 2^32.
fn number(input: &[u8]) -> (u32, &[u8]) {
    let mut value: u32 = 0;
    for (at, byte) in input.iter().enumerate() {
        match digit(*byte) {
            Some(digit) => value = value.wrapping_mul(10).wrapping_add(digit),
            None => return (value, &input[at..]),
        }
    }
    (value, b"")
}

// The next `count` numbers, whatever parts them, into the front of `out`, which is long enough for every question of the sample. Answers
// what is left behind them.
pub(crate) fn numbers<'a>(input: &'a [u8], count: u32, out: &mut [u32]) -> &'a [u8] {
    let mut left = input;
    for slot in out.iter_mut().take(count as usize) {
        let (value, rest) = number(from_digit(left));
        *slot = value;
        left = rest;
    }
    left
}
