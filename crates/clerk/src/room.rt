// Room for a page, and for a large one. Each is made by a function of its own: a proof that has so many zeros in sight goes through all of them.

// A word, or the name of a file, which has at most 4,095 bytes.
pub(crate) fn word() -> [u8; 4096] {
    [0; 4096]
}

// What is read ahead of a file, and a piece of one that is written.
pub(crate) fn memory() -> [u8; 65536] {
    [0; 65536]
}

pub(crate) fn input() -> [u8; 65536] {
    [0; 65536]
}

pub(crate) fn changes() -> [u32; 524288] {
    [0; 524288]
}

pub(crate) fn ends() -> [u64; 65536] {
    [0; 65536]
}

pub(crate) fn marks() -> [u8; 65536] {
    [0; 65536]
}

pub(crate) fn line() -> [u32; 65536] {
    [0; 65536]
}

// A page written, and a row of a picture.
pub(crate) fn out() -> [u8; 262144] {
    [0; 262144]
}

// A form has at most 65,536 bytes; one more is told.
pub(crate) fn form() -> [u8; 65537] {
    [0; 65537]
}

// A form has at most 256 places.
pub(crate) fn places() -> [u32; 1792] {
    [0; 1792]
}

// A line of text: a name of 4,096 bytes, and what is said beside it.
pub(crate) fn text() -> [u8; 8192] {
    [0; 8192]
}

pub(crate) fn large_input() -> [u8; 16777216] {
    [0; 16777216]
}

pub(crate) fn large_changes() -> [u32; 4194304] {
    [0; 4194304]
}

pub(crate) fn large_out() -> [u8; 16777216] {
    [0; 16777216]
}

// Where the lines of ledgers begin.
pub(crate) fn large_starts() -> [u64; 524288] {
    [0; 524288]
}
