// The errors of a reading (error.rs), and the answer that the public functions give, with its number of the list of answers.
#![tactic(auto)]

ghost use Rattle.std.specs.Prelude.{◌≡◌};
ghost use Rattle.rules.specs.Pages as Page;
ghost use Rattle.answer.specs.Answer.{number_of, answer_of};

// The numbers of the list of answers (01; 10 to 15 are of 02), as the definitions name them (rules: specs/Answers.antt).
pub const COMPLETE: u32 = 0;

pub const INVALID_CODE: u32 = 1;

pub const UNEXPECTED_EOF: u32 = 2;

pub const OVERFLOW: u32 = 3;

pub const NO_ENTRY: u32 = 4;

pub const NO_ROW_END: u32 = 5;

pub const BAD_WIDTH: u32 = 6;

pub const TOO_LONG: u32 = 7;

pub const BAD_ROWS: u32 = 8;

pub const NO_FIT: u32 = 9;

pub const BAD_NUMBER: u32 = 10;

pub const BAD_FORM: u32 = 11;

pub const NOT_ONE_TICK: u32 = 12;

pub const MENDED_ROW: u32 = 13;

pub const TOO_FEW_ROWS: u32 = 14;

pub const MORE_TO_COME: u32 = 15;

// No place on a line and no sum of a run is more, and no page is so wide.
pub const MOST_PIXELS: u32 = 4294967295;

// Data and output have no more bytes (A4).
pub const MOST_BYTES: usize = 4294967296;

#[derive(Clone, Copy)]
pub enum DecodeError {
    UnexpectedEof,
    InvalidCode,
    Overflow,
}

// An error's number of the list.
pub fn number(e: DecodeError) -> u32
    ensures { result ≡ number_of e }
{
    match e {
        DecodeError::InvalidCode => INVALID_CODE,
        DecodeError::UnexpectedEof => UNEXPECTED_EOF,
        DecodeError::Overflow => OVERFLOW,
    }
}

// The mark of the row, for a form that gives one row, and else 0; rows kept, entries in kept rows, loose entries, bytes (for one line: the
// bit after it), and for 1, 2 and 3 the bit at fault.
#[repr(C)]
#[derive(Clone, Copy)]
pub struct Answer {
    pub number: u32,
    pub mark: u32,
    pub rows: u64,
    pub entries: u64,
    pub loose: u64,
    pub bytes: u64,
    pub place: u64,
}

// A refusal comes before any write, so its counts are zero.
pub fn refusal(number: u32) -> Answer
    ensures { result ≡ answer_of (Page.refusal number) }
{
    Answer {
        number,
        mark: 0,
        rows: 0,
        entries: 0,
        loose: 0,
        bytes: 0,
        place: 0,
    }
}
