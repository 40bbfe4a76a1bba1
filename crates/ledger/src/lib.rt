// The verdicts on pages, the books that they change, and what is said of both: a page's line and the total's.
#![tactic(auto)]

mod books;
mod entry;
mod phrases;
mod quota;
mod said;

pub use books::{book, has_room};
pub use entry::enter;
pub use quota::{is_passed, size_left, status};
pub use said::{
    numbers, put_line, put_line_of, put_reason, put_total, put_words, shown_byte, unread,
};

// The verdict on a page: its number (0: counted, and the heads); the box, as 2 x digit + 1 for units, or the column, that it is about,
// and the line of the form; the rows, the bytes and the place of the reading; the row, from 1; the count that was found, and what it
// should be.
#[repr(C)]
#[derive(Clone, Copy)]
pub struct Verdict {
    pub number: u32,
    pub heads: u32,
    pub which: u32,
    pub line: u32,
    pub rows: u64,
    pub bytes: u64,
    pub place: u64,
    pub row: u64,
    pub count: u64,
    pub least: u64,
    pub most: u64,
}

// The books: the quota at the start, the heads of the pages that were counted, all pages, and those that are to be looked at.
#[repr(C)]
#[derive(Clone, Copy)]
pub struct Ledger {
    pub quota: i32,
    pub heads: u32,
    pub pages: u32,
    pub looked: u32,
}

// A page that went into the books: the books behind it, and how many bytes its line has; 0 where it did not.
#[repr(C)]
#[derive(Clone, Copy)]
pub struct Entered {
    pub ledger: Ledger,
    pub text: usize,
}

// The numbers of the verdicts: numbers and no enum, since a verdict crosses the C interface with its number in it. Up to 15 they are the answers' (crate `answer`); those above are the desk's own.

// Of the page: read with other columns than the form's, bytes left behind it, other rows than the form says, a row that the form
// rests on and that is not clean, a place that is not black, not white, a box in doubt, EOLs that were given up, a page that is not proper,
// and a form that fits at two places, which read other heads.
pub const OTHER_COLUMNS: u32 = 16;

pub const BYTES_BEHIND: u32 = 17;

pub const OTHER_ROWS: u32 = 18;

pub const UNCLEAN_ROW: u32 = 19;

pub const NOT_BLACK: u32 = 20;

pub const NOT_WHITE: u32 = 21;

pub const IN_DOUBT: u32 = 22;

pub const GAVE_UP: u32 = 23;

pub const NOT_PROPER: u32 = 24;

pub const OTHER_TICKS: u32 = 25;

// Of a line of the form file: none of a form's, one that says what another says, numbers out of order, a place too many.
pub const NO_FORM_LINE: u32 = 32;

pub const SAID_TWICE: u32 = 33;

pub const BAD_NUMBERS: u32 = 34;

pub const TOO_MANY_PLACES: u32 = 35;

// Of the whole form: a line that it lacks, a box or place outside the page, two boxes on each other, no room lent for its boxes, a
// text that is too long, and a range of rows without places where the reading is not exact.
pub const MISSING_LINE: u32 = 36;

pub const OUTSIDE_PAGE: u32 = 37;

pub const OVERLAPPING: u32 = 38;

pub const NO_ROOM_FOR_BOXES: u32 = 39;

pub const LONG_FORM: u32 = 40;

pub const UNFIT_FORM: u32 = 41;

// Of the page's file: there is none, it cannot be read, it is a folder, it is empty, it is longer than the program holds, nothing says
// its encoding, it ended before its length.
pub const NO_FILE: u32 = 42;

pub const UNREADABLE_FILE: u32 = 43;

pub const A_FOLDER: u32 = 44;

pub const EMPTY_FILE: u32 = 45;

pub const LONG_FILE: u32 = 46;

pub const NO_ENCODING: u32 = 47;

pub const CUT_FILE: u32 = 48;
