// Ledgers that runs wrote, read again.
#![tactic(auto)]

mod fields;
mod namesakes;
mod onward;
mod page;
mod sums;
mod tally;
mod total;

use ledger::Ledger;
pub use onward::resume;
pub use page::page_line;
pub use sums::add_up;

// The line of a page: whether it is one; how long its name is, the verdict's number, and the heads, 0 where it is not counted.
#[repr(C)]
#[derive(Clone, Copy)]
pub struct PageLine {
    pub good: bool,
    pub name: usize,
    pub number: u32,
    pub heads: u32,
}

// A line that a run goes on behind: whether it does, and the books behind it; as they were where it does not.
#[repr(C)]
#[derive(Clone, Copy)]
pub struct Resumed {
    pub good: bool,
    pub ledger: Ledger,
}

// Ledgers that were added up: 0 and the books of all their pages; or what is wrong, the books before that line, where the line begins,
// and where another begins that it is about.
#[repr(C)]
#[derive(Clone, Copy)]
pub struct AddedUp {
    pub number: u32,
    pub ledger: Ledger,
    pub at: usize,
    pub other: usize,
}

// What can be wrong: a line that is neither a page's nor a total's, a total that is not that of its pages, pages without a total, two
// pages of one name, more pages than there is room for, and more than the books hold.
pub const NO_LEDGER_LINE: u32 = 1;

pub const OTHER_TOTAL: u32 = 2;

pub const NO_TOTAL: u32 = 3;

pub const STANDS_TWICE: u32 = 4;

pub const NO_ROOM: u32 = 5;

pub const BOOKS_FULL: u32 = 6;
