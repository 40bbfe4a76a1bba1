// What a person looks at: one HTML file with the ledger, a table of the pages, the quota over the day, and the picture of each page that
// is to be looked at with the form drawn over it. Each function writes one piece of it to lent bytes, as docs and specs say it.
#![tactic(auto)]

mod base64;
mod bmp;
mod boxes;
mod escaped;
mod ledger_parts;
mod named;
mod phrases;
mod said;
mod sheet;

pub use base64::put_base64;
pub use bmp::{bitmap_head, stride};
pub use boxes::{put_box, put_place};
pub use ledger_parts::{put_bar, put_page, put_plot, put_row, put_top};
pub use said::put_part;
pub use sheet::{put_band, put_drawing, put_found, put_read, put_row_mark, put_sheet};

// The parts that are the same in each file: its head, the meaning of the signs, that a page has no picture, the end of a page with a
// picture and of one without, the end of the file, and that a form with a shift fits nowhere.
pub const HEAD: usize = 0;

pub const KEY: usize = 15;

pub const NO_PICTURE: usize = 25;

pub const PICTURE_END: usize = 45;

pub const PAGE_END: usize = 46;

pub const TAIL: usize = 47;

pub const NOT_FOUND: usize = 48;
