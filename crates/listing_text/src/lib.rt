// The desk's side of the listing program: the line of settings that it reads, and the listing that it writes.
#![tactic(auto)]

mod lines;
pub mod put;
pub mod settings_line;
pub mod text_lines;

pub use lines::{bad_input, list};
