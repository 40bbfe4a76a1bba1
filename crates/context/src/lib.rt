// One line: its state, what codes do to it, and where its reference changes (context.rs).
#![tactic(auto)]

pub mod line;
pub mod offset;
pub mod reference;
pub mod step;
