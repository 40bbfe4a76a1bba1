// One line read to its width: by 1D codes, by 2D codes under a reference that is lent or kept, and one code at a time (context.rs).
#![tactic(auto)]

mod fast_2d;
mod lent_2d;
pub mod line_1d;
pub mod line_2d;
pub mod one_code;
pub mod read;
