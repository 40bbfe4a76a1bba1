// The swift loops over a line: 2D codes under a row that is kept or lent, and pairs of runs (context.rs).
#![tactic(auto)]

pub mod fast_1d;
pub mod fast_2d;
pub mod lent_2d;
pub mod unlent_1d;
