//! Where each entry of a function stands, in bytes.
#![tactic(auto)]

mod item;
pub mod laws;
mod offsets;
mod resize;
mod solver;

pub use item::{Item, is_in_reach, padding, sizes};
pub use offsets::Offsets;
pub use solver::{Solved, solve};

#[cfg(test)]
mod tests;
