//! Least sets over a graph of places, for 64 systems at once.
#![tactic(auto)]

mod places;
mod solution;
mod work;

pub use places::First;
pub use solution::solve;

#[cfg(test)]
mod tests;
