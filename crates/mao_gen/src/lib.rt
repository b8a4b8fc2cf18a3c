//! A large assembly text made from a number, for trials of speed and of whole runs.
#![tactic(auto)]

mod function;
mod shape;
mod text;

pub use text::generate;

#[cfg(test)]
mod tests;
