//! The command line of `mao`: its words and the script in them, or the line that says why they are refused.
#![tactic(auto)]

mod asked;
mod command;
mod line;
mod words;

pub use asked::{Asked, Refusal, read_asked};
pub use line::refusal_line;
pub use words::{Chosen, WordsFault, read_words};

#[cfg(test)]
mod tests;
