//! What a run tells of its journal: a line for each edit, and a line for each step.
#![tactic(auto)]

mod edits;
mod steps;
mod text;

pub use steps::step_lines;
pub use text::journal_text;

#[cfg(test)]
mod tests;
