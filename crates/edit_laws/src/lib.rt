//! Laws of edits within a function of a unit.
#![tactic(auto)]

pub mod laws;
