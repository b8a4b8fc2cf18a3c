//! Laws of the text of a unit that was edited.
#![tactic(auto)]

pub mod laws;
