//! What each pass may do to a function, and when it is done, as definitions.
#![tactic(auto)]

pub mod laws;
