//! The top call: words, a source and two sinks in, a report out.
#![tactic(auto)]

mod entries;
mod exit;
mod goals;
mod lines;
mod notes;
mod preparing;
mod reading;
mod told;
mod top;

pub use exit::{exit_of, filter};
pub use goals::{Goal, GoalKind, GoalList, Goals};
pub use top::{Report, Status, mao};
