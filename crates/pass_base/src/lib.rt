//! Passes as boxed objects, and the book that holds one of each kind.
#![tactic(auto)]

mod book;
mod pass;

pub use book::{BookFault, PassBook};
pub use pass::{Pass, PassTally};
pub use unit_edits::{Edit, EditList, Journal, Part, PartList};
