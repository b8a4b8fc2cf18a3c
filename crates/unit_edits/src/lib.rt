//! What passes do to a unit: edits, and the journal that keeps them.
#![tactic(auto)]

mod edit;
mod journal;

pub use edit::{Edit, EditList};
pub use journal::{Journal, Part, PartList};

#[cfg(test)]
mod tests;
