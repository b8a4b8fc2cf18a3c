//! A doubly linked list in a slab. Each value stands under a key that the list picks, and that stays its own as others come and go.
#![tactic(auto)]

mod links;
mod list;
mod node;

pub use list::EntryList;
pub use node::Node;

#[cfg(test)]
mod tests;
