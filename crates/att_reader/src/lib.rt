//! The entry that a line of assembly text is.
#![tactic(auto)]

mod entries;
mod expressions;
mod forms;
mod instructions;
mod known;
mod opaque;
mod operands;
mod plain;
mod registers;
mod values;

pub use entries::{EntryReader, read_entry};

#[cfg(test)]
mod tests;
