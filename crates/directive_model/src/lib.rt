//! The directives of a line of assembly text.
#![tactic(auto)]

mod data;
mod directive;
mod layout;
mod symbols;
mod words;

pub use directive::read_directive;

#[cfg(test)]
mod tests;
