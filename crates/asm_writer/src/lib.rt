//! Canonical text: one spelling for each instruction of the profile and for each alignment.
#![tactic(auto)]

mod fragment;
mod line;
mod operand;
mod register;
mod sink;
mod text;
mod unit;

pub use text::{directive_text, insn_text};
pub use unit::write_unit;

#[cfg(test)]
mod tests;
