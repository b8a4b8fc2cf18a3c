//! How many bytes each instruction of the profile has. The tests stand in the crate `size_tests`, which reads instructions from text.
#![tactic(auto)]

mod form;
mod operand;
mod prefix;
mod size;

pub use form::JumpForm;
pub use size::size_of;
