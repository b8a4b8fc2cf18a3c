//! The passes that drop and insert `nop` and drop alignments.
#![tactic(auto)]

mod code;
mod nop_in;
mod nop_kill;

pub use nop_in::NopIn;
pub use nop_kill::NopKill;
