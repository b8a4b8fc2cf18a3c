//! The grammar of a line of assembly text: definitions over tokens and values, and the cursor that reads by them.
#![tactic(auto)]

mod cursor;
pub mod laws;
mod seen;
mod syntax;

pub use cursor::Cursor;
pub use seen::{Seen, read_token};
pub use syntax::{Address, Displacement, Operand, Operands, Paren, Sum, Symbol, Term, Total, Word};
