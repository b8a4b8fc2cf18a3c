//! What a run is asked for: the kinds of passes with their options, and the script that names them in order.
#![tactic(auto)]

mod cursor;
mod kinds;
mod options;
mod read;
mod script;

pub use kinds::{PassKind, catalogue, kind_of_name, name_of_kind};
pub use options::{PassOption, PassOpts};
pub use read::read_script;
pub use script::{Script, ScriptFault, Step, StepList};

#[cfg(test)]
mod tests;
