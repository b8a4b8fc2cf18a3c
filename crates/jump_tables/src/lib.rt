//! The jump tables of a file, and what uses them.
#![tactic(auto)]

mod borrowed_symbols;
mod class;
mod collect;
mod find;
mod keys;
mod symbols;
mod table;
mod uses;

pub use borrowed_symbols::BorrowedSymbols;
pub use class::{EntryClass, class_of, classes_of};
pub use collect::is_debug_name;
pub use find::{find_tables, find_tables_by_class};
pub use symbols::Symbols;
pub use table::{Table, Tables};
pub use uses::{EntryNames, names_of, names_of_insn, names_of_list, symbol_of, table_jump_of};

#[cfg(test)]
mod tests;
