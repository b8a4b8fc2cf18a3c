// Symbols by number that are lent by what names them.

ghost use Rattle.std.specs.Prelude.{◌≡◌, not, [], OnOk, OnErr, IfOk, Some, length, true, ◌<◌, IfSome};
ghost use Rattle.std.specs.Bool.{OnTrue};
ghost use Rattle.jump_tables.specs.Names.{has, with_name, place_of};

use crate::keys::BorrowedKey;
use indexmap::IndexSet;
use std::alloc::{AllocError, Global};
use std::marker::Model;

/// A list of different symbols, as [`crate::Symbols`], for symbols that live elsewhere: none of them is copied.
#[derive(Drop)]
pub struct BorrowedSymbols<'a> {
    set: IndexSet<BorrowedKey<'a>>,
}

impl<'a> Model for BorrowedSymbols<'a> {
    ghost use Rattle.std.specs.Prelude.{List, ℕ, map};
    ghost use Rattle.jump_tables.specs.Names.{AreDistinct};

    ghost Value = { List (List ℕ) };

    ghost view = { λ s. map (λ k. k.bytes.now) s.set.keys };

    ghost invariant = { λ s. AreDistinct (map (λ k. k.bytes.now) s.set.keys) };
}

impl<'a> BorrowedSymbols<'a> {
    /// The list of no symbols.
    pub fn new(alloc: Global) -> BorrowedSymbols<'a>
        ensures { result ≡ [] }
    {
        BorrowedSymbols {
            set: IndexSet::new(alloc),
        }
    }

    /// The number of the symbol, if it is among them.
    pub fn number_of(&self, name: &[u8]) -> Option<usize>
        ensures found { result ≡ place_of name.now self.now }
        ensures within { IfSome result (λ k. k < length self.now) }
    {
        if self.set.is_empty() {
            return None;
        }
        self.set.get_index_of(BorrowedKey { bytes: name })
    }

    // Whether this is the last symbol.
    fn is_last(&self, name: &[u8]) -> bool
        ensures { OnTrue result (has name.now self.now ≡ true) }
    {
        match self.set.last() {
            Some(symbol) => symbol.bytes == name,
            None => false,
        }
    }

    /// Whether the symbol is among them, where the last one is looked at first.
    pub fn has_late(&self, name: &[u8]) -> bool
        ensures { result ≡ has name.now self.now }
    {
        self.is_last(name) || self.number_of(name).is_some()
    }

    /// Whether the symbol is new; it then comes last. Where memory is wanting nothing changes.
    pub fn add_new(&mut self, name: &'a [u8]) -> Result<bool, AllocError>
        ensures added { OnOk result (self.new ≡ with_name self.old name.now) }
        ensures new { IfOk result (λ b. b ≡ not (has name.now self.old)) }
        ensures err { OnErr result (self.new ≡ self.old) }
    {
        let (_, is_new) = self.set.insert_full(BorrowedKey { bytes: name })?;
        Ok(is_new)
    }
}
