// Symbols by number, in the order in which they come.

ghost use Rattle.std.specs.Prelude.{◌≡◌, not, [], OnOk, OnErr, IfOk, Some, length, ◌<◌, IfSome};
ghost use Rattle.std.specs.Bool.{OnTrue};
ghost use Rattle.jump_tables.specs.Names.{has, with_name, place_of, AreDistinct};

use crate::keys::{BorrowedKey, OwnedKey};
use indexmap::IndexSet;
use std::alloc::{AllocError, Global};
use std::marker::Model;

/// A list of different symbols, in which a symbol is found by a hash. Its place in the list is its number.
#[derive(Drop)]
pub struct Symbols {
    set: IndexSet<OwnedKey>,
}

impl Model for Symbols {
    ghost use Rattle.std.specs.Prelude.{List, ℕ, map};
    ghost use Rattle.jump_tables.specs.Names.{AreDistinct};

    ghost Value = { List (List ℕ) };

    ghost view = { λ s. map (λ k. k.bytes.items) s.set.keys };

    ghost invariant = { λ s. AreDistinct (map (λ k. k.bytes.items) s.set.keys) };
}

fn owned(alloc: Global, name: &[u8]) -> Result<OwnedKey, AllocError>
    ensures { IfOk result (λ k. k.bytes.items ≡ name.now) }
{
    Ok(OwnedKey {
        bytes: Vec::from_slice(alloc, name)?,
    })
}

impl Symbols {
    /// The list of no symbols.
    pub fn new(alloc: Global) -> Symbols
        ensures { result ≡ [] }
    {
        Symbols {
            set: IndexSet::new(alloc),
        }
    }

    /// How many there are.
    pub fn len(&self) -> usize
        ensures { result ≡ length self.now }
    {
        self.set.len()
    }

    /// The number of the symbol, if it is among them.
    pub fn number_of(&self, name: &[u8]) -> Option<usize>
        ensures found { result ≡ place_of name.now self.now }
        ensures within { IfSome result (λ k. k < length self.now) }
        ensures distinct { AreDistinct self.now }
    {
        if self.set.is_empty() {
            return None;
        }
        self.set.get_index_of(BorrowedKey { bytes: name })
    }

    // Whether this is the symbol of the number.
    fn is_at(&self, number: usize, name: &[u8]) -> bool
        ensures at { OnTrue result (place_of name.now self.now ≡ Some number) }
        ensures within { OnTrue result (number < length self.now) }
    {
        match self.set.get_index(number) {
            Some(symbol) => symbol.bytes.as_slice() == name,
            None => false,
        }
    }

    /// The number of the symbol, if it is among them, as [`Symbols::number_of`] gives it. The numbers next to `near` are looked
    /// at first, so a walk that asks for symbols about in the order in which they came needs few hashes.
    pub fn number_near(&self, name: &[u8], near: usize) -> Option<usize>
        ensures found { result ≡ place_of name.now self.now }
        ensures within { IfSome result (λ k. k < length self.now) }
    {
        for number in [near, near.saturating_sub(1), near.saturating_add(1)] {
            if self.is_at(number, name) {
                return Some(number);
            }
        }
        self.number_of(name)
    }

    /// Whether the symbol is among them.
    pub fn has(&self, name: &[u8]) -> bool
        ensures { result ≡ has name.now self.now }
    {
        self.number_of(name).is_some()
    }

    /// The number of the symbol, which comes last where it is new. One that is there is not copied. Where memory is wanting
    /// nothing changes.
    pub fn add(&mut self, alloc: Global, name: &[u8]) -> Result<usize, AllocError>
        ensures added { OnOk result (self.new ≡ with_name self.old name.now) }
        ensures number { IfOk result (λ k. place_of name.now self.new ≡ Some k) }
        ensures err { OnErr result (self.new ≡ self.old) }
    {
        if let Some(number) = self.number_of(name) {
            return Ok(number);
        }
        let (number, _) = self.set.insert_full(owned(alloc, name)?)?;
        Ok(number)
    }

    /// Whether the symbol is new; it then comes last. One look-up in place of the two of [`Symbols::add`] where most symbols
    /// are new. Where memory is wanting nothing changes.
    pub fn add_new(&mut self, alloc: Global, name: &[u8]) -> Result<bool, AllocError>
        ensures added { OnOk result (self.new ≡ with_name self.old name.now) }
        ensures new { IfOk result (λ b. b ≡ not (has name.now self.old)) }
        ensures err { OnErr result (self.new ≡ self.old) }
    {
        let (_, is_new) = self.set.insert_full(owned(alloc, name)?)?;
        Ok(is_new)
    }
}
