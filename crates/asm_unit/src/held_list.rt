// The entries of a unit by their serials.

ghost use Rattle.std.specs.Prelude.{◌≡◌, ◌+◌, ◌<◌, ◌^◌, ◌++◌, ◌∷◌, [], ℕ, length, map, find, IfOk, OnOk, OnErr, option_map, IsSome, Some, None, false};
ghost use Rattle.entry_list.specs.Listed.{values_of, value_at};
ghost use Rattle.asm_unit.specs.Held.{AreNumbered, AreUnique, holds_serial, entries_of, entry_of, span_of, first_of, next_of, prev_of, new_held, held_without, held_put, held_inserted, serial_is};
ghost use Rattle.asm_unit.specs.Keyed.{key_in};

use crate::held::Held;
use att_lexer::{Span, SpanList};
use entry_list::EntryList;
use insn_ir::{Entry, EntryKind};
use std::alloc::{AllocError, Global};
use std::marker::Model;

/// The entries of a file in order, each with the span of its piece. The order is that of a linked list, and a table leads
/// from a serial to its entry.
#[derive(Drop)]
pub struct HeldList {
    list: EntryList<Held>,
    // Of each serial given the key of its entry and one more, or 0 where it is gone. Serial 0 is none.
    keys: Vec<usize>,
}

impl Model for HeldList {
    ghost use Rattle.std.specs.Prelude.{◌-◌, length};
    ghost use Rattle.asm_unit.specs.Held.{Numbered};

    ghost Value = { Numbered };

    ghost use Rattle.entry_list.specs.Listed.{values_of};
    ghost use Rattle.asm_unit.specs.Keyed.{Keyed};

    ghost view = { λ l. record { held = values_of l.list.pairs; last = length l.keys.items - 1 } };

    ghost invariant = { λ l. Keyed l.list.pairs l.keys.items };
}

// The key of the entry of a serial.
fn key_in(keys: &[usize], serial: u32) -> Option<usize>
    ensures { result ≡ key_in keys.now serial }
{
    let place = serial as usize;
    if place < keys.len() {
        keys[place].checked_sub(1)
    } else {
        None
    }
}

// The key of an entry that is there.
fn key_there(keys: &[usize], serial: u32) -> usize
    requires { IsSome (key_in keys.now serial) }
    ensures { key_in keys.now serial ≡ Some result }
{
    keys[serial as usize] - 1
}

// The serial of the entry under a key.
fn serial_at(list: &EntryList<Held>, key: usize) -> Option<u32>
    ensures { result ≡ option_map (λ h. h.entry.serial) (value_at list.now.pairs key) }
{
    match list.get(key) {
        Some(held) => Some(held.entry.serial),
        None => None,
    }
}

// What was held goes.
fn discard(_held: Held) {}

impl HeldList {
    // No entry.
    fn empty(alloc: Global, room: usize) -> Result<HeldList, AllocError>
        ensures { IfOk result (λ l. l ≡ record { held = []; last = 0 }) }
    {
        let mut list = EntryList::new(alloc);
        list.reserve(room)?;
        let mut keys = Vec::with_capacity(alloc, room.saturating_add(1))?;
        keys.push(0)?;
        Ok(HeldList { list, keys })
    }

    // The next entry of a file, which has the next serial.
    fn add(&mut self, entry: Entry, span: Span) -> Result<(), AllocError>
        requires next { entry.serial ≡ self.old.last + 1 }
        requires room { self.old.last + 1 < 2 ^ 32 }
        ensures { OnOk result (self.new ≡ record { held = self.old.held ++ record { entry = entry; span = Some span } ∷ []; last = self.old.last + 1 }) }
    {
        self.keys.reserve(1)?;
        self.list.reserve(1)?;
        let key = match self.list.push_back(Held {
            entry,
            span: Some(span),
        }) {
            Ok(key) => key,
            Err(held) => {
                discard(held);
                return Err(AllocError);
            }
        };
        self.keys.push_reserved(key + 1);
        Ok(())
    }

    /// The entries with their spans, all of them kept. The entries are moved and not copied.
    pub fn new(alloc: Global, entries: Vec<Entry>, spans: SpanList) -> Result<HeldList, AllocError>
        requires as_many { length spans ≡ length entries.items }
        requires numbered { AreNumbered 0 entries.items }
        requires few { length entries.items < 2 ^ 32 }
        ensures entries { IfOk result (λ l. entries_of l.held ≡ entries.items) }
        ensures spans { IfOk result (λ l. map (λ h. h.span) l.held ≡ map Some spans) }
        ensures last { IfOk result (λ l. l.last ≡ length entries.items) }
    {
        let mut list = HeldList::empty(alloc, entries.len())?;
        let places = spans.as_slice();
        let mut next: usize = 0;
        for entry in entries {
            list.add(entry, places[next])?;
            next += 1;
        }
        Ok(list)
    }

    /// The last serial given.
    pub fn last(&self) -> u32
        ensures { result ≡ self.now.last }
    {
        (self.keys.len() - 1) as u32
    }

    /// The entry of this serial, with its span if it is kept.
    pub fn held(&self, serial: u32) -> Option<&Held>
        ensures { option_map (λ h. h.now) result ≡ find (serial_is serial) self.now.held }
    {
        let list = &self.list;
        match key_in(self.keys.as_slice(), serial) {
            Some(key) => list.get(key),
            None => None,
        }
    }

    /// The serial of the first entry. No serial comes twice.
    pub fn first(&self) -> Option<u32>
        ensures first { result ≡ first_of self.now.held }
        ensures unique { AreUnique self.now.held }
    {
        match self.list.first() {
            Some(key) => serial_at(&self.list, key),
            None => None,
        }
    }

    /// The serial of the entry after this one.
    pub fn next(&self, serial: u32) -> Option<u32>
        ensures { result ≡ next_of self.now.held serial }
    {
        let list = &self.list;
        let Some(key) = key_in(self.keys.as_slice(), serial) else {
            return None;
        };
        match list.next(key) {
            Some(next) => serial_at(list, next),
            None => None,
        }
    }

    /// The serial of the entry before this one.
    pub fn prev(&self, serial: u32) -> Option<u32>
        ensures { result ≡ prev_of self.now.held serial }
    {
        let list = &self.list;
        let Some(key) = key_in(self.keys.as_slice(), serial) else {
            return None;
        };
        match list.prev(key) {
            Some(prev) => serial_at(list, prev),
            None => None,
        }
    }

    /// The entries in order.
    pub fn list(&self) -> &EntryList<Held>
        ensures { values_of result.now.pairs ≡ self.now.held }
    {
        &self.list
    }

    /// The entry of this serial goes. All else stays.
    pub fn drop_entry(&mut self, serial: u32)
        requires { IsSome (entry_of self.old.held serial) }
        ensures { self.new ≡ record self.old { held = held_without serial self.old.held } }
    {
        let key = key_there(self.keys.as_slice(), serial);
        let gone = self.list.unlink(key);
        self.keys[serial as usize] = 0;
        discard(gone);
    }

    /// The entry of this serial becomes another one. All else stays.
    pub fn put(&mut self, serial: u32, kind: EntryKind)
        requires { IsSome (entry_of self.old.held serial) }
        ensures { self.new ≡ record self.old { held = held_put serial kind self.old.held } }
    {
        let key = key_there(self.keys.as_slice(), serial);
        let entry = Entry { serial, kind };
        let gone = self.list.replace(key, Held { entry, span: None });
        discard(gone);
    }

    /// A new entry goes directly before that of this serial, with the next serial. All else stays.
    pub fn insert_before(&mut self, before: u32, kind: EntryKind) -> Result<u32, AllocError>
        requires there { IsSome (entry_of self.old.held before) }
        requires room { self.old.last + 1 < 2 ^ 32 }
        ensures serial { IfOk result (λ s. s ≡ self.old.last + 1) }
        ensures fresh { IfOk result (λ s. holds_serial s self.old.held ≡ false) }
        ensures held { IfOk result (λ s. self.new ≡ record { held = held_inserted before (new_held s kind) self.old.held; last = s }) }
        ensures refused { OnErr result (self.new ≡ self.old) }
    {
        self.keys.reserve(1)?;
        self.list.reserve(1)?;
        let serial = self.keys.len() as u32;
        let key = key_there(self.keys.as_slice(), before);
        let entry = Entry { serial, kind };
        let new = self
            .list
            .insert_before_reserved(key, Held { entry, span: None });
        self.keys.push_reserved(new + 1);
        Ok(serial)
    }
}
