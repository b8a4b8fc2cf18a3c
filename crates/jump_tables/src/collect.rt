// The uses of names: which entries jump by a table, and which use its label otherwise.

ghost use Rattle.std.specs.Prelude.{◌≡◌, not, true, false, length, map, replicate, IfOk, OnOk};
ghost use Rattle.jump_tables.specs.Uses.{is_table_jump, names};
ghost use Rattle.jump_tables.specs.EntryNames.{lent_name, names_in};
ghost use Rattle.jump_tables.specs.Sections.{Section, is_debug, is_debug_name, section_after, placed};
ghost use Rattle.jump_tables.specs.Collected.{for_each, at_name, with_other, with_user, named, noted, none_used, uses_of};

use crate::symbols::Symbols;
use crate::uses::{EntryNames, names_of, table_jump_of};
use insn_ir::{DirectiveKind, Entry, EntryKind, Name, SerialList};
use std::alloc::{AllocError, Global};

/// What uses a name.
#[derive(Drop)]
pub struct Uses {
    /// The serials of the table jumps by it.
    pub users: SerialList,
    /// The first other entry outside debug sections that names it.
    pub other_use: Option<u32>,
}

impl Uses {
    fn note_other(&mut self, serial: u32)
        ensures { self.new ≡ with_other true serial self.old }
    {
        if self.other_use.is_none() {
            self.other_use = Some(serial);
        }
    }

    fn note_user(&mut self, serial: u32) -> Result<(), AllocError>
        ensures { OnOk result (self.new ≡ with_user true serial self.old) }
    {
        self.users.push(serial)
    }
}

/// Whether a section of this name holds debug information.
pub fn is_debug_name(name: &[u8]) -> bool
    ensures { result ≡ is_debug_name name.now }
{
    name.starts_with(b".debug_") || name.starts_with(b".gnu.debuglto_.debug_")
}

/// Whether what follows an entry stands in a debug section, where this is so before it.
fn debug_after(debug: bool, kind: &EntryKind) -> bool
    ensures { (s : Section) → is_debug s ≡ debug → result ≡ is_debug (section_after s kind.now) }
{
    match kind {
        EntryKind::Directive(DirectiveKind::Section { name, .. }) => is_debug_name(name.as_slice()),
        _ => debug,
    }
}

fn is_jump_by(kind: &EntryKind, name: &Name) -> bool
    ensures { result ≡ is_table_jump name.now kind.now }
{
    match table_jump_of(kind) {
        Some(table) => name.as_slice() == table.as_slice(),
        None => false,
    }
}

fn note_other(labels: &Symbols, uses: &mut [Uses], entry: &Entry, name: &Name)
    requires { length uses.old ≡ length labels.now }
    ensures { uses.new ≡ for_each (at_name name.now (with_other (not (is_table_jump name.now entry.now.kind)) entry.now.serial)) labels.now uses.old }
{
    if let Some(place) = labels.number_of(name.as_slice()) {
        if !is_jump_by(&entry.kind, name) {
            uses[place].note_other(entry.serial);
        }
    }
}

fn note_user(
    labels: &Symbols,
    uses: &mut [Uses],
    serial: u32,
    table: &Name,
) -> Result<(), AllocError>
    requires { length uses.old ≡ length labels.now }
    ensures { OnOk result (uses.new ≡ for_each (at_name table.now (with_user true serial)) labels.now uses.old) }
{
    match labels.number_of(table.as_slice()) {
        Some(place) => uses[place].note_user(serial),
        None => Ok(()),
    }
}

fn note_lent(labels: &Symbols, uses: &mut [Uses], entry: &Entry, name: Option<&Name>)
    requires { length uses.old ≡ length labels.now }
    ensures { uses.new ≡ for_each (named false entry.now (lent_name name.entry)) labels.now uses.old }
{
    if let Some(name) = name {
        note_other(labels, uses, entry, name);
    }
}

fn note_list(labels: &Symbols, uses: &mut [Uses], entry: &Entry, list: &[Name])
    requires { length uses.old ≡ length labels.now }
    ensures { uses.new ≡ for_each (named false entry.now list.now) labels.now uses.old }
{
    for name in list {
        note_other(labels, uses, entry, name);
    }
}

fn note_names(labels: &Symbols, uses: &mut [Uses], entry: &Entry, names: EntryNames)
    requires { length uses.old ≡ length labels.now }
    ensures { uses.new ≡ for_each (named false entry.now (names_in names.entry)) labels.now uses.old }
{
    note_lent(labels, uses, entry, names.first);
    note_lent(labels, uses, entry, names.second);
    note_lent(labels, uses, entry, names.third);
    note_list(labels, uses, entry, names.rest);
}

// Debug sections use no table.
fn note_others(labels: &Symbols, uses: &mut [Uses], debug: bool, entry: &Entry)
    requires { length uses.old ≡ length labels.now }
    ensures { uses.new ≡ for_each (named debug entry.now (names entry.now.kind)) labels.now uses.old }
{
    if debug {
        return;
    }
    note_names(labels, uses, entry, names_of(&entry.kind));
}

fn note_entry(
    labels: &Symbols,
    uses: &mut [Uses],
    debug: bool,
    entry: &Entry,
) -> Result<(), AllocError>
    requires { length uses.old ≡ length labels.now }
    ensures { OnOk result (uses.new ≡ for_each (noted debug entry.now) labels.now uses.old) }
{
    note_others(labels, uses, debug, entry);
    match table_jump_of(&entry.kind) {
        Some(table) => note_user(labels, uses, entry.serial, table),
        None => Ok(()),
    }
}

fn no_uses(alloc: Global, count: usize) -> Result<Vec<Uses>, AllocError>
    ensures { IfOk result (λ v. v.items ≡ replicate count none_used) }
{
    let mut uses = Vec::with_capacity(alloc, count)?;
    for _ in 0..count {
        uses.push(Uses {
            users: SerialList::new(alloc),
            other_use: None,
        })?;
    }
    Ok(uses)
}

/// The uses of these names in a file, name by name.
pub fn uses_in(alloc: Global, labels: &Symbols, entries: &[Entry]) -> Result<Vec<Uses>, AllocError>
    ensures { IfOk result (λ v. v.items ≡ map (uses_of (placed entries.now)) labels.now) }
{
    let mut uses = no_uses(alloc, labels.len())?;
    if uses.is_empty() {
        return Ok(uses);
    }
    let mut debug = false;
    for entry in entries {
        debug = debug_after(debug, &entry.kind);
        note_entry(labels, &mut uses, debug, entry)?;
    }
    Ok(uses)
}
