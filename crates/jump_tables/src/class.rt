// The class of an entry: what tells a walk over a file that it may pass the entry over.

ghost use Rattle.std.specs.Prelude.{◌≡◌, ◌||◌, not, nat_eq, length, map, IfOk};
ghost use Rattle.jump_tables.specs.Uses.{atoms_of_arg, insn_names};
ghost use Rattle.jump_tables.specs.Classes.{names_any, insn_class, directive_class, class_of, classes_of};

use crate::uses::symbol_of;
use insn_ir::{Arg, DirectiveKind, Entry, EntryKind, Insn};
use std::alloc::{AllocError, Global};

/// What an entry is, in one byte beside it, so that a walk over a file looks only at the entries that it is for.
#[derive(Clone, Copy, PartialEq, Eq, Debug)]
pub enum EntryClass {
    /// A blank or an inert directive.
    Blank,
    /// An instruction that names no symbol, or call frame information.
    Plain,
    Label,
    /// An instruction that names a symbol.
    Instruction,
    Section,
    Align,
    FunctionType,
    FunctionEnd,
    Export,
    Alias,
    Words,
    Bytes,
    Opaque,
    InlineMark,
    ExceptionTable,
    Breaking,
}

fn has_symbol(arg: &Arg) -> bool
    ensures { result ≡ not (nat_eq (length (atoms_of_arg arg.now)) 0) }
{
    symbol_of(arg).is_some()
}

fn names_any(insn: &Insn) -> bool
    ensures { result ≡ names_any insn.now }
{
    has_symbol(&insn.a) || has_symbol(&insn.b) || has_symbol(&insn.c)
}

fn insn_class(insn: &Insn) -> EntryClass
    ensures { result ≡ insn_class insn.now }
{
    if names_any(insn) {
        EntryClass::Instruction
    } else {
        EntryClass::Plain
    }
}

fn directive_class(kind: &DirectiveKind) -> EntryClass
    ensures { result ≡ directive_class kind.now }
{
    match kind {
        DirectiveKind::Inert => EntryClass::Blank,
        DirectiveKind::Cfi => EntryClass::Plain,
        DirectiveKind::CfiTable => EntryClass::ExceptionTable,
        DirectiveKind::Export(_) => EntryClass::Export,
        DirectiveKind::FuncType(_) => EntryClass::FunctionType,
        DirectiveKind::FuncEnd(_) => EntryClass::FunctionEnd,
        DirectiveKind::Alias(_, _) => EntryClass::Alias,
        DirectiveKind::Section { .. } => EntryClass::Section,
        DirectiveKind::Align { .. } => EntryClass::Align,
        DirectiveKind::Words { .. } => EntryClass::Words,
        DirectiveKind::Bytes(_) => EntryClass::Bytes,
        DirectiveKind::Breaking => EntryClass::Breaking,
    }
}

/// The class of an entry of this kind.
pub fn class_of(kind: &EntryKind) -> EntryClass
    ensures { result ≡ class_of kind.now }
{
    match kind {
        EntryKind::Blank => EntryClass::Blank,
        EntryKind::Label(_) => EntryClass::Label,
        EntryKind::Insn(insn) => insn_class(insn),
        EntryKind::Directive(directive) => directive_class(directive),
        EntryKind::InlineMark => EntryClass::InlineMark,
        EntryKind::Opaque(_) => EntryClass::Opaque,
    }
}

/// The classes of entries, in order.
pub fn classes_of(alloc: Global, entries: &[Entry]) -> Result<Vec<EntryClass>, AllocError>
    ensures { IfOk result (λ v. v.items ≡ classes_of entries.now) }
{
    let mut classes = Vec::with_capacity(alloc, entries.len())?;
    for entry in entries {
        classes.push(class_of(&entry.kind))?;
    }
    Ok(classes)
}
