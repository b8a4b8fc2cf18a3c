// Edits of a unit.

ghost use Rattle.std.specs.Prelude.{◌≡◌, [], ◌∷◌, ◌++◌, OnOk, OnErr};

use insn_ir::Insn;
use std::alloc::{AllocError, Global};
use std::boxed::Box;
use std::marker::Model;

/// An edit of a unit. Entries are named by their serials.
#[derive(Drop, Debug)]
pub enum Edit {
    /// The entry goes.
    Remove {
        serial: u32,
    },
    /// The entry becomes this instruction, which is printed anew.
    Put {
        serial: u32,
        insn: Box<Insn>,
    },
    /// The first entry goes, and the second becomes this instruction.
    Merge {
        first: u32,
        second: u32,
        insn: Box<Insn>,
    },
    /// A `nop` with this serial is set directly before an entry.
    InsertNop {
        before: u32,
        serial: u32,
    },
    /// An alignment to 2 to this power, with this serial, is set directly before an entry.
    InsertAlign {
        before: u32,
        serial: u32,
        power: u8,
    },
}

/// A list of edits, seen by contracts as a list.
#[derive(Drop, Debug)]
pub struct EditList {
    items: Vec<Edit>,
}

impl Model for EditList {
    ghost use Rattle.std.specs.Prelude.{List};
    ghost use Rattle.unit_edits.specs.declared.edit.Edit.{Edit};

    ghost Value = { List Edit };

    ghost view = { λ l. l.items.items };
}

impl EditList {
    /// The list of no edits.
    pub fn new(alloc: Global) -> EditList
        ensures { result ≡ [] }
    {
        EditList {
            items: Vec::new(alloc),
        }
    }

    /// Appends `x`, or changes nothing where memory is wanting.
    pub fn push(&mut self, x: Edit) -> Result<(), AllocError>
        ensures ok { OnOk result (self.new ≡ self.old ++ x ∷ []) }
        ensures err { OnErr result (self.new ≡ self.old) }
    {
        self.items.push(x)?;
        Ok(())
    }

    /// The edits in order.
    pub fn as_slice(&self) -> &[Edit]
        ensures { result.now ≡ self.now }
    {
        self.items.as_slice()
    }
}
