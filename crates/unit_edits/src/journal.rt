// The journal: what each step of a script did to each function.

ghost use Rattle.std.specs.Prelude.{◌≡◌, ◌<◌, [], ◌∷◌, ◌++◌, length, OnOk, OnErr};
ghost use Rattle.unit_edits.specs.Journal.{onto_last};

use crate::edit::{Edit, EditList};
use std::alloc::{AllocError, Global};
use std::marker::Model;

/// What one step did to one function: the step's number, from 1, the function's place, from 0, and the edits in order.
#[derive(Drop, Debug)]
pub struct Part {
    pub step: u32,
    pub f: u32,
    pub edits: EditList,
}

/// A list of parts, seen by contracts as a list.
#[derive(Drop, Debug)]
pub struct PartList {
    items: Vec<Part>,
}

impl Model for PartList {
    ghost use Rattle.std.specs.Prelude.{List};
    ghost use Rattle.unit_edits.specs.declared.journal.Part.{Part};

    ghost Value = { List Part };

    ghost view = { λ l. l.items.items };
}

impl PartList {
    /// The list of no parts.
    pub fn new(alloc: Global) -> PartList
        ensures { result ≡ [] }
    {
        PartList {
            items: Vec::new(alloc),
        }
    }

    /// Appends `x`, or changes nothing where memory is wanting.
    pub fn push(&mut self, x: Part) -> Result<(), AllocError>
        ensures ok { OnOk result (self.new ≡ self.old ++ x ∷ []) }
        ensures err { OnErr result (self.new ≡ self.old) }
    {
        self.items.push(x)?;
        Ok(())
    }

    /// The parts in order.
    pub fn as_slice(&self) -> &[Part]
        ensures { result.now ≡ self.now }
    {
        self.items.as_slice()
    }

    // Appends an edit to the last part, or changes nothing where memory is wanting.
    fn push_edit(&mut self, edit: Edit) -> Result<(), AllocError>
        requires { 0 < length self.old }
        ensures ok { OnOk result (self.new ≡ onto_last (edit ∷ []) self.old) }
        ensures err { OnErr result (self.new ≡ self.old) }
    {
        let last = self.items.len() - 1;
        self.items[last].edits.push(edit)
    }
}

/// The edits of a run, seen by contracts as the list of its parts.
#[derive(Drop, Debug)]
pub struct Journal {
    alloc: Global,
    parts: PartList,
}

impl Model for Journal {
    ghost use Rattle.std.specs.Prelude.{List};
    ghost use Rattle.unit_edits.specs.declared.journal.Part.{Part};

    ghost Value = { List Part };

    ghost view = { λ j. j.parts };
}

impl Journal {
    /// The journal of no parts.
    pub fn new(alloc: Global) -> Journal
        ensures { result ≡ [] }
    {
        Journal {
            alloc,
            parts: PartList::new(alloc),
        }
    }

    /// Appends an empty part, or changes nothing where memory is wanting.
    pub fn begin(&mut self, step: u32, f: u32) -> Result<(), AllocError>
        ensures ok { OnOk result (self.new ≡ self.old ++ record { step = step; f = f; edits = [] } ∷ []) }
        ensures err { OnErr result (self.new ≡ self.old) }
    {
        self.parts.push(Part {
            step,
            f,
            edits: EditList::new(self.alloc),
        })
    }

    /// Appends an edit to the last part, or changes nothing where memory is wanting.
    pub fn push(&mut self, edit: Edit) -> Result<(), AllocError>
        requires { 0 < length self.old }
        ensures ok { OnOk result (self.new ≡ onto_last (edit ∷ []) self.old) }
        ensures err { OnErr result (self.new ≡ self.old) }
    {
        self.parts.push_edit(edit)
    }

    /// The parts in order.
    pub fn parts(&self) -> &[Part]
        ensures { result.now ≡ self.now }
    {
        self.parts.as_slice()
    }
}
