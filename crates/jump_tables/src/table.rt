// Jump tables.

ghost use Rattle.std.specs.Prelude.{◌≡◌, [], ◌∷◌, ◌++◌, OnOk, OnErr};

use insn_ir::{Name, NameList, SerialList};
use std::alloc::{AllocError, Global};
use std::marker::Model;

/// A label outside code sections with the cells of 64 bits behind it, which are all symbols.
#[derive(Drop, Debug)]
pub struct Table {
    pub label: Name,
    /// The serial of the label.
    pub serial: u32,
    pub cells: NameList,
    /// The serials of the jumps `jmp *T(,%r,8)` by the label's name T.
    pub users: SerialList,
    /// The first other entry outside debug sections that names it.
    pub other_use: Option<u32>,
}

/// A list of tables.
#[derive(Drop, Debug)]
pub struct Tables {
    items: Vec<Table>,
}

impl Model for Tables {
    ghost use Rattle.std.specs.Prelude.{List};
    ghost use Rattle.jump_tables.specs.declared.table.Table.{Table};

    ghost Value = { List Table };

    ghost view = { λ l. l.items.items };
}

impl Tables {
    /// The list of no tables.
    pub fn new(alloc: Global) -> Tables
        ensures { result ≡ [] }
    {
        Tables {
            items: Vec::new(alloc),
        }
    }

    /// Appends `x`, or changes nothing where memory is wanting.
    pub fn push(&mut self, x: Table) -> Result<(), AllocError>
        ensures ok { OnOk result (self.new ≡ self.old ++ x ∷ []) }
        ensures err { OnErr result (self.new ≡ self.old) }
    {
        self.items.push(x)?;
        Ok(())
    }

    /// The tables in order.
    pub fn as_slice(&self) -> &[Table]
        ensures { result.now ≡ self.now }
    {
        self.items.as_slice()
    }
}
