// Finding the jump tables of a file: one walk for the tables, one for their uses.

ghost use Rattle.std.specs.Prelude.{◌≡◌, ◌++◌, ◌&&◌, [], map, true, length, option_map, IfOk, OnOk};
ghost use Rattle.std.specs.List.{list_any, list_all};
ghost use Rattle.insn_ir.specs.declared.entry.Cell.{Cell};
ghost use Rattle.jump_tables.specs.Classes.{class_of, classes_of};
ghost use Rattle.jump_tables.specs.Sections.{Section, section_after, placed};
ghost use Rattle.jump_tables.specs.Tables.{is_symbol, cell_names, file_tables, tables_in};
ghost use Rattle.jump_tables.specs.Collected.{row_cells, cells_behind, table_start, unused, distinct_of, looked_up};

use crate::class::{EntryClass, classes_of};
use crate::collect::{Uses, uses_in};
use crate::symbols::Symbols;
use crate::table::{Table, Tables};
use insn_ir::{Cell, DirectiveKind, Entry, EntryKind, NameList, SerialList, Width};
use std::alloc::{AllocError, Global};

fn is_symbol(cell: &Cell) -> bool
    ensures { result ≡ is_symbol cell.now }
{
    matches!(cell, Cell::Sym(_))
}

fn are_symbols(cells: &[Cell]) -> bool
    ensures { result ≡ (list_any (λ c. true) cells.now && list_all is_symbol cells.now) }
{
    !cells.is_empty() && cells.iter().all(|cell| is_symbol(cell))
}

/// The cells of a row of a table: none of a blank.
fn row_cells(kind: &EntryKind) -> Option<&[Cell]>
    ensures { option_map (λ c. c.now) result ≡ row_cells kind.now }
{
    match kind {
        EntryKind::Blank => Some(&[]),
        EntryKind::Directive(
            DirectiveKind::Words {
                width: Width::Q,
                cells,
                ..
            },
        ) => {
            let cells = cells.as_slice();
            if are_symbols(cells) {
                Some(cells)
            } else {
                None
            }
        }
        _ => None,
    }
}

fn push_cells(alloc: Global, names: &mut NameList, cells: &[Cell]) -> Result<(), AllocError>
    ensures { OnOk result (names.new ≡ names.old ++ cell_names cells.now) }
{
    for cell in cells {
        if let Cell::Sym(name) = cell {
            names.push(name.try_copy(alloc)?)?;
        }
    }
    Ok(())
}

/// The names in the rows at the front, up to the first entry that is none.
fn cells_behind(alloc: Global, entries: &[Entry]) -> Result<NameList, AllocError>
    ensures { IfOk result (λ ns. ns ≡ cells_behind entries.now) }
{
    let mut names = NameList::new(alloc);
    for entry in entries {
        let Some(cells) = row_cells(&entry.kind) else {
            return Ok(names);
        };
        push_cells(alloc, &mut names, cells)?;
    }
    Ok(names)
}

/// Whether what follows an entry stands in a code section, where this is so before it.
fn code_after(code: bool, kind: &EntryKind) -> bool
    ensures { (s : Section) → s.code ≡ code → result ≡ (section_after s kind.now).code }
{
    match kind {
        EntryKind::Directive(DirectiveKind::Section { code, .. }) => *code,
        _ => code,
    }
}

fn push_start(
    alloc: Global,
    tables: &mut Vec<Table>,
    entry: &Entry,
    code: bool,
    behind: &[Entry],
) -> Result<(), AllocError>
    ensures { OnOk result (tables.new.items ≡ tables.old.items ++ table_start code entry.now behind.now) }
{
    if let EntryKind::Label(label) = &entry.kind
        && !code
    {
        let cells = cells_behind(alloc, behind)?;
        if !cells.as_slice().is_empty() {
            tables.push(Table {
                label: label.try_copy(alloc)?,
                serial: entry.serial,
                cells,
                users: SerialList::new(alloc),
                other_use: None,
            })?;
        }
    }
    Ok(())
}

// The same, where the entry's class is known.
fn code_behind(code: bool, class: EntryClass, kind: &EntryKind) -> bool
    requires { class ≡ class_of kind.now }
    ensures { (s : Section) → s.code ≡ code → result ≡ (section_after s kind.now).code }
{
    match class {
        EntryClass::Section => code_after(code, kind),
        _ => code,
    }
}

fn push_start_of(
    alloc: Global,
    tables: &mut Vec<Table>,
    class: EntryClass,
    entry: &Entry,
    code: bool,
    behind: &[Entry],
) -> Result<(), AllocError>
    requires { class ≡ class_of entry.now.kind }
    ensures { OnOk result (tables.new.items ≡ tables.old.items ++ table_start code entry.now behind.now) }
{
    match class {
        EntryClass::Label => push_start(alloc, tables, entry, code, behind),
        _ => Ok(()),
    }
}

/// The tables, with no uses yet.
fn starts_in(
    alloc: Global,
    entries: &[Entry],
    classes: &[EntryClass],
) -> Result<Vec<Table>, AllocError>
    requires { classes.now ≡ classes_of entries.now }
    ensures { IfOk result (λ v. v.items ≡ map unused (file_tables (placed entries.now))) }
{
    let mut tables = Vec::new(alloc);
    let mut code = true;
    for i in 0..entries.len() {
        let entry = &entries[i];
        let class = classes[i];
        code = code_behind(code, class, &entry.kind);
        push_start_of(alloc, &mut tables, class, entry, code, &entries[i + 1..])?;
    }
    Ok(tables)
}

fn labels_of(alloc: Global, tables: &[Table]) -> Result<Symbols, AllocError>
    ensures { IfOk result (λ ns. ns ≡ distinct_of (map (λ t. t.label) tables.now)) }
{
    let mut labels = Symbols::new(alloc);
    for table in tables {
        labels.add(alloc, table.label.as_slice())?;
    }
    Ok(labels)
}

fn copy_serials(alloc: Global, serials: &[u32]) -> Result<SerialList, AllocError>
    ensures { IfOk result (λ l. l ≡ serials.now) }
{
    let mut copy = SerialList::new(alloc);
    for serial in serials {
        copy.push(*serial)?;
    }
    Ok(copy)
}

fn with_uses(
    alloc: Global,
    table: Table,
    labels: &Symbols,
    uses: &[Uses],
) -> Result<Table, AllocError>
    requires { length uses.now ≡ length labels.now }
    ensures { IfOk result (λ t. t ≡ looked_up labels.now uses.now table) }
{
    match labels.number_of(table.label.as_slice()) {
        Some(place) => {
            let found = &uses[place];
            Ok(Table {
                label: table.label,
                serial: table.serial,
                cells: table.cells,
                users: copy_serials(alloc, found.users.as_slice())?,
                other_use: found.other_use,
            })
        }
        None => Ok(table),
    }
}

fn all_with_uses(
    alloc: Global,
    starts: Vec<Table>,
    labels: &Symbols,
    uses: &[Uses],
) -> Result<Tables, AllocError>
    requires { length uses.now ≡ length labels.now }
    ensures { IfOk result (λ ts. ts ≡ map (looked_up labels.now uses.now) starts.items) }
{
    let mut tables = Tables::new(alloc);
    for table in starts {
        tables.push(with_uses(alloc, table, labels, uses)?)?;
    }
    Ok(tables)
}

/// The jump tables of a file, as [`find_tables`] finds them, where the classes of its entries are known.
pub fn find_tables_by_class(
    alloc: Global,
    entries: &[Entry],
    classes: &[EntryClass],
) -> Result<Tables, AllocError>
    requires { classes.now ≡ classes_of entries.now }
    ensures { IfOk result (λ ts. ts ≡ tables_in entries.now) }
{
    let starts = starts_in(alloc, entries, classes)?;
    let labels = labels_of(alloc, &starts)?;
    let uses = uses_in(alloc, &labels, entries)?;
    all_with_uses(alloc, starts, &labels, &uses)
}

/// The jump tables of a file in order: each label outside code sections that `.quad` or `.8byte` entries with symbols
/// alone follow directly, but for blanks between them, with its cells up to the first other entry, the jumps by it,
/// and its first other use outside debug sections. The work is linear in the entries and in what is found.
pub fn find_tables(alloc: Global, entries: &[Entry]) -> Result<Tables, AllocError>
    ensures { IfOk result (λ ts. ts ≡ tables_in entries.now) }
{
    let classes = classes_of(alloc, entries)?;
    find_tables_by_class(alloc, entries, &classes)
}
