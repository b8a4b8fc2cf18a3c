// Data: cells and the names in them.
ghost use Rattle.std.specs.Prelude.{◌≡◌, IfOk};
ghost use Rattle.insn_ir.specs.declared.entry.Cell.{Cell};
ghost use Rattle.att_grammar.specs.Directives.{difference_of, cell_of, cells_of, data_of};

use crate::words::{cell_width, is_number, is_string};
use att_grammar::{Cursor, Word};
use insn_ir::{Cell, CellList, DirectiveKind, Name};
use std::alloc::{AllocError, Global};

#[tactic(auto, unfolding(att_grammar::specs::Directives::difference_of))]
fn difference<'a>(at: &Cursor<'a>) -> Option<(Word<'a>, Word<'a>)>
    ensures { result ≡ difference_of at.now }
{
    let (first, rest) = at.word()?;
    let (second, rest) = rest.expect(b'-')?.word()?;
    if rest.is_at_end() {
        Some((first, second))
    } else {
        None
    }
}

fn cell(alloc: Global, at: &Cursor) -> Result<Cell, AllocError>
    ensures { IfOk result (λ cell. cell ≡ cell_of at.now) }
{
    if let Some(name) = at.only_word() {
        return Ok(Cell::Sym(Name::from_slice(alloc, name.bytes())?));
    }
    match difference(at) {
        Some((first, second)) => Ok(Cell::Diff(
            Name::from_slice(alloc, first.bytes())?,
            Name::from_slice(alloc, second.bytes())?,
        )),
        None => Ok(Cell::Other),
    }
}

fn cells(alloc: Global, at: &Cursor) -> Result<CellList, AllocError>
    ensures { IfOk result (λ cells. cells ≡ cells_of at.now) }
{
    let mut cells = CellList::new(alloc);
    let (front, mut behind) = at.to_comma();
    cells.push(cell(alloc, &front)?)?;
    while let Some(rest) = behind {
        let (front, next) = rest.to_comma();
        cells.push(cell(alloc, &front)?)?;
        behind = next;
    }
    Ok(cells)
}

/// Data of cells, or of which only the names are seen.
#[tactic(auto, unfolding(att_grammar::specs::Directives::data_of))]
pub fn data(alloc: Global, name: &[u8], at: &Cursor) -> Result<DirectiveKind, AllocError>
    ensures { IfOk result (λ kind. kind ≡ data_of name.now at.now) }
{
    match cell_width(name) {
        Some(width) => Ok(DirectiveKind::Words {
            width,
            cells: cells(alloc, at)?,
            names: at.words(alloc)?,
        }),
        None => {
            if is_string(name) || is_number(name) {
                Ok(DirectiveKind::Bytes(at.words(alloc)?))
            } else {
                Ok(DirectiveKind::Breaking)
            }
        }
    }
}
