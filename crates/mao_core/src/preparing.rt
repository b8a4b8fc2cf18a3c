// A text that was read, and all that is to be written of it.
ghost use Rattle.std.specs.Prelude.{◌≡◌, ◌≤◌, length, IfOk, IfErr};
ghost use Rattle.std.specs.List.{All};
ghost use Rattle.att_lexer.specs.Pieces.{pieces, spans_of, first_freeze};
ghost use Rattle.pass_script.specs.Catalogue.{AreInRange};
ghost use Rattle.pass_base.specs.Books.{seen};
ghost use Rattle.mao_core.specs.Input.{IsReadInPart, IsWhole};
ghost use Rattle.mao_core.specs.Outcome.{Refuses};
ghost use Rattle.mao_core.specs.Decided.{IsUnitOf};
ghost use Rattle.mao_core.specs.Prepared.{IsPrepared};

use crate::entries::{ReadEntries, read_entries};
use crate::lines::lines_of_pieces;
use crate::notes::notes_of_unit;
use crate::reading::{InputFault, read_all};
use crate::top::Status;
use asm_unit::AsmUnit;
use att_lexer::{CutFault, Pieces, cut_pieces};
use mao_outside::Source;
use mao_words::Asked;
use pass_base::PassBook;
use pass_driver::run_steps;
use std::alloc::{AllocError, Global};
use unit_edits::Journal;

/// A text, the unit of it after the script, the journal of the edits, and the notes.
#[derive(Drop)]
pub struct Prepared {
    pub text: Vec<u8>,
    pub unit: AsmUnit,
    pub journal: Journal,
    pub notes: Vec<u8>,
}

// The unit of a text that was cut into these pieces.
fn unit_of_text(alloc: Global, text: &[u8], cut: Pieces) -> Result<AsmUnit, AllocError>
    requires few { length (pieces text.now) ≤ 2000000 }
    requires cut { cut.spans ≡ spans_of 0 (pieces text.now) }
    requires freeze { cut.freeze ≡ first_freeze 1 (pieces text.now) }
    ensures { IfOk result (λ u. IsUnitOf text.now u) }
{
    let ReadEntries { entries, classes } = read_entries(alloc, text, cut.spans.as_slice())?;
    AsmUnit::build_by_class(alloc, cut, entries, &classes)
}

// Does the script to the unit of a text, and makes the notes.
fn prepare_text(
    alloc: Global,
    text: Vec<u8>,
    cut: Pieces,
    asked: &Asked,
    book: &mut PassBook,
) -> Result<Prepared, AllocError>
    requires short { length text.items ≤ 33554432 }
    requires few { length (pieces text.items) ≤ 2000000 }
    requires cut { cut.spans ≡ spans_of 0 (pieces text.items) }
    requires freeze { cut.freeze ≡ first_freeze 1 (pieces text.items) }
    requires steps { length asked.now.steps ≤ 32 }
    requires range { All (λ s. AreInRange s.opts) asked.now.steps }
    ensures text { IfOk result (λ p. p.text.items ≡ text.items) }
    ensures prepared { IfOk result (λ p. IsPrepared asked.now.steps asked.now.journal p
        (seen book.old.boxes.items (λ x. its_kind (x.vtable, x.value)) (λ x. its_opts (x.vtable, x.value)) (λ x. its_count (x.vtable, x.value)))
        (seen book.new.boxes.items (λ x. its_kind (x.vtable, x.value)) (λ x. its_opts (x.vtable, x.value)) (λ x. its_count (x.vtable, x.value)))) }
{
    let lines = lines_of_pieces(alloc, &text, cut.spans.as_slice())?;
    let mut unit = unit_of_text(alloc, &text, cut)?;
    let mut journal = Journal::new(alloc);
    run_steps(alloc, asked.steps.as_slice(), &mut unit, &mut journal, book)?;
    let notes = notes_of_unit(alloc, &lines, &unit, asked, &journal)?;
    Ok(Prepared {
        text,
        unit,
        journal,
        notes,
    })
}

/// Reads a source to its end, does the script to its unit, and makes all that is to be written. What can want memory is done here.
pub fn prepare<S: Source>(
    alloc: Global,
    source: &mut S,
    asked: &Asked,
    book: &mut PassBook,
) -> Result<Prepared, Status>
    requires steps { length asked.now.steps ≤ 32 }
    requires range { All (λ s. AreInRange s.opts) asked.now.steps }
    ensures whole { IfOk result (λ p. IsWhole (S.left source.old) (S.left source.new) p.text.items) }
    ensures few { IfOk result (λ p. length (pieces p.text.items) ≤ 2000000) }
    ensures prepared { IfOk result (λ p. IsPrepared asked.now.steps asked.now.journal p
        (seen book.old.boxes.items (λ x. its_kind (x.vtable, x.value)) (λ x. its_opts (x.vtable, x.value)) (λ x. its_count (x.vtable, x.value)))
        (seen book.new.boxes.items (λ x. its_kind (x.vtable, x.value)) (λ x. its_opts (x.vtable, x.value)) (λ x. its_count (x.vtable, x.value)))) }
    ensures later { S.faults source.old ≤ S.faults source.new }
    ensures read { IsReadInPart (S.left source.old) (S.left source.new) }
    ensures refused { IfErr result (λ status. Refuses status (S.left source.old) (S.left source.new)
        (S.faults source.old) (S.faults source.new)) }
{
    let text = match read_all(alloc, source) {
        Ok(text) => text,
        Err(InputFault::Fault) => return Err(Status::ReadFault),
        Err(InputFault::TooBig) => return Err(Status::TooBig),
        Err(InputFault::NoMemory) => return Err(Status::NoMemory),
    };
    let cut = match cut_pieces(alloc, &text) {
        Ok(cut) => cut,
        Err(CutFault::TooManyPieces { count: _ }) => return Err(Status::TooBig),
        Err(CutFault::NoMemory) => return Err(Status::NoMemory),
    };
    match prepare_text(alloc, text, cut, asked, book) {
        Ok(prepared) => Ok(prepared),
        Err(_) => Err(Status::NoMemory),
    }
}
