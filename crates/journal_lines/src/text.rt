// The lines of a journal.

ghost use Rattle.std.specs.Prelude.{◌≡◌, ◌<◌, ◌++◌, length, IfOk, OnOk};
ghost use Rattle.std.specs.List.{flat_map, AllByRecursion};
ghost use Rattle.journal_lines.specs.Lines.{edit_line, part_lines, journal_lines, IsOfProfile, AreOfProfile, AreOfFunctions};

use crate::edits::{put, put_edit, put_number};
use asm_unit::AsmUnit;
use std::alloc::{AllocError, Global};
use unit_edits::{Edit, Journal, Part};

// Appends the line of an edit.
fn put_line(
    alloc: Global,
    text: &mut Vec<u8>,
    step: u32,
    name: &[u8],
    edit: &Edit,
) -> Result<(), AllocError>
    requires { IsOfProfile edit.now }
    ensures { OnOk result (text.new.items ≡ text.old.items ++ edit_line step name.now edit.now) }
{
    put(text, b"edit")?;
    put_number(text, step)?;
    put(text, b" ")?;
    put(text, name)?;
    put_edit(alloc, text, edit)?;
    put(text, b"\n")?;
    Ok(())
}

// Appends the lines of the edits of a step in a function with this name.
fn put_lines(
    alloc: Global,
    text: &mut Vec<u8>,
    step: u32,
    name: &[u8],
    edits: &[Edit],
) -> Result<(), AllocError>
    requires { AllByRecursion IsOfProfile edits.now }
    ensures { OnOk result (text.new.items ≡ text.old.items ++ flat_map (edit_line step name.now) edits.now) }
{
    for edit in edits {
        put_line(alloc, text, step, name, edit)?;
    }
    Ok(())
}

// Appends the lines of the edits of a part.
fn put_part(
    alloc: Global,
    text: &mut Vec<u8>,
    part: &Part,
    unit: &AsmUnit,
) -> Result<(), AllocError>
    requires function { part.now.f < length unit.now.decided }
    requires profile { AllByRecursion IsOfProfile part.now.edits }
    ensures { OnOk result (text.new.items ≡ text.old.items ++ part_lines unit.now part.now) }
{
    let name = unit.name(part.f);
    put_lines(alloc, text, part.step, name, part.edits.as_slice())
}

/// The journal as text, with a line for each edit, in order. `unit` names the functions. Its error is that memory ran out.
pub fn journal_text(alloc: Global, journal: &Journal, unit: &AsmUnit) -> Result<Vec<u8>, AllocError>
    requires functions { AreOfFunctions unit.now journal.now }
    requires profile { AreOfProfile journal.now }
    ensures { IfOk result (λ text. text.items ≡ journal_lines unit.now journal.now) }
{
    let mut text = Vec::new(alloc);
    for part in journal.parts() {
        put_part(alloc, &mut text, part, unit)?;
    }
    Ok(text)
}
