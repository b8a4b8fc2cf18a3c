// What a run tells on its notes.
ghost use Rattle.std.specs.Prelude.{◌≡◌, ◌++◌, IfOk, OnOk, decimal};
ghost use Rattle.std.specs.List.{flat_map};
ghost use Rattle.journal_lines.specs.Lines.{AreOfFunctions, AreOfProfile};
ghost use Rattle.mao_core.specs.Notes.{line_of, cause_text, file_note, frozen_note, journal_notes, notes_text};

use asm_unit::{AsmUnit, FreezeCause, FreezeKind};
use itoa::Buffer;
use journal_lines::{journal_text, step_lines};
use mao_words::Asked;
use std::alloc::{AllocError, Global};
use unit_edits::Journal;

fn cause_text(kind: FreezeKind) -> &'static [u8]
    ensures { result.now ≡ cause_text kind }
{
    match kind {
        FreezeKind::File => b"file",
        FreezeKind::UnknownLine => b"unknown line",
        FreezeKind::DataInCode => b"data in code",
        FreezeKind::InlineAssembly => b"inline assembly",
        FreezeKind::LabelAsValue => b"label as value",
        FreezeKind::LabelOutside => b"label used outside",
        FreezeKind::ExceptionTable => b"exception table",
        FreezeKind::JumpElsewhere => b"jump elsewhere",
        FreezeKind::TooLong => b"too long",
    }
}

fn put(text: &mut Vec<u8>, bytes: &[u8]) -> Result<(), AllocError>
    ensures { OnOk result (text.new.items ≡ text.old.items ++ bytes.now) }
{
    text.extend_from_slice(bytes)
}

fn put_number(text: &mut Vec<u8>, n: usize) -> Result<(), AllocError>
    ensures { OnOk result (text.new.items ≡ text.old.items ++ decimal n) }
{
    let mut buffer = Buffer::new();
    text.extend_from_slice(buffer.format(n).as_bytes())
}

// The line of the piece with this serial; 0 where there is no such piece.
fn line_of(lines: &[u32], serial: u32) -> usize
    ensures { result ≡ line_of lines.now serial }
{
    let place = (serial as usize).saturating_sub(1);
    if place < lines.len() {
        lines[place] as usize
    } else {
        0
    }
}

// Appends the note on a file that is kept as it is, where a cause keeps it.
fn put_file_note(
    text: &mut Vec<u8>,
    lines: &[u32],
    cause: Option<FreezeCause>,
) -> Result<(), AllocError>
    ensures { OnOk result (text.new.items ≡ text.old.items ++ file_note lines.now cause) }
{
    let Some(cause) = cause else {
        return Ok(());
    };
    put(text, b"file unchanged: line ")?;
    put_number(text, line_of(lines, cause.serial))?;
    put(text, b"\n")?;
    Ok(())
}

// Appends the note on a function that is kept as it is, where a cause keeps it.
fn put_frozen_note(
    text: &mut Vec<u8>,
    lines: &[u32],
    name: &[u8],
    cause: Option<FreezeCause>,
) -> Result<(), AllocError>
    ensures { OnOk result (text.new.items ≡ text.old.items ++ frozen_note lines.now name.now cause) }
{
    let Some(cause) = cause else {
        return Ok(());
    };
    put(text, name)?;
    put(text, b" unchanged: ")?;
    put(text, cause_text(cause.kind))?;
    put(text, b", line ")?;
    put_number(text, line_of(lines, cause.serial))?;
    put(text, b"\n")?;
    Ok(())
}

// Appends a line for each edit, if that is asked for.
fn put_journal(
    alloc: Global,
    text: &mut Vec<u8>,
    unit: &AsmUnit,
    journal: &Journal,
    is_asked: bool,
) -> Result<(), AllocError>
    requires functions { AreOfFunctions unit.now journal.now }
    requires profile { AreOfProfile journal.now }
    ensures { OnOk result (text.new.items ≡ text.old.items ++ journal_notes is_asked unit.now journal.now) }
{
    if is_asked {
        let lines = journal_text(alloc, journal, unit)?;
        put(text, &lines)?;
    }
    Ok(())
}

// Appends a note on each function that is kept as it is.
fn put_frozen_notes(text: &mut Vec<u8>, lines: &[u32], unit: &AsmUnit) -> Result<(), AllocError>
    ensures { OnOk result (text.new.items ≡ text.old.items ++ flat_map (λ d. frozen_note lines.now d.name d.cause) unit.now.decided) }
{
    for f in 0..unit.functions() {
        put_frozen_note(text, lines, unit.name(f), unit.frozen(f))?;
    }
    Ok(())
}

/// The notes on a unit to which steps were done, with a line for each edit if that is asked for. `lines` has the line of each piece.
pub fn notes_of_unit(
    alloc: Global,
    lines: &[u32],
    unit: &AsmUnit,
    asked: &Asked,
    journal: &Journal,
) -> Result<Vec<u8>, AllocError>
    requires functions { AreOfFunctions unit.now journal.now }
    requires profile { AreOfProfile journal.now }
    ensures { IfOk result (λ text. text.items ≡ notes_text lines.now unit.now.file unit.now.decided asked.now.steps asked.now.journal unit.now journal.now) }
{
    let mut text = Vec::new(alloc);
    put_file_note(&mut text, lines, unit.file_frozen())?;
    put_frozen_notes(&mut text, lines, unit)?;
    let steps = step_lines(alloc, asked.steps.as_slice(), journal)?;
    put(&mut text, &steps)?;
    put_journal(alloc, &mut text, unit, journal, asked.journal)?;
    Ok(text)
}
