// What a line says of an edit.

ghost use Rattle.std.specs.Prelude.{◌≡◌, ◌++◌, OnOk};
ghost use Rattle.insn_ir.specs.Profile.{IsInstruction};
ghost use Rattle.journal_lines.specs.Lines.{number, instruction, edit_text, IsOfProfile};

use asm_writer::insn_text;
use insn_ir::Insn;
use itoa::Buffer;
use std::alloc::{AllocError, Global};
use unit_edits::Edit;

pub(crate) fn put(text: &mut Vec<u8>, bytes: &[u8]) -> Result<(), AllocError>
    ensures { OnOk result (text.new.items ≡ text.old.items ++ bytes.now) }
{
    text.extend_from_slice(bytes)
}

// Appends a blank and a number.
pub(crate) fn put_number(text: &mut Vec<u8>, n: u32) -> Result<(), AllocError>
    ensures { OnOk result (text.new.items ≡ text.old.items ++ number n) }
{
    let mut buffer = Buffer::new();
    put(text, b" ")?;
    put(text, buffer.format(n).as_bytes())?;
    Ok(())
}

// Appends a blank and an instruction.
fn put_insn(alloc: Global, text: &mut Vec<u8>, insn: &Insn) -> Result<(), AllocError>
    requires { IsInstruction insn.now }
    ensures { OnOk result (text.new.items ≡ text.old.items ++ instruction insn.now) }
{
    let written = insn_text(alloc, insn)?;
    put(text, b" ")?;
    put(text, written.as_slice())?;
    Ok(())
}

// Appends a word and numbers behind it.
fn put_one(text: &mut Vec<u8>, word: &[u8], n: u32) -> Result<(), AllocError>
    ensures { OnOk result (text.new.items ≡ text.old.items ++ (word.now ++ number n)) }
{
    put(text, word)?;
    put_number(text, n)?;
    Ok(())
}

fn put_two(text: &mut Vec<u8>, word: &[u8], n: u32, m: u32) -> Result<(), AllocError>
    ensures { OnOk result (text.new.items ≡ text.old.items ++ (word.now ++ number n ++ number m)) }
{
    put_one(text, word, n)?;
    put_number(text, m)?;
    Ok(())
}

/// Appends what a line says of an edit, behind its step and its function.
pub(crate) fn put_edit(alloc: Global, text: &mut Vec<u8>, edit: &Edit) -> Result<(), AllocError>
    requires { IsOfProfile edit.now }
    ensures { OnOk result (text.new.items ≡ text.old.items ++ edit_text edit.now) }
{
    match edit {
        Edit::Remove { serial } => put_one(text, b" remove", *serial)?,
        Edit::Put { serial, insn } => {
            put_one(text, b" put", *serial)?;
            put_insn(alloc, text, insn)?;
        }
        Edit::Merge {
            first,
            second,
            insn,
        } => {
            put_two(text, b" merge", *first, *second)?;
            put_insn(alloc, text, insn)?;
        }
        Edit::InsertNop { before, serial } => put_two(text, b" nop", *before, *serial)?,
        Edit::InsertAlign {
            before,
            serial,
            power,
        } => {
            put_two(text, b" align", *before, *serial)?;
            put_number(text, *power as u32)?;
        }
    }
    Ok(())
}
