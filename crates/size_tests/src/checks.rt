// What the tests ask of a line.

use att_reader::read_entry;
use insn_ir::EntryKind;
use size_table::{JumpForm, size_of};
use std::process::Abort;
use std::test::Fail;

/// Checks that a line is an instruction of this size.
pub fn has_size(
    rt: &(impl Abort + AllocGlobal),
    text: &str,
    form: JumpForm,
    size: u8,
) -> Result<(), Fail> {
    assert!(rt; text.len() < 100);
    let entry = read_entry(rt.alloc(), text.as_bytes(), 0)?;
    match &entry.kind {
        EntryKind::Insn(insn) => assert_eq!(rt; size_of(insn, form), size, "{text}"),
        _ => assert!(rt; false, "no instruction: {text}"),
    }
    Ok(())
}

/// Checks lines with their sizes, whatever the form of direct jumps.
pub fn have_sizes(rt: &(impl Abort + AllocGlobal), lines: &[(&str, u8)]) -> Result<(), Fail> {
    for (text, size) in lines {
        has_size(rt, text, JumpForm::Short, *size)?;
        has_size(rt, text, JumpForm::Near, *size)?;
    }
    Ok(())
}
