// Texts, and the units of the files that they are.

ghost use Rattle.std.specs.Prelude.{◌≡◌, ◌≤◌, length, IfOk};
ghost use Rattle.asm_unit.specs.Held.{AreNumbered};

use asm_unit::AsmUnit;
use att_lexer::{Pieces, Span, cut_pieces};
use att_reader::read_entry;
use insn_ir::Entry;
use jump_tables::classes_of;
use std::alloc::AllocGlobal;
use std::process::Abort;
use std::test::Fail;

// The lines before the body of a function `f`: five pieces, so that the body begins at serial 6.
pub const OPEN: &str = "\t.text\n\t.p2align 4\n\t.type f, @function\nf:\n";

pub const CLOSE: &str = "\t.size f, .-f\n";

// The lines between its body and that of a function `g`: four pieces.
pub const THEN_G: &str = "\t.size f, .-f\n\t.type g, @function\ng:\n";

pub const CLOSE_G: &str = "\t.size g, .-g\n";

pub fn joined(rt: &(impl Abort + AllocGlobal), parts: &[&str]) -> Result<Vec<u8>, Fail> {
    let mut text = Vec::new(rt.alloc());
    for part in parts {
        text.extend_from_slice(part.as_bytes())?;
    }
    Ok(text)
}

// The entries of these pieces of a text.
fn entries_of(
    rt: &(impl Abort + AllocGlobal),
    text: &[u8],
    spans: &[Span],
) -> Result<Vec<Entry>, Fail>
    requires { length spans.now ≤ 2000000 }
    ensures numbered { IfOk result (λ es. AreNumbered 0 es.items) }
    ensures many { IfOk result (λ es. length es.items ≡ length spans.now) }
{
    let mut entries = Vec::new(rt.alloc());
    for (i, span) in spans.iter().enumerate() {
        let start = span.start as usize;
        let end = start + span.len as usize;
        assert!(rt; end <= text.len());
        let piece = &text[start..end];
        assert!(rt; piece.len() < 4_294_967_296);
        entries.push(read_entry(rt.alloc(), piece, i as u32 + 1)?)?;
    }
    Ok(entries)
}

fn pieces_of(rt: &(impl Abort + AllocGlobal), text: &[u8]) -> Result<Pieces, Fail>
    ensures { IfOk result (λ p. length p.spans ≤ 2000000) }
{
    assert!(rt; text.len() <= 33_554_432);
    let pieces = cut_pieces(rt.alloc(), text)?;
    assert!(rt; pieces.spans.as_slice().len() <= 2_000_000);
    Ok(pieces)
}

/// The unit of a text.
pub fn unit_of(rt: &(impl Abort + AllocGlobal), text: &[u8]) -> Result<AsmUnit, Fail> {
    let pieces = pieces_of(rt, text)?;
    let entries = entries_of(rt, text, pieces.spans.as_slice())?;
    Ok(AsmUnit::build(rt.alloc(), pieces, entries)?)
}

/// The same, built where the classes of the entries are known.
pub fn unit_by_class(rt: &(impl Abort + AllocGlobal), text: &[u8]) -> Result<AsmUnit, Fail> {
    let pieces = pieces_of(rt, text)?;
    let entries = entries_of(rt, text, pieces.spans.as_slice())?;
    let classes = classes_of(rt.alloc(), &entries)?;
    Ok(AsmUnit::build_by_class(rt.alloc(), pieces, entries, &classes)?)
}
