// The entries of a text.
ghost use Rattle.std.specs.Prelude.{◌≡◌, ◌+◌, ◌-◌, ◌^◌, ◌<◌, ◌≤◌, ◌∷◌, [], ◌++◌, length, IfOk, OnOk};
ghost use Rattle.att_lexer.specs.Pieces.{pieces, spans_of};
ghost use Rattle.att_grammar.specs.Entries.{kind_of_piece};
ghost use Rattle.asm_writer.specs.Unit.{bytes_at};
ghost use Rattle.jump_tables.specs.Classes.{class_of, classes_of};
ghost use Rattle.mao_core.specs.Entries.{entries_of};
ghost use Rattle.mao_core.specs.Pieces.{LieWithin};

use att_lexer::Span;
use att_reader::EntryReader;
use insn_ir::Entry;
use jump_tables::{EntryClass, class_of};
use std::alloc::{AllocError, Global};

/// The entries of a text, and of each its class, which is told while the entry is at hand.
#[derive(Drop)]
pub struct ReadEntries {
    pub entries: Vec<Entry>,
    pub classes: Vec<EntryClass>,
}

// Appends the entry of one piece.
fn read_span(
    alloc: Global,
    reader: &mut EntryReader,
    read: &mut ReadEntries,
    text: &[u8],
    span: Span,
    serial: u32,
) -> Result<(), AllocError>
    requires within { span.start + span.len ≤ length text.now }
    ensures entries { OnOk result (read.new.entries.items ≡ read.old.entries.items ++ record { serial = serial; kind = kind_of_piece (bytes_at text.now span) } ∷ []) }
    ensures classes { OnOk result (read.new.classes.items ≡ read.old.classes.items ++ class_of (kind_of_piece (bytes_at text.now span)) ∷ []) }
{
    let start = span.start as usize;
    let piece = &text[start..start + span.len as usize];
    reader.read_onto(alloc, &mut read.entries, piece, serial)?;
    let last = &read.entries[read.entries.len() - 1];
    read.classes.push(class_of(&last.kind))?;
    Ok(())
}

/// The entries of a text that was cut into these pieces.
pub fn read_entries(alloc: Global, text: &[u8], spans: &[Span]) -> Result<ReadEntries, AllocError>
    requires spans { LieWithin text.now spans.now }
    requires cut { spans.now ≡ spans_of 0 (pieces text.now) }
    requires count { length spans.now < 2 ^ 32 - 1 }
    ensures entries { IfOk result (λ r. r.entries.items ≡ entries_of text.now) }
    ensures classes { IfOk result (λ r. r.classes.items ≡ classes_of (entries_of text.now)) }
{
    let mut reader = EntryReader::new(alloc);
    let mut read = ReadEntries {
        entries: Vec::with_capacity(alloc, spans.len())?,
        classes: Vec::with_capacity(alloc, spans.len())?,
    };
    for (i, span) in spans.iter().enumerate() {
        read_span(alloc, &mut reader, &mut read, text, *span, i as u32 + 1)?;
    }
    Ok(read)
}
