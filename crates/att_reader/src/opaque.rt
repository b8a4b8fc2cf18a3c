// Lines that aren't in the grammar.
ghost use Rattle.std.specs.Prelude.{◌≡◌, IfOk, ◌<◌, ◌++◌, ◌∷◌, [], OnOk, OnErr};
ghost use Rattle.att_grammar.specs.Entries.{opaque};
ghost use Rattle.att_reader.specs.Made.{entry};

use att_grammar::Cursor;
use insn_ir::{Entry, EntryKind};
use std::alloc::{AllocError, Global};

/// Appends the entry of a line that isn't in the grammar, by its words.
pub fn opaque(
    alloc: Global,
    out: &mut Vec<Entry>,
    serial: u32,
    whole: &Cursor,
) -> Result<(), AllocError>
    requires room { out.old.len < out.old.cap }
    ensures ok { OnOk result (out.new.items ≡ out.old.items ++ entry serial (opaque whole.now) ∷ []) }
    ensures err { OnErr result (out.new.items ≡ out.old.items) }
{
    let words = whole.words(alloc)?;
    out.push_reserved(Entry {
        serial,
        kind: EntryKind::Opaque(words),
    });
    Ok(())
}
