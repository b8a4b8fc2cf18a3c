// Fragments written into memory and into a sink.

ghost use Rattle.std.specs.Prelude.{◌≡◌, ◌++◌, ◌≤◌, IfOk, OnOk};
ghost use Rattle.insn_ir.specs.Profile.{IsInstruction};
ghost use Rattle.insn_ir.specs.declared.entry.DirectiveKind.{DirectiveKind};
ghost use Rattle.insn_ir.specs.declared.entry.EntryKind.{EntryKind};
ghost use Rattle.att_grammar.specs.Canonical.{insn_text, align_text};
ghost use Rattle.att_grammar.specs.Entries.{kind_of_piece};
ghost use Rattle.asm_writer.specs.Fragments.{fragment_text, fragments_text};

use crate::fragment::Fragment;
use crate::line::{align_fragments, insn_fragments};
use insn_ir::Insn;
use itoa::Buffer;
use std::alloc::{AllocError, Global};

fn push_fragment(text: &mut Vec<u8>, fragment: Fragment<'_>) -> Result<(), AllocError>
    ensures { OnOk result (text.new.items ≡ text.old.items ++ fragment_text fragment.entry) }
{
    let mut buffer = Buffer::new();
    match fragment {
        Fragment::Text(bytes) => text.extend_from_slice(bytes),
        Fragment::Number(n) => text.extend_from_slice(buffer.format(n).as_bytes()),
        Fragment::Digits(n) => text.extend_from_slice(buffer.format(n).as_bytes()),
    }
}

fn joined(alloc: Global, fragments: &[Fragment<'_>]) -> Result<Vec<u8>, AllocError>
    ensures { IfOk result (λ text. text.items ≡ fragments_text fragments.now) }
{
    let mut text = Vec::new(alloc);
    for fragment in fragments {
        push_fragment(&mut text, *fragment)?;
    }
    Ok(text)
}

/// The canonical text of an instruction of the profile. Reading it gives the instruction back.
#[tactic(auto, using(crate::proofs::Read::insn_read))]
pub fn insn_text(alloc: Global, insn: &Insn) -> Result<Vec<u8>, AllocError>
    requires { IsInstruction insn.now }
    ensures text { IfOk result (λ text. text.items ≡ insn_text insn.now) }
    ensures reads_back { IfOk result (λ text. kind_of_piece text.items ≡ EntryKind.Insn insn.now) }
{
    joined(alloc, insn_fragments(insn).as_slice())
}

/// The canonical text of an alignment to 2^`power` bytes, with a fill and a most number of bytes where they are given.
/// Reading it gives them back.
#[tactic(auto, using(crate::proofs::Read::align_read))]
pub fn directive_text(
    alloc: Global,
    power: u8,
    fill: Option<u64>,
    max: Option<u32>,
) -> Result<Vec<u8>, AllocError>
    requires { power ≤ 12 }
    ensures text { IfOk result (λ text. text.items ≡ align_text power fill max) }
    ensures reads_back { IfOk result (λ text. kind_of_piece text.items ≡ EntryKind.Directive (DirectiveKind.Align power fill max)) }
{
    joined(alloc, align_fragments(power, fill, max).as_slice())
}
