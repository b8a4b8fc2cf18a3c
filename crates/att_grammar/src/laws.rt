// Laws of the grammar, each the contract of a function that does nothing.

ghost use Rattle.std.specs.Prelude.{◌≡◌, ◌≤◌, ◌^◌, ◌∷◌, ◌++◌, ℕ, List, Option};
ghost use Rattle.att_lexer.specs.Pieces.{pieces};
ghost use Rattle.insn_ir.specs.Profile.{IsInstruction};
ghost use Rattle.insn_ir.specs.declared.insn.Insn.{Insn};
ghost use Rattle.insn_ir.specs.declared.entry.EntryKind.{EntryKind};
ghost use Rattle.insn_ir.specs.declared.entry.DirectiveKind.{DirectiveKind};
ghost use Rattle.att_grammar.specs.Lexemes.{lexemes_of};
ghost use Rattle.att_grammar.specs.Spelling.{Item, render, said, IsWellSpelled};
ghost use Rattle.att_grammar.specs.Entries.{kind_of_piece, IsOfProfile};
ghost use Rattle.att_grammar.specs.Directives.{IsBelow};
ghost use Rattle.att_grammar.specs.Canonical.{insn_text, align_text, line_of};

/// Text that is well spelled has the lexemes that it was made of.
pub fn spelling_is_read()
    ensures { (items : List Item) → IsWellSpelled items → lexemes_of (render items) ≡ said items }
{}

/// Whatever a piece is, an instruction that it is, is one of the profile, and an alignment that it is, has a power of at
/// most 12, a fill of at most 64 bits and a most number of bytes of at most 32.
pub fn entries_are_of_the_profile()
    ensures { (piece : List ℕ) → IsOfProfile (kind_of_piece piece) }
{}

/// The canonical text of an instruction of the profile is read as that instruction, also on a line of its own.
pub fn instructions_read_back()
    ensures text { (insn : Insn) → IsInstruction insn → kind_of_piece (insn_text insn) ≡ EntryKind.Insn insn }
    ensures line { (insn : Insn) → IsInstruction insn → kind_of_piece (line_of (insn_text insn)) ≡ EntryKind.Insn insn }
{}

/// The canonical text of an alignment is read as that alignment, also on a line of its own.
pub fn alignments_read_back()
    ensures text { (power : ℕ) (fill max : Option ℕ) → power ≤ 12 → IsBelow (2 ^ 64) fill → IsBelow (2 ^ 32) max
        → kind_of_piece (align_text power fill max) ≡ EntryKind.Directive (DirectiveKind.Align power fill max) }
    ensures line { (power : ℕ) (fill max : Option ℕ) → power ≤ 12 → IsBelow (2 ^ 64) fill → IsBelow (2 ^ 32) max
        → kind_of_piece (line_of (align_text power fill max)) ≡ EntryKind.Directive (DirectiveKind.Align power fill max) }
{}

/// In any text a line of canonical text is one piece, and what follows it is cut by itself.
pub fn canonical_lines_are_pieces()
    ensures instruction { (insn : Insn) (rest : List ℕ) → IsInstruction insn → pieces (line_of (insn_text insn) ++ rest) ≡ line_of (insn_text insn) ∷ pieces rest }
    ensures alignment { (power : ℕ) (fill max : Option ℕ) (rest : List ℕ) → power ≤ 12 → IsBelow (2 ^ 64) fill → IsBelow (2 ^ 32) max
        → pieces (line_of (align_text power fill max) ++ rest) ≡ line_of (align_text power fill max) ∷ pieces rest }
{}
