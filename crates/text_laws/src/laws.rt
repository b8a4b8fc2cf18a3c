// Laws of edited units and their text, each the contract of a function that does nothing.

ghost use Rattle.std.specs.Prelude.{◌≡◌, ◌≢◌, ◌≤◌, ◌+◌, ℕ, List, map, find, slice_get, Some};
ghost use Rattle.att_lexer.specs.declared.pieces.Span.{Span};
ghost use Rattle.att_lexer.specs.Pieces.{pieces};
ghost use Rattle.insn_ir.specs.declared.entry.EntryKind.{EntryKind};
ghost use Rattle.insn_ir.specs.declared.insn.Insn.{Insn};
ghost use Rattle.insn_ir.specs.Profile.{IsInstruction};
ghost use Rattle.att_grammar.specs.Entries.{kind_of_piece};
ghost use Rattle.asm_unit.specs.declared.held.Held.{Held};
ghost use Rattle.asm_unit.specs.Held.{AreNumbered, entries_of, serial_is, held_without, held_put, held_inserted, new_held};
ghost use Rattle.asm_unit.specs.Unit.{nop_kind, align_kind};
ghost use Rattle.asm_writer.specs.Unit.{entry_text, unit_text, AreWritable};
ghost use Rattle.text_laws.specs.Edited.{AreRead, IsNewKind, IsPieceOf, IsEditOf, written, text_at};

/// The text of edited entries is cut into what is written of each, and each piece is read as its entry.
pub fn edited_texts_read_back()
    ensures pieces { (text : List ℕ) (hs : List Held) → IsEditOf text hs → pieces (unit_text text hs) ≡ map (written text) hs }
    ensures kinds { (text : List ℕ) (hs : List Held) → IsEditOf text hs → map kind_of_piece (pieces (unit_text text hs)) ≡ map (λ h. h.entry.kind) hs }
{}

/// Edited entries can be written: their spans lie within the text, and what is new is of the profile.
pub fn edited_entries_are_writable()
    ensures { (text : List ℕ) (hs : List Held) → IsEditOf text hs → AreWritable text hs }
{}

/// The entries of a text as it is read are edited entries, by no edit.
pub fn entries_as_read_are_edited()
    ensures { (text : List ℕ) (hs : List Held) → AreRead text hs → IsEditOf text hs }
{}

/// Edited entries stay so where one goes, where one is put for another, and where one comes before another.
pub fn edited_entries_stay_edited()
    ensures drop { (text : List ℕ) (hs : List Held) (s : ℕ) → IsEditOf text hs → IsEditOf text (held_without s hs) }
    ensures put { (text : List ℕ) (hs : List Held) (s : ℕ) (i : Insn) → IsInstruction i → IsEditOf text hs → IsEditOf text (held_put s (EntryKind.Insn i) hs) }
    ensures insert { (text : List ℕ) (hs : List Held) (before s : ℕ) (k : EntryKind) → IsNewKind k → IsEditOf text hs → IsEditOf text (held_inserted before (new_held s k) hs) }
    ensures insert_nop { (text : List ℕ) (hs : List Held) (before s : ℕ) → IsEditOf text hs → IsEditOf text (held_inserted before (new_held s nop_kind) hs) }
    ensures insert_align { (text : List ℕ) (hs : List Held) (before s power : ℕ) → power ≤ 12 → IsEditOf text hs → IsEditOf text (held_inserted before (new_held s (align_kind power)) hs) }
{}

/// The entry of a piece's serial says the piece where the text was just read, an edit changes no entry of another serial, and
/// a kept entry says the piece at its place.
pub fn kept_entries_say_their_pieces()
    ensures piece { (text : List ℕ) (k : EntryKind) (span : Span) (h : IsPieceOf text k span) → slice_get (pieces text) h.place ≡ Some (entry_text text k (Some span)) }
    ensures read { (text : List ℕ) (hs : List Held) (place : ℕ) (piece : List ℕ) → AreRead text hs → AreNumbered 0 (entries_of hs) → slice_get (pieces text) place ≡ Some piece → text_at text hs (place + 1) ≡ piece }
    ensures drop { (hs : List Held) (s other : ℕ) → other ≢ s → find (serial_is other) (held_without s hs) ≡ find (serial_is other) hs }
    ensures put { (hs : List Held) (s other : ℕ) (k : EntryKind) → other ≢ s → find (serial_is other) (held_put s k hs) ≡ find (serial_is other) hs }
    ensures insert { (hs : List Held) (before other : ℕ) (new : Held) → other ≢ new.entry.serial → find (serial_is other) (held_inserted before new hs) ≡ find (serial_is other) hs }
{}
