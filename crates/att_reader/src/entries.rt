// The entry that a piece is.
ghost use Rattle.std.specs.Prelude.{◌≡◌, ◌<◌, ◌≤◌, ◌^◌, length, IfOk, ◌++◌, ◌∷◌, [], OnOk, OnErr};
ghost use Rattle.std.specs.List.{prefix_len};
ghost use Rattle.att_lexer.specs.Bytes.{is_blank};
ghost use Rattle.att_lexer.specs.Tokens.{tokens_of};
ghost use Rattle.att_grammar.specs.Lexemes.{says_all};
ghost use Rattle.att_reader.specs.Made.{entry};
ghost use Rattle.att_grammar.specs.Entries.{label_of, without_blanks, is_apart, stands_first, is_inline_mark, is_directive, insn_or_opaque, statement_of, unlabelled, kind_of_piece, IsOfProfile};

use crate::instructions::instruction;
use crate::known::KnownLines;
use crate::opaque::opaque;
use att_grammar::{Cursor, Seen};
use att_lexer::{TokenList, is_blank, is_first_label, is_symbol_byte, take_tokens};
use directive_model::read_directive;
use insn_ir::{Entry, EntryKind, Name};
use std::alloc::{AllocError, Global};

fn label(alloc: Global, out: &mut Vec<Entry>, serial: u32, at: &Cursor) -> Result<(), AllocError>
    requires room { out.old.len < out.old.cap }
    ensures ok { OnOk result (out.new.items ≡ out.old.items ++ entry serial (label_of at.now) ∷ []) }
    ensures err { OnErr result (out.new.items ≡ out.old.items) }
{
    match at.only_word() {
        Some(name) => {
            let name = Name::from_slice(alloc, name.bytes())?;
            out.push_reserved(Entry {
                serial,
                kind: EntryKind::Label(name),
            });
            Ok(())
        }
        None => opaque(alloc, out, serial, at),
    }
}

fn blanks(bytes: &[u8]) -> usize
    ensures value { result ≡ prefix_len is_blank bytes.now }
    ensures bound { result ≤ length bytes.now }
{
    bytes.iter().take_while(|b| is_blank(**b)).count()
}

fn without_blanks(bytes: &[u8]) -> &[u8]
    ensures { result.now ≡ without_blanks bytes.now }
{
    let (_, rest) = bytes.split_at(blanks(bytes));
    rest
}

// Whether `#APP` or `#NO_APP` stands in front.
#[tactic(auto, unfolding(att_grammar::specs::Entries::is_inline_mark))]
fn is_inline_mark(piece: &[u8]) -> bool
    ensures { result ≡ is_inline_mark piece.now }
{
    let text = without_blanks(piece);
    stands_first(b"#APP", text) || stands_first(b"#NO_APP", text)
}

// Whether no symbol byte stands in front.
fn is_apart(bytes: &[u8]) -> bool
    ensures { result ≡ is_apart bytes.now }
{
    match bytes {
        [] => true,
        [b, ..] => !is_symbol_byte(*b),
    }
}

// Whether bytes begin so, and no symbol byte follows.
fn stands_first(front: &[u8], bytes: &[u8]) -> bool
    ensures { result ≡ stands_first front.now bytes.now }
{
    bytes.starts_with(front) && is_apart(&bytes[front.len()..])
}

// Whether a word that begins with `.` stands in front.
fn is_directive(at: &Cursor) -> bool
    ensures { result ≡ is_directive at.now }
{
    match at.first() {
        Some((Seen::Word(name), _)) => match name {
            [b'.', ..] => true,
            _ => false,
        },
        Some((Seen::Mark(_) | Seen::Number(_) | Seen::Text(_) | Seen::Odd(_), _)) | None => false,
    }
}

// A piece that has tokens and is no label.
#[inline(always)]
#[tactic(auto, unfolding(att_grammar::specs::Entries::statement_of))]
fn statement(
    alloc: Global,
    out: &mut Vec<Entry>,
    serial: u32,
    piece: &[u8],
    tokens: &TokenList,
    at: &Cursor,
) -> Result<(), AllocError>
    requires length { length piece.now < 2 ^ 32 }
    requires tokens { tokens.now ≡ tokens_of piece.now }
    requires lexemes { at.now ≡ says_all piece.now tokens.now }
    requires room { out.old.len < out.old.cap }
    ensures ok { OnOk result (out.new.items ≡ out.old.items ++ entry serial (statement_of piece.now tokens.now) ∷ []) }
    ensures err { OnErr result (out.new.items ≡ out.old.items) }
{
    if at.is_assignment() || is_directive(at) {
        let kind = read_directive(alloc, piece, tokens)?;
        out.push_reserved(Entry {
            serial,
            kind: EntryKind::Directive(kind),
        });
        return Ok(());
    }
    instruction(alloc, out, serial, at)
}

#[tactic(auto, unfolding(att_grammar::specs::Entries::kind_of_piece))]
fn line(
    alloc: Global,
    tokens: &mut TokenList,
    piece: &[u8],
    out: &mut Vec<Entry>,
    serial: u32,
) -> Result<(), AllocError>
    requires length { length piece.now < 2 ^ 32 }
    requires room { out.old.len < out.old.cap }
    ensures ok { OnOk result (out.new.items ≡ out.old.items ++ entry serial (kind_of_piece piece.now) ∷ []) }
    ensures err { OnErr result (out.new.items ≡ out.old.items) }
{
    take_tokens(tokens, piece)?;
    let all = tokens.as_slice();
    let at = Cursor::new(piece, all);
    if is_first_label(piece) {
        return label(alloc, out, serial, &at);
    }
    if !all.is_empty() {
        return statement(alloc, out, serial, piece, tokens, &at);
    }
    let kind = if is_inline_mark(piece) {
        EntryKind::InlineMark
    } else {
        EntryKind::Blank
    };
    out.push_reserved(Entry { serial, kind });
    Ok(())
}

/// Reads entries one after another: it keeps the room for the tokens of a line, and what some of the lines without a
/// symbol are that it read before, each in the place of its hash until another line takes that place.
#[derive(Drop)]
pub struct EntryReader {
    tokens: TokenList,
    known: KnownLines,
}

// Appends the entry of a line that isn't known, and keeps what it is where there is memory for it.
fn new_line(
    alloc: Global,
    reader: &mut EntryReader,
    out: &mut Vec<Entry>,
    piece: &[u8],
    serial: u32,
) -> Result<(), AllocError>
    requires length { length piece.now < 2 ^ 32 }
    requires room { out.old.len < out.old.cap }
    ensures ok { OnOk result (out.new.items ≡ out.old.items ++ entry serial (kind_of_piece piece.now) ∷ []) }
    ensures err { OnErr result (out.new.items ≡ out.old.items) }
{
    line(alloc, &mut reader.tokens, piece, out, serial)?;
    if let Some(made) = out.last() {
        reader.known.note(alloc, piece, &made.kind);
    }
    Ok(())
}

impl EntryReader {
    /// A reader without room, which it takes at the first line that has a token.
    pub fn new(alloc: Global) -> EntryReader {
        EntryReader {
            tokens: TokenList::new(alloc),
            known: KnownLines::new(alloc),
        }
    }

    /// Appends the entry that a piece is, as [`read_entry`] gives it: it is made where it is to stay. Where memory is wanting
    /// `out` has the entries that it had, and the reader may be used again. Lines that it has no memory to keep are read
    /// anew when they come again.
    pub fn read_onto(
        &mut self,
        alloc: Global,
        out: &mut Vec<Entry>,
        piece: &[u8],
        serial: u32,
    ) -> Result<(), AllocError>
        requires { length piece.now < 2 ^ 32 }
        ensures ok { OnOk result (out.new.items ≡ out.old.items ++ entry serial (kind_of_piece piece.now) ∷ []) }
        ensures err { OnErr result (out.new.items ≡ out.old.items) }
    {
        out.reserve(1)?;
        match self.known.find(piece) {
            Some(kind) => {
                kind.put(out, serial);
                Ok(())
            }
            None => new_line(alloc, self, out, piece, serial),
        }
    }
}

/// The entry that a piece is, with the serial that is given. An instruction that it is, is one of the profile, and an
/// alignment that it is, has a power of at most 12.
pub fn read_entry(alloc: Global, piece: &[u8], serial: u32) -> Result<Entry, AllocError>
    requires { length piece.now < 2 ^ 32 }
    ensures definition { IfOk result (λ entry. entry ≡ record { serial = serial; kind = kind_of_piece piece.now }) }
    ensures profile { IfOk result (λ entry. IsOfProfile entry.kind) }
{
    let mut tokens = TokenList::new(alloc);
    let mut made = Vec::with_capacity(alloc, 1)?;
    line(alloc, &mut tokens, piece, &mut made, serial)?;
    Ok(made.take_last())
}
