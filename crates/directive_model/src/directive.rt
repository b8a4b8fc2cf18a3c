// The directive of a piece.
ghost use Rattle.std.specs.Prelude.{◌≡◌, ◌<◌, ◌^◌, length, drop, IfOk};
ghost use Rattle.att_lexer.specs.Tokens.{tokens_of};
ghost use Rattle.att_grammar.specs.Lexemes.{AreReadable, says_all};
ghost use Rattle.att_grammar.specs.Notions.{word_of};
ghost use Rattle.att_grammar.specs.Directives.{or_breaking, aligned_of, filled_of, placed_of, bound_of, named_of, directive_behind, directive_of};

use crate::data::data;
use crate::layout::{alignment, named_section, section};
use crate::symbols::{alias_or_constant, function_end, function_type};
use crate::words::{is_align, is_cfi, is_cfi_table, is_export, is_inert, is_section, is_set};
use att_grammar::Cursor;
use att_lexer::{Token, TokenList};
use insn_ir::DirectiveKind;
use std::alloc::{AllocError, Global};

fn aligned(by_power: bool, at: &Cursor) -> DirectiveKind
    ensures { result ≡ or_breaking (aligned_of by_power at.now) }
{
    match alignment(by_power, at) {
        Some(kind) => kind,
        None => DirectiveKind::Breaking,
    }
}

// Alignments and data.
#[tactic(auto, unfolding(att_grammar::specs::Directives::filled_of))]
fn filled(alloc: Global, name: &[u8], at: &Cursor) -> Result<DirectiveKind, AllocError>
    ensures { IfOk result (λ kind. kind ≡ filled_of name.now at.now) }
{
    if name == b".p2align".as_slice() {
        Ok(aligned(true, at))
    } else if is_align(name) {
        Ok(aligned(false, at))
    } else {
        data(alloc, name, at)
    }
}

// Sections, and what they hold.
#[tactic(auto, unfolding(att_grammar::specs::Directives::placed_of))]
fn placed(
    alloc: Global,
    piece: &[u8],
    operands: &[Token],
    name: &[u8],
    at: &Cursor,
) -> Result<DirectiveKind, AllocError>
    requires { AreReadable piece.now operands.now }
    ensures { IfOk result (λ kind. kind ≡ placed_of piece.now operands.now name.now at.now) }
{
    if is_section(name) {
        if at.is_at_end() {
            section(alloc, name, false)
        } else {
            Ok(DirectiveKind::Breaking)
        }
    } else if name == b".section".as_slice() {
        named_section(alloc, piece, operands)
    } else {
        filled(alloc, name, at)
    }
}

// What is said of symbols.
#[tactic(auto, unfolding(att_grammar::specs::Directives::bound_of))]
fn bound(
    alloc: Global,
    piece: &[u8],
    operands: &[Token],
    name: &[u8],
    at: &Cursor,
) -> Result<DirectiveKind, AllocError>
    requires { AreReadable piece.now operands.now }
    ensures { IfOk result (λ kind. kind ≡ bound_of piece.now operands.now name.now at.now) }
{
    if name == b".type".as_slice() {
        function_type(alloc, at)
    } else if name == b".size".as_slice() {
        function_end(alloc, at)
    } else if is_set(name) {
        alias_or_constant(alloc, at)
    } else {
        placed(alloc, piece, operands, name, at)
    }
}

// The directive of a name, where its operands follow.
#[tactic(auto, unfolding(att_grammar::specs::Directives::named_of))]
fn named(
    alloc: Global,
    piece: &[u8],
    operands: &[Token],
    name: &[u8],
    at: &Cursor,
) -> Result<DirectiveKind, AllocError>
    requires { AreReadable piece.now operands.now }
    ensures { IfOk result (λ kind. kind ≡ named_of piece.now operands.now name.now at.now) }
{
    if is_inert(name) {
        Ok(DirectiveKind::Inert)
    } else if is_cfi_table(name) {
        Ok(DirectiveKind::CfiTable)
    } else if is_cfi(name) {
        Ok(DirectiveKind::Cfi)
    } else if is_export(name) {
        Ok(DirectiveKind::Export(at.words(alloc)?))
    } else {
        bound(alloc, piece, operands, name, at)
    }
}

/// The directive of a piece, whose tokens these are: its first is a word that begins with `.`, or its second is `=`.
#[tactic(auto, unfolding(att_grammar::specs::Directives::directive_of))]
pub fn read_directive(
    alloc: Global,
    piece: &[u8],
    tokens: &TokenList,
) -> Result<DirectiveKind, AllocError>
    requires length { length piece.now < 2 ^ 32 }
    requires tokens { tokens.now ≡ tokens_of piece.now }
    ensures { IfOk result (λ kind. kind ≡ directive_of piece.now tokens.now) }
{
    let tokens = tokens.as_slice();
    let at = Cursor::new(piece, tokens);
    if at.is_assignment() {
        return Ok(DirectiveKind::Breaking);
    }
    let [_, operands @ ..] = tokens else {
        return Ok(DirectiveKind::Breaking);
    };
    match at.word() {
        Some((name, rest)) => named(alloc, piece, operands, name.bytes(), &rest),
        None => Ok(DirectiveKind::Breaking),
    }
}
