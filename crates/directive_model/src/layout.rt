// Sections and alignments.
ghost use Rattle.std.specs.Prelude.{◌≡◌, ◌+◌, ◌≤◌, ◌==◌, length, List, ℕ, IfOk, IfSome, IsTrue, ◌<◌, ◌^◌, nat_lt};
ghost use Rattle.std.specs.List.{take_while, prefix_len, list_any};
ghost use Rattle.att_grammar.specs.Lexemes.{AreReadable};
ghost use Rattle.att_grammar.specs.Directives.{is_code_name, section, is_section_byte, tokens_at, flags_of, flagged_section, section_of, small_power, power_of, power_by, max_of, fill_of, padding_of, aligned_of};

use att_grammar::Cursor;
use att_lexer::Token;
use insn_ir::{DirectiveKind, Name};
use std::alloc::{AllocError, Global};

fn is_code_name(name: &[u8]) -> bool
    ensures { result ≡ is_code_name name.now }
{
    name == b".text".as_slice() || name.starts_with(b".text.")
}

/// The section of a name, which has code by its name or by its flags.
pub fn section(alloc: Global, name: &[u8], flagged: bool) -> Result<DirectiveKind, AllocError>
    ensures { IfOk result (λ kind. kind ≡ section name.now flagged) }
{
    Ok(DirectiveKind::Section {
        name: Name::from_slice(alloc, name)?,
        code: is_code_name(name) || flagged,
    })
}

#[tactic(auto, unfolding(att_grammar::specs::Directives::is_section_byte, att_lexer::specs::Bytes::is_blank, att_lexer::specs::Tokens::ends_tokens))]
fn is_section_byte(b: u8) -> bool
    ensures { result ≡ is_section_byte b }
{
    !matches!(b, b' ' | b'\t' | b'\r' | b',' | b'"' | b'\n' | b';' | b'#')
}

// How long the name of a section in front is.
fn section_name_len(bytes: &[u8]) -> usize
    ensures value { result ≡ prefix_len is_section_byte bytes.now }
    ensures bound { result ≤ length bytes.now }
{
    bytes.iter().take_while(|b| is_section_byte(**b)).count()
}

// How many tokens in front begin before a place.
fn tokens_before(place: usize, tokens: &[Token]) -> usize
    ensures value { result ≡ prefix_len (λ t. nat_lt t.start place) tokens.now }
    ensures bound { result ≤ length tokens.now }
{
    tokens
        .iter()
        .take_while(|t| (t.start as usize) < place)
        .count()
}

// The tokens that begin at a place or behind it.
fn tokens_at(place: usize, tokens: &[Token]) -> &[Token]
    ensures { result.now ≡ tokens_at place tokens.now }
{
    let (_, behind) = tokens.split_at(tokens_before(place, tokens));
    behind
}

// Whether the flags behind a name say that the section has code.
#[tactic(auto, unfolding(att_grammar::specs::Directives::flags_of))]
fn flags(behind: &Cursor) -> Option<bool>
    ensures { result ≡ flags_of behind.now }
{
    if behind.is_at_end() {
        return Some(false);
    }
    let (flags, _) = behind.expect(b',')?.text()?;
    Some(flags.bytes().contains(&b'x'))
}

/// The section that is named behind `.section`.
#[tactic(auto, unfolding(att_grammar::specs::Directives::section_of))]
pub fn named_section(
    alloc: Global,
    piece: &[u8],
    operands: &[Token],
) -> Result<DirectiveKind, AllocError>
    requires { AreReadable piece.now operands.now }
    ensures { IfOk result (λ kind. kind ≡ section_of piece.now operands.now) }
{
    let [first, ..] = operands else {
        return Ok(DirectiveKind::Breaking);
    };
    let start = first.start as usize;
    let bytes = &piece[start..];
    let (name, _) = bytes.split_at(section_name_len(bytes));
    if name.is_empty() {
        return Ok(DirectiveKind::Breaking);
    }
    match flags(&Cursor::new(piece, tokens_at(start + name.len(), operands))) {
        Some(flagged) => section(alloc, name, flagged),
        None => Ok(DirectiveKind::Breaking),
    }
}

#[tactic(auto, unfolding(att_grammar::specs::Directives::power_of))]
fn power_of(n: u64) -> Option<u8>
    ensures { result ≡ power_of n }
{
    match n {
        1 => Some(0),
        2 => Some(1),
        4 => Some(2),
        8 => Some(3),
        16 => Some(4),
        32 => Some(5),
        64 => Some(6),
        128 => Some(7),
        256 => Some(8),
        512 => Some(9),
        1024 => Some(10),
        2048 => Some(11),
        4096 => Some(12),
        _ => None,
    }
}

// The power that is written, or that of a number of bytes.
fn power_by(by_power: bool, n: u64) -> Option<u8>
    ensures { result ≡ power_by by_power n }
{
    if !by_power {
        power_of(n)
    } else if n <= 12 {
        Some(n as u8)
    } else {
        None
    }
}

// The most bytes that an alignment may take, and nothing behind.
#[tactic(auto, unfolding(att_grammar::specs::Directives::max_of))]
fn max(at: &Cursor) -> Option<u32>
    ensures { result ≡ max_of at.now }
{
    let (n, rest) = at.number()?;
    if rest.is_at_end() && n < 1 << 32 {
        Some(n as u32)
    } else {
        None
    }
}

// `fill` or `fill,max`.
#[tactic(auto, unfolding(att_grammar::specs::Directives::fill_of))]
fn fill(at: &Cursor) -> Option<(Option<u64>, Option<u32>)>
    ensures { result ≡ fill_of at.now }
{
    let (fill, rest) = at.number()?;
    if rest.is_at_end() {
        return Some((Some(fill), None));
    }
    Some((Some(fill), Some(max(&rest.expect(b',')?)?)))
}

// Nothing, `,fill`, `,,max` or `,fill,max`.
#[tactic(auto, unfolding(att_grammar::specs::Directives::padding_of))]
fn padding(at: &Cursor) -> Option<(Option<u64>, Option<u32>)>
    ensures { result ≡ padding_of at.now }
{
    if at.is_at_end() {
        return Some((None, None));
    }
    let rest = at.expect(b',')?;
    match rest.expect(b',') {
        Some(behind) => Some((None, Some(max(&behind)?))),
        None => fill(&rest),
    }
}

/// The alignment by a power, or by a number of bytes.
#[tactic(auto, unfolding(att_grammar::specs::Directives::aligned_of))]
pub fn alignment(by_power: bool, at: &Cursor) -> Option<DirectiveKind>
    ensures { result ≡ aligned_of by_power at.now }
{
    let (n, rest) = at.number()?;
    let power = power_by(by_power, n)?;
    let (fill, max) = padding(&rest)?;
    Some(DirectiveKind::Align { power, fill, max })
}
