// A piece cut into its tokens.
ghost use Rattle.std.specs.Prelude.{◌≡◌, ◌<◌, ◌≤◌, ◌+◌, ◌-◌, ◌^◌, ◌==◌, ℕ, List, [], ◌∷◌, ◌++◌, length, take, drop, IfOk, OnOk, OnErr, slice_index, false};
ghost use Rattle.std.specs.List.{prefix_len};
ghost use Rattle.att_lexer.specs.Bytes.{is_symbol_byte};
ghost use Rattle.att_lexer.specs.Tokens.{digit_of, number_in, number_of, run_token, text_len, token_of, ends_tokens, tokens_from, is_first_label, counted, tokens_of, AreInOrder};

use crate::bytes::{is_blank, is_digit, is_symbol_byte};
use crate::lanes::symbol_run;
use crate::scan::is_label_front;
use std::alloc::{AllocError, Global};
use std::marker::Model;

/// What a token is.
#[derive(Clone, Copy, Debug, PartialEq, Eq)]
pub enum TokenKind {
    /// A symbol (GNU as manual, "Symbols").
    Word,
    /// An integer below 2^64 (GNU as manual, "Integers").
    Number,
    /// A string with its quotes (GNU as manual, "Strings").
    Text,
    /// Any other byte that is no blank.
    Mark,
    /// A run that begins with a digit and is no number.
    Odd,
}

/// A token: its first byte and its length in the piece, and the value of a number, 0 for all else.
#[derive(Clone, Copy, Debug, PartialEq, Eq)]
pub struct Token {
    pub kind: TokenKind,
    pub start: u32,
    pub len: u32,
    pub value: u64,
}

// For how many tokens room is made at first: few lines have more.
const ROOM: usize = 16;

/// A list of tokens, seen by contracts as a list.
#[derive(Drop)]
pub struct TokenList {
    items: Vec<Token>,
}

impl Model for TokenList {
    ghost use Rattle.std.specs.Prelude.{List};
    ghost use Rattle.att_lexer.specs.declared.token.Token.{Token};

    ghost Value = { List Token };

    ghost view = { λ l. l.items.items };
}

impl TokenList {
    /// The list of no tokens.
    pub fn new(alloc: Global) -> TokenList
        ensures { result ≡ [] }
    {
        TokenList {
            items: Vec::new(alloc),
        }
    }

    /// Lets all tokens go, and keeps the room.
    pub fn clear(&mut self)
        ensures { self.new ≡ [] }
    {
        self.items.clear();
    }

    /// Appends `x`, or changes nothing where memory is wanting.
    pub fn push(&mut self, x: Token) -> Result<(), AllocError>
        ensures ok { OnOk result (self.new ≡ self.old ++ x ∷ []) }
        ensures err { OnErr result (self.new ≡ self.old) }
    {
        if self.items.is_empty() {
            self.items.reserve(ROOM)?;
        }
        self.items.push(x)?;
        Ok(())
    }

    /// The tokens in order.
    pub fn as_slice(&self) -> &[Token]
        ensures { result.now ≡ self.now }
    {
        &self.items
    }
}

#[tactic(auto, unfolding(crate::specs::Tokens::digit_of, crate::specs::Bytes::is_digit))]
fn digit_of(b: u8) -> u64
    ensures value { result ≡ digit_of b }
    ensures bound { result ≤ 16 }
{
    if is_digit(b) {
        (b - b'0') as u64
    } else if b >= b'a' && b <= b'f' {
        (b - b'a' + 10) as u64
    } else if b >= b'A' && b <= b'F' {
        (b - b'A' + 10) as u64
    } else {
        16
    }
}

// The number that digits of a base stand for.
#[tactic(auto, using(crate::proofs::Numbers::number_in_some, crate::proofs::Numbers::value_too_large))]
fn number_in(base: u64, digits: &[u8]) -> Option<u64>
    requires { (2 ≤ base) × (base ≤ 16) }
    ensures { result ≡ number_in base digits.now }
{
    if digits.is_empty() {
        return None;
    }
    let mut value: u64 = 0;
    for b in digits {
        let digit = digit_of(*b);
        if digit >= base {
            return None;
        }
        value = value.checked_mul(base)?.checked_add(digit)?;
    }
    Some(value)
}

#[tactic(auto, unfolding(crate::specs::Tokens::number_of))]
fn number_of(run: &[u8]) -> Option<u64>
    ensures { result ≡ number_of run.now }
{
    match run {
        [] => None,
        [b'0', b'x' | b'X', digits @ ..] => number_in(16, digits),
        [b'0', b'b' | b'B', digits @ ..] => number_in(2, digits),
        [b'0', _, ..] => number_in(8, &run[1..]),
        _ => number_in(10, run),
    }
}

// How many bytes of a string follow its first quote.
fn text_len(bytes: &[u8]) -> usize
    ensures value { result ≡ text_len false bytes.now }
    ensures bound { result ≤ length bytes.now }
{
    let mut escaped = false;
    for (i, b) in bytes.iter().enumerate() {
        if *b == b'\n' {
            return i;
        }
        if !escaped && *b == b'"' {
            return i + 1;
        }
        escaped = !escaped && *b == b'\\';
    }
    bytes.len()
}

/// Whether the whole is blanks, a symbol or a run of digits, and `:`.
#[inline]
pub fn is_first_label(piece: &[u8]) -> bool
    ensures { result ≡ is_first_label piece.now }
{
    match piece {
        [front @ .., b':'] => is_label_front(front),
        _ => false,
    }
}

// All but the `:` of a first label.
fn counted(piece: &[u8]) -> &[u8]
    ensures { result.now ≡ counted piece.now }
{
    if is_first_label(piece) {
        &piece[..piece.len() - 1]
    } else {
        piece
    }
}

// The token that a run of symbol bytes is.
fn run_token(start: u32, run: &[u8]) -> Token
    requires some { 0 < length run.now }
    requires fits { length run.now < 2 ^ 32 }
    ensures { result ≡ run_token start run.now }
{
    let len = run.len() as u32;
    let (kind, value) = if !is_digit(run[0]) {
        (TokenKind::Word, 0)
    } else {
        match number_of(run) {
            Some(value) => (TokenKind::Number, value),
            None => (TokenKind::Odd, 0),
        }
    };
    Token {
        kind,
        start,
        len,
        value,
    }
}

// The token that stands in front.
#[tactic(auto, unfolding(crate::specs::Tokens::token_of))]
fn token_at(start: u32, rest: &[u8]) -> Token
    requires some { 0 < length rest.now }
    requires fits { start + length rest.now < 2 ^ 32 }
    ensures value { result ≡ token_of start (slice_index rest.now 0) (drop 1 rest.now) }
    ensures not_empty { 0 < result.len }
    ensures in_range { result.len ≤ length rest.now }
{
    let first = rest[0];
    if first == b'"' {
        let len = 1 + text_len(&rest[1..]);
        Token {
            kind: TokenKind::Text,
            start,
            len: len as u32,
            value: 0,
        }
    } else if is_symbol_byte(first) && first != b'$' {
        run_token(start, &rest[..symbol_run(rest)])
    } else {
        Token {
            kind: TokenKind::Mark,
            start,
            len: 1,
            value: 0,
        }
    }
}

#[tactic(auto, unfolding(crate::specs::Tokens::ends_tokens))]
fn ends_tokens(b: u8) -> bool
    ensures { result ≡ ends_tokens b }
{
    b == b'\n' || b == b';' || b == b'#'
}

/// Takes the tokens of a piece of fewer than 2^32 bytes, in order, in one walk, in place of those that the list has: its
/// room is kept from piece to piece. What follows a newline or a `;` outside strings and comments doesn't count; nor do
/// comments. Where memory is wanting, the list has the first few of them.
pub fn take_tokens(out: &mut TokenList, piece: &[u8]) -> Result<(), AllocError>
    requires { length piece.now < 2 ^ 32 }
    ensures tokens { OnOk result (out.new ≡ tokens_of piece.now) }
    ensures in_order { OnOk result (AreInOrder 0 (length piece.now) out.new) }
    ensures part { OnErr result ((n : ℕ) × (out.new ≡ take n (tokens_of piece.now))) }
{
    let text = counted(piece);
    out.clear();
    let mut at = 0;
    while at < text.len() && !ends_tokens(text[at]) {
        if is_blank(text[at]) {
            at += 1;
        } else {
            let token = token_at(at as u32, &text[at..]);
            out.push(token)?;
            at += token.len as usize;
        }
    }
    Ok(())
}

/// The tokens of a piece, as [`take_tokens`] takes them.
pub fn tokens(alloc: Global, piece: &[u8]) -> Result<TokenList, AllocError>
    requires { length piece.now < 2 ^ 32 }
    ensures tokens { IfOk result (λ ts. ts ≡ tokens_of piece.now) }
    ensures in_order { IfOk result (λ ts. AreInOrder 0 (length piece.now) ts) }
{
    let mut out = TokenList::new(alloc);
    take_tokens(&mut out, piece)?;
    Ok(out)
}
