// What a token says, as a value that code can match on.
ghost use Rattle.std.specs.Prelude.{◌≡◌, ◌<◌, ◌≤◌, ◌+◌, length};
ghost use Rattle.att_grammar.specs.Lexemes.{content};
ghost use Rattle.att_grammar.specs.Seen.{says};

use att_lexer::{Token, TokenKind};

/// What a token says.
#[derive(Clone, Copy, Debug)]
pub enum Seen<'a> {
    Word(&'a [u8]),
    Number(u64),
    Text(&'a [u8]),
    Mark(u8),
    Odd(&'a [u8]),
}

/// What a token of a piece says.
pub fn read_token<'a>(piece: &'a [u8], token: Token) -> Seen<'a>
    requires some { 0 < token.len }
    requires in_range { token.start + token.len ≤ length piece.now }
    ensures { says result ≡ content piece.now token }
{
    let start = token.start as usize;
    let bytes = &piece[start..start + token.len as usize];
    match token.kind {
        TokenKind::Word => Seen::Word(bytes),
        TokenKind::Number => Seen::Number(token.value),
        TokenKind::Text => Seen::Text(bytes),
        TokenKind::Mark => Seen::Mark(bytes[0]),
        TokenKind::Odd => Seen::Odd(bytes),
    }
}
