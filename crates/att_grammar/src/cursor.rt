// The reader of lexemes: what is left of the tokens of a piece.
ghost use Rattle.std.specs.Prelude.{◌≡◌, ◌^◌, ◌<◌, ◌≤◌, not, [], ◌∷◌, ◌++◌, length, MatchOption, IfOk, IfSome};
ghost use Rattle.std.specs.List.{prefix_len};
ghost use Rattle.att_grammar.specs.Lexemes.{content, says_all, LiesIn, LieIn, AreReadable};
ghost use Rattle.att_grammar.specs.Seen.{says};
ghost use Rattle.att_grammar.specs.Notions.{expect, word_of, number_of, text_of, this_word, is_end, only_word, words_in};
ghost use Rattle.att_grammar.specs.Expressions.{name_of};
ghost use Rattle.att_grammar.specs.Directives.{is_comma, is_assignment, cut_at_commas};

use crate::seen::{Seen, read_token};
use crate::syntax::Word;
use att_lexer::Token;
use insn_ir::{Name, NameList};
use std::alloc::{AllocError, Global};
use std::marker::Model;

/// What is left of the tokens of a piece, seen as what they say.
#[derive(Drop)]
pub struct Cursor<'a> {
    piece: &'a [u8],
    tokens: &'a [Token],
}

impl<'a> Model for Cursor<'a> {
    ghost use Rattle.std.specs.Prelude.{List};
    ghost use Rattle.att_grammar.specs.Lexemes.{Lexeme, AreReadable, says_all};

    ghost Value = { List Lexeme };

    ghost view = { λ c. says_all c.piece.now c.tokens.now };

    ghost invariant = { λ c. AreReadable c.piece.now c.tokens.now };
}

impl<'a> Cursor<'a> {
    /// All that these tokens of a piece say.
    pub fn new(piece: &'a [u8], tokens: &'a [Token]) -> Cursor<'a>
        requires { AreReadable piece.now tokens.now }
        ensures { result ≡ says_all piece.now tokens.now }
    {
        Cursor { piece, tokens }
    }

    /// What stands in front, and what follows it.
    pub fn first(&self) -> Option<(Seen<'a>, Cursor<'a>)>
        ensures { MatchOption result (self.now ≡ []) (λ r. self.now ≡ says r.0 ∷ r.1) }
    {
        match self.tokens {
            [] => None,
            [first, rest @ ..] => {
                let piece = self.piece;
                Some((
                    read_token(piece, *first),
                    Cursor {
                        piece,
                        tokens: rest,
                    },
                ))
            }
        }
    }

    /// How many lexemes are left.
    #[tactic(auto, using(crate::proofs::Cursors::says_length))]
    pub fn len(&self) -> usize
        ensures value { result ≡ length self.now }
        ensures few { length self.now < 2 ^ 32 }
    {
        self.tokens.len()
    }

    /// Whether nothing is left.
    pub fn is_at_end(&self) -> bool
        ensures { result ≡ is_end self.now }
    {
        self.tokens.is_empty()
    }

    /// What follows this mark.
    #[tactic(auto, unfolding(crate::specs::Notions::expect))]
    pub fn expect(&self, b: u8) -> Option<Cursor<'a>>
        ensures { result ≡ expect b self.now }
    {
        match self.first()? {
            (Seen::Mark(m), rest) => { if m == b { Some(rest) } else { None } }
            (Seen::Word(_) | Seen::Number(_) | Seen::Text(_) | Seen::Odd(_), _) => None,
        }
    }

    /// The word in front, and what follows it.
    #[tactic(auto, unfolding(crate::specs::Notions::word_of))]
    pub fn word(&self) -> Option<(Word<'a>, Cursor<'a>)>
        ensures { result ≡ word_of self.now }
    {
        match self.first()? {
            (Seen::Word(bytes), rest) => Some((Word::new(bytes), rest)),
            (Seen::Mark(_) | Seen::Number(_) | Seen::Text(_) | Seen::Odd(_), _) => None,
        }
    }

    /// The number in front, and what follows it.
    #[tactic(auto, unfolding(crate::specs::Notions::number_of))]
    pub fn number(&self) -> Option<(u64, Cursor<'a>)>
        ensures { result ≡ number_of self.now }
    {
        match self.first()? {
            (Seen::Number(value), rest) => Some((value, rest)),
            (Seen::Mark(_) | Seen::Word(_) | Seen::Text(_) | Seen::Odd(_), _) => None,
        }
    }

    /// The string in front with its quotes, and what follows it.
    #[tactic(auto, unfolding(crate::specs::Notions::text_of))]
    pub fn text(&self) -> Option<(Word<'a>, Cursor<'a>)>
        ensures { result ≡ text_of self.now }
    {
        match self.first()? {
            (Seen::Text(bytes), rest) => Some((Word::new(bytes), rest)),
            (Seen::Mark(_) | Seen::Number(_) | Seen::Word(_) | Seen::Odd(_), _) => None,
        }
    }

    /// What follows this word.
    #[tactic(auto, unfolding(crate::specs::Notions::this_word))]
    pub fn this_word(&self, bytes: &[u8]) -> Option<Cursor<'a>>
        ensures { result ≡ this_word bytes.now self.now }
    {
        let (word, rest) = self.word()?;
        if bytes == word.bytes() {
            Some(rest)
        } else {
            None
        }
    }

    /// The name in front, which is no `.`, and what follows it.
    #[tactic(auto, unfolding(crate::specs::Expressions::name_of))]
    pub fn name(&self) -> Option<(Word<'a>, Cursor<'a>)>
        ensures { result ≡ name_of self.now }
    {
        let (word, rest) = self.word()?;
        if word.bytes() == b".".as_slice() {
            None
        } else {
            Some((word, rest))
        }
    }

    /// The word that stands alone.
    pub fn only_word(&self) -> Option<Word<'a>>
        ensures { result ≡ only_word self.now }
    {
        let (word, rest) = self.word()?;
        if rest.is_at_end() { Some(word) } else { None }
    }

    /// Whether the second lexeme is `=` (GNU as manual, "Setting Symbols").
    pub fn is_assignment(&self) -> bool
        ensures { result ≡ is_assignment self.now }
    {
        let Some((_, rest)) = self.first() else {
            return false;
        };
        match rest.first() {
            Some((Seen::Mark(b), _)) => b == b'=',
            Some((Seen::Word(_) | Seen::Number(_) | Seen::Text(_) | Seen::Odd(_), _)) | None => {
                false
            }
        }
    }

    /// The words that are left, copied.
    pub fn words(&self, alloc: Global) -> Result<NameList, AllocError>
        ensures { IfOk result (λ names. names ≡ words_in self.now) }
    {
        let mut names = NameList::new(alloc);
        let mut rest = Cursor {
            piece: self.piece,
            tokens: self.tokens,
        };
        while let Some((seen, next)) = rest.first() {
            if let Seen::Word(bytes) = seen {
                names.push(Name::from_slice(alloc, bytes)?)?;
            }
            rest = next;
        }
        Ok(names)
    }

    /// What stands before the first comma, and what follows it where there is one.
    #[tactic(auto, using(crate::proofs::Cursors::cut_last, crate::proofs::Cursors::cut_more, crate::proofs::Cursors::says_length))]
    pub fn to_comma(&self) -> (Cursor<'a>, Option<Cursor<'a>>)
        ensures cut { MatchOption result.1 (cut_at_commas self.now ≡ result.0 ∷ [])
            (λ rest. cut_at_commas self.now ≡ result.0 ∷ cut_at_commas rest) }
        ensures shorter { IfSome result.1 (λ rest. length rest < length self.now) }
    {
        let piece = self.piece;
        let (front, behind) = self
            .tokens
            .split_at(tokens_before_comma(piece, self.tokens));
        let front = Cursor {
            piece,
            tokens: front,
        };
        match behind {
            [] => (front, None),
            [_, rest @ ..] => (
                front,
                Some(Cursor {
                    piece,
                    tokens: rest,
                }),
            ),
        }
    }
}

// How many tokens stand before the first comma.
fn tokens_before_comma(piece: &[u8], tokens: &[Token]) -> usize
    requires { LieIn piece.now tokens.now }
    ensures value { result ≡ prefix_len (λ t. not (is_comma (content piece.now t))) tokens.now }
    ensures bound { result ≤ length tokens.now }
{
    for (i, token) in tokens.iter().enumerate() {
        if is_comma(piece, *token) {
            return i;
        }
    }
    tokens.len()
}

// Whether a token is the mark `,`.
fn is_comma(piece: &[u8], token: Token) -> bool
    requires { LiesIn piece.now token }
    ensures { result ≡ is_comma (content piece.now token) }
{
    match read_token(piece, token) {
        Seen::Mark(b) => b == b',',
        Seen::Word(_) | Seen::Number(_) | Seen::Text(_) | Seen::Odd(_) => false,
    }
}
