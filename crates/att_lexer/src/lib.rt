//! Assembly text cut into pieces, and pieces into tokens.
#![tactic(auto)]

mod bytes;
mod lanes;
mod pieces;
mod scan;
mod token;

pub use bytes::{is_blank, is_symbol_byte};
pub use lanes::stop_from;
pub use pieces::{
    CutFault, CutFreeze, MAX_BYTES, MAX_PIECES, Pieces, Span, SpanList, cut_pieces,
    pieces_of_a_text, pieces_that_are_left,
};
pub use token::{Token, TokenKind, TokenList, is_first_label, take_tokens, tokens};

#[cfg(test)]
mod tests;
