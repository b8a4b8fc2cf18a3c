// A text cut into its pieces.
ghost use Rattle.std.specs.Prelude.{◌≡◌, ◌&&◌, ◌+◌, ◌<◌, ◌≤◌, ℕ, Bool, List, [], ◌∷◌, ◌++◌, length, take, drop, IsTrue, IfOk, IfErr, OnOk, OnErr, None};
ghost use Rattle.std.specs.List.{concat, prefix_len};
ghost use Rattle.att_lexer.specs.Bytes.{is_freeze_byte};
ghost use Rattle.att_lexer.specs.Scan.{is_plain, ends};
ghost use Rattle.att_lexer.specs.Walk.{past, front_scan, found_at, found_in_all, is_passed, IsFront, IsThawed};
ghost use Rattle.att_lexer.specs.Chosen.{chosen};
ghost use Rattle.att_lexer.specs.Pieces.{ArePieces, pieces, spans_of, freeze_of, first_freeze, at_serial, IsCauseOf};

use crate::bytes::is_freeze_byte;
use crate::lanes::{hit_from, stop_from};
use crate::scan::{Place, is_label_front};
use std::alloc::{AllocError, Global};
use std::marker::Model;

/// The most bytes that a text may have.
pub const MAX_BYTES: usize = 33_554_432;

/// The most pieces that a text may have.
pub const MAX_PIECES: usize = 2_000_000;

/// A part of a text: where it begins and how long it is, in bytes.
#[derive(Clone, Copy, Debug, PartialEq, Eq)]
pub struct Span {
    pub start: u32,
    pub len: u32,
}

/// A list of spans, seen by contracts as a list.
#[derive(Drop)]
pub struct SpanList {
    items: Vec<Span>,
}

impl Model for SpanList {
    ghost use Rattle.std.specs.Prelude.{List};
    ghost use Rattle.att_lexer.specs.declared.pieces.Span.{Span};

    ghost Value = { List Span };

    ghost view = { λ l. l.items.items };
}

impl SpanList {
    /// The list of no spans.
    pub fn new(alloc: Global) -> SpanList
        ensures { result ≡ [] }
    {
        SpanList {
            items: Vec::new(alloc),
        }
    }

    /// Appends `x`, or changes nothing where memory is wanting.
    pub fn push(&mut self, x: Span) -> Result<(), AllocError>
        ensures ok { OnOk result (self.new ≡ self.old ++ x ∷ []) }
        ensures err { OnErr result (self.new ≡ self.old) }
    {
        self.items.push(x)?;
        Ok(())
    }

    /// The spans in order.
    pub fn as_slice(&self) -> &[Span]
        ensures { result.now ≡ self.now }
    {
        &self.items
    }
}

/// The serial of a piece that keeps a file as it is, from 1, and the byte that does it.
#[derive(Clone, Copy, Debug, PartialEq, Eq)]
pub struct CutFreeze {
    pub serial: u32,
    pub byte: u8,
}

/// The pieces of a text by place, and the first byte that keeps the file as it is: `'`, `/`, a backquote or `\` outside
/// strings and comments, or `"` where a string is open at the end of its piece.
#[derive(Drop)]
pub struct Pieces {
    pub spans: SpanList,
    pub freeze: Option<CutFreeze>,
}

/// Why a text was not cut.
#[derive(Clone, Copy, Debug, PartialEq, Eq)]
pub enum CutFault {
    /// There are more than [`MAX_PIECES`]; `count` is one more than these.
    TooManyPieces { count: u32 },
    /// Memory ran out.
    NoMemory,
}

// The first piece of a text: how long it is, and the first byte of it that keeps a file as it is.
struct Cut {
    len: usize,
    freeze: Option<u8>,
}

// Whether a byte ends the piece behind bytes that are no stops.
#[tactic(auto, unfolding(crate::specs::Scan::ends))]
fn ends_front(front: &[u8], b: u8) -> bool
    ensures { result ≡ ends (front_scan front.now) b }
{
    b == b'\n' || b == b';' || (b == b':' && is_label_front(front))
}

// Whether a byte that stands there keeps a file as it is.
fn freezes(place: Place, b: u8) -> bool
    ensures { result ≡ (is_plain place && is_freeze_byte b) }
{
    place.is_plain() && is_freeze_byte(b)
}

// What was found first, where a byte more stands there.
fn found_at(found: Option<u8>, place: Place, b: u8) -> Option<u8>
    ensures { result ≡ found_at found place b }
{
    match found {
        Some(_) => found,
        None => { if freezes(place, b) { Some(b) } else { None } }
    }
}

// What was found, or `"` where a string is open at the end.
fn found_in_all(found: Option<u8>, place: Place) -> Option<u8>
    ensures { result ≡ found_in_all found place }
{
    match found {
        Some(_) => found,
        None => { if place.is_open() { Some(b'"') } else { None } }
    }
}

// Whether a byte ends the piece behind what can be no first label.
#[tactic(auto, unfolding(crate::specs::Scan::ends))]
fn ends_at(place: Place, b: u8) -> bool
    ensures { result ≡ ends (past place) b }
{
    b == b'\n' || (b == b';' && place.is_plain())
}

// Where the next byte stands that ends the piece, keeps a file as it is or changes the place, or a byte before it.
#[inline]
fn passed(place: Place, text: &[u8], from: usize) -> usize
    requires { from ≤ length text.now }
    ensures value { result ≡ from + prefix_len (is_passed place) (drop from text.now) }
    ensures bound { result ≤ length text.now }
{
    match place {
        Place::Plain => stop_from(text, from),
        Place::InString => hit_from(text, from, b'\n', b'"', b'\\'),
        Place::Escaped => from,
        Place::InComment => hit_from(text, from, b'\n', b'\n', b'\n'),
    }
}

// The first piece, of which the bytes before a place have no end and are no label.
fn cut_on(text: &[u8], from: usize, place: Place, found: Option<u8>) -> Cut
    requires some { 0 < from }
    requires within { from ≤ length text.now }
    requires front { IsFront text.now from (past place) }
    requires thawed { IsThawed text.now from place found }
    ensures some { 0 < result.len }
    ensures in_range { result.len ≤ length text.now }
    ensures first { pieces text.now ≡ take result.len text.now ∷ pieces (drop result.len text.now) }
    ensures freeze { result.freeze ≡ freeze_of (take result.len text.now) }
{
    let mut place = place;
    let mut found = found;
    let mut at = passed(place, text, from);
    while at < text.len() {
        let b = text[at];
        let ended = ends_at(place, b);
        found = found_at(found, place, b);
        place = place.after(b);
        at += 1;
        if ended {
            return Cut {
                len: at,
                freeze: found_in_all(found, place),
            };
        }
        at = passed(place, text, at);
    }
    Cut {
        len: at,
        freeze: found_in_all(found, place),
    }
}

// The first piece, in one walk.
fn first_cut(text: &[u8]) -> Cut
    requires { 0 < length text.now }
    ensures some { 0 < result.len }
    ensures in_range { result.len ≤ length text.now }
    ensures first { pieces text.now ≡ take result.len text.now ∷ pieces (drop result.len text.now) }
    ensures freeze { result.freeze ≡ freeze_of (take result.len text.now) }
{
    let front = stop_from(text, 0);
    if front == text.len() {
        return Cut {
            len: front,
            freeze: None,
        };
    }
    let b = text[front];
    if ends_front(&text[..front], b) {
        return Cut {
            len: front + 1,
            freeze: None,
        };
    }
    let found = found_at(None, Place::Plain, b);
    cut_on(text, front + 1, Place::Plain.after(b), found)
}

/// Cuts a text of at most [`MAX_BYTES`] into its pieces (GNU as manual, "Statements"; cutting behind a first label
/// and the limits are this project's own). The text is walked once.
#[tactic(auto, using(crate::proofs::Cutting::pieces_all, crate::proofs::Cutting::pieces_some))]
pub fn cut_pieces(alloc: Global, text: &[u8]) -> Result<Pieces, CutFault>
    requires { length text.now ≤ MAX_BYTES }
    ensures spans { IfOk result (λ cut. cut.spans ≡ spans_of 0 (pieces text.now)) }
    ensures freeze { IfOk result (λ cut. cut.freeze ≡ first_freeze 1 (pieces text.now)) }
    ensures within { OnOk result (length (pieces text.now) ≤ MAX_PIECES) }
    ensures fault { IfErr result (IsCauseOf (pieces text.now)) }
{
    let mut spans = SpanList::new(alloc);
    let mut freeze = None;
    let mut at = 0;
    while at < text.len() {
        let count = spans.as_slice().len();
        if count == MAX_PIECES {
            return Err(CutFault::TooManyPieces {
                count: MAX_PIECES as u32 + 1,
            });
        }
        let rest = &text[at..];
        let Cut { len, freeze: byte } = first_cut(rest);
        if freeze.is_none() {
            freeze = freeze_at(count as u32 + 1, byte);
        }
        let span = Span {
            start: at as u32,
            len: len as u32,
        };
        if spans.push(span).is_err() {
            return Err(CutFault::NoMemory);
        }
        at += len;
    }
    Ok(Pieces { spans, freeze })
}

fn freeze_at(serial: u32, byte: Option<u8>) -> Option<CutFreeze>
    ensures { result ≡ at_serial serial byte None }
{
    Some(CutFreeze {
        serial,
        byte: byte?,
    })
}

/// Each text has its pieces, and no others.
pub fn pieces_of_a_text()
    ensures some { (text : List ℕ) → ArePieces (pieces text) text }
    ensures only { (ps : List (List ℕ)) (text : List ℕ) → ArePieces ps text → ps ≡ pieces text }
{}

/// Pieces that are left where others go are cut again as they were.
pub fn pieces_that_are_left()
    ensures { (keep : ℕ → Bool) (text : List ℕ) → pieces (concat (chosen keep 1 (pieces text))) ≡ chosen keep 1 (pieces text) }
{}
