// Lines that were read before.
ghost use Rattle.std.specs.Prelude.{◌≡◌, ◌<◌, IfSome};
ghost use Rattle.att_grammar.specs.Entries.{kind_of_piece};
ghost use Rattle.att_reader.specs.Comments.{IsUpToComment};
ghost use Rattle.att_reader.specs.Plain.{kind_of};

use crate::plain::{PlainKind, plain_kind};
use att_lexer::stop_from;
use insn_ir::EntryKind;
use std::alloc::{AllocError, Global};
use std::hash::{FoldHasher, Hasher};

// How many lines are kept: each in the place of its hash, where the last that came stays.
const PLACES: usize = 4096;

// Longer lines seldom come again, but for what stands before their comments.
const LONGEST: usize = 64;

// A line, and what it is.
#[derive(Drop)]
struct KnownLine {
    line: Vec<u8>,
    kind: PlainKind,
    ghost tells: { kind_of kind ≡ kind_of_piece line.items },
}

/// Lines that name no symbol, with what they are: compilers write many of them again and again.
#[derive(Drop)]
pub struct KnownLines {
    // None, or as many as there are places.
    lines: Vec<KnownLine>,
}

// The place of a line.
#[inline]
fn place_of(line: &[u8]) -> usize
    ensures { result < 4096 }
{
    let mut hasher = FoldHasher::default();
    hasher.write(line);
    hasher.finish() as usize % PLACES
}

// A line up to the `#` of its comment, where that comes early.
#[inline]
fn up_to_comment(line: &[u8]) -> Option<&[u8]>
    ensures { IfSome result (λ front. IsUpToComment front.now line.now) }
{
    let at = stop_from(line, 0);
    if LONGEST <= at || line.len() <= at || line[at] != b'#' {
        return None;
    }
    Some(&line[..at + 1])
}

impl KnownLine {
    // The line of no bytes.
    fn none(alloc: Global) -> KnownLine {
        KnownLine {
            line: Vec::new(alloc),
            kind: PlainKind::Blank,
        }
    }
}

impl KnownLines {
    /// No lines.
    pub fn new(alloc: Global) -> KnownLines {
        KnownLines {
            lines: Vec::new(alloc),
        }
    }

    // What a line that may be kept is, if it is known.
    #[inline(always)]
    fn kept(&self, line: &[u8]) -> Option<&PlainKind>
        ensures { IfSome result (λ k. kind_of k.now ≡ kind_of_piece line.now) }
    {
        let place = place_of(line);
        if self.lines.len() <= place {
            return None;
        }
        let known = &self.lines[place];
        if known.line.as_slice() == line {
            Some(&known.kind)
        } else {
            None
        }
    }

    // What a line with a comment is, if it is an instruction that is known up to the comment.
    fn kept_up_to_comment(&self, line: &[u8]) -> Option<&PlainKind>
        ensures { IfSome result (λ k. kind_of k.now ≡ kind_of_piece line.now) }
    {
        let front = up_to_comment(line)?;
        let kind = self.kept(front)?;
        match kind {
            PlainKind::Insn(_) => Some(kind),
            _ => None,
        }
    }

    /// What a line is, if it is known.
    #[inline]
    pub fn find(&self, line: &[u8]) -> Option<&PlainKind>
        ensures { IfSome result (λ k. kind_of k.now ≡ kind_of_piece line.now) }
    {
        if line.len() <= LONGEST {
            self.kept(line)
        } else {
            self.kept_up_to_comment(line)
        }
    }

    // Makes room for as many lines as there are places.
    fn reserve(&mut self, alloc: Global) -> Result<(), AllocError> {
        self.lines.reserve(PLACES)?;
        for _ in self.lines.len()..PLACES {
            self.lines.push(KnownLine::none(alloc))?;
        }
        Ok(())
    }

    // Keeps what a line is, if it names no symbol.
    fn keep(&mut self, alloc: Global, line: &[u8], kind: &EntryKind) -> Result<(), AllocError>
        requires { kind.now ≡ kind_of_piece line.now }
    {
        let Some(kind) = plain_kind(kind) else {
            return Ok(());
        };
        if self.lines.is_empty() {
            self.reserve(alloc)?;
        }
        let place = place_of(line);
        if place < self.lines.len() {
            self.lines[place] = KnownLine {
                line: Vec::from_slice(alloc, line)?,
                kind,
            };
        }
        Ok(())
    }

    /// Keeps what a line is, if it names no symbol and there is memory for it. Of a long line an instruction is kept with the
    /// `#` of the comment behind it, whatever the comment says.
    pub fn note(&mut self, alloc: Global, line: &[u8], kind: &EntryKind)
        requires { kind.now ≡ kind_of_piece line.now }
    {
        // A line that isn't kept is read anew when it comes again: want of memory is no fault here.
        if line.len() <= LONGEST {
            let _ = self.keep(alloc, line, kind);
        } else if let EntryKind::Insn(_) = kind
            && let Some(front) = up_to_comment(line)
        {
            let _ = self.keep(alloc, front, kind);
        }
    }
}
