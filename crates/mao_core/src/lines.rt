// The lines of pieces.
ghost use Rattle.std.specs.Prelude.{◌≡◌, ◌+◌, ◌-◌, ◌^◌, ◌<◌, ◌≤◌, ◌==◌, length, count_by, IfOk};
ghost use Rattle.att_lexer.specs.Pieces.{NoneEarlier, pieces, spans_of};
ghost use Rattle.asm_writer.specs.Unit.{bytes_at};
ghost use Rattle.mao_core.specs.Pieces.{LieWithin};
ghost use Rattle.mao_core.specs.Notes.{lines_from};

use att_lexer::Span;
use std::alloc::{AllocError, Global};

// A newline ends a piece, so a piece has one at its end or none.
fn newlines_in(piece: &[u8]) -> u32
    requires { NoneEarlier piece.now }
    ensures value { result ≡ count_by (λ b. b == 10) piece.now }
    ensures few { result ≤ length piece.now }
{
    let Some(last) = piece.last() else {
        return 0;
    };
    if *last == b'\n' { 1 } else { 0 }
}

fn newlines_at(text: &[u8], span: Span) -> u32
    requires within { span.start + span.len ≤ length text.now }
    requires piece { NoneEarlier (bytes_at text.now span) }
    ensures value { result ≡ count_by (λ b. b == 10) (bytes_at text.now span) }
    ensures few { result ≤ span.len }
{
    let start = span.start as usize;
    newlines_in(&text[start..start + span.len as usize])
}

/// The line of each piece of a text, from 1.
pub fn lines_of_pieces(alloc: Global, text: &[u8], spans: &[Span]) -> Result<Vec<u32>, AllocError>
    requires spans { LieWithin text.now spans.now }
    requires cut { spans.now ≡ spans_of 0 (pieces text.now) }
    requires short { length text.now ≤ 33554432 }
    ensures { IfOk result (λ lines. lines.items ≡ lines_from 1 (pieces text.now)) }
{
    let mut lines = Vec::with_capacity(alloc, spans.len())?;
    let mut line: u32 = 1;
    for span in spans {
        lines.push(line)?;
        line += newlines_at(text, *span);
    }
    Ok(lines)
}
