// Cuts standard input and reads each entry, as the program does, and keeps none: bench/ratios.py times what reading alone
// takes.
#![tactic(auto)]

ghost use Rattle.std.specs.Prelude.{◌≤◌, length, IfOk};

use att_lexer::{CutFault, MAX_BYTES, Span, cut_pieces};
use att_reader::EntryReader;
use std::alloc::{AllocError, Global};
use std::io::{self, Read};
use std::mem;

/// The bytes that one call of a reader may give.
const ROOM: usize = 65_536;

// Reads the entries of a text, one after another. None is kept, and none is freed, as the program frees none.
fn read_each(alloc: Global, text: &[u8], spans: &[Span]) -> Result<usize, AllocError> {
    let mut reader = EntryReader::new(alloc);
    let mut entries = Vec::with_capacity(alloc, 1)?;
    for span in spans {
        let start = (span.start as usize).min(text.len());
        let end = (start + span.len as usize).min(text.len());
        reader.read_onto(alloc, &mut entries, &text[start..end], 1)?;
        if let Some(entry) = entries.pop() {
            mem::forget(entry);
        }
    }
    Ok(spans.len())
}

// How many entries a text has, where each is read.
fn count_entries(alloc: Global, text: &[u8]) -> Result<usize, CutFault>
    requires { length text.now ≤ MAX_BYTES }
{
    let cut = cut_pieces(alloc, text)?;
    match read_each(alloc, text, cut.spans.as_slice()) {
        Ok(count) => Ok(count),
        Err(_) => Err(CutFault::NoMemory),
    }
}

// The bytes that a reader has left, up to the longest text, by way of a room, as the program takes them.
fn read_text<R: Read>(alloc: Global, reader: &mut R) -> io::Result<Vec<u8>>
    ensures { IfOk result (λ text. length text.items ≤ MAX_BYTES) }
{
    let mut room = vec![in alloc; 0u8; ROOM]?;
    let mut text = Vec::new(alloc);
    // Each call gives a byte or the end.
    for _ in 0..MAX_BYTES {
        let count = reader.read(&mut room)?;
        if count == 0 || MAX_BYTES <= text.len() {
            break;
        }
        text.extend_from_slice(&room[..count])?;
    }
    text.truncate(MAX_BYTES);
    Ok(text)
}

fn main(rt: HostRuntime) -> io::Result<()> {
    let text = read_text(rt.alloc(), &mut rt.stdin())?;
    match count_entries(rt.alloc(), &text) {
        Ok(count) => println!(rt; "{count} entries"),
        Err(_) => println!(rt; "not read"),
    }
}
