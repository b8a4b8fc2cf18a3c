// The line that says why words are refused.

ghost use Rattle.std.specs.Prelude.{◌≡◌, IfOk};
ghost use Rattle.mao_words.specs.Refused.{line_at, script_line, refusal_line};

use crate::asked::Refusal;
use itoa::Buffer;
use pass_script::ScriptFault;
use std::alloc::{AllocError, Global};

fn line_at(alloc: Global, cause: &[u8], place: usize) -> Result<Vec<u8>, AllocError>
    ensures { IfOk result (λ line. line.items ≡ line_at cause.now place) }
{
    let mut buffer = Buffer::new();
    let mut line = Vec::from_slice(alloc, b"mao: script: ")?;
    line.extend_from_slice(cause)?;
    line.extend_from_slice(b" at ")?;
    line.extend_from_slice(buffer.format(place).as_bytes())?;
    line.extend_from_slice(b"\n")?;
    Ok(line)
}

fn script_line(alloc: Global, fault: ScriptFault) -> Result<Vec<u8>, AllocError>
    ensures { IfOk result (λ line. line.items ≡ script_line fault) }
{
    match fault {
        ScriptFault::UnknownPass { place } => line_at(alloc, b"unknown pass", place),
        ScriptFault::UnknownOption { place } => line_at(alloc, b"unknown option", place),
        ScriptFault::BadNumber { place } => line_at(alloc, b"bad number", place),
        ScriptFault::Malformed { place } => line_at(alloc, b"malformed", place),
        ScriptFault::NoMemory => Vec::from_slice(alloc, b"mao: out of memory\n"),
    }
}

/// The line that says why words are refused, with the newline at its end: `mao: usage`, or of a script `mao: script:`
/// with the fault and its place in bytes from 0, as `mao: script: bad number at 14`.
pub fn refusal_line(alloc: Global, refusal: Refusal) -> Result<Vec<u8>, AllocError>
    ensures { IfOk result (λ line. line.items ≡ refusal_line refusal) }
{
    match refusal {
        Refusal::Words => Vec::from_slice(alloc, b"mao: usage\n"),
        Refusal::Script(fault) => script_line(alloc, fault),
        Refusal::NoMemory => Vec::from_slice(alloc, b"mao: out of memory\n"),
    }
}
