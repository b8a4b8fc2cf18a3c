// A source read to its end.
ghost use Rattle.std.specs.Prelude.{◌≡◌, ◌≢◌, ◌<◌, ◌≤◌, ◌+◌, ◌++◌, ℕ, List, length, take, IsTrue, ◌↔◌, IfOk, IfErr, OnOk, OnErr, MatchResult};
ghost use Rattle.std.specs.Io.KnownBytes.{Consumes, IsAtEnd};
ghost use Rattle.mao_core.specs.Input.{IsReadInPart};
ghost use Rattle.mao_core.specs.Input.{StopsReading, IsWhole, ReadsOn};

use mao_outside::Source;
use std::alloc::{AllocError, Global};

/// The most bytes that an input may have.
pub const MAX_BYTES: usize = 33_554_432;

/// The bytes that one call of a source may give.
pub const ROOM: usize = 65_536;

#[derive(Clone, Copy, Debug, PartialEq, Eq)]
pub enum InputFault {
    Fault,
    TooBig,
    NoMemory,
}

// One read more. It says how many bytes came: none at the end alone.
fn read_on<S: Source>(
    source: &mut S,
    room: &mut [u8],
    text: &mut Vec<u8>,
) -> Result<usize, InputFault>
    requires room { length room.old ≡ 65536 }
    requires text { length text.old.items ≤ 33554432 }
    ensures bytes { IfOk result (λ n. ReadsOn (S.left source.old) (S.left source.new) text.old.items text.new.items n) }
    ensures within { OnOk result (length text.new.items ≤ 33554433) }
    ensures read { (bytes : List ℕ) × Consumes (S.left source.old) (S.left source.new) bytes
        × (length text.old.items + length bytes ≤ 33554433) }
    ensures later { S.faults source.old ≤ S.faults source.new }
    ensures fault { IfErr result (λ e. StopsReading e (S.left source.old) (S.left source.new)
        (S.faults source.old) (S.faults source.new)) }
    ensures not_big { IfErr result (λ e. e ≢ InputFault.TooBig) }
{
    let want = ROOM.min(MAX_BYTES + 1 - text.len());
    match source.read(&mut room[..want]) {
        Err(_) => Err(InputFault::Fault),
        Ok(count) => {
            if text.extend_from_slice(&room[..count]).is_err() {
                return Err(InputFault::NoMemory);
            }
            Ok(count)
        }
    }
}

// All the bytes that a source has left, by way of a room.
fn read_through<S: Source>(
    alloc: Global,
    source: &mut S,
    room: &mut [u8],
) -> Result<Vec<u8>, InputFault>
    requires { length room.old ≡ 65536 }
    ensures whole { IfOk result (λ text. IsWhole (S.left source.old) (S.left source.new) text.items) }
    ensures read { IsReadInPart (S.left source.old) (S.left source.new) }
    ensures later { S.faults source.old ≤ S.faults source.new }
    ensures fault { IfErr result (λ e. StopsReading e (S.left source.old) (S.left source.new)
        (S.faults source.old) (S.faults source.new)) }
{
    let mut text = Vec::new(alloc);
    while text.len() <= MAX_BYTES {
        match read_on(source, room, &mut text) {
            Ok(0) => return Ok(text),
            Ok(_) => {}
            Err(fault) => return Err(fault),
        }
    }
    Err(InputFault::TooBig)
}

// A room of zeros. Its length is a parameter, since a proof would write out a list of a length that it knows.
fn zeros(alloc: Global, len: usize) -> Result<Vec<u8>, AllocError>
    ensures { IfOk result (λ room. length room.items ≡ len) }
{
    vec![in alloc; 0u8; len]
}

/// All the bytes that a source has left.
pub fn read_all<S: Source>(alloc: Global, source: &mut S) -> Result<Vec<u8>, InputFault>
    ensures whole { IfOk result (λ text. IsWhole (S.left source.old) (S.left source.new) text.items) }
    ensures read { IsReadInPart (S.left source.old) (S.left source.new) }
    ensures later { S.faults source.old ≤ S.faults source.new }
    ensures fault { IfErr result (λ e. StopsReading e (S.left source.old) (S.left source.new)
        (S.faults source.old) (S.faults source.new)) }
{
    match zeros(alloc, ROOM) {
        Ok(mut room) => read_through(alloc, source, &mut room),
        Err(_) => Err(InputFault::NoMemory),
    }
}
