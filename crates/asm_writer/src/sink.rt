// Fragments put into a sink.

ghost use Rattle.std.specs.Prelude.{◌≡◌, ◌<◌, ℕ, List, take, length, OnOk, OnErr};
ghost use Rattle.std.specs.Io.KnownBytes.{Appends};
ghost use Rattle.mao_outside.specs.Causes.{HasCause};
ghost use Rattle.asm_writer.specs.Fragments.{fragment_text, fragments_text};

use crate::fragment::Fragment;
use itoa::Buffer;
use mao_outside::{Failed, Sink, put_all};

fn put_fragment<K: Sink>(sink: &mut K, fragment: Fragment<'_>) -> Result<(), Failed>
    ensures all { OnOk result (Appends (K.taken sink.old) (K.taken sink.new) (fragment_text fragment.entry)) }
    ensures part { OnErr result ((n : ℕ) × (n < length (fragment_text fragment.entry))
        × Appends (K.taken sink.old) (K.taken sink.new) (take n (fragment_text fragment.entry))) }
    ensures cause { HasCause (K.faults sink.old) (K.faults sink.new) result }
{
    let mut buffer = Buffer::new();
    match fragment {
        Fragment::Text(bytes) => put_all(sink, bytes),
        Fragment::Number(n) => put_all(sink, buffer.format(n).as_bytes()),
        Fragment::Digits(n) => put_all(sink, buffer.format(n).as_bytes()),
    }
}

/// Puts all that the fragments say into the sink. It takes no memory.
pub fn put_fragments<K: Sink>(sink: &mut K, fragments: &[Fragment<'_>]) -> Result<(), Failed>
    ensures all { OnOk result (Appends (K.taken sink.old) (K.taken sink.new) (fragments_text fragments.now)) }
    ensures part { OnErr result ((n : ℕ) × (n < length (fragments_text fragments.now))
        × Appends (K.taken sink.old) (K.taken sink.new) (take n (fragments_text fragments.now))) }
    ensures cause { HasCause (K.faults sink.old) (K.faults sink.new) result }
{
    for fragment in fragments {
        put_fragment(sink, *fragment)?;
    }
    Ok(())
}
