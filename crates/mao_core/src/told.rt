// The line on the notes of a run that wrote no notes.
ghost use Rattle.std.specs.Prelude.{◌≡◌, ◌≤◌};
ghost use Rattle.mao_core.specs.Told.{status_line, IsOffered};

use crate::top::Status;
use mao_outside::{Sink, put_all};

fn status_line(status: Status) -> &'static [u8]
    ensures { result.now ≡ status_line status }
{
    match status {
        // The words and the script have lines of their own.
        Status::Fine | Status::NotesFault | Status::Usage => b"",
        Status::ReadFault => b"mao: read fault\n",
        Status::TooBig => b"mao: input too big\n",
        Status::NoMemory => b"mao: out of memory\n",
        Status::WriteFault => b"mao: write fault\n",
    }
}

/// Offers a line. A fault of the sink changes nothing.
pub fn offer<N: Sink>(notes: &mut N, line: &[u8])
    ensures { IsOffered (N.taken notes.old) (N.taken notes.new) (N.faults notes.old) (N.faults notes.new) line.now }
{
    let _ = put_all(notes, line);
}

/// Offers the line of a status. A fault of the sink changes nothing.
pub fn tell<N: Sink>(notes: &mut N, status: Status)
    ensures { IsOffered (N.taken notes.old) (N.taken notes.new) (N.faults notes.old) (N.faults notes.new) (status_line status) }
{
    offer(notes, status_line(status));
}
