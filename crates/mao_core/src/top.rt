// The top call.
ghost use Rattle.std.specs.Prelude.{◌≡◌, ◌≢◌, ◌⊎◌, [], map};
ghost use Rattle.mao_outside.specs.Causes.{Rose};
ghost use Rattle.mao_core.specs.Input.{IsReadInPart};
ghost use Rattle.asm_writer.specs.Unit.{AreWritable};
ghost use Rattle.mao_words.specs.Refused.{refusal_line};
ghost use Rattle.mao_core.specs.Outcome.{between, AreRead, IsCommand, IsWithinLimits, IsFine, IsCutInNotes, IsCutShort, IsSeenTooBig};
ghost use Rattle.mao_core.specs.Delivered.{IsDelivered};
ghost use Rattle.mao_core.specs.Told.{status_line, IsOffered, IsTold};

use crate::goals::{Goals, no_goals};
use crate::preparing::{Prepared, prepare};
use crate::told::{offer, tell};
use asm_writer::write_unit;
use mao_outside::{Sink, Source, put_all};
use mao_words::{Refusal, read_asked, refusal_line};
use pass_base::PassBook;
use std::alloc::Global;
use std::mem;
use unit_edits::Journal;

/// How a run ended.
#[derive(Clone, Copy, Debug, PartialEq, Eq)]
pub enum Status {
    /// All was read, judged and written.
    Fine,
    /// The words are not those of the command, or the script has a fault.
    Usage,
    /// The source counted a fault.
    ReadFault,
    /// The input has more than 33,554,432 bytes or more than 2,000,000 pieces.
    TooBig,
    /// Memory ran out before the first byte was written.
    NoMemory,
    /// The sink of the text counted a fault.
    WriteFault,
    /// The sink of the notes counted a fault, when the whole text was written.
    NotesFault,
}

/// What a run came to.
#[derive(Drop, Debug)]
pub struct Report {
    pub status: Status,
    /// The edits of the run, with a part for each step and clear function. None where nothing was written.
    pub journal: Journal,
    /// What became of the goals of the passes that have any. No pass that is built has one.
    pub goals: Goals,
}

// The report of a run that wrote nothing.
fn report_of(alloc: Global, status: Status) -> Report
    ensures status { result.status ≡ status }
    ensures journal { result.journal ≡ [] }
    ensures goals { result.goals.items ≡ [] }
{
    Report {
        status,
        journal: Journal::new(alloc),
        goals: no_goals(alloc),
    }
}

// Tells on the notes why nothing was written, and reports it.
fn refused<N: Sink>(alloc: Global, notes: &mut N, status: Status) -> Report
    ensures status { result.status ≡ status }
    ensures journal { result.journal ≡ [] }
    ensures goals { result.goals.items ≡ [] }
    ensures told { IsOffered (N.taken notes.old) (N.taken notes.new) (N.faults notes.old) (N.faults notes.new) (status_line status) }
{
    tell(notes, status);
    report_of(alloc, status)
}

// The text and then the notes, put into their sinks.
fn deliver<O: Sink, N: Sink>(
    alloc: Global,
    out: &mut O,
    notes: &mut N,
    prepared: Prepared,
) -> Report
    requires { AreWritable prepared.text.items prepared.unit.held }
    ensures journal { result.journal ≡ prepared.journal }
    ensures goals { result.goals.items ≡ [] }
    ensures status { IsDelivered result.status prepared (O.taken out.old) (O.taken out.new) (O.faults out.old) (O.faults out.new)
        (N.taken notes.old) (N.taken notes.new) (N.faults notes.old) (N.faults notes.new) }
{
    let status = match write_unit(&prepared.unit, &prepared.text, out) {
        Ok(()) => match put_all(notes, &prepared.notes) {
            Ok(()) => Status::Fine,
            Err(_) => Status::NotesFault,
        },
        Err(_) => {
            tell(notes, Status::WriteFault);
            Status::WriteFault
        }
    };
    // The run ends here, and the system takes the unit's memory back at once: to drop it would look at each entry again.
    mem::forget(prepared.unit);
    Report {
        status,
        journal: prepared.journal,
        goals: no_goals(alloc),
    }
}

// Tells on the notes why words or their script are refused, and reports it.
fn refuse_words<N: Sink>(alloc: Global, notes: &mut N, refusal: Refusal) -> Report
    ensures status { (result.status ≡ Status.NoMemory) ⊎ ((result.status ≡ Status.Usage) × (refusal ≢ Refusal.NoMemory)) }
    ensures journal { result.journal ≡ [] }
    ensures goals { result.goals.items ≡ [] }
    ensures line { result.status ≡ Status.Usage → IsOffered (N.taken notes.old) (N.taken notes.new) (N.faults notes.old) (N.faults notes.new) (refusal_line refusal) }
    ensures memory { result.status ≡ Status.NoMemory → IsOffered (N.taken notes.old) (N.taken notes.new) (N.faults notes.old) (N.faults notes.new) (status_line Status.NoMemory) }
{
    if matches!(refusal, Refusal::NoMemory) {
        return refused(alloc, notes, Status::NoMemory);
    }
    match refusal_line(alloc, refusal) {
        Ok(line) => {
            offer(notes, &line);
            report_of(alloc, Status::Usage)
        }
        Err(_) => refused(alloc, notes, Status::NoMemory),
    }
}

/// Reads the words, the first of which is the program's name, and the source to its end; does the script of the words to each
/// clear function of the source's text, by the boxes of the book; and writes the text with its edits to `out`, and what there is to
/// tell to `notes`: what is kept as it is, how many edits each step did, and with `--journal` each edit. A file that a cause keeps
/// as it is is copied. On a status other than Fine and NotesFault the notes are offered one line in place of these.
///
/// All that can want memory is done before the first byte is written. The memory of a file whose text was offered isn't given
/// back: a caller that goes on keeps it. After any status the book may be used again.
pub fn mao<S: Source, O: Sink, N: Sink>(
    alloc: Global,
    words: &[&str],
    source: &mut S,
    out: &mut O,
    notes: &mut N,
    book: &mut PassBook,
) -> Report
    ensures usage { result.status ≡ Status.Usage → IsCommand (map (λ w. w.now) words.now) → ⊥ }
    ensures words { result.status ≢ Status.Usage → result.status ≢ Status.NoMemory → AreRead (map (λ w. w.now) words.now) }
    ensures idle { result.status ≡ Status.Usage → (source.new ≡ source.old) × (out.new ≡ out.old) }
    ensures read { IsReadInPart (S.left source.old) (S.left source.new) }
    ensures fine { result.status ≡ Status.Fine → between book.old.boxes.items book.new.boxes.items (λ x. its_kind (x.vtable, x.value)) (λ x. its_opts (x.vtable, x.value)) (λ x. its_count (x.vtable, x.value))
        (IsFine (map (λ w. w.now) words.now) (S.left source.old) (S.left source.new) (O.taken out.old) (O.taken out.new)
        (N.taken notes.old) (N.taken notes.new) result.journal) }
    ensures read_fault { result.status ≡ Status.ReadFault → Rose (S.faults source.old) (S.faults source.new) }
    ensures too_big { result.status ≡ Status.TooBig → IsSeenTooBig (S.left source.old) (S.left source.new) }
    ensures write_fault { result.status ≡ Status.WriteFault → Rose (O.faults out.old) (O.faults out.new) }
    ensures cut_short { result.status ≡ Status.WriteFault → between book.old.boxes.items book.new.boxes.items (λ x. its_kind (x.vtable, x.value)) (λ x. its_opts (x.vtable, x.value)) (λ x. its_count (x.vtable, x.value))
        (IsCutShort (map (λ w. w.now) words.now) (S.left source.old) (S.left source.new) (O.taken out.old) (O.taken out.new) result.journal) }
    ensures notes_fault { result.status ≡ Status.NotesFault → Rose (N.faults notes.old) (N.faults notes.new) }
    ensures cut_in_notes { result.status ≡ Status.NotesFault → between book.old.boxes.items book.new.boxes.items (λ x. its_kind (x.vtable, x.value)) (λ x. its_opts (x.vtable, x.value)) (λ x. its_count (x.vtable, x.value))
        (IsCutInNotes (map (λ w. w.now) words.now) (S.left source.old) (S.left source.new) (O.taken out.old) (O.taken out.new)
        (N.taken notes.old) (N.taken notes.new) result.journal) }
    ensures unwritten { result.status ≢ Status.Fine → result.status ≢ Status.WriteFault → result.status ≢ Status.NotesFault
        → (out.new ≡ out.old) × (result.journal ≡ []) }
    ensures goals { result.goals.items ≡ [] }
    ensures told { result.status ≢ Status.Fine → result.status ≢ Status.NotesFault
        → IsTold result.status (map (λ w. w.now) words.now) (N.taken notes.old) (N.taken notes.new) (N.faults notes.old) (N.faults notes.new) }
    ensures complete { IsCommand (map (λ w. w.now) words.now) → IsWithinLimits (S.left source.old)
        → (Rose (S.faults source.old) (S.faults source.new) → ⊥) → (Rose (O.faults out.old) (O.faults out.new) → ⊥)
        → (Rose (N.faults notes.old) (N.faults notes.new) → ⊥)
        → (result.status ≡ Status.Fine) ⊎ (result.status ≡ Status.NoMemory) }
{
    let asked = match read_asked(alloc, words) {
        Ok(asked) => asked,
        Err(refusal) => return refuse_words(alloc, notes, refusal),
    };
    match prepare(alloc, source, &asked, book) {
        Ok(prepared) => deliver(alloc, out, notes, prepared),
        Err(status) => refused(alloc, notes, status),
    }
}
