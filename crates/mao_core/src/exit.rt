// The exit status of a run.

ghost use Rattle.std.specs.Prelude.{◌≡◌, ◌≢◌, ◌≤◌, ℕ, List, map};
ghost use Rattle.unit_edits.specs.declared.journal.Part.{Part};
ghost use Rattle.mao_core.specs.Outcome.{between, AreRead, IsCommand, IsFine};
ghost use Rattle.mao_core.specs.Exit.{exit_number};

use crate::top::{Status, mao};
use mao_outside::{Sink, Source};
use pass_base::PassBook;
use std::alloc::Global;

/// The exit status that tells how a run ended.
pub fn exit_of(status: Status) -> u8
    ensures { result ≡ exit_number status }
{
    match status {
        Status::Fine => 0,
        Status::Usage => 1,
        Status::ReadFault => 2,
        Status::TooBig => 3,
        Status::NoMemory => 4,
        Status::WriteFault => 5,
        Status::NotesFault => 6,
    }
}

/// Runs the command over these streams by the boxes of the book, and gives the exit status.
#[tactic(auto, using(crate::proofs::ExitLaws::zero, crate::proofs::ExitLaws::one, crate::proofs::ExitLaws::is_usage, crate::proofs::ExitLaws::is_no_memory, crate::proofs::ExitLaws::range))]
pub fn filter<S: Source, O: Sink, N: Sink>(
    alloc: Global,
    words: &[&str],
    source: &mut S,
    out: &mut O,
    notes: &mut N,
    book: &mut PassBook,
) -> u8
    ensures usage { result ≡ 1 → IsCommand (map (λ w. w.now) words.now) → ⊥ }
    ensures words { result ≢ 1 → result ≢ 4 → AreRead (map (λ w. w.now) words.now) }
    ensures range { result ≤ 6 }
    ensures fine { result ≡ 0 → (journal : List Part)
        × between book.old.boxes.items book.new.boxes.items (λ x. its_kind (x.vtable, x.value)) (λ x. its_opts (x.vtable, x.value)) (λ x. its_count (x.vtable, x.value))
        (IsFine (map (λ w. w.now) words.now) (S.left source.old) (S.left source.new) (O.taken out.old) (O.taken out.new)
        (N.taken notes.old) (N.taken notes.new) journal) }
{
    exit_of(mao(alloc, words, source, out, notes, book).status)
}
