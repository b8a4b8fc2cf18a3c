// The notes on the steps of a script.

ghost use Rattle.std.specs.Prelude.{◌≡◌, ◌++◌, decimal, length, IfOk, OnOk};
ghost use Rattle.journal_lines.specs.Steps.{step_note, step_notes};
ghost use Rattle.journal_lines.specs.walks.Counts.{IsRaised, AreCounted};

use crate::edits::put;
use itoa::Buffer;
use pass_script::{PassKind, Step, name_of_kind};
use std::alloc::{AllocError, Global};
use unit_edits::{Journal, Part};

// Adds the edits of a part to those of its step. More than a `u64` counts have no room in memory.
fn count_part(counts: &mut Vec<u64>, part: &Part) -> Result<(), AllocError>
    ensures len { length counts.new.items ≡ length counts.old.items }
    ensures raised { OnOk result (IsRaised part.now counts.old.items counts.new.items) }
{
    let place = (part.step as usize).checked_sub(1);
    let Some(place) = place.filter(|place| *place < counts.len()) else {
        return Ok(());
    };
    let sum = counts[place].checked_add(part.edits.as_slice().len() as u64);
    counts[place] = sum.ok_or(AllocError)?;
    Ok(())
}

// How many edits each of so many steps has.
fn counts_of(alloc: Global, steps: usize, parts: &[Part]) -> Result<Vec<u64>, AllocError>
    ensures len { IfOk result (λ counts. length counts.items ≡ steps) }
    ensures counted { IfOk result (λ counts. AreCounted parts.now counts.items) }
{
    let mut counts = vec![in alloc; 0u64; steps]?;
    for part in parts {
        count_part(&mut counts, part)?;
    }
    Ok(counts)
}

fn put_count(text: &mut Vec<u8>, n: u64) -> Result<(), AllocError>
    ensures { OnOk result (text.new.items ≡ text.old.items ++ decimal n) }
{
    let mut buffer = Buffer::new();
    put(text, buffer.format(n).as_bytes())
}

// Appends the note on the step with this number.
fn put_step(text: &mut Vec<u8>, number: u64, kind: PassKind, edits: u64) -> Result<(), AllocError>
    ensures { OnOk result (text.new.items ≡ text.old.items ++ step_note number kind edits) }
{
    put(text, b"step ")?;
    put_count(text, number)?;
    put(text, b" ")?;
    put(text, name_of_kind(kind).as_bytes())?;
    put(text, b": ")?;
    put_count(text, edits)?;
    put(text, b" edits\n")?;
    Ok(())
}

/// A line for each step of a script, numbered from 1: its pass, and how many edits the journal has of it. Its error is
/// that memory ran out.
pub fn step_lines(alloc: Global, steps: &[Step], journal: &Journal) -> Result<Vec<u8>, AllocError>
    ensures { IfOk result (λ text. text.items ≡ step_notes steps.now journal.now) }
{
    let counts = counts_of(alloc, steps.len(), journal.parts())?;
    let mut text = Vec::new(alloc);
    for i in 0..steps.len() {
        put_step(&mut text, i as u64 + 1, steps[i].kind, counts[i])?;
    }
    Ok(text)
}
