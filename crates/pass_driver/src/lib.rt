//! Runs the steps of a script on the clear functions of a unit. It knows the passes by their book alone.
#![tactic(auto)]

ghost use Rattle.std.specs.Prelude.{◌≡◌, ◌+◌, ◌*◌, ◌<◌, ◌≤◌, ◌^◌, [], OnOk, length};
ghost use Rattle.std.specs.List.{All};
ghost use Rattle.pass_script.specs.Catalogue.{AreInRange};
ghost use Rattle.pass_base.specs.Books.{seen};
ghost use Rattle.pass_driver.specs.Plan.{clear_places, step_tasks, script_tasks};
ghost use Rattle.pass_driver.specs.Outcome.{IsRun};
ghost use Rattle.pass_driver.specs.walks.Reached.{HasOpts, Reaches, if_clear};

use asm_unit::AsmUnit;
use pass_base::PassBook;
use pass_script::Step;
use std::alloc::{AllocError, Global};
use unit_edits::Journal;

// A pass gives at most so many new serials for each entry of a function.
const SERIALS_PER_ENTRY: usize = 31;

// Whether a pass over any function keeps to the serials that are left. They run out as memory does: until two thousand million were
// given, they are too few only for a unit of more than seventy million entries.
fn check_serials(unit: &AsmUnit) -> Result<(), AllocError>
    ensures { OnOk result (unit.now.last + 31 * length unit.now.held < 2 ^ 32) }
{
    let left = (u32::MAX - unit.last_serial()) as usize;
    let entries = unit.list().nodes().len();
    if entries <= left / SERIALS_PER_ENTRY {
        Ok(())
    } else {
        Err(AllocError)
    }
}

// One step, whose options are set, on one function if that is clear.
fn run_function(
    alloc: Global,
    number: u32,
    step: &Step,
    unit: &mut AsmUnit,
    f: u32,
    journal: &mut Journal,
    book: &mut PassBook,
) -> Result<(), AllocError>
    requires within { f < length unit.old.decided }
    requires opts { HasOpts step.now.kind step.now.opts (seen book.old.boxes.items (λ x. its_kind (x.vtable, x.value)) (λ x. its_opts (x.vtable, x.value)) (λ x. its_count (x.vtable, x.value))) }
    ensures opts { OnOk result (HasOpts step.now.kind step.now.opts (seen book.new.boxes.items (λ x. its_kind (x.vtable, x.value)) (λ x. its_opts (x.vtable, x.value)) (λ x. its_count (x.vtable, x.value)))) }
    ensures reaches { OnOk result (Reaches (step_tasks number step.now (if_clear unit.old.decided f)) journal.old journal.new unit.old unit.new
        (seen book.old.boxes.items (λ x. its_kind (x.vtable, x.value)) (λ x. its_opts (x.vtable, x.value)) (λ x. its_count (x.vtable, x.value)))
        (seen book.new.boxes.items (λ x. its_kind (x.vtable, x.value)) (λ x. its_opts (x.vtable, x.value)) (λ x. its_count (x.vtable, x.value)))) }
{
    if unit.frozen(f).is_some() {
        return Ok(());
    }
    check_serials(unit)?;
    journal.begin(number, f)?;
    book.run(alloc, step.kind, unit, f, journal)?;
    Ok(())
}

// One step on each clear function, in order.
fn run_step(
    alloc: Global,
    number: u32,
    step: &Step,
    unit: &mut AsmUnit,
    journal: &mut Journal,
    book: &mut PassBook,
) -> Result<(), AllocError>
    requires range { AreInRange step.now.opts }
    ensures reaches { OnOk result (Reaches (step_tasks number step.now (clear_places unit.old.decided)) journal.old journal.new unit.old unit.new
        (seen book.old.boxes.items (λ x. its_kind (x.vtable, x.value)) (λ x. its_opts (x.vtable, x.value)) (λ x. its_count (x.vtable, x.value)))
        (seen book.new.boxes.items (λ x. its_kind (x.vtable, x.value)) (λ x. its_opts (x.vtable, x.value)) (λ x. its_count (x.vtable, x.value)))) }
{
    book.set(step.kind, &step.opts);
    let count = unit.functions();
    let mut f: u32 = 0;
    while f < count {
        run_function(alloc, number, step, unit, f, journal, book)?;
        f += 1;
    }
    Ok(())
}

/// Runs each step on each clear function, in order, by the boxes of the book. Memory that is wanting leaves unit, journal and book
/// in the middle of the script; the book may be used again.
pub fn run_steps(
    alloc: Global,
    steps: &[Step],
    unit: &mut AsmUnit,
    journal: &mut Journal,
    book: &mut PassBook,
) -> Result<(), AllocError>
    requires range { All (λ s. AreInRange s.opts) steps.now }
    requires few { length steps.now ≤ 32 }
    requires empty { journal.old ≡ [] }
    ensures run { OnOk result (IsRun steps.now journal.new unit.old unit.new
        (seen book.old.boxes.items (λ x. its_kind (x.vtable, x.value)) (λ x. its_opts (x.vtable, x.value)) (λ x. its_count (x.vtable, x.value)))
        (seen book.new.boxes.items (λ x. its_kind (x.vtable, x.value)) (λ x. its_opts (x.vtable, x.value)) (λ x. its_count (x.vtable, x.value)))) }
{
    let mut number: u32 = 0;
    for step in steps {
        number += 1;
        run_step(alloc, number, step, unit, journal, book)?;
    }
    Ok(())
}

#[cfg(test)]
mod tests;
