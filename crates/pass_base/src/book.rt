// The book: the boxes of the passes.

ghost use Rattle.std.specs.Prelude.{◌≡◌, ◌+◌, ◌*◌, ◌<◌, ◌^◌, Option, Some, None, map, IfOk, OnOk, OnErr, MatchResult, IsTrue};
ghost use Rattle.pass_script.specs.Catalogue.{catalogue, AreInRange};
ghost use Rattle.pass_base.specs.Books.{first_difference, first_of_kind, has_box, opts_of, with_opts, with_count, views};
ghost use Rattle.pass_base.specs.Faults.{wrong_place};
ghost use Rattle.unit_edits.specs.Bodies.{IsClearAt, weight};
ghost use Rattle.pass_base.specs.Runs.{Ran, last_is, raised};

use crate::pass::{Pass, PassTally};
use asm_unit::AsmUnit;
use pass_script::{PassKind, PassOpts, catalogue};
use std::alloc::{AllocError, Global};
use unit_edits::Journal;

/// Boxes that are not those of the catalogue.
#[derive(Clone, Copy, PartialEq, Eq, Debug)]
pub enum BookFault {
    Wrong { place: usize },
}

/// One box for each kind of the catalogue, in its order.
#[derive(Drop)]
pub struct PassBook {
    boxes: Vec<Box<dyn Pass>>,
}

// The kind of a box.
fn kind_of_box(boxed: &Box<dyn Pass>) -> PassKind
    ensures { result ≡ its_kind boxed.now }
{
    boxed.kind()
}

fn set_box(boxed: &mut Box<dyn Pass>, opts: &PassOpts)
    requires { AreInRange opts.now }
    ensures kind { its_kind boxed.new ≡ its_kind boxed.old }
    ensures opts { its_opts boxed.new ≡ opts.now }
    ensures count { its_count boxed.new ≡ its_count boxed.old }
{
    boxed.set(opts)
}

fn run_box(
    boxed: &mut Box<dyn Pass>,
    alloc: Global,
    unit: &mut AsmUnit,
    f: u32,
    journal: &mut Journal,
) -> Result<PassTally, AllocError>
    requires clear { IsClearAt unit.old f }
    requires part { last_is f journal.old }
    requires serials { unit.old.last + 31 * weight unit.old f < 2 ^ 32 }
    ensures kind { its_kind boxed.new ≡ its_kind boxed.old }
    ensures opts { its_opts boxed.new ≡ its_opts boxed.old }
    ensures count { IfOk result (λ tally. its_count boxed.new ≡ raised (its_count boxed.old) tally.edits) }
    ensures left { OnErr result (its_count boxed.new ≡ its_count boxed.old) }
    ensures ran { IfOk result (λ tally. Ran (its_kind boxed.old) (its_opts boxed.old) f unit.old unit.new journal.old journal.new tally.edits) }
{
    boxed.run(alloc, unit, f, journal)
}

// The first place from which on the boxes are not of these kinds.
#[tactic(auto, using(crate::proofs::Views::left_over, crate::proofs::Views::too_few))]
fn difference(boxes: &[Box<dyn Pass>], kinds: &[PassKind]) -> Option<usize>
    ensures { result ≡ first_difference 0 (map (λ x. its_kind x) boxes.now) kinds.now }
{
    let mut at = 0;
    while at < boxes.len() && at < kinds.len() {
        if kind_of_box(&boxes[at]) != kinds[at] {
            return Some(at);
        }
        at += 1;
    }
    if at < boxes.len() {
        return Some(at);
    }
    if at < kinds.len() { Some(at) } else { None }
}

// The place of the first box of a kind.
fn find_box(boxes: &[Box<dyn Pass>], kind: PassKind) -> Option<usize>
    ensures { result ≡ first_of_kind 0 kind (map (λ x. its_kind x) boxes.now) }
{
    let mut at = 0;
    while at < boxes.len() {
        if kind_of_box(&boxes[at]) == kind {
            return Some(at);
        }
        at += 1;
    }
    None
}

impl PassBook {
    /// A book of these boxes. The fault names the first place where they differ from the catalogue.
    pub fn new(passes: Vec<Box<dyn Pass>>) -> Result<PassBook, BookFault>
        ensures fault { let at = first_difference 0 (map (λ x. its_kind x) passes.items) catalogue in
            MatchResult result (λ b. at ≡ None) (λ e. at ≡ Some (wrong_place e)) }
        ensures book { IfOk result (λ b. views (λ x. its_kind x) (λ x. its_opts x) (λ x. its_count x) b.boxes.items ≡ views (λ x. its_kind x) (λ x. its_opts x) (λ x. its_count x) passes.items) }
    {
        match difference(passes.as_slice(), catalogue()) {
            Some(place) => Err(BookFault::Wrong { place }),
            None => Ok(PassBook { boxes: passes }),
        }
    }

    /// Sets the options of the box of that kind.
    pub fn set(&mut self, kind: PassKind, opts: &PassOpts)
        requires { AreInRange opts.now }
        ensures { views (λ x. its_kind x) (λ x. its_opts x) (λ x. its_count x) self.new.boxes.items ≡ with_opts kind opts.now (views (λ x. its_kind x) (λ x. its_opts x) (λ x. its_count x) self.old.boxes.items) }
    {
        if let Some(at) = find_box(&self.boxes, kind) {
            set_box(&mut self.boxes[at], opts);
        }
    }

    /// Runs the box of that kind.
    pub fn run(
        &mut self,
        alloc: Global,
        kind: PassKind,
        unit: &mut AsmUnit,
        f: u32,
        journal: &mut Journal,
    ) -> Result<PassTally, AllocError>
        requires clear { IsClearAt unit.old f }
        requires part { last_is f journal.old }
        requires serials { unit.old.last + 31 * weight unit.old f < 2 ^ 32 }
        ensures found { OnOk result (IsTrue (has_box kind (views (λ x. its_kind x) (λ x. its_opts x) (λ x. its_count x) self.old.boxes.items))) }
        ensures count { IfOk result (λ tally. views (λ x. its_kind x) (λ x. its_opts x) (λ x. its_count x) self.new.boxes.items ≡ with_count kind tally.edits (views (λ x. its_kind x) (λ x. its_opts x) (λ x. its_count x) self.old.boxes.items)) }
        ensures left { OnErr result (views (λ x. its_kind x) (λ x. its_opts x) (λ x. its_count x) self.new.boxes.items ≡ views (λ x. its_kind x) (λ x. its_opts x) (λ x. its_count x) self.old.boxes.items) }
        ensures ran { IfOk result (λ tally. Ran kind (opts_of kind (views (λ x. its_kind x) (λ x. its_opts x) (λ x. its_count x) self.old.boxes.items)) f unit.old unit.new journal.old journal.new tally.edits) }
    {
        match find_box(&self.boxes, kind) {
            Some(at) => run_box(&mut self.boxes[at], alloc, unit, f, journal),
            // `new` saw to it that there is one. A caller is told no more than that memory ran out.
            None => Err(AllocError),
        }
    }
}
