ghost use Rattle.std.specs.Prelude.{◌≡◌, ◌≤◌, ◌<◌, ◌+◌, length, ℕ, OnOk};
ghost use Rattle.std.specs.List.{All};
ghost use Rattle.asm_unit.specs.Held.{AreNumbered};
ghost use Rattle.pass_script.specs.declared.kinds.PassKind.{PassKind};
ghost use Rattle.pass_script.specs.Catalogue.{AreInRange, IsInRange};

use super::run_steps;
use asm_unit::AsmUnit;
use att_lexer::{Pieces, Span, SpanList};
use insn_ir::{Arg, DirectiveKind, Entry, EntryKind, Insn, Name, NameList, Op, Width};
use pass_base::{Pass, PassBook, PassTally};
use pass_script::{PassKind, PassOpts, Step, catalogue};
use std::alloc::{AllocError, Global};
use std::boxed::Box;
use std::test::Fail;
use unit_edits::Journal;

// NOPIN at density 0, which edits nothing. At other densities it wants memory.
#[derive(Drop)]
struct Undrawn {
    opts: PassOpts,
}

impl Pass for Undrawn {
    ghost its_kind = { λ _. PassKind.NopIn };

    ghost its_opts = { λ p. p.opts };

    ghost its_count = { λ _. 0 };

    fn kind(&self) -> PassKind {
        PassKind::NopIn
    }

    fn set(&mut self, opts: &PassOpts) {
        self.opts = *opts;
    }

    fn run(
        &mut self,
        _alloc: Global,
        _unit: &mut AsmUnit,
        _f: u32,
        _journal: &mut Journal,
    ) -> Result<PassTally, AllocError> {
        if self.opts.density == 0 {
            Ok(PassTally { edits: 0 })
        } else {
            Err(AllocError)
        }
    }
}

// A pass that edits nothing, since it always wants memory.
#[derive(Drop)]
struct Wanting {
    kind: PassKind,
    opts: PassOpts,
}

impl Pass for Wanting {
    ghost its_kind = { λ p. p.kind };

    ghost its_opts = { λ p. p.opts };

    ghost its_count = { λ _. 0 };

    fn kind(&self) -> PassKind {
        self.kind
    }

    fn set(&mut self, opts: &PassOpts) {
        self.opts = *opts;
    }

    fn run(
        &mut self,
        _alloc: Global,
        _unit: &mut AsmUnit,
        _f: u32,
        _journal: &mut Journal,
    ) -> Result<PassTally, AllocError> {
        Err(AllocError)
    }
}

fn opts_at(density: u32) -> PassOpts
    requires { density ≤ 100 }
    ensures { AreInRange result }
{
    PassOpts {
        density,
        ..PassOpts::default()
    }
}

fn nop_in(density: u32) -> Step
    requires { density ≤ 100 }
    ensures { AreInRange result.opts }
{
    Step {
        kind: PassKind::NopIn,
        opts: opts_at(density),
    }
}

fn two_steps(first: u32, second: u32) -> [Step; 2]
    requires first { first ≤ 100 }
    requires second { second ≤ 100 }
    ensures range { All (λ s. AreInRange s.opts) result }
    ensures few { length result ≤ 32 }
{
    [nop_in(first), nop_in(second)]
}

// Entries with serials from 1 on, and as many spans.
#[derive(Drop)]
struct Lines {
    entries: Vec<Entry>,
    spans: SpanList,
}

impl Lines {
    fn new(alloc: Global) -> Lines
        ensures numbered { AreNumbered 0 result.entries.items }
        ensures as_many { length result.spans ≡ length result.entries.items }
        ensures few { length result.entries.items ≤ 0 }
    {
        Lines {
            entries: Vec::new(alloc),
            spans: SpanList::new(alloc),
        }
    }

    fn add(&mut self, kind: EntryKind) -> Result<(), AllocError>
        requires numbered { AreNumbered 0 self.old.entries.items }
        requires as_many { length self.old.spans ≡ length self.old.entries.items }
        requires few { length self.old.entries.items ≤ 100 }
        ensures numbered { OnOk result (AreNumbered 0 self.new.entries.items) }
        ensures as_many { OnOk result (length self.new.spans ≡ length self.new.entries.items) }
        ensures count { OnOk result (length self.new.entries.items ≡ length self.old.entries.items + 1) }
    {
        let serial = self.entries.len() as u32 + 1;
        self.entries.push(Entry { serial, kind })?;
        self.spans.push(Span { start: 0, len: 0 })?;
        Ok(())
    }
}

fn ret() -> EntryKind {
    EntryKind::Insn(Insn {
        op: Op::Ret,
        width: Width::Q,
        a: Arg::Absent,
        b: Arg::Absent,
        c: Arg::Absent,
    })
}

// Adds the lines of a function of one line.
fn add_function(
    alloc: Global,
    lines: &mut Lines,
    name: &[u8],
    line: EntryKind,
) -> Result<(), AllocError>
    requires numbered { AreNumbered 0 lines.old.entries.items }
    requires as_many { length lines.old.spans ≡ length lines.old.entries.items }
    requires few { length lines.old.entries.items ≤ 90 }
    ensures numbered { OnOk result (AreNumbered 0 lines.new.entries.items) }
    ensures as_many { OnOk result (length lines.new.spans ≡ length lines.new.entries.items) }
    ensures count { OnOk result (length lines.new.entries.items ≡ length lines.old.entries.items + 4) }
{
    let opens = DirectiveKind::FuncType(Name::from_slice(alloc, name)?);
    let label = Name::from_slice(alloc, name)?;
    let ends = DirectiveKind::FuncEnd(Name::from_slice(alloc, name)?);
    lines.add(EntryKind::Directive(opens))?;
    lines.add(EntryKind::Label(label))?;
    lines.add(line)?;
    lines.add(EntryKind::Directive(ends))
}

// A function with a `ret`, one with a line that isn't known, and another one with a `ret`.
fn three_functions(alloc: Global) -> Result<AsmUnit, AllocError> {
    let mut lines = Lines::new(alloc);
    add_function(alloc, &mut lines, b"f", ret())?;
    add_function(
        alloc,
        &mut lines,
        b"g",
        EntryKind::Opaque(NameList::new(alloc)),
    )?;
    add_function(alloc, &mut lines, b"h", ret())?;
    let pieces = Pieces {
        spans: lines.spans,
        freeze: None,
    };
    AsmUnit::build(alloc, pieces, lines.entries)
}

// Runs NOPIN twice at these densities, and tells the steps and functions of the parts.
fn run_twice(alloc: Global, first: u32, second: u32) -> Result<Vec<(u32, u32)>, AllocError>
    requires first { first ≤ 100 }
    requires second { second ≤ 100 }
{
    let mut boxes: Vec<Box<dyn Pass>> = Vec::new(alloc);
    for &kind in catalogue() {
        let opts = PassOpts::default();
        if kind == PassKind::NopIn {
            boxes.push(Box::new(alloc, Undrawn { opts })?)?;
        } else {
            boxes.push(Box::new(alloc, Wanting { kind, opts })?)?;
        }
    }
    let mut unit = three_functions(alloc)?;
    let mut journal = Journal::new(alloc);
    let mut told = Vec::new(alloc);
    if let Ok(mut book) = PassBook::new(boxes) {
        let steps = two_steps(first, second);
        run_steps(alloc, &steps, &mut unit, &mut journal, &mut book)?;
        for part in journal.parts() {
            told.push((part.step, part.f))?;
        }
    }
    Ok(told)
}

#[test]
fn each_step_has_a_part_for_each_clear_function(rt: HostRuntime) -> Result<(), Fail> {
    let told = run_twice(rt.alloc(), 0, 0)?;
    assert_eq!(rt;
        told.as_slice(),
        [(1, 0), (1, 2), (2, 0), (2, 2)].as_slice()
    );
    Ok(())
}

#[test]
fn want_of_memory_of_a_pass_ends_the_run(rt: HostRuntime) -> Result<(), Fail> {
    assert!(rt; run_twice(rt.alloc(), 0, 7).is_err());
    Ok(())
}
