// The pass that drops nops, and alignments where its option says so.

ghost use Rattle.std.specs.Prelude.{◌≡◌, ◌<◌, ℕ, filter, length, IfOk, OnOk, option_map};
ghost use Rattle.asm_unit.specs.Held.{entry_of};
ghost use Rattle.pass_script.specs.declared.kinds.PassKind.{PassKind};
ghost use Rattle.pass_script.specs.Catalogue.{defaults};
ghost use Rattle.unit_edits.specs.Bodies.{IsClearAt};
ghost use Rattle.unit_edits.specs.Journal.{onto_last};
ghost use Rattle.pass_base.specs.Runs.{Ran};
ghost use Rattle.pass_drops.specs.walks.Dropping.{goes, goes_at, CanDrop, all_dropped, removes};

use crate::code::code_serials;
use asm_unit::AsmUnit;
use insn_ir::{DirectiveKind, Entry, EntryKind, Op, SerialList};
use pass_base::{Pass, PassTally};
use pass_script::{PassKind, PassOpts};
use std::alloc::{AllocError, Global};
use unit_edits::{Edit, Journal};

/// Drops each `nop` of a function's code, and with `align` 1 each alignment.
#[derive(Drop, Debug)]
pub struct NopKill {
    opts: PassOpts,
    edits: u64,
}

impl NopKill {
    /// The pass with the default options, which did no edit yet.
    pub fn new() -> NopKill
        ensures opts { ⟦<NopKill as Pass>⟧.its_opts result ≡ defaults }
        ensures count { ⟦<NopKill as Pass>⟧.its_count result ≡ 0 }
    {
        NopKill {
            opts: PassOpts::default(),
            edits: 0,
        }
    }
}

// Whether an entry goes, where the option `align` is this.
fn goes(entry: Option<&Entry>, align: u32) -> bool
    ensures { result ≡ goes align (option_map (λ e. e.now) entry.entry) }
{
    let Some(entry) = entry else {
        return false;
    };
    match &entry.kind {
        EntryKind::Insn(insn) => matches!(insn.op, Op::Nop),
        EntryKind::Directive(DirectiveKind::Align { .. }) => align == 1,
        _ => false,
    }
}

// Of these serials those of entries that go, in order.
fn gone_serials(
    alloc: Global,
    unit: &AsmUnit,
    serials: &[u32],
    align: u32,
) -> Result<SerialList, AllocError>
    ensures { IfOk result (λ gone. gone ≡ filter (goes_at align unit.now.held) serials.now) }
{
    let mut gone = SerialList::new(alloc);
    for serial in serials {
        if goes(unit.entry(*serial), align) {
            gone.push(*serial)?;
        }
    }
    Ok(gone)
}

// Drops these entries of a function's code, and appends the edits to the journal's last part.
fn drop_all(
    unit: &mut AsmUnit,
    f: u32,
    serials: &[u32],
    journal: &mut Journal,
) -> Result<(), AllocError>
    requires may { CanDrop f unit.old serials.now }
    requires part { 0 < length journal.old }
    ensures dropped { OnOk result (unit.new ≡ all_dropped serials.now unit.old) }
    ensures journal { OnOk result (journal.new ≡ onto_last (removes serials.now) journal.old) }
{
    for serial in serials {
        journal.push(Edit::Remove { serial: *serial })?;
        unit.drop_entry(*serial);
    }
    Ok(())
}

// Drops what goes of a function's code, and gives the number of edits.
fn kill(
    alloc: Global,
    unit: &mut AsmUnit,
    f: u32,
    opts: &PassOpts,
    journal: &mut Journal,
) -> Result<u64, AllocError>
    requires clear { IsClearAt unit.old f }
    requires part { 0 < length journal.old }
    ensures { IfOk result (λ n. Ran PassKind.NopKill opts.now f unit.old unit.new journal.old journal.new n) }
{
    let code = code_serials(alloc, unit, f)?;
    let gone = gone_serials(alloc, unit, code.as_slice(), opts.align)?;
    drop_all(unit, f, gone.as_slice(), journal)?;
    Ok(gone.as_slice().len() as u64)
}

impl Pass for NopKill {
    ghost use Rattle.pass_script.specs.declared.kinds.PassKind.{PassKind};

    ghost its_kind = { λ _. PassKind.NopKill };

    ghost its_opts = { λ p. p.opts };

    ghost its_count = { λ p. p.edits };

    fn kind(&self) -> PassKind {
        PassKind::NopKill
    }

    fn set(&mut self, opts: &PassOpts) {
        self.opts = *opts;
    }

    #[tactic(auto, using(crate::proofs::Places::last_pos))]
    fn run(
        &mut self,
        alloc: Global,
        unit: &mut AsmUnit,
        f: u32,
        journal: &mut Journal,
    ) -> Result<PassTally, AllocError> {
        let edits = kill(alloc, unit, f, &self.opts, journal)?;
        self.edits = self.edits.saturating_add(edits);
        Ok(PassTally { edits })
    }
}
