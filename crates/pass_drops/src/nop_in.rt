// The pass that inserts nops at places that a generator chooses.

ghost use Rattle.std.specs.Prelude.{◌≡◌, ◌<◌, ◌+◌, ◌*◌, ◌^◌, length, IfOk, OnOk, option_map};
ghost use Rattle.pass_script.specs.declared.kinds.PassKind.{PassKind};
ghost use Rattle.pass_script.specs.Catalogue.{defaults};
ghost use Rattle.unit_edits.specs.Bodies.{IsClearAt, weight};
ghost use Rattle.pass_rules.specs.Draws.{words_of};
ghost use Rattle.pass_base.specs.Runs.{Ran};
ghost use Rattle.pass_drops.specs.walks.Inserting.{is_drawn_entry, is_picked, words_after, picked, CanInsert, Inserts};

use crate::code::code_serials;
use asm_unit::AsmUnit;
use asm_unit::laws::parts_grow;
use insn_ir::{Entry, EntryKind, Op, SerialList};
use pass_base::{Pass, PassTally};
use pass_script::{PassKind, PassOpts};
use rand_core::utils::NextWord;
use rand_pcg::Lcg64Xsh32;
use std::alloc::{AllocError, Global};
use unit_edits::{Edit, Journal};

const STREAM: u64 = 54;

/// Inserts a `nop` before those instructions of a function's code that a generator chooses. It gives a number for each of them
/// but `nop` and `endbr64`, in order, and chooses it where the remainder by 100 is less than the option `density`. The generator
/// is XSH RR 64/32 of PCG (O'Neill 2014), at the state that the option `seed` gives and stream 54, anew for each call.
#[derive(Drop, Debug)]
pub struct NopIn {
    opts: PassOpts,
    edits: u64,
}

impl NopIn {
    /// The pass with the default options, which did no edit yet.
    pub fn new() -> NopIn
        ensures opts { ⟦<NopIn as Pass>⟧.its_opts result ≡ defaults }
        ensures count { ⟦<NopIn as Pass>⟧.its_count result ≡ 0 }
    {
        NopIn {
            opts: PassOpts::default(),
            edits: 0,
        }
    }
}

// Whether a number is drawn for an entry.
fn is_drawn(entry: Option<&Entry>) -> bool
    ensures { result ≡ is_drawn_entry (option_map (λ e. e.now) entry.entry) }
{
    let Some(entry) = entry else {
        return false;
    };
    match &entry.kind {
        EntryKind::Insn(insn) => !matches!(insn.op, Op::Nop | Op::Endbr64),
        _ => false,
    }
}

// Whether a number is drawn for an entry, and chooses it.
fn is_picked(words: &mut Lcg64Xsh32, entry: Option<&Entry>, density: u32) -> bool
    ensures picked { result ≡ is_picked density words.old (option_map (λ e. e.now) entry.entry) }
    ensures words { words.new ≡ words_after words.old (option_map (λ e. e.now) entry.entry) }
{
    is_drawn(entry) && words.next_word() % 100 < density
}

// Of these serials those before whose entries a nop is to come, in order.
fn picked(
    alloc: Global,
    unit: &AsmUnit,
    serials: &[u32],
    opts: &PassOpts,
) -> Result<SerialList, AllocError>
    ensures { IfOk result (λ places. places ≡ picked opts.now.density unit.now.held (words_of opts.now.seed) serials.now) }
{
    let mut words = Lcg64Xsh32::new(opts.seed, STREAM);
    let mut places = SerialList::new(alloc);
    for serial in serials {
        if is_picked(&mut words, unit.entry(*serial), opts.density) {
            places.push(*serial)?;
        }
    }
    Ok(places)
}

// Inserts a nop before each of these entries of a function's code, and appends the edits to the journal's last part.
fn insert_all(
    unit: &mut AsmUnit,
    f: u32,
    places: &[u32],
    journal: &mut Journal,
) -> Result<(), AllocError>
    requires may { CanInsert f unit.old places.now }
    requires part { 0 < length journal.old }
    requires room { unit.old.last + length places.now < 2 ^ 32 }
    ensures { OnOk result (Inserts f unit.old journal.old places.now unit.new journal.new) }
{
    // Its contract says where the other entries stand then.
    parts_grow();
    for before in places {
        let serial = unit.insert_nop(*before)?;
        journal.push(Edit::InsertNop {
            before: *before,
            serial,
        })?;
    }
    Ok(())
}

// Inserts the nops that the options choose, and gives the number of edits.
fn insert(
    alloc: Global,
    unit: &mut AsmUnit,
    f: u32,
    opts: &PassOpts,
    journal: &mut Journal,
) -> Result<u64, AllocError>
    requires clear { IsClearAt unit.old f }
    requires part { 0 < length journal.old }
    requires serials { unit.old.last + 31 * weight unit.old f < 2 ^ 32 }
    ensures { IfOk result (λ n. Ran PassKind.NopIn opts.now f unit.old unit.new journal.old journal.new n) }
{
    let code = code_serials(alloc, unit, f)?;
    let places = picked(alloc, unit, code.as_slice(), opts)?;
    insert_all(unit, f, places.as_slice(), journal)?;
    Ok(places.as_slice().len() as u64)
}

impl Pass for NopIn {
    ghost use Rattle.pass_script.specs.declared.kinds.PassKind.{PassKind};

    ghost its_kind = { λ _. PassKind.NopIn };

    ghost its_opts = { λ p. p.opts };

    ghost its_count = { λ p. p.edits };

    fn kind(&self) -> PassKind {
        PassKind::NopIn
    }

    fn set(&mut self, opts: &PassOpts) {
        self.opts = *opts;
    }

    #[tactic(auto, using(crate::proofs::Places::last_pos))]
    fn run(
        &mut self,
        alloc: Global,
        unit: &mut AsmUnit,
        f: u32,
        journal: &mut Journal,
    ) -> Result<PassTally, AllocError> {
        let edits = insert(alloc, unit, f, &self.opts, journal)?;
        self.edits = self.edits.saturating_add(edits);
        Ok(PassTally { edits })
    }
}
