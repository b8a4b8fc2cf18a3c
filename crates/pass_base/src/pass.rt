// What a pass is.

ghost use Rattle.std.specs.Prelude.{◌≡◌, ◌+◌, ◌*◌, ◌<◌, ◌^◌, ℕ, IfOk, OnErr};
ghost use Rattle.pass_script.specs.declared.kinds.PassKind.{PassKind};
ghost use Rattle.pass_script.specs.declared.options.PassOpts.{PassOpts};
ghost use Rattle.pass_script.specs.Catalogue.{AreInRange};
ghost use Rattle.unit_edits.specs.Bodies.{IsClearAt, weight};
ghost use Rattle.pass_base.specs.Runs.{Ran, last_is, raised};

use asm_unit::AsmUnit;
use pass_script::{PassKind, PassOpts};
use std::alloc::{AllocError, Global};
use unit_edits::Journal;

/// How many edits a call did.
#[derive(Clone, Copy, Debug)]
pub struct PassTally {
    pub edits: u64,
}

/// A pass over a function of a unit.
pub trait Pass: Drop {
    /// The kind, which never changes.
    ghost its_kind: { Self → PassKind };

    /// The options.
    ghost its_opts: { Self → PassOpts };

    /// How many edits its calls did. It stands still at the last value of a `u64`, and never falls.
    ghost its_count: { Self → ℕ };

    /// The kind of the pass.
    fn kind(&self) -> PassKind
        ensures { result ≡ its_kind self.now };

    /// Makes the options those handed in.
    fn set(&mut self, opts: &PassOpts)
        requires { AreInRange opts.now }
        ensures kind { its_kind self.new ≡ its_kind self.old }
        ensures opts { its_opts self.new ≡ opts.now }
        ensures count { its_count self.new ≡ its_count self.old };

    /// Edits a clear function by the pass's rule, and appends the edits to the journal's last part, which is of that function.
    /// Where memory ran out the unit and the journal may hold some of the edits.
    fn run(
        &mut self,
        alloc: Global,
        unit: &mut AsmUnit,
        f: u32,
        journal: &mut Journal,
    ) -> Result<PassTally, AllocError>
        requires clear { IsClearAt unit.old f }
        requires part { last_is f journal.old }
        requires serials { unit.old.last + 31 * weight unit.old f < 2 ^ 32 }
        ensures kind { its_kind self.new ≡ its_kind self.old }
        ensures opts { its_opts self.new ≡ its_opts self.old }
        ensures count { IfOk result (λ tally. its_count self.new ≡ raised (its_count self.old) tally.edits) }
        ensures left { OnErr result (its_count self.new ≡ its_count self.old) }
        ensures ran { IfOk result (λ tally. Ran (its_kind self.old) (its_opts self.old) f unit.old unit.new journal.old journal.new tally.edits) };
}
