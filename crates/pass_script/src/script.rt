// Scripts: lists of steps.

ghost use Rattle.std.specs.Prelude.{◌≡◌, [], ◌∷◌, ◌++◌, OnOk, OnErr};

use crate::kinds::PassKind;
use crate::options::PassOpts;
use std::alloc::{AllocError, Global};
use std::marker::Model;
use thiserror::Error;

/// One step of a script: a pass, with all options.
#[derive(Clone, Copy, PartialEq, Eq, Debug)]
pub struct Step {
    pub kind: PassKind,
    pub opts: PassOpts,
}

/// A list of steps, seen by contracts as a list.
#[derive(Drop, Debug)]
pub struct StepList {
    items: Vec<Step>,
}

impl Model for StepList {
    ghost use Rattle.std.specs.Prelude.{List};
    ghost use Rattle.pass_script.specs.declared.script.Step.{Step};

    ghost Value = { List Step };

    ghost view = { λ l. l.items.items };
}

impl StepList {
    /// The list of no steps.
    pub fn new(alloc: Global) -> StepList
        ensures { result ≡ [] }
    {
        StepList {
            items: Vec::new(alloc),
        }
    }

    /// Appends `x`, or changes nothing where memory is wanting.
    pub fn push(&mut self, x: Step) -> Result<(), AllocError>
        ensures ok { OnOk result (self.new ≡ self.old ++ x ∷ []) }
        ensures err { OnErr result (self.new ≡ self.old) }
    {
        self.items.push(x)?;
        Ok(())
    }

    /// The steps in order.
    pub fn as_slice(&self) -> &[Step]
        ensures { result.now ≡ self.now }
    {
        &self.items
    }
}

/// What is to be done to a file: its steps, in order.
#[derive(Drop, Debug)]
pub struct Script {
    pub steps: StepList,
}

/// Why a script was not read, with the place in bytes from 0.
#[derive(Clone, Copy, PartialEq, Eq, Debug, Error)]
pub enum ScriptFault {
    /// The first byte of a name that no pass of the catalogue has.
    #[error("unknown pass at {place}")]
    UnknownPass { place: usize },
    /// The first byte of a name that no option of the step's pass has.
    #[error("unknown option at {place}")]
    UnknownOption { place: usize },
    /// The first digit of a number that is out of the option's range or has more than 20 digits.
    #[error("bad number at {place}")]
    BadNumber { place: usize },
    /// The first byte that can't stand there, or the text's length where the script ends too early. Also the first
    /// byte of the name of an option that the step gave already, and of the name of a 33rd step.
    #[error("malformed at {place}")]
    Malformed { place: usize },
    /// Memory ran out.
    #[error("out of memory")]
    NoMemory,
}

impl From<AllocError> for ScriptFault {
    ghost use Rattle.pass_script.specs.declared.script.ScriptFault.TheVariants.{NoMemory};

    ghost from_gives = { λ _ e. e ≡ NoMemory };

    fn from(_e: AllocError) -> ScriptFault {
        ScriptFault::NoMemory
    }
}
