// The goals of a run.

ghost use Rattle.std.specs.Prelude.{◌≡◌, [], ◌∷◌, ◌++◌, OnOk, OnErr};

use std::alloc::{AllocError, Global};
use std::marker::Model;

/// Which pass has a goal.
#[derive(Clone, Copy, PartialEq, Eq, Debug)]
pub enum GoalKind {
    /// A loop that begins at a multiple of 16 bytes.
    Loop16,
    /// Two branches that don't share 32 bytes.
    BrAlign,
}

/// A goal of a function, by serials of its entries, and whether the code that is written meets it.
#[derive(Clone, Copy, PartialEq, Eq, Debug)]
pub struct Goal {
    /// The function's place, from 0.
    pub f: u32,
    pub kind: GoalKind,
    /// The head of a loop, or the first of two branches.
    pub first: u32,
    /// The head again, or the second branch.
    pub second: u32,
    pub met: bool,
}

/// A list of goals, seen by contracts as a list.
#[derive(Drop, Debug)]
pub struct GoalList {
    items: Vec<Goal>,
}

impl Model for GoalList {
    ghost use Rattle.std.specs.Prelude.{List};
    ghost use Rattle.mao_core.specs.declared.goals.Goal.{Goal};

    ghost Value = { List Goal };

    ghost view = { λ l. l.items.items };
}

impl GoalList {
    /// The list of no goals.
    pub fn new(alloc: Global) -> GoalList
        ensures { result ≡ [] }
    {
        GoalList {
            items: Vec::new(alloc),
        }
    }

    /// Appends `x`, or changes nothing where memory is wanting.
    pub fn push(&mut self, x: Goal) -> Result<(), AllocError>
        ensures ok { OnOk result (self.new ≡ self.old ++ x ∷ []) }
        ensures err { OnErr result (self.new ≡ self.old) }
    {
        self.items.push(x)?;
        Ok(())
    }

    /// The goals in order.
    pub fn as_slice(&self) -> &[Goal]
        ensures { result.now ≡ self.now }
    {
        self.items.as_slice()
    }
}

/// The goals of a run, function by function.
#[derive(Drop, Debug)]
pub struct Goals {
    pub items: GoalList,
}

/// No goals.
pub fn no_goals(alloc: Global) -> Goals
    ensures { result.items ≡ [] }
{
    Goals {
        items: GoalList::new(alloc),
    }
}
