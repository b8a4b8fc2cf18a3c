// The words and their script, read in one call.

ghost use Rattle.std.specs.Prelude.{◌≡◌, ◌≢◌, ◌≤◌, None, map, length, All, IfOk, IfErr, OnOk};
ghost use Rattle.pass_script.specs.Catalogue.{AreInRange};
ghost use Rattle.pass_script.specs.Script.{steps_of};
ghost use Rattle.mao_words.specs.Command.{AreFaultless, script_of_words, asks_for_journal};
ghost use Rattle.mao_words.specs.Refused.{IsCaused, IsUsageLine, refusal_line, script_fault};

use crate::words::{WordsFault, read_words};
use pass_script::{ScriptFault, StepList, read_script};
use std::alloc::Global;
use thiserror::Error;

/// What the words ask for.
#[derive(Drop, Debug)]
pub struct Asked {
    /// The steps of the script, none where the words give no script.
    pub steps: StepList,
    /// Whether each edit is to be told.
    pub journal: bool,
}

/// Why words are refused.
#[derive(Clone, Copy, PartialEq, Eq, Debug, Error)]
pub enum Refusal {
    /// The command doesn't take them.
    #[error("usage")]
    Words,
    /// The command takes them, and their script has this fault.
    #[error("script: {0}")]
    Script(ScriptFault),
    /// Memory ran out.
    #[error("out of memory")]
    NoMemory,
}

impl From<WordsFault> for Refusal {
    ghost use Rattle.mao_words.specs.Refused.{of_words};

    ghost from_gives = { λ fault refusal. refusal ≡ of_words fault };

    fn from(fault: WordsFault) -> Refusal {
        match fault {
            WordsFault::Usage => Refusal::Words,
            WordsFault::NoMemory => Refusal::NoMemory,
        }
    }
}

impl From<ScriptFault> for Refusal {
    ghost use Rattle.mao_words.specs.Refused.{of_script};

    ghost from_gives = { λ fault refusal. refusal ≡ of_script fault };

    fn from(fault: ScriptFault) -> Refusal {
        match fault {
            ScriptFault::NoMemory => Refusal::NoMemory,
            _ => Refusal::Script(fault),
        }
    }
}

/// Reads the words of the command `mao`, the first of which is the program's name, and then the script that they give.
/// `Words` comes only where the command doesn't take them, and `Script` only where it does, with the fault of the script.
/// `refusal_line` gives the line that tells a refusal.
pub fn read_asked(alloc: Global, words: &[&str]) -> Result<Asked, Refusal>
    ensures faultless { OnOk result (AreFaultless (map (λ w. w.now) words.now)) }
    ensures steps { IfOk result (λ a. a.steps ≡ steps_of (script_of_words (map (λ w. w.now) words.now))) }
    ensures journal { IfOk result (λ a. a.journal ≡ asks_for_journal (map (λ w. w.now) words.now)) }
    ensures no_fault { OnOk result (script_fault (map (λ w. w.now) words.now) ≡ None) }
    ensures few { IfOk result (λ a. length a.steps ≤ 32) }
    ensures in_range { IfOk result (λ a. All (λ step. AreInRange step.opts) a.steps) }
    ensures refused { IfErr result (λ e. IsCaused (map (λ w. w.now) words.now) e) }
    ensures told { IfErr result (λ e. e ≢ Refusal.NoMemory → IsUsageLine (map (λ w. w.now) words.now) (refusal_line e)) }
{
    let chosen = read_words(alloc, words)?;
    let script = read_script(alloc, chosen.script)?;
    Ok(Asked {
        steps: script.steps,
        journal: chosen.journal,
    })
}
