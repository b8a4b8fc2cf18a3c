// The command as `clap` knows it.

ghost use Rattle.std.specs.Prelude.{◌≡◌, false, IfOk};
ghost use Rattle.clap.specs.Words.{app_of, rule_of};
ghost use Rattle.mao_words.specs.Command.{mao_app, script_rule, journal_rule};

use clap::{Arg, ArgAction, Command};
use std::alloc::{AllocError, Global};

fn script_arg<'a>(alloc: Global) -> Arg<'a>
    ensures rule { rule_of result ≡ script_rule }
    ensures own { result.global ≡ false }
{
    Arg::new(alloc, "mao").long("mao").action(ArgAction::Set)
}

fn journal_arg<'a>(alloc: Global) -> Arg<'a>
    ensures rule { rule_of result ≡ journal_rule }
    ensures own { result.global ≡ false }
{
    Arg::new(alloc, "journal")
        .long("journal")
        .action(ArgAction::SetTrue)
}

/// The command `mao [--mao=SCRIPT] [--journal]`.
pub fn mao_command<'a>(alloc: Global) -> Result<Command<'a>, AllocError>
    ensures { IfOk result (λ c. app_of c ≡ mao_app) }
{
    let command = Command::new(alloc, "mao").arg(script_arg(alloc))?;
    command.arg(journal_arg(alloc))
}
