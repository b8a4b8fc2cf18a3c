// The words, read by `clap`.

ghost use Rattle.std.specs.Prelude.{◌≡◌, ◌≢◌, true, map, IfOk, IfErr, OnOk};
ghost use Rattle.clap.specs.Words.{takes, matches_of, rows_of, found_of, kind_of};
ghost use Rattle.mao_words.specs.Command.{mao_app, AreFaultless, script_in, is_given};
ghost use Rattle.mao_words.specs.Chosen.{AreChosen, IsUsage};

use crate::command::mao_command;
use clap::error::ErrorKind;
use clap::{ArgMatches, Error};
use std::alloc::{AllocError, Global};
use thiserror::Error as ThisError;

/// What the words choose.
#[derive(Clone, Copy, PartialEq, Eq, Debug)]
pub struct Chosen<'a> {
    /// The script, empty where none is given.
    pub script: &'a str,
    /// Whether each edit is to be told.
    pub journal: bool,
}

/// Why the words were not read.
#[derive(Clone, Copy, PartialEq, Eq, Debug, ThisError)]
pub enum WordsFault {
    /// The command doesn't take them. A request for help is such words.
    #[error("usage")]
    Usage,
    /// Memory ran out.
    #[error("out of memory")]
    NoMemory,
}

impl From<AllocError> for WordsFault {
    ghost use Rattle.mao_words.specs.declared.words.WordsFault.TheVariants.{NoMemory};

    ghost from_gives = { λ _ e. e ≡ NoMemory };

    fn from(_e: AllocError) -> WordsFault {
        WordsFault::NoMemory
    }
}

// The script that matches give.
fn script_of<'a>(matches: &ArgMatches<'a>) -> &'a str
    ensures { result.now ≡ script_in (rows_of (found_of matches.now)) }
{
    match matches.get_str("mao") {
        Some(text) => text,
        None => "",
    }
}

// Whether matches give a flag. The clauses of `get_flag` speak of two texts alone, and this one of each.
fn is_given(matches: &ArgMatches<'_>, id: &str) -> bool
    ensures { result ≡ is_given id.now (rows_of (found_of matches.now)) }
{
    match matches.get_str(id) {
        Some(text) => text == "true",
        None => false,
    }
}

// What matches choose.
fn chosen_of<'a>(matches: &ArgMatches<'a>) -> Chosen<'a>
    ensures { AreChosen result (rows_of (found_of matches.now)) }
{
    Chosen {
        script: script_of(matches),
        journal: is_given(matches, "journal"),
    }
}

fn words_fault(error: &Error) -> WordsFault
    ensures { IsUsage result → kind_of error.now ≢ ErrorKind.OutOfMemory }
{
    match error.kind() {
        ErrorKind::OutOfMemory => WordsFault::NoMemory,
        _ => WordsFault::Usage,
    }
}

/// Reads the words of the command `mao`, the first of which is the program's name. `Usage` comes only where the command
/// doesn't take them.
pub fn read_words<'a>(alloc: Global, words: &'a [&'a str]) -> Result<Chosen<'a>, WordsFault>
    ensures usage { IfErr result (λ e. IsUsage e → takes mao_app (map (λ w. w.now) words.now) ≢ true) }
    ensures faultless { OnOk result (AreFaultless (map (λ w. w.now) words.now)) }
    ensures chosen { IfOk result (λ c. AreChosen c (matches_of mao_app (map (λ w. w.now) words.now))) }
{
    let command = mao_command(alloc)?;
    match command.try_get_matches_from(words) {
        Ok(matches) => Ok(chosen_of(&matches)),
        Err(error) => Err(words_fault(&error)),
    }
}
