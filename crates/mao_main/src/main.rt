// The program: standard input to standard output, and notes to standard error, by the words of the command line.
#![tactic(auto)]

ghost use Rattle.std.specs.Prelude.{◌≡◌, ◌≢◌, ◌≤◌, map, IfOk};
ghost use Rattle.mao_core.specs.Outcome.{AreRead, IsCommand};

use mao_core::{Status, exit_of, filter};
use mao_outside::{StdSink, StdSource, put_all};
use pass_base::{Pass, PassBook};
use pass_drops::{NopIn, NopKill};
use std::alloc::AllocError;
use std::boxed::Box;
use std::env;
use std::process::ExitCode;

// The exit status of a run whose words the runtime does not hand out.
const NO_WORDS: u8 = 7;

// Makes a box for each pass of the catalogue, in its order, and runs the command by them from standard input to standard output,
// with notes on standard error. It gives the exit status.
fn filter_by_boxes(rt: &HostRuntime, words: &[&str]) -> Result<u8, AllocError>
    ensures usage { IfOk result (λ exit. exit ≡ 1 → IsCommand (map (λ w. w.now) words.now) → ⊥) }
    ensures words { IfOk result (λ exit. exit ≢ 1 → exit ≢ 4 → AreRead (map (λ w. w.now) words.now)) }
    ensures range { IfOk result (λ exit. exit ≤ 6) }
{
    let alloc = rt.alloc();
    let mut boxes: Vec<Box<dyn Pass>> = Vec::new(alloc);
    boxes.push(Box::new(alloc, NopIn::new())?)?;
    boxes.push(Box::new(alloc, NopKill::new())?)?;
    // Each box states its kind, so the boxes are those of the catalogue.
    let Ok(mut book) = PassBook::new(boxes) else {
        return Err(AllocError);
    };
    let mut source = StdSource::new(rt.stdin());
    let mut out = StdSink::new(rt.stdout());
    let mut notes = StdSink::new(rt.stderr());
    Ok(filter(alloc, words, &mut source, &mut out, &mut notes, &mut book))
}

// Offers standard error the line of a run that doesn't come to the command, and hands on the exit status.
fn refused(rt: &HostRuntime, line: &[u8], exit: u8) -> u8
    ensures { result ≡ exit }
{
    let _ = put_all(&mut StdSink::new(rt.stderr()), line);
    exit
}

fn out_of_memory(rt: &HostRuntime) -> u8 {
    refused(rt, b"mao: out of memory\n", exit_of(Status::NoMemory))
}

// Collects the words of the command line, and runs the command by them.
fn run(rt: &HostRuntime) -> u8 {
    let alloc = rt.alloc();
    let Ok(args) = env::args(rt) else {
        return refused(rt, b"mao: unreadable arguments\n", NO_WORDS);
    };
    let Ok(texts) = args.collect::<Vec<String>>(alloc) else {
        return out_of_memory(rt);
    };
    let mut words = Vec::new(alloc);
    for text in &texts {
        if words.push(text.as_str()).is_err() {
            return out_of_memory(rt);
        }
    }
    match filter_by_boxes(rt, &words) {
        Ok(exit) => exit,
        Err(_) => out_of_memory(rt),
    }
}

fn main(rt: HostRuntime) -> ExitCode {
    ExitCode::from(run(&rt))
}

#[cfg(test)]
mod tests;
