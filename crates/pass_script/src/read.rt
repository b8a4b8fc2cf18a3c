// Scripts read from a text.

ghost use Rattle.std.specs.Prelude.{◌≡◌, ◌<◌, ◌≤◌, ◌^◌, ◌⊎◌, ◌||◌, ⊤, length, Some, None, true, false, IsTrue, IfOk, IfErr, OnOk, MatchOption, nat_lt, if◌then◌else◌, All};
ghost use Rattle.pass_script.specs.Catalogue.{is_in_range, AreInRange};
ghost use Rattle.pass_script.specs.Script.{number_of, is_good, fault_of, steps_of};
ghost use Rattle.pass_script.specs.declared.options.PassOption.{PassOption};
ghost use Rattle.pass_script.specs.walks.Given.{gives, same_option};
ghost use Rattle.pass_script.specs.walks.Left.{GivesNumber, FailsInNumber, GivesOptions, FailsInOptions, GivesStep, FailsInStep};

use crate::cursor::Cursor;
use crate::kinds::{PassKind, kind_of_name};
use crate::options::{PassOption, PassOpts};
use crate::script::{Script, ScriptFault, Step, StepList};
use std::alloc::Global;

/// The most steps that a script has.
const MAX_STEPS: usize = 32;

/// The most digits that a number has.
const MAX_DIGITS: usize = 20;

// Which options a step gave.
#[derive(Clone, Copy, Default)]
struct Given {
    seed: bool,
    density: bool,
    align: bool,
    max: bool,
}

impl Given {
    fn has(self, option: PassOption) -> bool
        ensures { result ≡ gives self option }
    {
        match option {
            PassOption::Seed => self.seed,
            PassOption::Density => self.density,
            PassOption::Align => self.align,
            PassOption::Max => self.max,
        }
    }

    fn with(self, option: PassOption) -> Given
        ensures { (o : PassOption) → gives result o ≡ (same_option o option || gives self o) }
    {
        match option {
            PassOption::Seed => Given { seed: true, ..self },
            PassOption::Density => Given {
                density: true,
                ..self
            },
            PassOption::Align => Given {
                align: true,
                ..self
            },
            PassOption::Max => Given { max: true, ..self },
        }
    }
}

// The number that digits stand for, where it is below 2^64.
fn number_of(digits: &[u8]) -> Option<u64>
    ensures { result ≡ (if nat_lt (number_of digits.now) (2 ^ 64) then Some (number_of digits.now) else None) }
{
    let mut number: u64 = 0;
    for digit in digits {
        number = number
            .checked_mul(10)?
            .checked_add(digit.saturating_sub(b'0') as u64)?;
    }
    Some(number)
}

// The number that digits stand for, where there are few enough and it lies in the option's range.
fn number_for(option: PassOption, digits: &[u8]) -> Option<u64>
    ensures good { MatchOption result (is_good (Some option) digits.now ≡ false) (λ n. is_good (Some option) digits.now ≡ true) }
    ensures value { MatchOption result ⊤ (λ n. n ≡ number_of digits.now) }
    ensures in_range { MatchOption result ⊤ (λ n. IsTrue (is_in_range option n)) }
{
    if digits.len() > MAX_DIGITS {
        return None;
    }
    let number = number_of(digits)?;
    if option.is_in_range(number) {
        Some(number)
    } else {
        None
    }
}

// An option's number in brackets, behind the option's name.
fn read_number<'a>(at: &Cursor<'a>, option: PassOption) -> Result<(u64, Cursor<'a>), ScriptFault>
    ensures ok { IfOk result (λ r. GivesNumber at.now option r.0 r.1) }
    ensures in_range { IfOk result (λ r. IsTrue (is_in_range option r.0)) }
    ensures shorter { IfOk result (λ r. length r.1.bytes < length at.now.bytes) }
    ensures err { IfErr result (FailsInNumber at.now option) }
{
    let Some(at) = at.expect(b'[') else {
        return Err(ScriptFault::Malformed { place: at.place() });
    };
    let place = at.place();
    let (digits, at) = at.digits();
    if digits.is_empty() {
        return Err(ScriptFault::Malformed { place });
    }
    let Some(number) = number_for(option, digits) else {
        return Err(ScriptFault::BadNumber { place });
    };
    match at.expect(b']') {
        Some(at) => Ok((number, at)),
        None => Err(ScriptFault::Malformed { place: at.place() }),
    }
}

// The options of a step, behind its `=`.
fn read_options<'a>(at: Cursor<'a>, kind: PassKind) -> Result<(PassOpts, Cursor<'a>), ScriptFault>
    ensures ok { IfOk result (λ r. GivesOptions at.entry kind r.0 r.1) }
    ensures in_range { IfOk result (λ r. AreInRange r.0) }
    ensures shorter { IfOk result (λ r. length r.1.bytes < length at.entry.bytes) }
    ensures err { IfErr result (FailsInOptions at.entry kind) }
{
    let mut at = at;
    let mut opts = PassOpts::default();
    let mut given = Given::default();
    loop {
        let place = at.place();
        let (name, behind) = at.name();
        if name.is_empty() {
            return Err(ScriptFault::Malformed { place });
        }
        let Some(option) = PassOption::of_name(kind, name) else {
            return Err(ScriptFault::UnknownOption { place });
        };
        if given.has(option) {
            return Err(ScriptFault::Malformed { place });
        }
        let (number, behind) = read_number(&behind, option)?;
        opts = opts.with(option, number);
        given = given.with(option);
        match behind.expect(b',') {
            Some(next) => at = next,
            None => return Ok((opts, behind)),
        }
    }
}

// A step.
fn read_step<'a>(at: &Cursor<'a>) -> Result<(Step, Cursor<'a>), ScriptFault>
    ensures ok { IfOk result (λ r. GivesStep at.now r.0 r.1) }
    ensures in_range { IfOk result (λ r. AreInRange r.0.opts) }
    ensures shorter { IfOk result (λ r. length r.1.bytes < length at.now.bytes) }
    ensures err { IfErr result (FailsInStep at.now) }
{
    let place = at.place();
    let (name, at) = at.name();
    if name.is_empty() {
        return Err(ScriptFault::Malformed { place });
    }
    let Some(kind) = kind_of_name(name) else {
        return Err(ScriptFault::UnknownPass { place });
    };
    match at.expect(b'=') {
        Some(at) => {
            let (opts, at) = read_options(at, kind)?;
            Ok((Step { kind, opts }, at))
        }
        None => Ok((
            Step {
                kind,
                opts: PassOpts::default(),
            },
            at,
        )),
    }
}

/// Reads a script: empty, or one to 32 steps joined by `:`. A step is a pass's name, or a pass's name, `=` and options
/// joined by `,`. An option is its name, `[`, 1 to 20 decimal digits and `]`, once in a step. A name is the longest run
/// of ASCII letters and digits. An option that isn't given has its default. The fault of the least place is answered,
/// and at one place `Malformed`. The text is walked once. The grammar is this project's own.
pub fn read_script(alloc: Global, text: &str) -> Result<Script, ScriptFault>
    ensures no_fault { OnOk result (fault_of text.now ≡ None) }
    ensures steps { IfOk result (λ s. s.steps ≡ steps_of text.now) }
    ensures few { IfOk result (λ s. length s.steps ≤ 32) }
    ensures in_range { IfOk result (λ s. All (λ step. AreInRange step.opts) s.steps) }
    ensures fault { IfErr result (λ e. (e ≡ ScriptFault.NoMemory) ⊎ (fault_of text.now ≡ Some e)) }
{
    let mut steps = StepList::new(alloc);
    let mut at = Cursor::new(text.as_bytes());
    if at.is_at_end() {
        return Ok(Script { steps });
    }
    loop {
        if steps.as_slice().len() == MAX_STEPS {
            return Err(ScriptFault::Malformed { place: at.place() });
        }
        let (step, behind) = read_step(&at)?;
        steps.push(step)?;
        match behind.expect(b':') {
            Some(next) => at = next,
            None if behind.is_at_end() => return Ok(Script { steps }),
            None => {
                return Err(ScriptFault::Malformed {
                    place: behind.place(),
                });
            }
        }
    }
}
