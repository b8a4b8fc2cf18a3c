// Tables of texts with what the units of these files are to say.

use crate::texts::{joined, unit_of};
use Wanted::{Clear, Frozen, Functions, NoFunction, WholeFile};
use asm_unit::{AsmUnit, FreezeCause, FreezeKind};
use std::alloc::AllocGlobal;
use std::process::Abort;
use std::test::Fail;

/// A function's name, whether it is home, and the rule that freezes it with the serial at which it holds.
pub type Function<'a> = (&'a str, bool, Option<(FreezeKind, u32)>);

/// What the unit of a file is to say.
#[derive(Clone, Copy)]
pub enum Wanted<'a> {
    /// The entry of this serial freezes the file whole.
    WholeFile(u32),
    NoFunction,
    /// One function `f`, which is away and clear, or away and frozen.
    Clear,
    Frozen(FreezeKind, u32),
    Functions(&'a [Function<'a>]),
}

/// What a case shows, its text in parts, and what is wanted.
pub type Case<'a> = (&'a str, &'a [&'a str], Wanted<'a>);

pub const AWAY: bool = false;

pub const HOME: bool = true;

pub fn cause_of((kind, serial): (FreezeKind, u32)) -> FreezeCause {
    FreezeCause { kind, serial }
}

pub fn check_functions(
    rt: &(impl Abort + AllocGlobal),
    shows: &str,
    unit: &AsmUnit,
    wanted: &[Function],
) {
    assert_eq!(rt; unit.functions() as usize, wanted.len(), "{shows}");
    for f in 0..unit.functions() {
        let (name, home, cause) = wanted[f as usize];
        assert_eq!(rt; unit.name(f), name.as_bytes(), "{shows}");
        assert_eq!(rt; unit.is_home(f), home, "{shows}: {name}");
        assert_eq!(rt; unit.frozen(f), cause.map(cause_of), "{shows}: {name}");
    }
}

pub fn check_wanted(rt: &(impl Abort + AllocGlobal), shows: &str, unit: &AsmUnit, wanted: Wanted) {
    if let WholeFile(serial) = wanted {
        let cause = cause_of((FreezeKind::File, serial));
        assert_eq!(rt; unit.file_frozen(), Some(cause), "{shows}");
    } else {
        assert_eq!(rt; unit.file_frozen(), None, "{shows}");
    }
    match wanted {
        WholeFile(_) | NoFunction => assert_eq!(rt; unit.functions(), 0, "{shows}"),
        Clear => check_functions(rt, shows, unit, &[("f", AWAY, None)]),
        Frozen(kind, serial) => check_functions(
            rt,
            shows,
            unit,
            &[("f", AWAY, Some((kind, serial)))],
        ),
        Functions(functions) => check_functions(rt, shows, unit, functions),
    }
}

fn check_case(rt: &(impl Abort + AllocGlobal), case: &Case) -> Result<(), Fail> {
    let (shows, parts, wanted) = *case;
    let unit = unit_of(rt, &joined(rt, parts)?)?;
    check_wanted(rt, shows, &unit, wanted);
    Ok(())
}

pub fn check_cases(rt: &(impl Abort + AllocGlobal), cases: &[Case]) -> Result<(), Fail> {
    for case in cases {
        check_case(rt, case)?;
    }
    Ok(())
}
