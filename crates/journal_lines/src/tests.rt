ghost use Rattle.journal_lines.specs.Lines.{IsOfProfile};

use super::*;
use crate::edits::put_edit;
use insn_ir::{Arg, Insn, Op, Width};
use pass_script::{PassKind, PassOpts, Step};
use std::alloc::{AllocError, Global};
use std::boxed::Box;
use std::process::Abort;
use std::test::Fail;
use unit_edits::{Edit, Journal};

fn is_told(rt: &(impl Abort + AllocGlobal), edit: &Edit, line: &str) -> Result<(), Fail>
    requires { IsOfProfile edit.now }
{
    let mut text = Vec::new(rt.alloc());
    put_edit(rt.alloc(), &mut text, edit)?;
    assert_eq!(rt; text.as_slice(), line.as_bytes());
    Ok(())
}

#[test]
fn tells_edits(rt: HostRuntime) -> Result<(), Fail> {
    is_told(&rt, &Edit::Remove { serial: 12 }, " remove 12")?;
    is_told(
        &rt,
        &Edit::InsertNop {
            before: 4,
            serial: 90,
        },
        " nop 4 90",
    )?;
    is_told(
        &rt,
        &Edit::InsertAlign {
            before: 4,
            serial: 91,
            power: 5,
        },
        " align 4 91 5",
    )
}

#[test]
fn tells_instructions(rt: HostRuntime) -> Result<(), Fail> {
    let insn = Insn {
        op: Op::Ret,
        width: Width::Q,
        a: Arg::Absent,
        b: Arg::Absent,
        c: Arg::Absent,
    };
    let insn = Box::new(rt.alloc(), insn)?;
    is_told(
        &rt,
        &Edit::Merge {
            first: 7,
            second: 3,
            insn,
        },
        " merge 7 3 ret",
    )
}

fn step(kind: PassKind) -> Step {
    Step {
        kind,
        opts: PassOpts {
            seed: 1,
            density: 10,
            align: 0,
            max: 16,
        },
    }
}

#[test]
fn tells_steps(rt: HostRuntime) -> Result<(), Fail> {
    let mut journal = Journal::new(rt.alloc());
    journal.begin(1, 0)?;
    journal.push(Edit::Remove { serial: 3 })?;
    journal.begin(1, 2)?;
    journal.push(Edit::Remove { serial: 5 })?;
    journal.begin(3, 0)?;
    journal.push(Edit::Remove { serial: 9 })?;
    let steps = [
        step(PassKind::NopKill),
        step(PassKind::NopIn),
        step(PassKind::NopKill),
    ];
    let text = step_lines(rt.alloc(), &steps, &journal)?;
    let lines = "step 1 NOPKILL: 2 edits
step 2 NOPIN: 0 edits
step 3 NOPKILL: 1 edits
";
    assert_eq!(rt; text.as_slice(), lines.as_bytes());
    Ok(())
}
