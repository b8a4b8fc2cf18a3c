use super::*;
use insn_ir::{Arg, Insn, Op, Width};
use std::alloc::{AllocError, Global};
use std::boxed::Box;
use std::test::Fail;

fn ret(alloc: Global) -> Result<Box<Insn>, AllocError> {
    let insn = Insn {
        op: Op::Ret,
        width: Width::Q,
        a: Arg::Absent,
        b: Arg::Absent,
        c: Arg::Absent,
    };
    Ok(Box::new(alloc, insn)?)
}

#[test]
fn keeps_edits_in_their_parts(rt: HostRuntime) -> Result<(), Fail> {
    let mut journal = Journal::new(rt.alloc());
    journal.begin(1, 0)?;
    journal.push(Edit::Remove { serial: 3 })?;
    journal.begin(1, 2)?;
    journal.begin(2, 0)?;
    let insn = ret(rt.alloc())?;
    journal.push(Edit::Put { serial: 4, insn })?;
    assert!(rt; !journal.parts().is_empty());
    journal.push(Edit::InsertNop {
        before: 4,
        serial: 9,
    })?;
    let parts = journal.parts();
    assert_eq!(rt; parts.len(), 3);
    for (part, (step, f, edits)) in parts.iter().zip([(1, 0, 1), (1, 2, 0), (2, 0, 2)]) {
        assert_eq!(rt; (part.step, part.f), (step, f));
        assert_eq!(rt; part.edits.as_slice().len(), edits);
    }
    let last = parts[2].edits.as_slice();
    assert!(rt;
        matches!(
            last,
            [
                Edit::Put { serial: 4, .. },
                Edit::InsertNop {
                    before: 4,
                    serial: 9
                }
            ]
        )
    );
    Ok(())
}
