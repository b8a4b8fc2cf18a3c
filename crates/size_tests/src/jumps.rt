// Direct jumps: GNU as takes the short form where the target is near, and the near one else.

use crate::checks::has_size;
use size_table::JumpForm;
use std::test::Fail;

#[test]
fn direct_jumps(rt: HostRuntime) -> Result<(), Fail> {
    has_size(&rt, "jmp .L2", JumpForm::Short, 2)?;
    has_size(&rt, "jmp .L2", JumpForm::Near, 5)?;
    has_size(&rt, "jle .L2", JumpForm::Short, 2)?;
    has_size(&rt, "jle .L2", JumpForm::Near, 6)?;
    Ok(())
}
