use super::*;
use std::test::Fail;

// Places 0 → 1 → 2 → 3, and 2 → 1. Bit 0 begins at 0, and 2 stops it; bit 1 is emitted by 2 alone; bit 2 begins at 3.
#[test]
fn loop_of_two_places(rt: HostRuntime) -> Result<(), Fail> {
    let starts = [0, 1, 2, 4, 4];
    let targets = [1, 2, 1, 3];
    let begins = [1, 0, 0, 4];
    let emits = [0, 0, 2, 0];
    let passes = [7, 7, 6, 7];
    for first in [First::Least, First::Last] {
        let rows = solve(
            rt.alloc(),
            &starts,
            &targets,
            &begins,
            &emits,
            &passes,
            first,
        )?;
        assert_eq!(rt; rows.as_slice(), [1, 3, 3, 6].as_slice());
    }
    Ok(())
}
