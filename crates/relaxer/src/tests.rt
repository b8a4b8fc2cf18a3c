use super::*;
use std::test::Fail;

#[test]
fn offsets_after_a_change(rt: HostRuntime) -> Result<(), Fail> {
    let mut offsets = Offsets::build(rt.alloc(), &[1; 130])?;
    assert_eq!(rt; offsets.offset(130), 130);
    offsets.set(3, 5);
    assert_eq!(rt; offsets.offset(0), 0);
    assert_eq!(rt; offsets.offset(3), 3);
    assert_eq!(rt; offsets.offset(4), 8);
    assert_eq!(rt; offsets.offset(130), 134);
    Ok(())
}

// the displacements at both ends of what a short jump reaches
#[test]
fn displacements_of_jumps(rt: HostRuntime) -> Result<(), Fail> {
    let offsets = Offsets::build(rt.alloc(), &[1; 130])?;
    assert_eq!(rt; offsets.displacement(0, 128), 127);
    assert_eq!(rt; offsets.displacement(127, 0), -128);
    for (displacement, reaches) in [(127, true), (128, false), (-128, true), (-129, false)] {
        assert_eq!(rt; is_in_reach(displacement), reaches);
    }
    Ok(())
}

#[test]
fn sizes_of_a_code(rt: HostRuntime) -> Result<(), Fail> {
    let items = [
        Item::Short {
            size: 2,
            near: 6,
            target: 4,
        },
        Item::Align {
            power: 4,
            max: Some(10),
        },
        Item::Near { size: 5, target: 4 },
        Item::Align {
            power: 3,
            max: None,
        },
        Item::Fixed { size: 0 },
    ];
    assert_eq!(rt;
        sizes(rt.alloc(), &items)?.as_slice(),
        [2, 0, 5, 1, 0].as_slice()
    );
    assert_eq!(rt; padding(1, 4, Some(14)), 0);
    assert_eq!(rt; padding(1, 4, Some(15)), 15);
    Ok(())
}
