use super::*;
use std::test::Fail;

// The steps of NOPKILL and NOPIN with these numbers.
const fn nop_kill(align: u32) -> Step {
    Step {
        kind: PassKind::NopKill,
        opts: PassOpts {
            seed: 1,
            density: 10,
            align,
            max: 16,
        },
    }
}

const fn nop_in(seed: u64, density: u32) -> Step {
    Step {
        kind: PassKind::NopIn,
        opts: PassOpts {
            seed,
            density,
            align: 0,
            max: 16,
        },
    }
}

#[test]
fn reads_scripts(rt: HostRuntime) -> Result<(), Fail> {
    let cases: [(&str, &[Step]); 9] = [
        ("", &[]),
        ("NOPKILL", &[nop_kill(0)]),
        ("NOPKILL=align[1]", &[nop_kill(1)]),
        (
            "NOPIN=seed[42],density[50]:NOPKILL",
            &[nop_in(42, 50), nop_kill(0)],
        ),
        (
            "NOPIN=density[0],seed[007]:NOPIN:NOPIN=density[100]",
            &[nop_in(7, 0), nop_in(1, 10), nop_in(1, 100)],
        ),
        ("NOPIN=density[00000000000000000100]", &[nop_in(1, 100)]),
        (
            "NOPIN=seed[18446744073709551615]",
            &[nop_in(18_446_744_073_709_551_615, 10)],
        ),
        ("NOPIN=seed[0]", &[nop_in(0, 10)]),
        (
            "NOPIN:NOPIN:NOPIN:NOPIN:NOPIN:NOPIN:NOPIN:NOPIN:NOPIN:NOPIN:NOPIN:NOPIN:NOPIN:NOPIN:NOPIN:NOPIN:NOPIN:NOPIN:NOPIN:NOPIN:NOPIN:NOPIN:NOPIN:NOPIN:NOPIN:NOPIN:NOPIN:NOPIN:NOPIN:NOPIN:NOPIN:NOPIN",
            &[nop_in(1, 10); 32],
        ),
    ];
    for (text, steps) in cases {
        let script = read_script(rt.alloc(), text)?;
        assert_eq!(rt; script.steps.as_slice(), steps, "{text}");
    }
    Ok(())
}

#[test]
fn finds_the_first_fault(rt: HostRuntime) -> Result<(), Fail> {
    use ScriptFault::{BadNumber, Malformed, UnknownOption, UnknownPass};
    let cases = [
        ("NOPKILL:FOO", UnknownPass { place: 8 }),
        ("nopin", UnknownPass { place: 0 }),
        ("REDTEST", UnknownPass { place: 0 }),
        ("FOO+", UnknownPass { place: 0 }),
        ("NOPINS=seed[1]", UnknownPass { place: 0 }),
        ("NOPKILL=foo[1]", UnknownOption { place: 8 }),
        ("NOPKILL=seed[1]", UnknownOption { place: 8 }),
        ("NOPIN=density[101]", BadNumber { place: 14 }),
        ("NOPIN=density[101a]", BadNumber { place: 14 }),
        (
            "NOPIN=density[000000000000000000100]",
            BadNumber { place: 14 },
        ),
        ("NOPIN=seed[18446744073709551616]", BadNumber { place: 11 }),
        ("NOPKILL=align[2]", BadNumber { place: 14 }),
        ("NOPIN:", Malformed { place: 6 }),
        ("NOPIN=seed[1],seed[2]", Malformed { place: 14 }),
        ("NOPIN=seed[1],seed[x", Malformed { place: 14 }),
        ("NOPIN=density[]", Malformed { place: 14 }),
        ("NOPIN=density[100a]", Malformed { place: 17 }),
        ("NOPIN=density[-1]", Malformed { place: 14 }),
        ("NOPIN=seed[1", Malformed { place: 12 }),
        ("NOPIN=seed[1]=density[2]", Malformed { place: 13 }),
        ("NOPIN=seed", Malformed { place: 10 }),
        ("NOPIN=", Malformed { place: 6 }),
        ("NOPIN ", Malformed { place: 5 }),
        (":", Malformed { place: 0 }),
        ("NOPIN\u{e9}", Malformed { place: 5 }),
        (
            "NOPIN:NOPIN:NOPIN:NOPIN:NOPIN:NOPIN:NOPIN:NOPIN:NOPIN:NOPIN:NOPIN:NOPIN:NOPIN:NOPIN:NOPIN:NOPIN:NOPIN:NOPIN:NOPIN:NOPIN:NOPIN:NOPIN:NOPIN:NOPIN:NOPIN:NOPIN:NOPIN:NOPIN:NOPIN:NOPIN:NOPIN:NOPIN:FOO",
            Malformed { place: 192 },
        ),
    ];
    for (text, fault) in cases {
        let read = read_script(rt.alloc(), text).map(|_| ());
        assert_eq!(rt; read, Err(fault), "{text}");
    }
    Ok(())
}

#[test]
fn names_passes(rt: HostRuntime) -> Result<(), Fail> {
    let names = [
        (PassKind::RedTest, b"REDTEST".as_slice()),
        (PassKind::RedMov, b"REDMOV".as_slice()),
        (PassKind::Zee, b"ZEE".as_slice()),
        (PassKind::AddAdd, b"ADDADD".as_slice()),
        (PassKind::Dce, b"DCE".as_slice()),
        (PassKind::NopIn, b"NOPIN".as_slice()),
        (PassKind::NopKill, b"NOPKILL".as_slice()),
        (PassKind::Loop16, b"LOOP16".as_slice()),
        (PassKind::BrAlign, b"BRALIGN".as_slice()),
    ];
    for (kind, name) in names {
        assert_eq!(rt; name_of_kind(kind).as_bytes(), name);
        let is_built = catalogue().contains(&kind);
        assert_eq!(rt;
            kind_of_name(name),
            if is_built { Some(kind) } else { None }
        );
    }
    assert_eq!(rt;
        catalogue(),
        [PassKind::NopIn, PassKind::NopKill].as_slice()
    );
    Ok(())
}

#[test]
fn shows_faults(rt: HostRuntime) -> Result<(), Fail> {
    let fault = ScriptFault::UnknownPass { place: 8 };
    assert_eq!(rt; fault.to_string(rt.alloc())?.as_str(), "unknown pass at 8");
    Ok(())
}
