use super::*;
use pass_script::{PassKind, PassOpts, Step};
use std::test::Fail;

const NOPKILL: Step = Step {
    kind: PassKind::NopKill,
    opts: PassOpts {
        seed: 1,
        density: 10,
        align: 0,
        max: 16,
    },
};

const NOPIN: Step = Step {
    kind: PassKind::NopIn,
    opts: PassOpts {
        seed: 42,
        density: 50,
        align: 0,
        max: 16,
    },
};

#[test]
fn reads_the_command_line(rt: HostRuntime) -> Result<(), Fail> {
    let cases: [(&[&str], Result<(&[Step], bool), &[u8]>); 18] = [
        (&["mao"], Ok((&[], false))),
        (&["mao", "--mao="], Ok((&[], false))),
        (&["mao", "--journal"], Ok((&[], true))),
        (&["mao", "--mao=NOPKILL"], Ok((&[NOPKILL], false))),
        (
            &["mao", "--mao=NOPKILL", "--journal"],
            Ok((&[NOPKILL], true)),
        ),
        (
            &[
                "mao",
                "--journal",
                "--mao",
                "NOPIN=seed[42],density[50]:NOPKILL",
            ],
            Ok((&[NOPIN, NOPKILL], true)),
        ),
        (&["mao", "--help"], Err(b"mao: usage\n")),
        (&["mao", "file.s"], Err(b"mao: usage\n")),
        (&["mao", "--mao"], Err(b"mao: usage\n")),
        (&["mao", "--journal=yes"], Err(b"mao: usage\n")),
        (&["mao", "--journal", "--journal"], Err(b"mao: usage\n")),
        (
            &["mao", "--mao=NOPIN", "--mao=NOPKILL"],
            Err(b"mao: usage\n"),
        ),
        (&["mao", "--mao=FOO", "--verbose"], Err(b"mao: usage\n")),
        (
            &["mao", "--mao=NOPKILL:FOO"],
            Err(b"mao: script: unknown pass at 8\n"),
        ),
        (
            &["mao", "--mao=NOPKILL=foo[1]"],
            Err(b"mao: script: unknown option at 8\n"),
        ),
        (
            &["mao", "--mao=NOPIN=density[101]"],
            Err(b"mao: script: bad number at 14\n"),
        ),
        (
            &["mao", "--mao=NOPIN=seed[1],seed[2]", "--journal"],
            Err(b"mao: script: malformed at 14\n"),
        ),
        (
            &["mao", "--mao=NOPIN:"],
            Err(b"mao: script: malformed at 6\n"),
        ),
    ];
    for (words, wanted) in cases {
        let read = read_asked(rt.alloc(), words);
        match wanted {
            Ok((steps, journal)) => {
                let asked = read?;
                assert_eq!(rt; asked.steps.as_slice(), steps);
                assert_eq!(rt; asked.journal, journal);
            }
            Err(line) => {
                let refusal = read.map(|_| ()).expect_err(&rt, "words that are refused");
                assert_eq!(rt; refusal_line(rt.alloc(), refusal)?.as_slice(), line);
            }
        }
    }
    Ok(())
}

#[test]
fn reads_words_alone(rt: HostRuntime) -> Result<(), Fail> {
    let read = read_words(rt.alloc(), &["mao", "--mao=FOO", "--journal"]);
    let chosen = Chosen {
        script: "FOO",
        journal: true,
    };
    assert_eq!(rt; read, Ok(chosen));
    Ok(())
}
