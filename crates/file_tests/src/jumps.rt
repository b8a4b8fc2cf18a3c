// Jumps to names that stand for no function.

use crate::cases::Wanted::{Clear, Frozen, Functions};
use crate::cases::{AWAY, HOME, cause_of, check_cases};
use crate::texts::{CLOSE, CLOSE_G, OPEN, THEN_G, joined, unit_of};
use asm_unit::FreezeKind::JumpElsewhere;
use std::test::Fail;

#[test]
fn jumps_elsewhere_freeze(rt: HostRuntime) -> Result<(), Fail> {
    check_cases(
        &rt,
        &[
            (
                "a jump to a label of data",
                &[
                    OPEN,
                    ".L1:\n\tjmp g1\n\tret\n",
                    CLOSE,
                    "\t.data\ng1:\n\t.quad 0\n",
                ],
                Frozen(JumpElsewhere, 8),
            ),
            (
                "a jump to an alias of such a label",
                &[
                    OPEN,
                    "\tjne h\n\tret\n",
                    CLOSE,
                    "\t.data\ng1:\n\t.set h, g1\n",
                ],
                Frozen(JumpElsewhere, 6),
            ),
            (
                "a jump to a part in another section",
                &[
                    OPEN,
                    "\tjne .L9\n\tret\n\t.section .text.unlikely\n.L9:\n\tret\n\t.text\n",
                    CLOSE,
                ],
                Frozen(JumpElsewhere, 6),
            ),
            (
                "a jump to another function's alias",
                &[
                    OPEN,
                    "\tjmp h\n",
                    THEN_G,
                    "\tret\n",
                    CLOSE_G,
                    "\t.set h, g\n",
                ],
                Functions(&[("f", AWAY, None), ("g", HOME, None)]),
            ),
            (
                "a jump out of the file",
                &[OPEN, "\tjmp puts\n", CLOSE],
                Clear,
            ),
        ],
    )
}

// Eighteen pieces.
const ALIASES: &str =
    "\t.set before, f\n\t.type f, @function\nf:\ninside:\n\t.size f, .-f\noutside:\n\t.set a, f\n\t.set b, a\n\t.set c, outside\n\t.set d, elsewhere\n\t.set f, of\nof:\n\t.set twice, outside\n\t.set twice, f\n";

// Four pieces.
const CIRCLE: &str = "\t.set p, q\n\t.set q, p\nf:\n";

// Twelve pieces.
const CIRCLE_TO_F: &str =
    "\t.set p, q\n\t.set q, p\n\t.set q, f\n\t.type f, @function\nf:\n\t.size f, .-f\n\t.type g, @function\ng:\n\t.size g, .-g\n\t.set r, g\n";

// The lines before and behind the name in a last function, whose jump is its fourth piece.
const JUMP_TO: &str = "\t.type k, @function\nk:\n\tjmp ";

const CLOSE_K: &str = "\n\t.size k, .-k\n";

#[test]
fn an_alias_of_a_function_leads_to_it(rt: HostRuntime) -> Result<(), Fail> {
    // Lines, the name to which a last function jumps, and the serial of the jump if it freezes.
    let cases: [(&str, &str, Option<u32>); 20] = [
        (ALIASES, "f", None),
        (ALIASES, "inside", Some(22)),
        (ALIASES, "outside", Some(22)),
        (ALIASES, "before", None),
        (ALIASES, "a", None),
        (ALIASES, "b", None),
        (ALIASES, "c", Some(22)),
        (ALIASES, "d", Some(22)),
        (ALIASES, "elsewhere", None),
        (ALIASES, "of", Some(22)),
        (ALIASES, "twice", None),
        (ALIASES, "g", None),
        (CIRCLE, "p", Some(8)),
        (CIRCLE, "q", Some(8)),
        (CIRCLE, "f", Some(8)),
        (CIRCLE_TO_F, "p", None),
        (CIRCLE_TO_F, "q", None),
        (CIRCLE_TO_F, "f", None),
        (CIRCLE_TO_F, "g", None),
        (CIRCLE_TO_F, "r", None),
    ];
    for (lines, name, serial) in cases {
        let unit = unit_of(&rt, &joined(&rt, &[lines, JUMP_TO, name, CLOSE_K])?)?;
        assert!(rt; unit.functions() > 0, "{name}");
        let cause = serial.map(|serial| cause_of((JumpElsewhere, serial)));
        assert_eq!(rt; unit.frozen(unit.functions() - 1), cause, "{name}");
    }
    Ok(())
}
