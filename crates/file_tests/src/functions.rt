// What is a function, where it stands, and which are home.

use crate::cases::Wanted::{Clear, Functions, NoFunction};
use crate::cases::{AWAY, HOME, check_cases};
use crate::texts::{CLOSE, CLOSE_G, OPEN, THEN_G, joined, unit_of};
use std::test::Fail;

#[test]
fn functions_have_a_type_a_label_in_code_and_a_size(rt: HostRuntime) -> Result<(), Fail> {
    check_cases(
        &rt,
        &[
            (
                "known lines are clear",
                &[OPEN, "\tnop\n\tret\n", CLOSE],
                Clear,
            ),
            ("no `.type`", &["f:\n\tret\n\t.size f, .-f\n"], NoFunction),
            (
                "a `.type` of an object",
                &["\t.type f, @object\nf:\n\tret\n\t.size f, .-f\n"],
                NoFunction,
            ),
            (
                "a `.type` behind the label",
                &["f:\n\t.type f, @function\n\tret\n\t.size f, .-f\n"],
                NoFunction,
            ),
            (
                "a `.size` of another name",
                &[OPEN, "\tret\n\t.size g, .-g\n"],
                NoFunction,
            ),
            (
                "a label in data",
                &["\t.data\n\t.type f, @function\nf:\n\tret\n\t.size f, .-f\n"],
                NoFunction,
            ),
            (
                "a section with a flag for code",
                &["\t.section .init,\"ax\"\n\t.type f, @function\nf:\n\tret\n\t.size f, .-f\n"],
                Clear,
            ),
            (
                "a function in a function",
                &[OPEN, "\t.type g, @function\ng:\n\tret\n", CLOSE_G, CLOSE],
                Clear,
            ),
            (
                "lines that end in two bytes, and no last newline",
                &[".text\r\n.type f,@function\r\nf: nop\r\n\tret\r\n.size f,.-f"],
                Clear,
            ),
        ],
    )
}

// What a case shows, its text in parts, and of each function the serial of its label and its base power.
type PlaceCase<'a> = (&'a str, &'a [&'a str], &'a [(u32, u8)]);

#[test]
fn base_powers_are_the_greatest_of_the_lead(rt: HostRuntime) -> Result<(), Fail> {
    let cases: [PlaceCase; 5] = [
        (
            "with an alignment, and without",
            &[OPEN, "\tnop\n", THEN_G, CLOSE_G],
            &[(4, 4), (9, 0)],
        ),
        (
            "a label ends the lead",
            &[
                "\t.p2align 6\nx:\n\t.p2align 3\n\n\t.p2align 5\n\t.type f, @function\nf:\n",
                CLOSE,
            ],
            &[(8, 5)],
        ),
        (
            "a max that may pad nothing",
            &[
                "\t.p2align 3\n\t.p2align 4,,14\n\t.type f, @function\nf:\n",
                CLOSE,
            ],
            &[(4, 3)],
        ),
        (
            "a max that every padding keeps to",
            &["\t.p2align 4,,15\n\t.type f, @function\nf:\n", CLOSE],
            &[(3, 4)],
        ),
        (
            "a function in a function",
            &[
                "\t.type f, @function\n\t.type g, @function\nf:\ng:\n",
                CLOSE_G,
                CLOSE,
            ],
            &[(3, 0)],
        ),
    ];
    for (shows, parts, places) in cases {
        let unit = unit_of(&rt, &joined(&rt, parts)?)?;
        assert_eq!(rt; unit.functions() as usize, places.len(), "{shows}");
        for f in 0..unit.functions() {
            assert_eq!(rt;
                (unit.label(f), unit.base_power(f)),
                places[f as usize],
                "{shows}"
            );
        }
    }
    Ok(())
}

#[test]
fn calls_jumps_and_unknown_lines_make_home(rt: HostRuntime) -> Result<(), Fail> {
    check_cases(
        &rt,
        &[
            (
                "a call of itself",
                &[OPEN, "\tcall f\n\tret\n", CLOSE],
                Functions(&[("f", HOME, None)]),
            ),
            (
                "a call with a specifier",
                &[OPEN, "\tret\n", THEN_G, "\tcall f@PLT\n\tret\n", CLOSE_G],
                Functions(&[("f", HOME, None), ("g", AWAY, None)]),
            ),
            (
                "a jump from another function",
                &[OPEN, "\tret\n", THEN_G, "\tjmp f\n", CLOSE_G],
                Functions(&[("f", HOME, None), ("g", AWAY, None)]),
            ),
            (
                "a jump on a condition",
                &[OPEN, "\tret\n", THEN_G, "\tjne f\n\tret\n", CLOSE_G],
                Functions(&[("f", HOME, None), ("g", AWAY, None)]),
            ),
            (
                "a call through its place",
                &[OPEN, "\tret\n", THEN_G, "\tcall *f(%rip)\n\tret\n", CLOSE_G],
                Functions(&[("f", HOME, None), ("g", AWAY, None)]),
            ),
            (
                "a call of an alias of an alias",
                &[
                    OPEN,
                    "\tret\n",
                    CLOSE,
                    "\t.set h, f\n\t.set k, h\n\t.type g, @function\ng:\n",
                    "\tcall k\n\tret\n",
                    CLOSE_G,
                ],
                Functions(&[("f", HOME, None), ("g", AWAY, None)]),
            ),
            (
                "a call of an alias that is set twice",
                &[
                    OPEN,
                    "\tret\n",
                    THEN_G,
                    "\tret\n",
                    CLOSE_G,
                    "\t.set h, f\n\t.set h, g\n\tcall h\n",
                ],
                Functions(&[("f", HOME, None), ("g", HOME, None)]),
            ),
            (
                "a call of aliases in a circle",
                &[
                    OPEN,
                    "\tret\n",
                    THEN_G,
                    "\tret\n",
                    CLOSE_G,
                    "\t.set h, k\n\t.set k, h\n\t.set k, f\n\tcall h\n",
                ],
                Functions(&[("f", HOME, None), ("g", AWAY, None)]),
            ),
            (
                "a word of an unknown line",
                &[OPEN, "\tret\n", CLOSE, "\tfoo f\n"],
                Functions(&[("f", HOME, None)]),
            ),
            (
                "its address, its cell, and a call of a longer name",
                &[
                    OPEN,
                    "\tret\n",
                    THEN_G,
                    "\tleaq f(%rip), %rax\n\tcall f2\n\tret\n",
                    CLOSE_G,
                    "\t.data\n\t.quad f\n\t.globl f\n",
                ],
                Functions(&[("f", AWAY, None), ("g", AWAY, None)]),
            ),
        ],
    )
}
