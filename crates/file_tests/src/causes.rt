// Why functions and whole files are left alone.

use crate::cases::Wanted::{Clear, Frozen, Functions, WholeFile};
use crate::cases::{AWAY, check_cases, check_functions};
use crate::texts::{CLOSE, CLOSE_G, OPEN, THEN_G, joined, unit_of};
use asm_unit::FreezeKind;
use asm_unit::FreezeKind::{
    DataInCode, ExceptionTable, InlineAssembly, JumpElsewhere, LabelAsValue, LabelOutside, TooLong,
    UnknownLine,
};
use std::alloc::AllocGlobal;
use std::process::Abort;
use std::test::Fail;

#[test]
fn breaking_lines_second_labels_and_freeze_bytes_freeze_the_file(
    rt: HostRuntime,
) -> Result<(), Fail> {
    check_cases(
        &rt,
        &[
            (
                "a breaking first line",
                &["\t.macro m\n", OPEN, "\tret\n", CLOSE],
                WholeFile(1),
            ),
            (
                "an assignment",
                &[OPEN, "x = 1\n\tret\n", CLOSE],
                WholeFile(6),
            ),
            (
                "a breaking directive behind",
                &[OPEN, "\tret\n", CLOSE, "\t.org 4\n"],
                WholeFile(8),
            ),
            (
                "a number is set",
                &[OPEN, "\t.set x, -1\n\tret\n", CLOSE],
                Clear,
            ),
            (
                "a label twice in a code",
                &[OPEN, ".L2:\n\tnop\n.L2:\n\tret\n", CLOSE],
                WholeFile(9),
            ),
            (
                "a function's label again in data",
                &[OPEN, "\tret\n", CLOSE, "\t.data\nf:\n"],
                WholeFile(9),
            ),
            (
                "a label used twice",
                &[
                    OPEN,
                    "\tjmp .L2\n\tjne .L2\n.L2:\n\tret\n",
                    CLOSE,
                    "\t.globl f\n\t.set h, f\n",
                ],
                Clear,
            ),
            (
                "a number as label twice",
                &[OPEN, "1:\n\tjmp 1b\n1:\n\tret\n", CLOSE],
                Frozen(UnknownLine, 6),
            ),
            (
                "a freeze byte in a code",
                &[OPEN, "\tmovl $'a, %eax\n\tret\n", CLOSE],
                WholeFile(6),
            ),
            (
                "a freeze byte in data",
                &[OPEN, "\tret\n", CLOSE, "\t.data\n\t.long 8/2\n"],
                WholeFile(9),
            ),
            (
                "such bytes in a comment and a string",
                &[
                    OPEN,
                    "\tnop # a/b 'c `d \\\n\tret\n",
                    CLOSE,
                    "\t.data\n\t.string \"a/b'c\\\\\"\n",
                ],
                Clear,
            ),
            (
                "an open string in the first line",
                &["\t.ident \"GCC\n", OPEN, "\tret\n", CLOSE],
                WholeFile(1),
            ),
            (
                "a string whose last quote is escaped",
                &[OPEN, "\tret\n", CLOSE, "\t.data\n\t.string \"a\\\"\n"],
                WholeFile(9),
            ),
            (
                "a quote in a comment, a semicolon in a string",
                &[
                    OPEN,
                    "\tnop # \"\n\tret\n",
                    CLOSE,
                    "\t.data\n\t.string \"a;b\"\n",
                ],
                Clear,
            ),
            (
                "a second label before a freeze byte",
                &[OPEN, ".L2:\n.L2:\n\t.long 8/2\n", CLOSE],
                WholeFile(8),
            ),
            (
                "a freeze byte before a second label",
                &[OPEN, ".L2:\n\t.long 8/2\n.L2:\n", CLOSE],
                WholeFile(8),
            ),
        ],
    )
}

#[test]
fn unknown_lines_of_the_code_freeze(rt: HostRuntime) -> Result<(), Fail> {
    check_cases(
        &rt,
        &[
            (
                "an unknown line in one of two functions",
                &[
                    OPEN,
                    "\taddsd %xmm1, %xmm0\n\tnop\n\tret\n",
                    THEN_G,
                    "\tnop\n\tret\n",
                    CLOSE_G,
                ],
                Functions(&[("f", AWAY, Some((UnknownLine, 6))), ("g", AWAY, None)]),
            ),
            (
                "an unknown last line",
                &[OPEN, "\tret\n\trep stosq\n", CLOSE],
                Frozen(UnknownLine, 7),
            ),
            (
                "an unknown line behind",
                &[OPEN, "\tret\n", CLOSE, "\taddsd %xmm1, %xmm0\n"],
                Clear,
            ),
            (
                "an unknown line in another section",
                &[OPEN, "\tret\n\t.data\n\tfoo\n\t.text\n", CLOSE],
                Clear,
            ),
        ],
    )
}

#[test]
fn data_and_other_fills_of_the_code_freeze(rt: HostRuntime) -> Result<(), Fail> {
    check_cases(
        &rt,
        &[
            (
                "a first byte of data",
                &[OPEN, "\t.byte 1\n\tret\n", CLOSE],
                Frozen(DataInCode, 6),
            ),
            (
                "zeros behind the last instruction",
                &[OPEN, "\tret\n\t.zero 4\n", CLOSE],
                Frozen(DataInCode, 7),
            ),
            (
                "an alignment that fills with zeros",
                &[OPEN, "\t.p2align 4,0\n\tret\n", CLOSE],
                Frozen(DataInCode, 6),
            ),
            (
                "alignments that fill with nops",
                &[
                    OPEN,
                    "\t.p2align 4,144\n\t.p2align 3,0x90,7\n\tret\n",
                    CLOSE,
                ],
                Clear,
            ),
            (
                "a fill before the label",
                &[
                    "\t.text\n\t.p2align 4,0\n\t.type f, @function\nf:\n\tret\n",
                    CLOSE,
                ],
                Clear,
            ),
            (
                "data in another section",
                &[
                    OPEN,
                    "\tret\n\t.section .rodata\n\t.byte 1\n\t.text\n",
                    CLOSE,
                ],
                Clear,
            ),
        ],
    )
}

#[test]
fn marks_of_the_range_freeze(rt: HostRuntime) -> Result<(), Fail> {
    check_cases(
        &rt,
        &[
            (
                "inline assembly",
                &[OPEN, "#APP\n\tnop\n#NO_APP\n\tret\n", CLOSE],
                Frozen(InlineAssembly, 6),
            ),
            (
                "a mark in another section",
                &[OPEN, "\tret\n\t.data\n#APP\n\t.text\n", CLOSE],
                Frozen(InlineAssembly, 8),
            ),
            (
                "marks before the range",
                &["#APP\n#NO_APP\n", OPEN, "\tret\n", CLOSE],
                Clear,
            ),
            (
                "a comment that begins as a mark does",
                &[OPEN, "#APPENDIX\n\tret\n", CLOSE],
                Clear,
            ),
        ],
    )
}

#[test]
fn labels_as_values_freeze(rt: HostRuntime) -> Result<(), Fail> {
    check_cases(
        &rt,
        &[
            (
                "the address of a label",
                &[OPEN, "\tleaq .L2(%rip), %rax\n.L2:\n\tret\n", CLOSE],
                Frozen(LabelAsValue, 6),
            ),
            (
                "a call of a label",
                &[OPEN, "\tnop\n\tcall .L2\n.L2:\n\tret\n", CLOSE],
                Frozen(LabelAsValue, 7),
            ),
            (
                "a label as a number",
                &[OPEN, "\tmovq $.L2, %rax\n.L2:\n\tret\n", CLOSE],
                Frozen(LabelAsValue, 6),
            ),
            (
                "addresses of other labels and of the function",
                &[
                    OPEN,
                    "\tjne .L2\n\tleaq .L9(%rip), %rax\n\tleaq f(%rip), %rcx\n.L2:\n\tret\n",
                    CLOSE,
                ],
                Clear,
            ),
        ],
    )
}

#[test]
fn labels_used_outside_freeze(rt: HostRuntime) -> Result<(), Fail> {
    check_cases(
        &rt,
        &[
            (
                "a label in an alias of the code",
                &[
                    OPEN,
                    "\tleaq .LX(%rip), %rax\n\tjmp *%rax\n\t.set .LX, .L3\n.L3:\n\tret\n",
                    CLOSE,
                ],
                Frozen(LabelOutside, 8),
            ),
            (
                "a label in data",
                &[OPEN, ".L2:\n\tret\n", CLOSE, "\t.data\n\t.quad .L2\n"],
                Frozen(LabelOutside, 11),
            ),
            (
                "debug data",
                &[
                    OPEN,
                    ".L2:\n\tret\n",
                    CLOSE,
                    "\t.section .debug_info,\"\",@progbits\n\t.quad .L2\n\t.long .L2-f\n\t.quad f+1\n",
                ],
                Clear,
            ),
            (
                "a label in a table of another function",
                &[
                    OPEN,
                    ".L2:\n\tret\n",
                    THEN_G,
                    "\tjmp *.L4(,%rdi,8)\n",
                    CLOSE_G,
                    "\t.section .rodata\n.L4:\n\t.quad .L2\n",
                ],
                Functions(&[("f", AWAY, Some((LabelOutside, 18))), ("g", AWAY, None)]),
            ),
            (
                "a label in the function's own table",
                &[
                    OPEN,
                    "\tjmp *.L4(,%rdi,8)\n.L2:\n\tret\n",
                    CLOSE,
                    "\t.section .rodata\n.L4:\n\t.quad .L2\n",
                ],
                Clear,
            ),
            (
                "a label in a table with another use",
                &[
                    OPEN,
                    "\tleaq .L4(%rip), %rax\n\tjmp *.L4(,%rdi,8)\n.L2:\n\tret\n",
                    CLOSE,
                    "\t.section .rodata\n.L4:\n\t.quad .L2\n",
                ],
                Frozen(LabelOutside, 15),
            ),
            (
                "a label handed out in the code",
                &[OPEN, "\t.globl .L2\n.L2:\n\tret\n", CLOSE],
                Frozen(LabelOutside, 6),
            ),
            (
                "a label handed out behind the code",
                &[OPEN, ".L2:\n\tret\n", CLOSE, "\t.globl .L2\n"],
                Frozen(LabelOutside, 10),
            ),
            (
                "the function handed out in its code",
                &[OPEN, "\t.globl f\n.L2:\n\tret\n", CLOSE],
                Clear,
            ),
            (
                "a jump to a label of another function",
                &[OPEN, ".L2:\n\tret\n", THEN_G, "\tjmp .L2\n", CLOSE_G],
                Functions(&[
                    ("f", AWAY, Some((LabelOutside, 13))),
                    ("g", AWAY, Some((JumpElsewhere, 13))),
                ]),
            ),
            (
                "an offset from the function",
                &[OPEN, "\tleaq f+4(%rip), %rax\n\tret\n", CLOSE],
                Frozen(LabelOutside, 6),
            ),
            (
                "an offset from an alias in another function",
                &[
                    OPEN,
                    "\tret\n",
                    CLOSE,
                    "\t.set h, f\n\t.type g, @function\ng:\n",
                    "\tleaq h+4(%rip), %rax\n\tret\n",
                    CLOSE_G,
                ],
                Functions(&[("f", AWAY, Some((LabelOutside, 12))), ("g", AWAY, None)]),
            ),
            (
                "the function as a cell, and from another label on",
                &[
                    OPEN,
                    "\tret\n",
                    CLOSE,
                    "\t.data\n.LX:\n\t.quad f\n\t.long f-.LX\n",
                ],
                Clear,
            ),
            (
                "an offset from the function in data",
                &[OPEN, "\tret\n", CLOSE, "\t.data\n\t.quad f+1\n"],
                Frozen(LabelOutside, 9),
            ),
            (
                "an offset from the function beside its cell",
                &[OPEN, "\tret\n", CLOSE, "\t.data\n\t.quad f+1, f\n"],
                Frozen(LabelOutside, 9),
            ),
            (
                "an offset from another name beside its cell",
                &[OPEN, "\tret\n", CLOSE, "\t.data\n\t.quad z+1, f, z\n"],
                Clear,
            ),
            (
                "another label from the function on",
                &[OPEN, "\tret\n", CLOSE, "\t.data\n.LX:\n\t.long .LX-f\n"],
                Frozen(LabelOutside, 11),
            ),
            (
                "a label from the function on",
                &[OPEN, ".L3:\n\tret\n", CLOSE, "\t.data\n\t.long .L3-f\n"],
                Frozen(LabelOutside, 11),
            ),
            (
                "the function from a label on",
                &[OPEN, ".L3:\n\tret\n", CLOSE, "\t.data\n\t.long f-.L3\n"],
                Frozen(LabelOutside, 11),
            ),
            (
                "the function from itself on",
                &[OPEN, "\tret\n", CLOSE, "\t.data\n\t.long f-f\n"],
                Frozen(LabelOutside, 9),
            ),
            (
                "the function in data of no fixed width",
                &[OPEN, "\tret\n", CLOSE, "\t.data\n\t.sleb128 f\n"],
                Frozen(LabelOutside, 9),
            ),
        ],
    )
}

#[test]
fn exception_tables_of_the_range_freeze(rt: HostRuntime) -> Result<(), Fail> {
    check_cases(
        &rt,
        &[
            (
                "a personality",
                &[OPEN, "\t.cfi_personality 0x3,x\n\tret\n", CLOSE],
                Frozen(ExceptionTable, 6),
            ),
            (
                "a table of exceptions in another section",
                &[
                    OPEN,
                    "\tret\n\t.data\n\t.cfi_lsda 0x1b,.LLSDA0\n\t.text\n",
                    CLOSE,
                ],
                Frozen(ExceptionTable, 8),
            ),
            (
                "a personality outside the range",
                &[
                    "\t.cfi_personality 0x3,x\n",
                    OPEN,
                    "\t.cfi_startproc\n\tret\n\t.cfi_endproc\n",
                    CLOSE,
                    "\t.cfi_lsda 0x1b,.LLSDA0\n",
                ],
                Clear,
            ),
        ],
    )
}

#[test]
fn the_least_serial_counts_and_then_the_earlier_rule(rt: HostRuntime) -> Result<(), Fail> {
    check_cases(
        &rt,
        &[
            (
                "the least serial of a later rule",
                &[OPEN, "\tjmp g1\n\tfoo\n", CLOSE, "\t.data\ng1:\n"],
                Frozen(JumpElsewhere, 6),
            ),
            (
                "the least serial before the function",
                &["\t.data\n\t.quad f+1\n", OPEN, "\tfoo\n", CLOSE],
                Frozen(LabelOutside, 2),
            ),
            (
                "a label as value and an offset in one line",
                &[OPEN, "\tmovq $.L2, f+4(%rip)\n.L2:\n\tret\n", CLOSE],
                Frozen(LabelAsValue, 6),
            ),
            (
                "data with an offset in the code",
                &[OPEN, "\t.quad f+1\n\tret\n", CLOSE],
                Frozen(DataInCode, 6),
            ),
        ],
    )
}

// A function whose range has five entries and these nops.
fn with_nops(rt: &(impl Abort + AllocGlobal), count: u32) -> Result<Vec<u8>, Fail> {
    let mut text = joined(rt, &[OPEN])?;
    for _ in 0..count {
        text.extend_from_slice(b"\tnop\n")?;
    }
    text.extend_from_slice(CLOSE.as_bytes())?;
    Ok(text)
}

#[test]
fn a_range_of_200_000_entries_is_clear_and_one_more_is_too_long(
    rt: HostRuntime,
) -> Result<(), Fail> {
    let cases: [(u32, Option<(FreezeKind, u32)>); 2] = [
        (199_995, None),
        (199_996, Some((TooLong, 200_002))),
    ];
    for (count, cause) in cases {
        let unit = unit_of(&rt, &with_nops(&rt, count)?)?;
        check_functions(&rt, "nops", &unit, &[("f", AWAY, cause)]);
    }
    Ok(())
}
