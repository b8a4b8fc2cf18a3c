// Jump tables: whose they are, and the labels that their cells name.

use crate::cases::Wanted::{Clear, Frozen, Functions};
use crate::cases::{AWAY, Wanted, check_wanted};
use crate::texts::{CLOSE, CLOSE_G, OPEN, THEN_G, joined, unit_of};
use asm_unit::FreezeKind::LabelOutside;
use std::alloc::AllocGlobal;
use std::process::Abort;
use std::test::Fail;

// GCC's form: a table in the middle of its function.
const PICK: &str =
    "\t.file\t\"pick.c\"\n\t.text\n\t.p2align 4\n\t.globl\tpick\n\t.type\tpick, @function\npick:\n.LFB0:\n\t.cfi_startproc\n\tendbr64\n\tcmpl\t$2, %edi\n\tja\t.L5\n\tmovl\t%edi, %edi\n\tnotrack jmp\t*.L4(,%rdi,8)\n\t.section\t.rodata\n\t.align 8\n\t.align 4\n.L4:\n\t.quad\t.L7\n\t.quad\t.L6\n\t.quad\t.L3\n\t.text\n\t.p2align 4,,10\n\t.p2align 3\n.L7:\n\tleal\t1(%rsi), %eax\n\tret\n\t.p2align 4,,10\n\t.p2align 3\n.L6:\n\tmovl\t%esi, %eax\n\tsubl\t$7, %eax\n\ttestl\t%eax, %eax\n\tjs\t.L5\n\tret\n\t.p2align 4,,10\n\t.p2align 3\n.L3:\n\tleal\t(%rsi,%rsi,2), %eax\n\tret\n.L5:\n\txorl\t%eax, %eax\n\tret\n\t.cfi_endproc\n.LFE0:\n\t.size\tpick, .-pick\n\t.ident\t\"GCC: (GNU) 13.2.0\"\n\t.section\t.note.GNU-stack,\"\",@progbits\n";

// What a case shows, its text in parts, the serial of an entry, the serials of the labels that the cells of its table name,
// and what is wanted.
type TableCase<'a> = (&'a str, &'a [&'a str], u32, Option<&'a [u32]>, Wanted<'a>);

// A jump by the table `T`, a label and a return: four pieces.
const JUMP: &str = "\tjmp *T(,%rdi,8)\n.LX:\n\tret\n";

const TWO_TABLES: &str =
    "\t.text\n\t.p2align 4\n\t.type f, @function\nf:\n\tjmp *T(,%rdi,8)\n.LX:\n\tret\n\t.size f, .-f\n\t.type g, @function\ng:\n\tjmp *U(,%rdi,8)\n.LZ:\n\tret\n\t.size g, .-g\n\t.section .rodata\nU:\n\t.quad .LZ, .LZ\nT:\n\t.quad .LX\n";

fn check_table(rt: &(impl Abort + AllocGlobal), case: &TableCase) -> Result<(), Fail> {
    let (shows, parts, serial, cells, wanted) = *case;
    let unit = unit_of(rt, &joined(rt, parts)?)?;
    check_wanted(rt, shows, &unit, wanted);
    assert_eq!(rt; unit.table_cells(serial), cells, "{shows}");
    Ok(())
}

fn check_tables(rt: &(impl Abort + AllocGlobal), cases: &[TableCase]) -> Result<(), Fail> {
    for case in cases {
        check_table(rt, case)?;
    }
    Ok(())
}

#[test]
fn a_table_is_of_the_function_of_its_cells_and_jumps(rt: HostRuntime) -> Result<(), Fail> {
    check_tables(
        &rt,
        &[
            (
                "a table in the middle of its function",
                &[PICK],
                15,
                Some(&[27, 33, 42]),
                Functions(&[("pick", AWAY, None)]),
            ),
            (
                "a debug section names it and jumps by it, too",
                &[
                    OPEN,
                    JUMP,
                    ".LY:\n\t.section .rodata\nT:\n\t.quad .LX, .LY\n",
                    "\t.section .debug_info\n\t.quad T\n\tjmp *T(,%rdi,8)\n\t.text\n",
                    CLOSE,
                ],
                6,
                Some(&[7, 10]),
                Clear,
            ),
            (
                "nothing names it",
                &[
                    OPEN,
                    ".LX:\n\tret\n\t.section .rodata\nT:\n\t.quad .LX\n\t.text\n",
                    CLOSE,
                ],
                6,
                None,
                Clear,
            ),
            (
                "its first cell is the function",
                &[
                    OPEN,
                    JUMP,
                    CLOSE,
                    "\t.section .rodata\nT:\n\t.quad f, .LX\n",
                ],
                6,
                None,
                Frozen(LabelOutside, 14),
            ),
            (
                "another cell is the function",
                &[
                    OPEN,
                    JUMP,
                    CLOSE,
                    "\t.section .rodata\nT:\n\t.quad .LX, f\n",
                ],
                6,
                None,
                Frozen(LabelOutside, 14),
            ),
            (
                "a cell is no label",
                &[
                    OPEN,
                    JUMP,
                    CLOSE,
                    "\t.section .rodata\nT:\n\t.quad .LX, z\n",
                ],
                6,
                None,
                Frozen(LabelOutside, 14),
            ),
            (
                "a cell is a label of another function",
                &[
                    OPEN,
                    JUMP,
                    THEN_G,
                    ".LZ:\n\tret\n",
                    CLOSE_G,
                    "\t.section .rodata\nT:\n\t.quad .LX, .LZ\n",
                ],
                6,
                None,
                Functions(&[
                    ("f", AWAY, Some((LabelOutside, 21))),
                    ("g", AWAY, Some((LabelOutside, 21))),
                ]),
            ),
            (
                "another function jumps by it, too",
                &[
                    OPEN,
                    JUMP,
                    THEN_G,
                    "\tjmp *T(,%rdi,8)\n",
                    CLOSE_G,
                    "\t.section .rodata\nT:\n\t.quad .LX\n",
                ],
                14,
                None,
                Functions(&[("f", AWAY, Some((LabelOutside, 19))), ("g", AWAY, None)]),
            ),
            (
                "a jump by it stands outside all functions",
                &[
                    "\tjmp *T(,%rdi,8)\n",
                    OPEN,
                    ".LX:\n\tret\n",
                    CLOSE,
                    "\t.section .rodata\nT:\n\t.quad .LX\n",
                ],
                1,
                None,
                Frozen(LabelOutside, 14),
            ),
            (
                "its label is handed out",
                &[
                    OPEN,
                    JUMP,
                    CLOSE,
                    "\t.section .rodata\n\t.globl T\nT:\n\t.quad .LX\n",
                ],
                6,
                None,
                Frozen(LabelOutside, 15),
            ),
            (
                "tables of two functions: the first",
                &[TWO_TABLES],
                6,
                Some(&[7]),
                Functions(&[("f", AWAY, None), ("g", AWAY, None)]),
            ),
            (
                "tables of two functions: the second",
                &[TWO_TABLES],
                14,
                Some(&[15, 15]),
                Functions(&[("f", AWAY, None), ("g", AWAY, None)]),
            ),
            (
                "a label has no cells",
                &[TWO_TABLES],
                15,
                None,
                Functions(&[("f", AWAY, None), ("g", AWAY, None)]),
            ),
            (
                "a serial behind all entries has none",
                &[TWO_TABLES],
                40,
                None,
                Functions(&[("f", AWAY, None), ("g", AWAY, None)]),
            ),
        ],
    )
}
