// What a unit tells of its entries and names.

use crate::texts::{unit_by_class, unit_of};
use asm_unit::AsmUnit;
use att_lexer::Span;
use insn_ir::{Entry, EntryKind};
use std::alloc::AllocGlobal;
use std::process::Abort;
use std::test::Fail;

// Pieces of 6, 18, 2, 5, 5 and 12 bytes.
const SHORT: &[u8] = b".text\n.type f,@function\nf: nop\n\tret\n.size f,.-f\n";

// A serial, where its entry stands if there is one, and the serials before and behind it.
type Neighbours = (u32, Option<(u32, u32)>, Option<u32>, Option<u32>);

fn check_neighbours(rt: &(impl Abort + AllocGlobal), unit: &AsmUnit, wanted: &[Neighbours]) {
    for (serial, place, prev, next) in wanted {
        let span = place.map(|(start, len)| Span { start, len });
        assert_eq!(rt;
            unit.entry(*serial).map(|e| e.serial),
            span.map(|_| *serial)
        );
        assert_eq!(rt; unit.span(*serial), span);
        assert_eq!(rt; unit.prev(*serial), *prev);
        assert_eq!(rt; unit.next(*serial), *next);
    }
}

#[test]
fn entries_stand_in_the_order_of_the_text(rt: HostRuntime) -> Result<(), Fail> {
    let unit = unit_by_class(&rt, SHORT)?;
    assert_eq!(rt; unit.first(), Some(1));
    assert_eq!(rt; unit.last_serial(), 6);
    check_neighbours(
        &rt,
        &unit,
        &[
            (0, None, None, None),
            (1, Some((0, 6)), None, Some(2)),
            (2, Some((6, 18)), Some(1), Some(3)),
            (3, Some((24, 2)), Some(2), Some(4)),
            (4, Some((26, 5)), Some(3), Some(5)),
            (5, Some((31, 5)), Some(4), Some(6)),
            (6, Some((36, 12)), Some(5), None),
            (7, None, None, None),
        ],
    );
    Ok(())
}

// Drops an instruction of a clear function.
fn drop_insn(rt: &(impl Abort + AllocGlobal), unit: &mut AsmUnit, serial: u32) {
    if let Some(
        Entry {
            kind: EntryKind::Insn(_),
            ..
        },
    ) = unit.entry(serial)
        && unit.is_in_clear_code(serial)
    {
        unit.drop_entry(serial);
    } else {
        panic!(rt; "no instruction of a clear function");
    }
}

#[test]
fn where_an_entry_goes_the_next_stands_behind_the_one_before(rt: HostRuntime) -> Result<(), Fail> {
    let mut unit = unit_by_class(&rt, SHORT)?;
    drop_insn(&rt, &mut unit, 4);
    assert_eq!(rt; unit.first(), Some(1));
    assert_eq!(rt; unit.last_serial(), 6);
    check_neighbours(
        &rt,
        &unit,
        &[
            (3, Some((24, 2)), Some(2), Some(5)),
            (4, None, None, None),
            (5, Some((31, 5)), Some(3), Some(6)),
        ],
    );
    assert!(rt; unit.functions() == 1);
    assert_eq!(rt; unit.next_code(0, 3), Some(5));
    Ok(())
}

// A function with data in its middle, and one with a line that isn't read.
const WITH_DATA: &[u8] =
    b".type f,@function\nf:\n\t.data\nt:\n\t.text\n\tnop\n.size f,.-f\n.type g,@function\ng:\n\tfoo\n.size g,.-g\n";

#[test]
fn codes_pass_over_other_sections(rt: HostRuntime) -> Result<(), Fail> {
    let unit = unit_by_class(&rt, WITH_DATA)?;
    assert!(rt; unit.functions() == 2);
    // A serial, whether its entry stands in the code of `f`, which is clear, and what stands behind it in the codes.
    for (serial, clear, in_f, in_g) in [
        (1, false, Some(2), Some(11)),
        (2, true, Some(3), Some(11)),
        (3, true, Some(7), Some(11)),
        (5, false, Some(7), Some(11)),
        (8, true, Some(9), Some(11)),
        (9, true, None, Some(11)),
        (12, false, None, Some(13)),
        (14, false, None, None),
    ] {
        assert!(rt; unit.entry(serial).is_some());
        assert_eq!(rt; unit.is_in_clear_code(serial), clear, "{serial}");
        assert_eq!(rt; unit.next_code(0, serial), in_f, "{serial}");
        assert_eq!(rt; unit.next_code(1, serial), in_g, "{serial}");
    }
    Ok(())
}

// Whether the file defines a name, and the serials of the labels of that name in two functions.
type Meaning<'a> = (&'a str, bool, Option<u32>, Option<u32>);

const TWO: &[u8] =
    b".type f,@function\nf:\nx:\ny:\n.size f,.-f\n.type g,@function\ng:\njmp *U(,%rdi,8)\nz:\n.size g,.-g\n.section .rodata\nU:\n.quad z,z\n.set h,g\n";

#[test]
fn names_are_labels_and_aliases_and_targets_local_labels(rt: HostRuntime) -> Result<(), Fail> {
    let unit = unit_by_class(&rt, TWO)?;
    assert!(rt; unit.functions() == 2);
    let meanings: [Meaning; 8] = [
        ("f", true, None, None),
        ("x", true, Some(4), None),
        ("y", true, Some(6), None),
        ("g", true, None, None),
        ("z", true, None, Some(13)),
        ("U", true, None, None),
        ("h", true, None, None),
        ("w", false, None, None),
    ];
    for (name, is_defined, in_f, in_g) in meanings {
        assert_eq!(rt; unit.defines(name.as_bytes()), is_defined, "{name}");
        assert_eq!(rt; unit.target(0, name.as_bytes()), in_f, "{name}");
        assert_eq!(rt; unit.target(1, name.as_bytes()), in_g, "{name}");
    }
    Ok(())
}

// A label that stands twice freezes the file.
const LABEL_TWICE: &[u8] =
    b".type f,@function\nf:\njmp *T(,%rdi,8)\nx:\nx:\n.size f,.-f\n.section .rodata\nT:\n.quad x\n.set h,f\n";

#[test]
fn a_frozen_file_defines_names(rt: HostRuntime) -> Result<(), Fail> {
    let unit = unit_of(&rt, LABEL_TWICE)?;
    assert_eq!(rt; unit.functions(), 0);
    for (name, is_defined) in [
        ("f", true),
        ("x", true),
        ("T", true),
        ("h", true),
        ("w", false),
    ] {
        assert_eq!(rt; unit.defines(name.as_bytes()), is_defined, "{name}");
    }
    assert!(rt; unit.table_cells(4).is_none());
    Ok(())
}
