// What a unit tells after each of its edits.

ghost use Rattle.insn_ir.specs.Profile.{IsInstruction};

use crate::cases::Wanted::Clear;
use crate::cases::check_wanted;
use crate::texts::unit_by_class;
use asm_unit::AsmUnit;
use insn_ir::{Arg, Entry, EntryKind, Insn, Op, Width};
use std::alloc::AllocGlobal;
use std::process::Abort;
use std::test::Fail;

// The label of `f` is 3, its `nop` 4, its `ret` 5 and its `.size` 6.
const SHORT: &[u8] = b".text\n.type f,@function\nf: nop\n\tret\n.size f,.-f\n";

#[tactic(auto, using(crate::proofs::Nop::nop_is))]
fn nop() -> Insn
    ensures { IsInstruction result }
{
    Insn {
        op: Op::Nop,
        width: Width::Q,
        a: Arg::Absent,
        b: Arg::Absent,
        c: Arg::Absent,
    }
}

fn put_nop(rt: &(impl Abort + AllocGlobal), unit: &mut AsmUnit, serial: u32) {
    if let Some(
        Entry {
            kind: EntryKind::Insn(_),
            ..
        },
    ) = unit.entry(serial)
        && unit.is_in_clear_code(serial)
    {
        unit.put(serial, nop());
    } else {
        panic!(rt; "no instruction of a clear function");
    }
}

fn insert_nop(
    rt: &(impl Abort + AllocGlobal),
    unit: &mut AsmUnit,
    before: u32,
) -> Result<u32, Fail> {
    assert!(rt; unit.last_serial() < u32::MAX);
    if unit.entry(before).is_some() && unit.is_in_clear_code(before) {
        Ok(unit.insert_nop(before)?)
    } else {
        panic!(rt; "no entry of a clear function")
    }
}

fn insert_align(
    rt: &(impl Abort + AllocGlobal),
    unit: &mut AsmUnit,
    before: u32,
    power: u8,
) -> Result<u32, Fail> {
    assert!(rt; power <= 12);
    assert!(rt; unit.last_serial() < u32::MAX);
    if unit.entry(before).is_some() && unit.is_in_clear_code(before) {
        Ok(unit.insert_align(before, power)?)
    } else {
        panic!(rt; "no entry of a clear function")
    }
}

fn drop_insn(rt: &(impl Abort + AllocGlobal), unit: &mut AsmUnit, serial: u32) {
    if let Some(
        Entry {
            kind: EntryKind::Insn(_),
            ..
        },
    ) = unit.entry(serial)
        && unit.is_in_clear_code(serial)
    {
        unit.drop_entry(serial);
    } else {
        panic!(rt; "no instruction of a clear function");
    }
}

// The serials in order, forwards and backwards, and which entries are kept text.
fn check_order(rt: &(impl Abort + AllocGlobal), unit: &AsmUnit, wanted: &[(u32, bool)]) {
    let mut at = unit.first();
    let mut before = None;
    for (serial, is_kept) in wanted {
        assert_eq!(rt; at, Some(*serial));
        assert_eq!(rt; unit.prev(*serial), before);
        assert_eq!(rt; unit.entry(*serial).map(|e| e.serial), Some(*serial));
        assert_eq!(rt; unit.span(*serial).is_some(), *is_kept);
        before = Some(*serial);
        at = unit.next(*serial);
    }
    assert_eq!(rt; at, None);
}

#[test]
fn an_instruction_that_is_put_stands_where_the_old_one_stood(rt: HostRuntime) -> Result<(), Fail> {
    let mut unit = unit_by_class(&rt, SHORT)?;
    put_nop(&rt, &mut unit, 5);
    check_order(
        &rt,
        &unit,
        &[
            (1, true),
            (2, true),
            (3, true),
            (4, true),
            (5, false),
            (6, true),
        ],
    );
    assert_eq!(rt; unit.last_serial(), 6);
    assert!(rt; unit.functions() == 1);
    assert_eq!(rt; unit.next_code(0, 4), Some(5));
    Ok(())
}

#[test]
fn a_nop_comes_directly_before_its_place(rt: HostRuntime) -> Result<(), Fail> {
    let mut unit = unit_by_class(&rt, SHORT)?;
    assert_eq!(rt; insert_nop(&rt, &mut unit, 5)?, 7);
    check_order(
        &rt,
        &unit,
        &[
            (1, true),
            (2, true),
            (3, true),
            (4, true),
            (7, false),
            (5, true),
            (6, true),
        ],
    );
    assert_eq!(rt; unit.last_serial(), 7);
    assert!(rt; unit.functions() == 1);
    assert_eq!(rt; unit.next_code(0, 4), Some(7));
    assert_eq!(rt; unit.next_code(0, 7), Some(5));
    assert_eq!(rt; unit.label(0), 3);
    Ok(())
}

#[test]
fn a_thousand_nops_come_and_go(rt: HostRuntime) -> Result<(), Fail> {
    let mut unit = unit_by_class(&rt, SHORT)?;
    for _ in 0..1000 {
        let _serial = insert_nop(&rt, &mut unit, 5)?;
    }
    assert_eq!(rt; unit.last_serial(), 1006);
    assert_eq!(rt; unit.prev(5), Some(1006));
    assert_eq!(rt; unit.next(4), Some(7));
    for serial in 7..1007 {
        drop_insn(&rt, &mut unit, serial);
    }
    check_order(
        &rt,
        &unit,
        &[
            (1, true),
            (2, true),
            (3, true),
            (4, true),
            (5, true),
            (6, true),
        ],
    );
    Ok(())
}

// The label of `f` is 3, its jump by the table `T` 4, `.LX` 5 with the rest of its line 6, its `nop` 7, its `ret` 8 and its
// `.size` 9. The label of the table is 11, and there are 13 pieces.
const BY_TABLE: &[u8] =
    b".text\n.type f,@function\nf: jmp *T(,%rdi,8)\n.LX:\n\tnop\n\tret\n.size f,.-f\n.section .rodata\nT:\n\t.quad .LX\n";

#[derive(Clone, Copy)]
enum Edit {
    Drop(u32),
    Put(u32),
    Nop(u32),
    Align(u32, u8),
}

// What a case shows, its edit of `BY_TABLE`, and what the unit tells then: the serials between 2 and 11 in order, those of
// the code behind the label, the base power, and the serials of the labels that the table of entry 4 names.
#[derive(Clone, Copy)]
struct EditCase<'a> {
    shows: &'a str,
    edit: Edit,
    order: &'a [u32],
    code: &'a [u32],
    base: u8,
    cells: Option<&'a [u32]>,
}

fn apply(rt: &(impl Abort + AllocGlobal), unit: &mut AsmUnit, edit: Edit) -> Result<(), Fail> {
    match edit {
        Edit::Drop(serial) => drop_insn(rt, unit, serial),
        Edit::Put(serial) => put_nop(rt, unit, serial),
        Edit::Nop(before) => assert_eq!(rt; insert_nop(rt, unit, before)?, 14),
        Edit::Align(before, power) => assert_eq!(rt; insert_align(rt, unit, before, power)?, 14),
    }
    Ok(())
}

// The serials between 2 and 11, forwards and backwards.
fn check_between(rt: &(impl Abort + AllocGlobal), shows: &str, unit: &AsmUnit, wanted: &[u32]) {
    let mut before = 2;
    for serial in wanted {
        assert_eq!(rt; unit.next(before), Some(*serial), "{shows}");
        assert_eq!(rt; unit.prev(*serial), Some(before), "{shows}");
        before = *serial;
    }
    assert_eq!(rt; unit.next(before), Some(11), "{shows}");
    assert_eq!(rt; unit.prev(11), Some(before), "{shows}");
}

// The serials of the code behind the label.
fn check_code(rt: &(impl Abort + AllocGlobal), shows: &str, unit: &AsmUnit, wanted: &[u32]) {
    assert!(rt; unit.functions() == 1);
    let mut before = 3;
    for serial in wanted {
        assert_eq!(rt; unit.next_code(0, before), Some(*serial), "{shows}");
        assert!(rt; unit.entry(*serial).is_some());
        assert!(rt; unit.is_in_clear_code(*serial), "{shows}");
        before = *serial;
    }
    assert_eq!(rt; unit.next_code(0, before), None, "{shows}");
}

fn check_names(rt: &(impl Abort + AllocGlobal), case: &EditCase, unit: &AsmUnit) {
    let shows = case.shows;
    check_wanted(rt, shows, unit, Clear);
    assert!(rt; unit.functions() == 1);
    assert_eq!(rt; unit.label(0), 3, "{shows}");
    assert_eq!(rt; unit.base_power(0), case.base, "{shows}");
    assert_eq!(rt; unit.target(0, ".LX".as_bytes()), Some(5), "{shows}");
    assert_eq!(rt; unit.target(0, "T".as_bytes()), None, "{shows}");
    assert!(rt; unit.defines(".LX".as_bytes()), "{shows}");
    assert!(rt; !unit.defines("w".as_bytes()), "{shows}");
    assert_eq!(rt; unit.table_cells(4), case.cells, "{shows}");
    assert_eq!(rt; unit.table_cells(8), None, "{shows}");
}

fn check_edits(rt: &(impl Abort + AllocGlobal), cases: &[EditCase]) -> Result<(), Fail> {
    for case in cases {
        let mut unit = unit_by_class(rt, BY_TABLE)?;
        apply(rt, &mut unit, case.edit)?;
        check_between(rt, case.shows, &unit, case.order);
        check_code(rt, case.shows, &unit, case.code);
        check_names(rt, case, &unit);
    }
    Ok(())
}

#[test]
fn after_an_edit_all_but_its_entry_is_told_as_before(rt: HostRuntime) -> Result<(), Fail> {
    check_edits(
        &rt,
        &[
            EditCase {
                shows: "an instruction goes",
                edit: Edit::Drop(7),
                order: &[3, 4, 5, 6, 8, 9, 10],
                code: &[4, 5, 6, 8, 9],
                base: 0,
                cells: Some(&[5]),
            },
            EditCase {
                shows: "the jump by the table goes",
                edit: Edit::Drop(4),
                order: &[3, 5, 6, 7, 8, 9, 10],
                code: &[5, 6, 7, 8, 9],
                base: 0,
                cells: None,
            },
            EditCase {
                shows: "another instruction is put",
                edit: Edit::Put(8),
                order: &[3, 4, 5, 6, 7, 8, 9, 10],
                code: &[4, 5, 6, 7, 8, 9],
                base: 0,
                cells: Some(&[5]),
            },
            EditCase {
                shows: "a nop is put for the jump by the table",
                edit: Edit::Put(4),
                order: &[3, 4, 5, 6, 7, 8, 9, 10],
                code: &[4, 5, 6, 7, 8, 9],
                base: 0,
                cells: None,
            },
            EditCase {
                shows: "a nop comes before the end",
                edit: Edit::Nop(9),
                order: &[3, 4, 5, 6, 7, 8, 14, 9, 10],
                code: &[4, 5, 6, 7, 8, 14, 9],
                base: 0,
                cells: Some(&[5]),
            },
            EditCase {
                shows: "a nop comes before the label of the function",
                edit: Edit::Nop(3),
                order: &[14, 3, 4, 5, 6, 7, 8, 9, 10],
                code: &[4, 5, 6, 7, 8, 9],
                base: 0,
                cells: Some(&[5]),
            },
            EditCase {
                shows: "an alignment comes before a local label",
                edit: Edit::Align(5, 3),
                order: &[3, 4, 14, 5, 6, 7, 8, 9, 10],
                code: &[4, 14, 5, 6, 7, 8, 9],
                base: 0,
                cells: Some(&[5]),
            },
            EditCase {
                shows: "an alignment comes before the label of the function",
                edit: Edit::Align(3, 12),
                order: &[14, 3, 4, 5, 6, 7, 8, 9, 10],
                code: &[4, 5, 6, 7, 8, 9],
                base: 12,
                cells: Some(&[5]),
            },
        ],
    )
}
