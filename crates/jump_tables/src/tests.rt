use super::*;
use insn_ir::{
    Arg, Atom, Base, BoxedAtom, Cell, CellList, DirectiveKind, Disp, Entry, EntryKind, Insn, Mem,
    Name, NameList, Op, Reg, Width,
};
use std::alloc::{AllocError, Global};
use std::fmt::Write;
use std::test::Fail;

// A line of a small file.
#[derive(Clone, Copy)]
enum Line<'a> {
    Blank,
    Inert,
    Ret,
    Text,
    Section(&'a str),
    Label(&'a str),
    Quad(&'a [&'a str]),
    QuadNumber,
    Long(&'a str),
    // `jmp *T(,%rdi,8)`, with `notrack`, by four, and with a base
    Jump(&'a str),
    Notrack(&'a str),
    JumpByFour(&'a str),
    JumpWithBase(&'a str),
    Lea(&'a str),
    Globl(&'a str),
    Unknown(&'a str),
}

fn name_of(alloc: Global, text: &str) -> Result<Name, AllocError> {
    let mut name = Name::new(alloc);
    for byte in text.bytes() {
        name.push(byte)?;
    }
    Ok(name)
}

fn names_in(alloc: Global, texts: &[&str]) -> Result<NameList, AllocError> {
    let mut names = NameList::new(alloc);
    for text in texts {
        names.push(name_of(alloc, text)?)?;
    }
    Ok(names)
}

fn insn(op: Op, a: Arg) -> EntryKind {
    EntryKind::Insn(Insn {
        op,
        width: Width::Q,
        a,
        b: Arg::Absent,
        c: Arg::Absent,
    })
}

fn operand(
    alloc: Global,
    table: &str,
    base: Base,
    index: Option<Reg>,
    scale: u8,
) -> Result<Arg, AllocError> {
    let atom = Atom {
        name: name_of(alloc, table)?,
        spec: None,
        offset: 0,
    };
    Ok(Arg::Mem(Mem {
        fs: false,
        disp: Disp::Sym(BoxedAtom::new(alloc, atom)?),
        base,
        index,
        scale,
    }))
}

fn words(alloc: Global, width: Width, texts: &[&str]) -> Result<DirectiveKind, AllocError> {
    let mut cells = CellList::new(alloc);
    for text in texts {
        cells.push(Cell::Sym(name_of(alloc, text)?))?;
    }
    Ok(DirectiveKind::Words {
        width,
        cells,
        names: names_in(alloc, texts)?,
    })
}

fn section(alloc: Global, name: &str, code: bool) -> Result<EntryKind, AllocError> {
    Ok(EntryKind::Directive(DirectiveKind::Section {
        name: name_of(alloc, name)?,
        code,
    }))
}

fn jump(
    alloc: Global,
    op: Op,
    table: &str,
    base: Base,
    scale: u8,
) -> Result<EntryKind, AllocError> {
    Ok(insn(op, operand(alloc, table, base, Some(Reg::Rdi), scale)?))
}

fn kind_of(alloc: Global, line: &Line) -> Result<EntryKind, AllocError> {
    Ok(match line {
        Line::Blank => EntryKind::Blank,
        Line::Inert => EntryKind::Directive(DirectiveKind::Inert),
        Line::Ret => insn(Op::Ret, Arg::Absent),
        Line::Text => section(alloc, ".text", true)?,
        Line::Section(name) => section(alloc, name, false)?,
        Line::Label(name) => EntryKind::Label(name_of(alloc, name)?),
        Line::Quad(cells) => EntryKind::Directive(words(alloc, Width::Q, cells)?),
        Line::QuadNumber => {
            let mut cells = CellList::new(alloc);
            cells.push(Cell::Other)?;
            EntryKind::Directive(DirectiveKind::Words {
                width: Width::Q,
                cells,
                names: NameList::new(alloc),
            })
        }
        Line::Long(cell) => EntryKind::Directive(words(alloc, Width::L, &[*cell])?),
        Line::Jump(table) => jump(alloc, Op::JmpStar, table, Base::Absent, 8)?,
        Line::Notrack(table) => jump(alloc, Op::JmpStarNotrack, table, Base::Absent, 8)?,
        Line::JumpByFour(table) => jump(alloc, Op::JmpStar, table, Base::Absent, 4)?,
        Line::JumpWithBase(table) => jump(alloc, Op::JmpStar, table, Base::Reg(Reg::Rax), 8)?,
        Line::Lea(table) => insn(Op::Lea, operand(alloc, table, Base::Rip, None, 1)?),
        Line::Globl(name) => EntryKind::Directive(DirectiveKind::Export(names_in(
            alloc,
            &[*name],
        )?)),
        Line::Unknown(name) => EntryKind::Opaque(names_in(alloc, &["addsd", *name])?),
    })
}

// Each table as `SERIAL: CELLS ; USERS ; OTHER`.
fn shown(alloc: Global, lines: &[Line]) -> Result<String, Fail> {
    let mut entries = Vec::new(alloc);
    let mut serial = 1u32;
    for line in lines {
        entries.push(Entry {
            serial,
            kind: kind_of(alloc, line)?,
        })?;
        serial = serial.saturating_add(1);
    }
    let mut text = String::new(alloc);
    for table in find_tables(alloc, &entries)?.as_slice() {
        write!(text, "{}:", table.serial)?;
        for cell in table.cells.as_slice() {
            text.push(' ')?;
            for byte in cell.as_slice() {
                text.push(char::from(*byte))?;
            }
        }
        text.push_str(" ;")?;
        for user in table.users.as_slice() {
            write!(text, " {user}")?;
        }
        text.push_str(" ;")?;
        if let Some(other) = table.other_use {
            write!(text, " {other}")?;
        }
        text.push('\n')?;
    }
    Ok(text)
}

#[test]
fn finds_tables(rt: HostRuntime) -> Result<(), Fail> {
    use Line::*;
    let rodata = Section(".rodata");
    // A function of GCC's form: a switch over three cases.
    let pick: &[Line] = &[
        Inert,
        Text,
        Inert,
        Globl("pick"),
        Inert,
        Label("pick"),
        Blank,
        Label(".LFB0"),
        Blank,
        Inert,
        Ret,
        Ret,
        Ret,
        Ret,
        Notrack(".L4"),
        rodata,
        Inert,
        Inert,
        Label(".L4"),
        Blank,
        Quad(&[".L7"]),
        Quad(&[".L6"]),
        Quad(&[".L3"]),
        Text,
        Inert,
        Label(".L7"),
        Blank,
        Ret,
        Label(".L6"),
        Blank,
        Ret,
        Label(".L3"),
        Blank,
        Ret,
        Label(".L5"),
        Ret,
        Inert,
    ];
    let files: [(&[Line], &str); 17] = [
        (pick, "19: .L7 .L6 .L3 ; 15 ;\n"),
        // two labels over one table, blank lines and comments between cells, two cells on a line
        (
            &[
                Section("r"),
                Label("A"),
                Label("T"),
                Blank,
                Quad(&["x"]),
                Text,
                Jump("T"),
                Jump("A"),
            ],
            "3: x ; 7 ;\n",
        ),
        (
            &[
                Section("r"),
                Label("T"),
                Quad(&["x"]),
                Blank,
                Blank,
                Quad(&["y"]),
                Blank,
                Ret,
            ],
            "2: x y ; ;\n",
        ),
        (
            &[Section("r"), Label("T"), Blank, Quad(&["x", "y"])],
            "2: x y ; ;\n",
        ),
        // the table ends at the first entry that doesn't fit
        (
            &[
                Section("r"),
                Label("T"),
                Quad(&["x"]),
                QuadNumber,
                Quad(&["y"]),
            ],
            "2: x ; ;\n",
        ),
        (
            &[Section("r"), Label("T"), Quad(&["x"]), Blank, Long("y")],
            "2: x ; ;\n",
        ),
        (&[Section("r"), Label("T"), Long("x")], ""),
        (&[Label("T"), Quad(&["x"])], ""),
        // other uses
        (
            &[Jump("T"), Lea("T"), Section("r"), Label("T"), Quad(&["x"])],
            "4: x ; 1 ; 2\n",
        ),
        (
            &[
                Section("r"),
                Label("T"),
                Quad(&["x"]),
                Ret,
                Quad(&["T"]),
                Jump("T"),
                Notrack("T"),
            ],
            "2: x ; 6 7 ; 5\n",
        ),
        (
            &[
                JumpByFour("T"),
                JumpWithBase("T"),
                Section("r"),
                Label("T"),
                Quad(&["x"]),
            ],
            "4: x ; ; 1\n",
        ),
        (
            &[JumpWithBase("T"), Section("r"), Label("T"), Quad(&["x"])],
            "3: x ; ; 1\n",
        ),
        (
            &[
                Globl("T"),
                Jump("T"),
                Section("r"),
                Label("T"),
                Quad(&["x"]),
            ],
            "4: x ; 2 ; 1\n",
        ),
        (
            &[Unknown("T"), Section("r"), Label("T"), Quad(&["x"])],
            "3: x ; ; 1\n",
        ),
        (
            &[
                Section("r"),
                Label("T"),
                Quad(&["x"]),
                Section(".debug_info"),
                Quad(&["T"]),
            ],
            "2: x ; ;\n",
        ),
        // a table of its own label; two tables, with each other's jumps between
        (
            &[Section("r"), Label("T"), Quad(&["x", "T"])],
            "2: x T ; ; 3\n",
        ),
        (
            &[
                Jump("U"),
                Jump("T"),
                Section("r"),
                Label("T"),
                Quad(&["x"]),
                Label("U"),
                Quad(&["y"]),
            ],
            "4: x ; 2 ;\n6: y ; 1 ;\n",
        ),
    ];
    for (lines, tables) in files {
        assert_eq!(rt; shown(rt.alloc(), lines)?.as_str(), tables);
    }
    Ok(())
}

#[test]
fn finds_symbols_near_any_number(rt: HostRuntime) -> Result<(), Fail> {
    let alloc = rt.alloc();
    let mut symbols = Symbols::new(alloc);
    for name in ["f", "g", "h", "g"] {
        symbols.add(alloc, name.as_bytes())?;
    }
    for near in [0, 1, 2, 9, usize::MAX] {
        assert_eq!(rt; symbols.number_near(b"f", near), Some(0));
        assert_eq!(rt; symbols.number_near(b"h", near), Some(2));
        assert_eq!(rt; symbols.number_near(b"i", near), None);
    }
    Ok(())
}

#[test]
fn borrows_symbols(rt: HostRuntime) -> Result<(), Fail> {
    let mut symbols = BorrowedSymbols::new(rt.alloc());
    assert!(rt; !symbols.has_late(b"f"));
    assert!(rt; symbols.add_new(b"f")?);
    assert!(rt; symbols.add_new(b"g")?);
    assert!(rt; !symbols.add_new(b"f")?);
    assert_eq!(rt; symbols.number_of(b"g"), Some(1));
    assert!(rt; symbols.has_late(b"f"));
    assert!(rt; symbols.has_late(b"g"));
    Ok(())
}
