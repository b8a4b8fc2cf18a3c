use super::*;
use att_lexer::tokens;
use insn_ir::{Cell, DirectiveKind, Name, NameList};
use std::alloc::{AllocError, Global};
use std::process::Abort;
use std::test::Fail;

fn push_number(alloc: Global, out: &mut Vec<u8>, label: &str, n: u64) -> Result<(), AllocError> {
    out.extend_from_slice(label.as_bytes())?;
    out.extend_from_slice(format!(in alloc; "{n}")?.as_bytes())
}

fn push_names(out: &mut Vec<u8>, names: &NameList) -> Result<(), AllocError> {
    for name in names.as_slice() {
        push_name(out, " ", name)?;
    }
    Ok(())
}

fn push_name(out: &mut Vec<u8>, label: &str, name: &Name) -> Result<(), AllocError> {
    out.extend_from_slice(label.as_bytes())?;
    out.extend_from_slice(name.as_slice())
}

fn push_cell(out: &mut Vec<u8>, cell: &Cell) -> Result<(), AllocError> {
    match cell {
        Cell::Sym(name) => push_name(out, " [", name)?,
        Cell::Diff(first, second) => {
            push_name(out, " [", first)?;
            push_name(out, "-", second)?;
        }
        Cell::Other => out.extend_from_slice(b" [")?,
    }
    Ok(out.push(b']')?)
}

// A kind in words.
fn push_kind(alloc: Global, out: &mut Vec<u8>, kind: &DirectiveKind) -> Result<(), AllocError> {
    match kind {
        DirectiveKind::Inert => out.extend_from_slice(b"inert"),
        DirectiveKind::Cfi => out.extend_from_slice(b"cfi"),
        DirectiveKind::CfiTable => out.extend_from_slice(b"cfi table"),
        DirectiveKind::Breaking => out.extend_from_slice(b"breaking"),
        DirectiveKind::FuncType(name) => push_name(out, "function ", name),
        DirectiveKind::FuncEnd(name) => push_name(out, "end ", name),
        DirectiveKind::Export(names) => {
            out.extend_from_slice(b"export")?;
            push_names(out, names)
        }
        DirectiveKind::Bytes(names) => {
            out.extend_from_slice(b"bytes")?;
            push_names(out, names)
        }
        DirectiveKind::Alias(first, second) => {
            push_name(out, "alias ", first)?;
            push_name(out, " ", second)
        }
        DirectiveKind::Section { name, code } => {
            push_name(out, "section ", name)?;
            if *code {
                out.extend_from_slice(b" code")?;
            }
            Ok(())
        }
        DirectiveKind::Align { power, fill, max } => {
            push_number(alloc, out, "align ", *power as u64)?;
            if let Some(n) = fill {
                push_number(alloc, out, " fill ", *n)?;
            }
            if let Some(n) = max {
                push_number(alloc, out, " max ", *n as u64)?;
            }
            Ok(())
        }
        DirectiveKind::Words {
            width,
            cells,
            names,
        } => {
            out.extend_from_slice(format!(in alloc; "words {width:?}")?.as_bytes())?;
            for cell in cells.as_slice() {
                push_cell(out, cell)?;
            }
            out.extend_from_slice(b":")?;
            push_names(out, names)
        }
    }
}

// The directive of each line is that of its text in words.
fn all_read(rt: &(impl Abort + AllocGlobal), table: &[(&str, &str)]) -> Result<(), Fail> {
    for (line, words) in table {
        let piece = line.as_bytes();
        assert!(rt; piece.len() < 1 << 32);
        let tokens = tokens(rt.alloc(), piece)?;
        let kind = read_directive(rt.alloc(), piece, &tokens)?;
        let mut out = Vec::new(rt.alloc());
        push_kind(rt.alloc(), &mut out, &kind)?;
        assert_eq!(rt; out.as_slice(), words.as_bytes(), "{line}");
    }
    Ok(())
}

#[test]
fn reads_each_word(rt: HostRuntime) -> Result<(), Fail> {
    all_read(
        &rt,
        &[
            (".file 1 \"a.c\"", "inert"),
            (".loc 1 2 3", "inert"),
            (".ident \"GCC\"", "inert"),
            (".comm x,8,8", "inert"),
            (".lcomm x,8", "inert"),
            (".cfi_sections .debug_frame", "inert"),
            (".cfi_lsda 0x1b,.LLSDA0", "cfi table"),
            (".cfi_personality 0x9b,p", "cfi table"),
            (".cfi_startproc", "cfi"),
            (".cfi_def_cfa_offset 16", "cfi"),
            (".globl f", "export f"),
            (".global f, g", "export f g"),
            (".local f", "export f"),
            (".weak f", "export f"),
            (".hidden f", "export f"),
            (".protected f", "export f"),
            (".internal f", "export f"),
            (".type f, @function", "function f"),
            (".type x, @object", "inert"),
            (".type f, @function, g", "inert"),
            (".size f, .-f", "end f"),
            (".size f, .-g", "inert"),
            (".size f, .Lend-f", "inert"),
            (".size x, 8", "inert"),
            (".set a, b", "alias a b"),
            (".equ a,b", "alias a b"),
            (".set a, 8", "inert"),
            (".set a, -8", "inert"),
            (".set a, b+1", "breaking"),
            (".set a, .", "breaking"),
            (".set ., a", "breaking"),
            (".equ ., 8", "breaking"),
            (".text", "section .text code"),
            (".data", "section .data"),
            (".bss", "section .bss"),
            (".text 1", "breaking"),
            (".section .text.unlikely", "section .text.unlikely code"),
            (".section .textual", "section .textual"),
            (
                ".section .note.GNU-stack,\"\",@progbits",
                "section .note.GNU-stack",
            ),
            (".section .init , \"ax\" # c", "section .init code"),
            (".section a-b/c,\"aw\"", "section a-b/c"),
            (".section \"a\"", "breaking"),
            (".section", "breaking"),
            (".section a,1", "breaking"),
            (".section a b", "breaking"),
            (".section a,", "breaking"),
            (".x = 1", "breaking"),
            ("x = .text", "breaking"),
            (".", "breaking"),
        ],
    )
}

#[test]
fn reads_alignments_and_data(rt: HostRuntime) -> Result<(), Fail> {
    all_read(
        &rt,
        &[
            (".p2align 0", "align 0"),
            (".p2align 4,0x90", "align 4 fill 144"),
            (".p2align 4,,10", "align 4 max 10"),
            (".p2align 12,0,4294967295", "align 12 fill 0 max 4294967295"),
            (".p2align 4,,4294967296", "breaking"),
            (".p2align 13", "breaking"),
            (".p2align 4,", "breaking"),
            (".p2align 4,-1", "breaking"),
            (".p2align 4,1,", "breaking"),
            (".p2align 4,1,2,3", "breaking"),
            (".p2align", "breaking"),
            (".p2align 4 4", "breaking"),
            (".align 1", "align 0"),
            (".balign 16", "align 4"),
            (".align 4096,,2", "align 12 max 2"),
            (".align 0", "breaking"),
            (".balign 12", "breaking"),
            (".align 8192", "breaking"),
            (".byte 1, x", "words B [] [x]: x"),
            (".value 1", "words W []:"),
            (".short x", "words W [x]: x"),
            (".word 1", "words W []:"),
            (".hword 1", "words W []:"),
            (".2byte 1", "words W []:"),
            (
                ".long .L3-.L4, .L5-.L4",
                "words L [.L3-.L4] [.L5-.L4]: .L3 .L4 .L5 .L4",
            ),
            (".int x+4", "words L []: x"),
            (".4byte x@GOTPCREL", "words L []: x GOTPCREL"),
            (".quad .L7", "words Q [.L7]: .L7"),
            (".8byte a,", "words Q [a] []: a"),
            (".quad", "words Q []:"),
            (".quad a-b-c", "words Q []: a b c"),
            (".quad a b", "words Q []: a b"),
            (".ascii \"x\"", "bytes"),
            (".asciz \"x\"", "bytes"),
            (".string \"f\"", "bytes"),
            (".zero 8", "bytes"),
            (".skip f", "bytes f"),
            (".space 8", "bytes"),
            (".sleb128 a-b", "bytes a b"),
            (".uleb128 a-b", "bytes a b"),
            (".octa 1", "bytes"),
            (".float 1", "bytes"),
            (".single 1", "bytes"),
            (".double 1", "bytes"),
            (".macro m", "breaking"),
            (".rept 2", "breaking"),
            (".irp x,1", "breaking"),
            (".if 1", "breaking"),
            (".include \"a\"", "breaking"),
            (".org 8", "breaking"),
            (".pushsection a", "breaking"),
            (".previous", "breaking"),
            (".subsection 1", "breaking"),
            (".code32", "breaking"),
            (".intel_syntax", "breaking"),
            (".addrsig", "breaking"),
            (".cfi", "breaking"),
            (".weakref a,b", "breaking"),
        ],
    )
}
