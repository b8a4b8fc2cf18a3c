ghost use Rattle.std.specs.Prelude.{◌≡◌, false, codes, IfOk, Some, None, if◌then◌else◌};
ghost use Rattle.insn_ir.specs.Profile.{IsInstruction};

use super::*;
use insn_ir::{Arg, Atom, Base, BoxedAtom, Cond, Disp, Imm, Insn, Mem, Name, Op, Reg, Width};
use std::alloc::{AllocError, Global};
use std::process::Abort;
use std::test::Fail;

fn is_written(rt: &(impl Abort + AllocGlobal), insn: &Insn, text: &str) -> Result<(), Fail>
    requires { IsInstruction insn.now }
{
    let got = insn_text(rt.alloc(), insn)?;
    assert_eq!(rt; got.as_slice(), text.as_bytes());
    Ok(())
}

fn at(disp: i32, base: Base, index: Option<Reg>, scale: u8) -> Arg
    ensures { result ≡ Arg.Mem (record { fs = false; disp = Disp.Num disp; base = base; index = index; scale = scale }) }
{
    Arg::Mem(Mem {
        fs: false,
        disp: Disp::Num(disp),
        base,
        index,
        scale,
    })
}

fn one(op: Op, width: Width, a: Arg) -> Insn
    ensures { result ≡ record { op = op; width = width; a = a; b = Arg.Absent; c = Arg.Absent } }
{
    Insn {
        op,
        width,
        a,
        b: Arg::Absent,
        c: Arg::Absent,
    }
}

fn two(op: Op, width: Width, a: Arg, b: Arg) -> Insn
    ensures { result ≡ record { op = op; width = width; a = a; b = b; c = Arg.Absent } }
{
    Insn {
        op,
        width,
        a,
        b,
        c: Arg::Absent,
    }
}

fn nothing(op: Op) -> Insn
    ensures { result ≡ record { op = op; width = Width.Q; a = Arg.Absent; b = Arg.Absent; c = Arg.Absent } }
{
    one(op, Width::Q, Arg::Absent)
}

// A name, perhaps with the specifier `tpoff`, and an offset.
fn symbol(alloc: Global, name: &[u8], specified: bool, offset: i64) -> Result<BoxedAtom, AllocError>
    ensures { IfOk result (λ a. a ≡ record { name = name.now; spec = (if specified then Some (codes "tpoff") else None); offset = offset }) }
{
    let spec = if specified {
        Some(Name::from_slice(alloc, b"tpoff")?)
    } else {
        None
    };
    let atom = Atom {
        name: Name::from_slice(alloc, name)?,
        spec,
        offset,
    };
    BoxedAtom::new(alloc, atom)
}

#[test]
fn writes_moves(rt: HostRuntime) -> Result<(), Fail> {
    let lea = two(
        Op::Lea,
        Width::L,
        at(0, Base::Reg(Reg::Rdi), Some(Reg::Rsi), 1),
        Arg::Reg(Reg::Rax),
    );
    is_written(&rt, &lea, "leal (%rdi,%rsi,1), %eax")?;
    let cmov = two(
        Op::Cmov(Cond::L),
        Width::L,
        Arg::Reg(Reg::Rcx),
        Arg::Reg(Reg::Rax),
    );
    is_written(&rt, &cmov, "cmovll %ecx, %eax")?;
    let wide = two(
        Op::Movabs,
        Width::Q,
        Arg::Imm(Imm::Num(4294967295)),
        Arg::Reg(Reg::Rax),
    );
    is_written(&rt, &wide, "movabsq $4294967295, %rax")?;
    let load = two(
        Op::Mov,
        Width::L,
        at(-8, Base::Reg(Reg::Rbp), None, 1),
        Arg::Reg(Reg::Rax),
    );
    is_written(&rt, &load, "movl -8(%rbp), %eax")?;
    let zero = two(
        Op::Mov,
        Width::W,
        Arg::Reg(Reg::R9),
        at(0, Base::Absent, None, 1),
    );
    is_written(&rt, &zero, "movw %r9w, 0")?;
    let byte = two(
        Op::Movz(Width::B),
        Width::L,
        Arg::Reg(Reg::Rsi),
        Arg::Reg(Reg::Rcx),
    );
    is_written(&rt, &byte, "movzbl %sil, %ecx")?;
    let long = two(
        Op::Movs(Width::L),
        Width::Q,
        at(0, Base::Absent, Some(Reg::Rdi), 4),
        Arg::Reg(Reg::Rdx),
    );
    is_written(&rt, &long, "movslq (,%rdi,4), %rdx")?;
    Ok(())
}

#[test]
fn writes_sums_and_shifts(rt: HostRuntime) -> Result<(), Fail> {
    let shl = two(Op::Shl, Width::L, Arg::Imm(Imm::Num(1)), Arg::Reg(Reg::Rax));
    is_written(&rt, &shl, "shll $1, %eax")?;
    let sar = two(Op::Sar, Width::Q, Arg::Reg(Reg::Rcx), Arg::Reg(Reg::R8));
    is_written(&rt, &sar, "sarq %cl, %r8")?;
    let add = two(
        Op::Add,
        Width::L,
        Arg::Imm(Imm::Num(-1)),
        Arg::Reg(Reg::Rax),
    );
    is_written(&rt, &add, "addl $-1, %eax")?;
    let imul = Insn {
        op: Op::Imul3,
        width: Width::L,
        a: Arg::Imm(Imm::Num(3)),
        b: Arg::Reg(Reg::Rax),
        c: Arg::Reg(Reg::Rax),
    };
    is_written(&rt, &imul, "imull $3, %eax, %eax")?;
    is_written(
        &rt,
        &one(Op::Setcc(Cond::E), Width::B, Arg::Reg(Reg::Rax)),
        "sete %al",
    )?;
    is_written(&rt, &one(Op::Cltd, Width::L, Arg::Absent), "cltd")?;
    Ok(())
}

#[test]
fn writes_jumps(rt: HostRuntime) -> Result<(), Fail> {
    is_written(
        &rt,
        &one(Op::Push, Width::Q, Arg::Reg(Reg::Rax)),
        "pushq %rax",
    )?;
    is_written(
        &rt,
        &one(Op::JmpStar, Width::Q, Arg::Reg(Reg::Rax)),
        "jmp *%rax",
    )?;
    let call = one(Op::CallStar, Width::Q, at(8, Base::Reg(Reg::Rax), None, 1));
    is_written(&rt, &call, "call *8(%rax)")?;
    is_written(
        &rt,
        &one(Op::JmpStarNotrack, Width::Q, Arg::Reg(Reg::Rdx)),
        "notrack jmp *%rdx",
    )?;
    is_written(&rt, &nothing(Op::RepRet), "rep ret")?;
    is_written(&rt, &nothing(Op::Leave), "leave")?;
    Ok(())
}

#[test]
#[tactic(auto, unfolding(att_lexer::specs::Bytes::is_symbol_start, att_lexer::specs::Bytes::is_symbol_byte, att_lexer::specs::Bytes::is_letter, att_lexer::specs::Bytes::is_digit))]
fn writes_jumps_to_symbols(rt: HostRuntime) -> Result<(), Fail> {
    let jb = one(
        Op::Jcc(Cond::B),
        Width::Q,
        Arg::Code(symbol(rt.alloc(), b".L2", false, 0)?),
    );
    is_written(&rt, &jb, "jb .L2")?;
    let call = one(
        Op::Call,
        Width::Q,
        Arg::Code(symbol(rt.alloc(), b"g", false, 0)?),
    );
    is_written(&rt, &call, "call g")?;
    Ok(())
}

#[test]
#[tactic(auto, unfolding(att_lexer::specs::Bytes::is_symbol_start, att_lexer::specs::Bytes::is_symbol_byte, att_lexer::specs::Bytes::is_letter, att_lexer::specs::Bytes::is_digit))]
fn writes_operands_with_symbols(rt: HostRuntime) -> Result<(), Fail> {
    let local = Arg::Mem(Mem {
        fs: true,
        disp: Disp::Sym(symbol(rt.alloc(), b"x", true, -4)?),
        base: Base::Reg(Reg::Rbx),
        index: None,
        scale: 1,
    });
    let mov = two(Op::Mov, Width::Q, local, Arg::Reg(Reg::Rax));
    is_written(&rt, &mov, "movq %fs:x@tpoff-4(%rbx), %rax")?;
    let near = Arg::Mem(Mem {
        fs: false,
        disp: Disp::Sym(symbol(rt.alloc(), b"y", false, 16)?),
        base: Base::Rip,
        index: None,
        scale: 1,
    });
    let lea = two(Op::Lea, Width::Q, near, Arg::Reg(Reg::Rax));
    is_written(&rt, &lea, "leaq y+16(%rip), %rax")?;
    Ok(())
}

#[test]
fn writes_alignments(rt: HostRuntime) -> Result<(), Fail> {
    for (fill, max, text) in [
        (None, None, ".p2align 4"),
        (Some(144), None, ".p2align 4,144"),
        (None, Some(10), ".p2align 4,,10"),
        (Some(0), Some(7), ".p2align 4,0,7"),
    ] {
        let got = directive_text(rt.alloc(), 4, fill, max)?;
        assert_eq!(rt; got.as_slice(), text.as_bytes());
    }
    Ok(())
}
