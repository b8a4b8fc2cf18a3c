// The size of an instruction.

ghost use Rattle.std.specs.Prelude.{◌≡◌, ◌≤◌};
ghost use Rattle.size_table.specs.Sizes.{stored_size, mov_size, immediate_size, sum_size, test_size, push_size, xchg_size, count_size, shift_size, imul3_size, jmp_size, jcc_size, body_size, size_of_insn};

use crate::form::JumpForm;
use crate::operand::{either_size, imm_size, is_acc, is_small, mem_size, rm_size};
use crate::prefix::prefix_size;
use insn_ir::{Arg, Imm, Insn, Op, Width};

// An immediate that is moved to `b`.
fn stored_size(width: Width, b: &Arg) -> u8
    ensures size { result ≡ stored_size width b.now }
    ensures most { result ≤ 11 }
{
    match (width, b) {
        (Width::Q, Arg::Reg(_)) => 6,
        (_, Arg::Reg(_)) => 1 + imm_size(width),
        _ => 1 + rm_size(b) + imm_size(width),
    }
}

fn mov_size(width: Width, a: &Arg, b: &Arg) -> u8
    ensures size { result ≡ mov_size width a.now b.now }
    ensures most { result ≤ 11 }
{
    match a {
        Arg::Imm(_) => stored_size(width, b),
        Arg::Absent | Arg::Reg(_) | Arg::Mem(_) | Arg::Code(_) => 1 + either_size(a, b),
    }
}

// A sum, comparison or logic of an immediate and `b`.
fn immediate_size(width: Width, imm: &Imm, b: &Arg) -> u8
    ensures size { result ≡ immediate_size width imm.now b.now }
    ensures most { result ≤ 11 }
{
    let in_rax = is_acc(b);
    match width {
        Width::B if in_rax => 2,
        Width::B => 2 + rm_size(b),
        _ if is_small(imm) => 2 + rm_size(b),
        _ if in_rax => 1 + imm_size(width),
        _ => 1 + rm_size(b) + imm_size(width),
    }
}

fn sum_size(width: Width, a: &Arg, b: &Arg) -> u8
    ensures size { result ≡ sum_size width a.now b.now }
    ensures most { result ≤ 11 }
{
    match a {
        Arg::Imm(imm) => immediate_size(width, imm, b),
        Arg::Absent | Arg::Reg(_) | Arg::Mem(_) | Arg::Code(_) => 1 + either_size(a, b),
    }
}

fn test_size(width: Width, a: &Arg, b: &Arg) -> u8
    ensures size { result ≡ test_size width a.now b.now }
    ensures most { result ≤ 11 }
{
    match a {
        Arg::Imm(_) if is_acc(b) => 1 + imm_size(width),
        Arg::Imm(_) => 1 + rm_size(b) + imm_size(width),
        Arg::Absent | Arg::Reg(_) | Arg::Mem(_) | Arg::Code(_) => 1 + either_size(a, b),
    }
}

fn push_size(a: &Arg) -> u8
    ensures size { result ≡ push_size a.now }
    ensures most { result ≤ 11 }
{
    match a {
        Arg::Mem(mem) => 1 + mem_size(mem),
        Arg::Imm(imm) if is_small(imm) => 2,
        Arg::Imm(_) => 5,
        Arg::Absent | Arg::Reg(_) | Arg::Code(_) => 1,
    }
}

fn xchg_size(a: &Arg, b: &Arg) -> u8
    ensures size { result ≡ xchg_size a.now b.now }
    ensures most { result ≤ 2 }
{
    if is_acc(a) || is_acc(b) { 1 } else { 2 }
}

fn count_size(count: &Arg) -> u8
    ensures size { result ≡ count_size count.now }
    ensures most { result ≤ 1 }
{
    match count {
        Arg::Imm(Imm::Num(1)) => 0,
        Arg::Imm(_) => 1,
        Arg::Absent | Arg::Reg(_) | Arg::Mem(_) | Arg::Code(_) => 0,
    }
}

fn shift_size(count: &Arg, b: &Arg) -> u8
    ensures size { result ≡ shift_size count.now b.now }
    ensures most { result ≤ 11 }
{
    1 + rm_size(b) + count_size(count)
}

fn imul3_size(a: &Arg, b: &Arg) -> u8
    ensures size { result ≡ imul3_size a.now b.now }
    ensures most { result ≤ 11 }
{
    match a {
        Arg::Imm(imm) if is_small(imm) => 2 + rm_size(b),
        _ => 5 + rm_size(b),
    }
}

fn jmp_size(form: JumpForm) -> u8
    ensures size { result ≡ jmp_size form }
    ensures most { result ≤ 11 }
{
    match form {
        JumpForm::Short => 2,
        JumpForm::Near => 5,
    }
}

fn jcc_size(form: JumpForm) -> u8
    ensures size { result ≡ jcc_size form }
    ensures most { result ≤ 11 }
{
    match form {
        JumpForm::Short => 2,
        JumpForm::Near => 6,
    }
}

// The bytes beside the prefixes.
fn body_size(op: Op, width: Width, a: &Arg, b: &Arg, form: JumpForm) -> u8
    ensures size { result ≡ body_size op width a.now b.now form }
    ensures most { result ≤ 11 }
{
    match op {
        Op::Mov => mov_size(width, a, b),
        Op::Movabs => 9,
        Op::Movs(Width::L) => 1 + rm_size(a),
        Op::Movz(_) | Op::Movs(_) | Op::Imul2 | Op::Setcc(_) | Op::Cmov(_) => 2 + rm_size(a),
        Op::Lea | Op::Not | Op::Neg | Op::Inc | Op::Dec => 1 + rm_size(a),
        Op::Imul1 | Op::Mul | Op::Div | Op::Idiv => 1 + rm_size(a),
        Op::JmpStar | Op::JmpStarNotrack | Op::CallStar => 1 + rm_size(a),
        Op::Push => push_size(a),
        Op::Xchg => xchg_size(a, b),
        Op::Add | Op::Adc | Op::Sub | Op::Sbb => sum_size(width, a, b),
        Op::Cmp | Op::And | Op::Or | Op::Xor => sum_size(width, a, b),
        Op::Test => test_size(width, a, b),
        Op::Shl | Op::Shr | Op::Sar => shift_size(a, b),
        Op::Imul3 => imul3_size(a, b),
        Op::Jmp => jmp_size(form),
        Op::Jcc(_) => jcc_size(form),
        Op::Call => 5,
        Op::Endbr64 => 4,
        Op::Bswap | Op::Ud2 => 2,
        Op::Pop | Op::Leave | Op::Cwtl | Op::Cltq | Op::Cltd | Op::Cqto => 1,
        Op::Ret | Op::RepRet | Op::Nop => 1,
    }
}

/// The size of an instruction of the profile in bytes, as GNU as encodes it without `-O` (SDM volume 2, chapter 2). The form
/// matters for a direct `jmp` and `jcc` alone.
pub fn size_of(insn: &Insn, form: JumpForm) -> u8
    ensures { result ≡ size_of_insn insn.now form }
{
    prefix_size(insn) + body_size(insn.op, insn.width, &insn.a, &insn.b, form)
}
