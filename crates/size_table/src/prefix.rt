// The prefixes of an instruction.

ghost use Rattle.std.specs.Prelude.{◌≡◌, ◌≤◌};
ghost use Rattle.size_table.specs.Prefixes.{width_prefix, fs_prefix, op_prefix, has_default_size, is_wide, is_extended, is_low_byte, is_extended_base, is_extended_index, asks_rex, source_width, has_rex, prefix_size};

use insn_ir::{Arg, Base, Insn, Op, Reg, Width};

fn width_prefix(width: Width) -> u8
    ensures size { result ≡ width_prefix width }
    ensures most { result ≤ 1 }
{
    match width {
        Width::W => 1,
        Width::B | Width::L | Width::Q => 0,
    }
}

fn fs_prefix(arg: &Arg) -> u8
    ensures size { result ≡ fs_prefix arg.now }
    ensures most { result ≤ 1 }
{
    match arg {
        Arg::Mem(mem) => u8::from(mem.fs),
        Arg::Absent | Arg::Reg(_) | Arg::Imm(_) | Arg::Code(_) => 0,
    }
}

fn op_prefix(op: Op) -> u8
    ensures size { result ≡ op_prefix op }
    ensures most { result ≤ 1 }
{
    match op {
        Op::JmpStarNotrack | Op::RepRet => 1,
        _ => 0,
    }
}

fn has_default_size(op: Op) -> bool
    ensures { result ≡ has_default_size op }
{
    match op {
        Op::Push | Op::Pop | Op::Leave | Op::Nop | Op::Endbr64 | Op::Ud2 => true,
        Op::Jmp | Op::Jcc(_) | Op::JmpStar | Op::JmpStarNotrack => true,
        Op::Call | Op::CallStar | Op::Ret | Op::RepRet => true,
        _ => false,
    }
}

fn is_wide(op: Op, width: Width) -> bool
    ensures { result ≡ is_wide op width }
{
    match width {
        Width::Q => !has_default_size(op),
        Width::B | Width::W | Width::L => false,
    }
}

fn is_extended(r: Reg) -> bool
    ensures { result ≡ is_extended r }
{
    match r {
        Reg::R8 | Reg::R9 | Reg::R10 | Reg::R11 => true,
        Reg::R12 | Reg::R13 | Reg::R14 | Reg::R15 => true,
        _ => false,
    }
}

fn is_low_byte(width: Width, r: Reg) -> bool
    ensures { result ≡ is_low_byte width r }
{
    match (width, r) {
        (Width::B, Reg::Rsp | Reg::Rbp | Reg::Rsi | Reg::Rdi) => true,
        _ => false,
    }
}

fn is_extended_base(base: Base) -> bool
    ensures { result ≡ is_extended_base base }
{
    match base {
        Base::Reg(r) => is_extended(r),
        Base::Absent | Base::Rip => false,
    }
}

fn is_extended_index(index: Option<Reg>) -> bool
    ensures { result ≡ is_extended_index index }
{
    match index {
        Some(r) => is_extended(r),
        None => false,
    }
}

fn asks_rex(width: Width, arg: &Arg) -> bool
    ensures { result ≡ asks_rex width arg.now }
{
    match arg {
        Arg::Reg(r) => is_extended(*r) || is_low_byte(width, *r),
        Arg::Mem(mem) => is_extended_base(mem.base) || is_extended_index(mem.index),
        Arg::Absent | Arg::Imm(_) | Arg::Code(_) => false,
    }
}

fn source_width(op: Op, width: Width) -> Width
    ensures { result ≡ source_width op width }
{
    match op {
        Op::Movz(source) | Op::Movs(source) => source,
        _ => width,
    }
}

fn has_rex(insn: &Insn) -> bool
    ensures { result ≡ has_rex insn.now }
{
    is_wide(insn.op, insn.width)
        || asks_rex(source_width(insn.op, insn.width), &insn.a)
        || asks_rex(insn.width, &insn.b)
        || asks_rex(insn.width, &insn.c)
}

/// The prefixes of an instruction, a byte each.
pub(crate) fn prefix_size(insn: &Insn) -> u8
    ensures size { result ≡ prefix_size insn.now }
    ensures most { result ≤ 5 }
{
    let segment = fs_prefix(&insn.a) + fs_prefix(&insn.b);
    width_prefix(insn.width) + segment + op_prefix(insn.op) + u8::from(has_rex(insn))
}
