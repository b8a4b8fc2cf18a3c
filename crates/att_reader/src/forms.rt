// Which operands an operation is written with.
ghost use Rattle.std.specs.Prelude.{◌≡◌};
ghost use Rattle.insn_ir.specs.declared.op.Reg.TheVariants.{Rsp, Rcx};
ghost use Rattle.insn_ir.specs.Machine.{reg_number, same_reg};
ghost use Rattle.insn_ir.specs.Mnemonics.{same_width};
ghost use Rattle.att_grammar.specs.Instructions.{is_register, is_memory, is_place, fits_number, fits_symbol, fits_sum, is_immediate, is_number, is_plain_memory, is_popped, is_other, is_exchange, is_count_number, is_count, is_move, is_tested, is_wide, is_address_to, is_pushed, none, one, two, three, has_place, has_load, has_shift, has_product, has_operands};

use att_grammar::{Operand, Operands, Symbol};
use insn_ir::{Op, Reg, Width};

fn reg_number(r: Reg) -> u8
    ensures { result ≡ reg_number r }
{
    match r {
        Reg::Rax => 0,
        Reg::Rcx => 1,
        Reg::Rdx => 2,
        Reg::Rbx => 3,
        Reg::Rsp => 4,
        Reg::Rbp => 5,
        Reg::Rsi => 6,
        Reg::Rdi => 7,
        Reg::R8 => 8,
        Reg::R9 => 9,
        Reg::R10 => 10,
        Reg::R11 => 11,
        Reg::R12 => 12,
        Reg::R13 => 13,
        Reg::R14 => 14,
        Reg::R15 => 15,
    }
}

/// Whether two registers are one.
pub fn same_reg(r: Reg, q: Reg) -> bool
    ensures { result ≡ same_reg r q }
{
    reg_number(r) == reg_number(q)
}

/// Whether two widths are one.
pub fn same_width(w: Width, v: Width) -> bool
    ensures { result ≡ same_width w v }
{
    match (w, v) {
        (Width::B, Width::B) | (Width::W, Width::W) | (Width::L, Width::L) | (Width::Q, Width::Q) =>
            true,
        _ => false,
    }
}

fn is_register(width: Width, a: &Operand) -> bool
    ensures { result ≡ is_register width a.now }
{
    match a {
        Operand::Register(_, w) => same_width(*w, width),
        Operand::Immediate(_) | Operand::Memory(_) => false,
    }
}

fn is_memory(a: &Operand) -> bool
    ensures { result ≡ is_memory a.now }
{
    match a {
        Operand::Memory(_) => true,
        Operand::Register(_, _) | Operand::Immediate(_) => false,
    }
}

fn is_place(width: Width, a: &Operand) -> bool
    ensures { result ≡ is_place width a.now }
{
    is_register(width, a) || is_memory(a)
}

fn fits_number(width: Width, n: i64) -> bool
    ensures { result ≡ fits_number width n }
{
    match width {
        Width::B => n >= -(1 << 7) && n < 1 << 8,
        Width::W => n >= -(1 << 15) && n < 1 << 16,
        Width::L => n >= -(1 << 31) && n < 1 << 32,
        Width::Q => n >= -(1 << 31) && n < 1 << 31,
    }
}

fn fits_symbol(width: Width) -> bool
    ensures { result ≡ fits_symbol width }
{
    match width {
        Width::B | Width::W => false,
        Width::L | Width::Q => true,
    }
}

fn fits_sum(width: Width, symbol: &Option<Symbol>, n: i64) -> bool
    ensures { result ≡ fits_sum width symbol.now n }
{
    match symbol {
        None => fits_number(width, n),
        Some(_) => fits_symbol(width),
    }
}

fn is_immediate(width: Width, a: &Operand) -> bool
    ensures { result ≡ is_immediate width a.now }
{
    match a {
        Operand::Immediate(sum) => fits_sum(width, &sum.symbol, sum.number),
        Operand::Register(_, _) | Operand::Memory(_) => false,
    }
}

fn is_number(a: &Operand) -> bool
    ensures { result ≡ is_number a.now }
{
    match a {
        Operand::Immediate(sum) => sum.symbol.is_none(),
        Operand::Register(_, _) | Operand::Memory(_) => false,
    }
}

fn is_plain_memory(a: &Operand) -> bool
    ensures { result ≡ is_plain_memory a.now }
{
    match a {
        Operand::Memory(address) => !address.fs,
        Operand::Register(_, _) | Operand::Immediate(_) => false,
    }
}

fn is_popped(a: &Operand) -> bool
    ensures { result ≡ is_popped a.now }
{
    match a {
        Operand::Register(r, w) => same_width(*w, Width::Q) && !same_reg(*r, Reg::Rsp),
        Operand::Immediate(_) | Operand::Memory(_) => false,
    }
}

fn is_other(r: Reg, b: &Operand) -> bool
    ensures { result ≡ is_other r b.now }
{
    match b {
        Operand::Register(q, _) => !same_reg(r, *q),
        Operand::Immediate(_) | Operand::Memory(_) => false,
    }
}

fn is_exchange(width: Width, a: &Operand, b: &Operand) -> bool
    ensures { result ≡ is_exchange width a.now b.now }
{
    match a {
        Operand::Register(r, w) => {
            same_width(*w, width) && is_register(width, b) && is_other(*r, b)
        }
        Operand::Immediate(_) | Operand::Memory(_) => false,
    }
}

fn is_count_number(width: Width, symbol: &Option<Symbol>, n: i64) -> bool
    ensures { result ≡ is_count_number width symbol.now n }
{
    if symbol.is_some() || n < 0 || n >= 256 {
        return false;
    }
    match width {
        Width::B | Width::W | Width::L => n as u64 % 32 != 0,
        Width::Q => n as u64 % 64 != 0,
    }
}

fn is_count(width: Width, a: &Operand) -> bool
    ensures { result ≡ is_count width a.now }
{
    match a {
        Operand::Register(r, w) => same_width(*w, Width::B) && same_reg(*r, Reg::Rcx),
        Operand::Immediate(sum) => is_count_number(width, &sum.symbol, sum.number),
        Operand::Memory(_) => false,
    }
}

fn is_move(width: Width, a: &Operand, b: &Operand) -> bool
    ensures { result ≡ is_move width a.now b.now }
{
    (is_register(width, a) && is_place(width, b))
        || (is_memory(a) && is_register(width, b))
        || (is_immediate(width, a) && is_place(width, b))
}

fn is_tested(width: Width, a: &Operand, b: &Operand) -> bool
    ensures { result ≡ is_tested width a.now b.now }
{
    (is_register(width, a) || is_immediate(width, a)) && is_place(width, b)
}

fn has_none(operands: &Operands) -> bool
    ensures { result ≡ none operands.now }
{
    match operands {
        Operands::Nothing => true,
        Operands::One(_) | Operands::Two(_, _) | Operands::Three(_, _, _) => false,
    }
}

fn has_place(width: Width, operands: &Operands) -> bool
    ensures { result ≡ has_place width operands.now }
{
    match operands {
        Operands::One(a) => is_place(width, a),
        Operands::Nothing | Operands::Two(_, _) | Operands::Three(_, _, _) => false,
    }
}

fn has_load(source: Width, width: Width, operands: &Operands) -> bool
    ensures { result ≡ has_load source width operands.now }
{
    match operands {
        Operands::Two(a, b) => is_place(source, a) && is_register(width, b),
        Operands::Nothing | Operands::One(_) | Operands::Three(_, _, _) => false,
    }
}

fn has_shift(width: Width, operands: &Operands) -> bool
    ensures { result ≡ has_shift width operands.now }
{
    match operands {
        Operands::One(a) => is_place(width, a),
        Operands::Two(a, b) => is_count(width, a) && is_place(width, b),
        Operands::Nothing | Operands::Three(_, _, _) => false,
    }
}

fn has_product(width: Width, operands: &Operands) -> bool
    ensures { result ≡ has_product width operands.now }
{
    match operands {
        Operands::Two(a, b) => is_immediate(width, a) && is_register(width, b),
        Operands::Three(a, b, c) => {
            is_immediate(width, a) && is_place(width, b) && is_register(width, c)
        }
        Operands::Nothing | Operands::One(_) => false,
    }
}

fn has_move(width: Width, operands: &Operands) -> bool
    ensures { result ≡ two (is_move width) operands.now }
{
    match operands {
        Operands::Two(a, b) => is_move(width, a, b),
        Operands::Nothing | Operands::One(_) | Operands::Three(_, _, _) => false,
    }
}

fn has_tested(width: Width, operands: &Operands) -> bool
    ensures { result ≡ two (is_tested width) operands.now }
{
    match operands {
        Operands::Two(a, b) => is_tested(width, a, b),
        Operands::Nothing | Operands::One(_) | Operands::Three(_, _, _) => false,
    }
}

fn has_exchange(width: Width, operands: &Operands) -> bool
    ensures { result ≡ two (is_exchange width) operands.now }
{
    match operands {
        Operands::Two(a, b) => is_exchange(width, a, b),
        Operands::Nothing | Operands::One(_) | Operands::Three(_, _, _) => false,
    }
}

fn has_number(width: Width, operands: &Operands) -> bool
    ensures { result ≡ two (is_wide width) operands.now }
{
    match operands {
        Operands::Two(a, b) => is_number(a) && is_register(width, b),
        Operands::Nothing | Operands::One(_) | Operands::Three(_, _, _) => false,
    }
}

fn has_plain_memory(width: Width, operands: &Operands) -> bool
    ensures { result ≡ two (is_address_to width) operands.now }
{
    match operands {
        Operands::Two(a, b) => is_plain_memory(a) && is_register(width, b),
        Operands::Nothing | Operands::One(_) | Operands::Three(_, _, _) => false,
    }
}

fn has_pushed(width: Width, operands: &Operands) -> bool
    ensures { result ≡ one (is_pushed width) operands.now }
{
    match operands {
        Operands::One(a) => is_place(width, a) || is_immediate(width, a),
        Operands::Nothing | Operands::Two(_, _) | Operands::Three(_, _, _) => false,
    }
}

fn has_popped(operands: &Operands) -> bool
    ensures { result ≡ one is_popped operands.now }
{
    match operands {
        Operands::One(a) => is_popped(a),
        Operands::Nothing | Operands::Two(_, _) | Operands::Three(_, _, _) => false,
    }
}

fn has_register(width: Width, operands: &Operands) -> bool
    ensures { result ≡ one (is_register width) operands.now }
{
    match operands {
        Operands::One(a) => is_register(width, a),
        Operands::Nothing | Operands::Two(_, _) | Operands::Three(_, _, _) => false,
    }
}

/// Whether an operation is written with these operands at a width.
pub fn has_operands(op: Op, width: Width, operands: &Operands) -> bool
    ensures { result ≡ has_operands op width operands.now }
{
    match op {
        Op::Mov | Op::Add | Op::Adc | Op::Sub | Op::Sbb | Op::Cmp | Op::And | Op::Or | Op::Xor =>
            has_move(width, operands),
        Op::Movabs => has_number(width, operands),
        Op::Movz(source) | Op::Movs(source) => has_load(source, width, operands),
        Op::Imul2 | Op::Cmov(_) => has_load(width, width, operands),
        Op::Lea => has_plain_memory(width, operands),
        Op::Push => has_pushed(width, operands),
        Op::Pop => has_popped(operands),
        Op::Xchg => has_exchange(width, operands),
        Op::Bswap => has_register(width, operands),
        Op::Not
        | Op::Neg
        | Op::Inc
        | Op::Dec
        | Op::Imul1
        | Op::Mul
        | Op::Div
        | Op::Idiv
        | Op::Setcc(_)
        | Op::JmpStar
        | Op::JmpStarNotrack
        | Op::CallStar => has_place(width, operands),
        Op::Test => has_tested(width, operands),
        Op::Shl | Op::Shr | Op::Sar => has_shift(width, operands),
        Op::Imul3 => has_product(width, operands),
        Op::Leave
        | Op::Cwtl
        | Op::Cltq
        | Op::Cltd
        | Op::Cqto
        | Op::Ret
        | Op::RepRet
        | Op::Nop
        | Op::Endbr64
        | Op::Ud2 => has_none(operands),
        Op::Jmp | Op::Jcc(_) | Op::Call => false,
    }
}
