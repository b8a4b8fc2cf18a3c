// Instructions: a mnemonic and its operands.
ghost use Rattle.std.specs.Prelude.{◌≡◌, ◌&&◌, [], ◌∷◌, IfOk, option_map, bytes_eq, codes, ◌<◌, ◌++◌, OnOk, OnErr};
ghost use Rattle.insn_ir.specs.Mnemonics.{has_width};
ghost use Rattle.att_grammar.specs.Notions.{or_else, is_among};
ghost use Rattle.att_reader.specs.Made.{entry_of};
ghost use Rattle.insn_ir.specs.declared.op.Op.{Op};
ghost use Rattle.att_grammar.specs.Instructions.{has_operands, insn_of, read_as, read_by, register_width, last_width, width_of, plain_of, is_direct, lone_symbol, lone_operand, behind_notrack, target_of, starred_of, star_op, jump_of, notrack_of, rep_of, prefixed_of, instruction_of};

use crate::expressions::symbol;
use crate::forms::has_operands;
use crate::opaque::opaque;
use crate::operands::{operand, operands};
use crate::values::{insn, jump_to};
use att_grammar::{Cursor, Operand, Operands, Symbol};
use insn_ir::{Entry, MnemonicHit, Op, Width, has_width, op_of_mnemonic};
use std::alloc::{AllocError, Global};

// Whether an operation has the width and the operands.
fn reads(op: Op, width: Width, operands: &Operands) -> bool
    ensures { result ≡ (has_width op width && has_operands op width operands.now) }
{
    has_width(op, width) && has_operands(op, width, operands)
}

// The first of two operations that has the width and the operands.
fn first_of(op: Op, other: Op, width: Width, operands: &Operands) -> Option<Op>
    ensures { option_map (λ o. insn_of o width operands.now) result ≡ or_else (read_as op width operands.now) (read_as other width operands.now) }
{
    if reads(op, width, operands) {
        Some(op)
    } else if reads(other, width, operands) {
        Some(other)
    } else {
        None
    }
}

fn product(width: Width, operands: &Operands) -> Option<Op>
    ensures { option_map (λ o. insn_of o width operands.now) result ≡ read_by Op.Imul1 width operands.now }
{
    if reads(Op::Imul1, width, operands) {
        Some(Op::Imul1)
    } else {
        first_of(Op::Imul2, Op::Imul3, width, operands)
    }
}

// The first operation of a name that has the width and the operands.
fn chosen(op: Op, width: Width, operands: &Operands) -> Option<Op>
    ensures { option_map (λ o. insn_of o width operands.now) result ≡ read_by op width operands.now }
{
    match op {
        Op::Mov => first_of(Op::Mov, Op::Movabs, width, operands),
        Op::Imul1 => product(width, operands),
        _ => {
            if reads(op, width, operands) {
                Some(op)
            } else {
                None
            }
        }
    }
}

fn register_width(operand: &Operand) -> Option<Width>
    ensures { result ≡ register_width operand.now }
{
    match operand {
        Operand::Register(_, width) => Some(*width),
        Operand::Immediate(_) | Operand::Memory(_) => None,
    }
}

// The width of the last operand that is a register.
fn last_width(operands: &Operands) -> Option<Width>
    ensures { result ≡ last_width operands.now }
{
    match operands {
        Operands::Nothing => None,
        Operands::One(a) => register_width(a),
        Operands::Two(a, b) => {
            if let Some(width) = register_width(b) {
                return Some(width);
            }
            register_width(a)
        }
        Operands::Three(a, b, c) => {
            if let Some(width) = register_width(c) {
                return Some(width);
            }
            if let Some(width) = register_width(b) {
                return Some(width);
            }
            register_width(a)
        }
    }
}

// The width of a mnemonic, or that of an operand.
fn width_of(hit: MnemonicHit, operands: &Operands) -> Option<Width>
    ensures { result ≡ width_of hit operands.now }
{
    match hit.width {
        Some(width) => Some(width),
        None => last_width(operands),
    }
}

#[inline(always)]
#[tactic(auto, unfolding(att_grammar::specs::Instructions::plain_of))]
fn plain(
    alloc: Global,
    out: &mut Vec<Entry>,
    serial: u32,
    hit: MnemonicHit,
    at: &Cursor,
    whole: &Cursor,
) -> Result<(), AllocError>
    requires room { out.old.len < out.old.cap }
    ensures ok { OnOk result (out.new.items ≡ out.old.items ++ entry_of serial (plain_of hit at.now) whole.now ∷ []) }
    ensures err { OnErr result (out.new.items ≡ out.old.items) }
{
    let found = operands(at);
    let Some(operands) = &found else {
        return opaque(alloc, out, serial, whole);
    };
    let Some(width) = width_of(hit, operands) else {
        return opaque(alloc, out, serial, whole);
    };
    match chosen(hit.op, width, operands) {
        Some(op) => insn(alloc, out, serial, op, width, operands),
        None => opaque(alloc, out, serial, whole),
    }
}

fn is_direct(op: Op) -> bool
    ensures { result ≡ is_direct op }
{
    matches!(op, Op::Jmp | Op::Jcc(_) | Op::Call)
}

fn lone_symbol<'a>(at: &Cursor<'a>) -> Option<Symbol<'a>>
    ensures { result ≡ lone_symbol at.now }
{
    let (symbol, rest) = symbol(at)?;
    if rest.is_at_end() { Some(symbol) } else { None }
}

fn lone_operand<'a>(at: &Cursor<'a>) -> Option<Operand<'a>>
    ensures { result ≡ lone_operand at.now }
{
    let (operand, rest) = operand(at)?;
    if rest.is_at_end() {
        Some(operand)
    } else {
        None
    }
}

// A name where control goes.
#[inline(always)]
#[tactic(auto, unfolding(att_grammar::specs::Instructions::target_of))]
fn target(
    alloc: Global,
    out: &mut Vec<Entry>,
    serial: u32,
    op: Op,
    at: &Cursor,
    whole: &Cursor,
) -> Result<(), AllocError>
    requires room { out.old.len < out.old.cap }
    ensures ok { OnOk result (out.new.items ≡ out.old.items ++ entry_of serial (target_of op at.now) whole.now ∷ []) }
    ensures err { OnErr result (out.new.items ≡ out.old.items) }
{
    match lone_symbol(at) {
        Some(symbol) => jump_to(alloc, out, serial, op, &symbol),
        None => opaque(alloc, out, serial, whole),
    }
}

// A register or memory that says where control goes.
#[tactic(auto, unfolding(att_grammar::specs::Instructions::starred_of))]
fn starred(
    alloc: Global,
    out: &mut Vec<Entry>,
    serial: u32,
    op: Op,
    at: &Cursor,
    whole: &Cursor,
) -> Result<(), AllocError>
    requires room { out.old.len < out.old.cap }
    ensures ok { OnOk result (out.new.items ≡ out.old.items ++ entry_of serial (starred_of op at.now) whole.now ∷ []) }
    ensures err { OnErr result (out.new.items ≡ out.old.items) }
{
    let Some(operand) = lone_operand(at) else {
        return opaque(alloc, out, serial, whole);
    };
    let operands = Operands::One(operand);
    if reads(op, Width::Q, &operands) {
        insn(alloc, out, serial, op, Width::Q, &operands)
    } else {
        opaque(alloc, out, serial, whole)
    }
}

// Which names may have `*` behind them.
fn star_op(name: &[u8]) -> Option<Op>
    ensures { result ≡ star_op name.now }
{
    match name {
        b"jmp" => Some(Op::JmpStar),
        b"call" | b"callq" => Some(Op::CallStar),
        _ => None,
    }
}

#[inline(always)]
#[tactic(auto, unfolding(att_grammar::specs::Instructions::jump_of))]
fn jump(
    alloc: Global,
    out: &mut Vec<Entry>,
    serial: u32,
    op: Op,
    name: &[u8],
    at: &Cursor,
    whole: &Cursor,
) -> Result<(), AllocError>
    requires room { out.old.len < out.old.cap }
    ensures ok { OnOk result (out.new.items ≡ out.old.items ++ entry_of serial (jump_of op name.now at.now) whole.now ∷ []) }
    ensures err { OnErr result (out.new.items ≡ out.old.items) }
{
    match at.expect(b'*') {
        Some(rest) => match star_op(name) {
            Some(star) => starred(alloc, out, serial, star, &rest, whole),
            None => opaque(alloc, out, serial, whole),
        },
        None => target(alloc, out, serial, op, at, whole),
    }
}

fn behind_notrack<'a>(at: &Cursor<'a>) -> Option<Cursor<'a>>
    ensures { result ≡ behind_notrack at.now }
{
    at.this_word(b"jmp")?.expect(b'*')
}

#[tactic(auto, unfolding(att_grammar::specs::Instructions::notrack_of))]
fn notrack(
    alloc: Global,
    out: &mut Vec<Entry>,
    serial: u32,
    at: &Cursor,
    whole: &Cursor,
) -> Result<(), AllocError>
    requires room { out.old.len < out.old.cap }
    ensures ok { OnOk result (out.new.items ≡ out.old.items ++ entry_of serial (notrack_of at.now) whole.now ∷ []) }
    ensures err { OnErr result (out.new.items ≡ out.old.items) }
{
    match behind_notrack(at) {
        Some(rest) => starred(alloc, out, serial, Op::JmpStarNotrack, &rest, whole),
        None => opaque(alloc, out, serial, whole),
    }
}

#[tactic(auto, unfolding(att_grammar::specs::Instructions::rep_of))]
fn rep(
    alloc: Global,
    out: &mut Vec<Entry>,
    serial: u32,
    at: &Cursor,
    whole: &Cursor,
) -> Result<(), AllocError>
    requires room { out.old.len < out.old.cap }
    ensures ok { OnOk result (out.new.items ≡ out.old.items ++ entry_of serial (rep_of at.now) whole.now ∷ []) }
    ensures err { OnErr result (out.new.items ≡ out.old.items) }
{
    let Some(rest) = at.this_word(b"ret") else {
        return opaque(alloc, out, serial, whole);
    };
    if rest.is_at_end() {
        insn(alloc, out, serial, Op::RepRet, Width::Q, &Operands::Nothing)
    } else {
        opaque(alloc, out, serial, whole)
    }
}

fn is_notrack(name: &[u8]) -> bool
    ensures { result ≡ bytes_eq (codes "notrack") name.now }
{
    name == b"notrack".as_slice()
}

fn is_rep(name: &[u8]) -> bool
    ensures { result ≡ is_among (codes "rep" ∷ codes "repz" ∷ []) name.now }
{
    matches!(name, b"rep" | b"repz")
}

#[tactic(auto, unfolding(att_grammar::specs::Instructions::prefixed_of))]
fn prefixed(
    alloc: Global,
    out: &mut Vec<Entry>,
    serial: u32,
    name: &[u8],
    at: &Cursor,
    whole: &Cursor,
) -> Result<(), AllocError>
    requires room { out.old.len < out.old.cap }
    ensures ok { OnOk result (out.new.items ≡ out.old.items ++ entry_of serial (prefixed_of name.now at.now) whole.now ∷ []) }
    ensures err { OnErr result (out.new.items ≡ out.old.items) }
{
    if is_notrack(name) {
        notrack(alloc, out, serial, at, whole)
    } else if is_rep(name) {
        rep(alloc, out, serial, at, whole)
    } else {
        opaque(alloc, out, serial, whole)
    }
}

/// Appends what the lexemes are: an instruction, if they are one, and else their words.
#[inline(always)]
#[tactic(auto, unfolding(att_grammar::specs::Instructions::instruction_of))]
pub fn instruction(
    alloc: Global,
    out: &mut Vec<Entry>,
    serial: u32,
    whole: &Cursor,
) -> Result<(), AllocError>
    requires room { out.old.len < out.old.cap }
    ensures ok { OnOk result (out.new.items ≡ out.old.items ++ entry_of serial (instruction_of whole.now) whole.now ∷ []) }
    ensures err { OnErr result (out.new.items ≡ out.old.items) }
{
    let Some((name, rest)) = whole.word() else {
        return opaque(alloc, out, serial, whole);
    };
    match op_of_mnemonic(name.bytes()) {
        Some(hit) => {
            if is_direct(hit.op) {
                jump(alloc, out, serial, hit.op, name.bytes(), &rest, whole)
            } else {
                plain(alloc, out, serial, hit, &rest, whole)
            }
        }
        None => prefixed(alloc, out, serial, name.bytes(), &rest, whole),
    }
}
