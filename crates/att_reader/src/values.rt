// Instructions made of operands; names are copied only here.
ghost use Rattle.std.specs.Prelude.{◌≡◌, IfOk, pos, ◌<◌, ◌++◌, ◌∷◌, [], OnOk, OnErr};
ghost use Rattle.insn_ir.specs.declared.op.Width.TheVariants.{Q};
ghost use Rattle.insn_ir.specs.declared.insn.Arg.{Arg};
ghost use Rattle.insn_ir.specs.declared.entry.EntryKind.{EntryKind};
ghost use Rattle.att_reader.specs.Made.{entry};
ghost use Rattle.att_grammar.specs.declared.syntax.Operands.{Operands};
ghost use Rattle.att_grammar.specs.Instructions.{atom_of, disp_of, mem_of, kept, imm_of, arg_of, is_shift, is_product, insn, insn_of};

use att_grammar::{Address, Displacement, Operand, Operands, Symbol, Word};
use insn_ir::{Arg, Atom, BoxedAtom, Disp, Entry, EntryKind, Imm, Insn, Mem, Name, Op, Width};
use std::alloc::{AllocError, Global};

fn specifier(alloc: Global, spec: &Option<Word>) -> Result<Option<Name>, AllocError>
    ensures { IfOk result (λ s. s ≡ spec.now) }
{
    match spec {
        Some(word) => Ok(Some(Name::from_slice(alloc, word.bytes())?)),
        None => Ok(None),
    }
}

/// A symbol with an offset.
pub fn atom(alloc: Global, symbol: &Symbol, offset: i64) -> Result<BoxedAtom, AllocError>
    ensures { IfOk result (λ atom. atom ≡ atom_of symbol.now offset) }
{
    let atom = Atom {
        name: Name::from_slice(alloc, symbol.name.bytes())?,
        spec: specifier(alloc, &symbol.spec)?,
        offset,
    };
    BoxedAtom::new(alloc, atom)
}

fn disp(alloc: Global, disp: &Displacement) -> Result<Disp, AllocError>
    ensures { IfOk result (λ d. d ≡ disp_of disp.now) }
{
    match disp {
        Displacement::Number(n) => Ok(Disp::Num(*n)),
        Displacement::Symbol(symbol, offset) => Ok(Disp::Sym(atom(alloc, symbol, *offset)?)),
    }
}

fn mem(alloc: Global, address: &Address) -> Result<Mem, AllocError>
    ensures { IfOk result (λ m. m ≡ mem_of address.now) }
{
    Ok(Mem {
        fs: address.fs,
        disp: disp(alloc, &address.disp)?,
        base: address.paren.base,
        index: address.paren.index,
        scale: address.paren.scale,
    })
}

// A number that fits a width, as the signed number that has its bits.
fn kept(width: Width, n: i64) -> i64
    ensures { result ≡ kept width n }
{
    match width {
        Width::B => { if n < 1 << 7 { n } else { n - (1 << 8) } }
        Width::W => { if n < 1 << 15 { n } else { n - (1 << 16) } }
        Width::L => { if n < 1 << 31 { n } else { n - (1 << 32) } }
        Width::Q => n,
    }
}

fn imm(alloc: Global, width: Width, symbol: &Option<Symbol>, n: i64) -> Result<Imm, AllocError>
    ensures { IfOk result (λ i. i ≡ imm_of width symbol.now n) }
{
    match symbol {
        None => Ok(Imm::Num(kept(width, n))),
        Some(symbol) => Ok(Imm::Sym(atom(alloc, symbol, n)?)),
    }
}

#[inline(always)]
fn arg(alloc: Global, width: Width, operand: &Operand) -> Result<Arg, AllocError>
    ensures { IfOk result (λ a. a ≡ arg_of width operand.now) }
{
    match operand {
        Operand::Register(r, _) => Ok(Arg::Reg(*r)),
        Operand::Immediate(sum) => Ok(Arg::Imm(imm(alloc, width, &sum.symbol, sum.number)?)),
        Operand::Memory(address) => Ok(Arg::Mem(mem(alloc, address)?)),
    }
}

fn is_shift(op: Op) -> bool
    ensures { result ≡ is_shift op }
{
    matches!(op, Op::Shl | Op::Shr | Op::Sar)
}

fn is_product(op: Op) -> bool
    ensures { result ≡ is_product op }
{
    matches!(op, Op::Imul3)
}

// An instruction is large: it is made where it is to stay.
#[inline(always)]
fn put(out: &mut Vec<Entry>, serial: u32, op: Op, width: Width, a: Arg, b: Arg, c: Arg)
    requires room { out.old.len < out.old.cap }
    ensures { out.new.items ≡ out.old.items ++ entry serial (EntryKind.Insn (insn op width a b c)) ∷ [] }
{
    out.push_reserved(Entry {
        serial,
        kind: EntryKind::Insn(Insn { op, width, a, b, c }),
    });
}

// An instruction with one operand; a shift is then by 1.
#[inline(always)]
fn with_one(
    alloc: Global,
    out: &mut Vec<Entry>,
    serial: u32,
    op: Op,
    width: Width,
    a: &Operand,
) -> Result<(), AllocError>
    requires room { out.old.len < out.old.cap }
    ensures ok { OnOk result (out.new.items ≡ out.old.items ++ entry serial (EntryKind.Insn (insn_of op width (Operands.One a.now))) ∷ []) }
    ensures err { OnErr result (out.new.items ≡ out.old.items) }
{
    let a = arg(alloc, width, a)?;
    if is_shift(op) {
        let one = Arg::Imm(Imm::Num(1));
        put(out, serial, op, width, one, a, Arg::Absent);
        return Ok(());
    }
    put(out, serial, op, width, a, Arg::Absent, Arg::Absent);
    Ok(())
}

// An instruction with two operands; a product then has the second twice.
#[inline(always)]
fn with_two(
    alloc: Global,
    out: &mut Vec<Entry>,
    serial: u32,
    op: Op,
    width: Width,
    a: &Operand,
    b: &Operand,
) -> Result<(), AllocError>
    requires room { out.old.len < out.old.cap }
    ensures ok { OnOk result (out.new.items ≡ out.old.items ++ entry serial (EntryKind.Insn (insn_of op width (Operands.Two a.now b.now))) ∷ []) }
    ensures err { OnErr result (out.new.items ≡ out.old.items) }
{
    let first = arg(alloc, width, a)?;
    let second = arg(alloc, width, b)?;
    if is_product(op) {
        let third = arg(alloc, width, b)?;
        put(out, serial, op, width, first, second, third);
        return Ok(());
    }
    put(out, serial, op, width, first, second, Arg::Absent);
    Ok(())
}

/// Appends the instruction with these operands.
#[inline(always)]
pub fn insn(
    alloc: Global,
    out: &mut Vec<Entry>,
    serial: u32,
    op: Op,
    width: Width,
    operands: &Operands,
) -> Result<(), AllocError>
    requires room { out.old.len < out.old.cap }
    ensures ok { OnOk result (out.new.items ≡ out.old.items ++ entry serial (EntryKind.Insn (insn_of op width operands.now)) ∷ []) }
    ensures err { OnErr result (out.new.items ≡ out.old.items) }
{
    match operands {
        Operands::Nothing => {
            put(
                out,
                serial,
                op,
                width,
                Arg::Absent,
                Arg::Absent,
                Arg::Absent,
            );
            Ok(())
        }
        Operands::One(a) => with_one(alloc, out, serial, op, width, a),
        Operands::Two(a, b) => with_two(alloc, out, serial, op, width, a, b),
        Operands::Three(a, b, c) => {
            let first = arg(alloc, width, a)?;
            let second = arg(alloc, width, b)?;
            let third = arg(alloc, width, c)?;
            put(out, serial, op, width, first, second, third);
            Ok(())
        }
    }
}

/// Appends the jump or call to a symbol.
#[inline(always)]
pub fn jump_to(
    alloc: Global,
    out: &mut Vec<Entry>,
    serial: u32,
    op: Op,
    symbol: &Symbol,
) -> Result<(), AllocError>
    requires room { out.old.len < out.old.cap }
    ensures ok { OnOk result (out.new.items ≡ out.old.items ++ entry serial (EntryKind.Insn (insn op Q (Arg.Code (atom_of symbol.now (pos 0))) Arg.Absent Arg.Absent)) ∷ []) }
    ensures err { OnErr result (out.new.items ≡ out.old.items) }
{
    let to = Arg::Code(atom(alloc, symbol, 0)?);
    put(out, serial, op, Width::Q, to, Arg::Absent, Arg::Absent);
    Ok(())
}
