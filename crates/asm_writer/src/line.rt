// Instructions and alignments in fragments.

ghost use Rattle.std.specs.Prelude.{◌≡◌, ◌+◌, ◌≤◌, ◌++◌, true};
ghost use Rattle.arrayvec.specs.ArrayVec.{array_vec_len};
ghost use Rattle.insn_ir.specs.Profile.{IsInstruction};
ghost use Rattle.insn_ir.specs.Mnemonics.{has_width};
ghost use Rattle.att_grammar.specs.Spelling.{render};
ghost use Rattle.att_grammar.specs.Canonical.{first_width, star_items, first_items, next_items, mnemonic_items, insn_text, padding_items, align_text};
ghost use Rattle.asm_writer.specs.Fragments.{fragments_text};

use crate::fragment::{Fragment, Fragments, put};
use crate::operand::put_arg;
use insn_ir::{Arg, Insn, Op, Width, mnemonic_of};

// The width of a register that is the first operand.
fn first_width(op: Op, width: Width) -> Width
    ensures { result ≡ first_width op width }
{
    match op {
        Op::Movz(source) | Op::Movs(source) => source,
        Op::Shl | Op::Shr | Op::Sar => Width::B,
        _ => width,
    }
}

fn put_star<'a>(out: &mut Fragments<'a>, op: Op)
    requires { array_vec_len out.old + 1 ≤ 48 }
    ensures text { fragments_text out.new.items ≡ fragments_text out.old.items ++ render (star_items op) }
    ensures len { array_vec_len out.new ≤ array_vec_len out.old + 1 }
{
    match op {
        Op::JmpStar | Op::JmpStarNotrack | Op::CallStar => put(out, Fragment::Text(b"*")),
        _ => {}
    }
}

fn put_first<'a>(out: &mut Fragments<'a>, op: Op, width: Width, arg: &'a Arg)
    requires { array_vec_len out.old + 15 ≤ 48 }
    ensures text { fragments_text out.new.items ≡ fragments_text out.old.items ++ render (first_items op width arg.now) }
    ensures len { array_vec_len out.new ≤ array_vec_len out.old + 15 }
{
    match arg {
        Arg::Absent => {}
        Arg::Reg(_) | Arg::Imm(_) | Arg::Mem(_) | Arg::Code(_) => {
            put(out, Fragment::Text(b" "));
            put_star(out, op);
            put_arg(out, first_width(op, width), arg);
        }
    }
}

fn put_next<'a>(out: &mut Fragments<'a>, width: Width, arg: &'a Arg)
    requires { array_vec_len out.old + 14 ≤ 48 }
    ensures text { fragments_text out.new.items ≡ fragments_text out.old.items ++ render (next_items width arg.now) }
    ensures len { array_vec_len out.new ≤ array_vec_len out.old + 14 }
{
    match arg {
        Arg::Absent => {}
        Arg::Reg(_) | Arg::Imm(_) | Arg::Mem(_) | Arg::Code(_) => {
            put(out, Fragment::Text(b", "));
            put_arg(out, width, arg);
        }
    }
}

#[tactic(auto, using(crate::proofs::Texts::mnemonic_text))]
fn put_mnemonic<'a>(out: &mut Fragments<'a>, op: Op, width: Width)
    requires room { array_vec_len out.old + 1 ≤ 48 }
    requires width { has_width op width ≡ true }
    ensures text { fragments_text out.new.items ≡ fragments_text out.old.items ++ render (mnemonic_items op width) }
    ensures len { array_vec_len out.new ≤ array_vec_len out.old + 1 }
{
    put(out, Fragment::Text(mnemonic_of(op, width).as_bytes()));
}

/// The canonical text of an instruction in fragments.
#[tactic(auto, unfolding(att_grammar::specs::Canonical::insn_text))]
pub fn insn_fragments<'a>(insn: &'a Insn) -> Fragments<'a>
    requires { IsInstruction insn.now }
    ensures { fragments_text result.items ≡ insn_text insn.now }
{
    let mut out = Fragments::new();
    put_mnemonic(&mut out, insn.op, insn.width);
    put_first(&mut out, insn.op, insn.width, &insn.a);
    put_next(&mut out, insn.width, &insn.b);
    put_next(&mut out, insn.width, &insn.c);
    out
}

fn put_padding<'a>(out: &mut Fragments<'a>, fill: Option<u64>, max: Option<u32>)
    requires { array_vec_len out.old + 4 ≤ 48 }
    ensures text { fragments_text out.new.items ≡ fragments_text out.old.items ++ render (padding_items fill max) }
    ensures len { array_vec_len out.new ≤ array_vec_len out.old + 4 }
{
    if let Some(fill) = fill {
        put(out, Fragment::Text(b","));
        put(out, Fragment::Digits(fill));
    }
    if let Some(max) = max {
        if fill.is_none() {
            put(out, Fragment::Text(b","));
        }
        put(out, Fragment::Text(b","));
        put(out, Fragment::Digits(max as u64));
    }
}

/// The canonical text of an alignment in fragments: of a power of two, perhaps with a fill, and with the most bytes that it may take.
#[tactic(auto, unfolding(att_grammar::specs::Canonical::align_text))]
pub fn align_fragments(power: u8, fill: Option<u64>, max: Option<u32>) -> Fragments<'static>
    ensures { fragments_text result.items ≡ align_text power fill max }
{
    let mut out = Fragments::new();
    put(&mut out, Fragment::Text(b".p2align "));
    put(&mut out, Fragment::Digits(power as u64));
    put_padding(&mut out, fill, max);
    out
}
