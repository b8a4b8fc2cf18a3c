// Operands in fragments. Each function appends what its clause says, in so many fragments at most.

ghost use Rattle.std.specs.Prelude.{◌≡◌, ◌+◌, ◌≤◌, ◌++◌};
ghost use Rattle.arrayvec.specs.ArrayVec.{array_vec_len};
ghost use Rattle.att_grammar.specs.Spelling.{render};
ghost use Rattle.att_grammar.specs.Canonical.{number_items, spec_items, offset_items, atom_items, imm_items, disp_items, front_items, index_items, base_items, in_parens, place_items, segment_items, mem_items, arg_items};
ghost use Rattle.asm_writer.specs.Fragments.{fragments_text};

use crate::fragment::{Fragment, Fragments, put};
use crate::register::register_text;
use insn_ir::{Arg, Atom, Base, Disp, Imm, Mem, Name, Reg, Width};

#[tactic(auto, using(crate::proofs::Texts::number_text))]
fn put_number<'a>(out: &mut Fragments<'a>, n: i64)
    requires { array_vec_len out.old + 1 ≤ 48 }
    ensures text { fragments_text out.new.items ≡ fragments_text out.old.items ++ render (number_items n) }
    ensures len { array_vec_len out.new ≤ array_vec_len out.old + 1 }
{
    put(out, Fragment::Number(n));
}

fn put_spec<'a>(out: &mut Fragments<'a>, spec: &'a Option<Name>)
    requires { array_vec_len out.old + 2 ≤ 48 }
    ensures text { fragments_text out.new.items ≡ fragments_text out.old.items ++ render (spec_items spec.now) }
    ensures len { array_vec_len out.new ≤ array_vec_len out.old + 2 }
{
    if let Some(spec) = spec {
        put(out, Fragment::Text(b"@"));
        put(out, Fragment::Text(spec.as_slice()));
    }
}

fn put_offset<'a>(out: &mut Fragments<'a>, offset: i64)
    requires { array_vec_len out.old + 2 ≤ 48 }
    ensures text { fragments_text out.new.items ≡ fragments_text out.old.items ++ render (offset_items offset) }
    ensures len { array_vec_len out.new ≤ array_vec_len out.old + 2 }
{
    if offset > 0 {
        put(out, Fragment::Text(b"+"));
        put_number(out, offset);
    } else if offset < 0 {
        put_number(out, offset);
    }
}

fn put_atom<'a>(out: &mut Fragments<'a>, atom: &'a Atom)
    requires { array_vec_len out.old + 5 ≤ 48 }
    ensures text { fragments_text out.new.items ≡ fragments_text out.old.items ++ render (atom_items atom.now) }
    ensures len { array_vec_len out.new ≤ array_vec_len out.old + 5 }
{
    put(out, Fragment::Text(atom.name.as_slice()));
    put_spec(out, &atom.spec);
    put_offset(out, atom.offset);
}

fn put_imm<'a>(out: &mut Fragments<'a>, imm: &'a Imm)
    requires { array_vec_len out.old + 5 ≤ 48 }
    ensures text { fragments_text out.new.items ≡ fragments_text out.old.items ++ render (imm_items imm.now) }
    ensures len { array_vec_len out.new ≤ array_vec_len out.old + 5 }
{
    match imm {
        Imm::Num(n) => put_number(out, *n),
        Imm::Sym(atom) => put_atom(out, atom.get()),
    }
}

fn put_disp<'a>(out: &mut Fragments<'a>, disp: &'a Disp)
    requires { array_vec_len out.old + 5 ≤ 48 }
    ensures text { fragments_text out.new.items ≡ fragments_text out.old.items ++ render (disp_items disp.now) }
    ensures len { array_vec_len out.new ≤ array_vec_len out.old + 5 }
{
    match disp {
        Disp::Num(n) => put_number(out, *n as i64),
        Disp::Sym(atom) => put_atom(out, atom.get()),
    }
}

// A displacement before a parenthesis: 0 is left out.
fn put_front<'a>(out: &mut Fragments<'a>, disp: &'a Disp)
    requires { array_vec_len out.old + 5 ≤ 48 }
    ensures text { fragments_text out.new.items ≡ fragments_text out.old.items ++ render (front_items disp.now) }
    ensures len { array_vec_len out.new ≤ array_vec_len out.old + 5 }
{
    match disp {
        Disp::Num(0) => {}
        Disp::Num(n) => put_number(out, *n as i64),
        Disp::Sym(atom) => put_atom(out, atom.get()),
    }
}

fn put_index<'a>(out: &mut Fragments<'a>, index: Option<Reg>, scale: u8)
    requires { array_vec_len out.old + 4 ≤ 48 }
    ensures text { fragments_text out.new.items ≡ fragments_text out.old.items ++ render (index_items index scale) }
    ensures len { array_vec_len out.new ≤ array_vec_len out.old + 4 }
{
    if let Some(r) = index {
        put(out, Fragment::Text(b","));
        put(out, Fragment::Text(register_text(Width::Q, r)));
        put(out, Fragment::Text(b","));
        put(out, Fragment::Digits(scale as u64));
    }
}

fn put_base<'a>(out: &mut Fragments<'a>, base: Base)
    requires { array_vec_len out.old + 1 ≤ 48 }
    ensures text { fragments_text out.new.items ≡ fragments_text out.old.items ++ render (base_items base) }
    ensures len { array_vec_len out.new ≤ array_vec_len out.old + 1 }
{
    match base {
        Base::Absent => {}
        Base::Rip => put(out, Fragment::Text(b"%rip")),
        Base::Reg(r) => put(out, Fragment::Text(register_text(Width::Q, r))),
    }
}

fn put_paren<'a>(out: &mut Fragments<'a>, mem: &'a Mem)
    requires { array_vec_len out.old + 7 ≤ 48 }
    ensures text { fragments_text out.new.items ≡ fragments_text out.old.items ++ render (in_parens (base_items mem.now.base ++ index_items mem.now.index mem.now.scale)) }
    ensures len { array_vec_len out.new ≤ array_vec_len out.old + 7 }
{
    put(out, Fragment::Text(b"("));
    put_base(out, mem.base);
    put_index(out, mem.index, mem.scale);
    put(out, Fragment::Text(b")"));
}

fn put_place<'a>(out: &mut Fragments<'a>, mem: &'a Mem)
    requires { array_vec_len out.old + 12 ≤ 48 }
    ensures text { fragments_text out.new.items ≡ fragments_text out.old.items ++ render (place_items mem.now.disp mem.now.base mem.now.index mem.now.scale) }
    ensures len { array_vec_len out.new ≤ array_vec_len out.old + 12 }
{
    match (mem.base, mem.index) {
        (Base::Absent, None) => put_disp(out, &mem.disp),
        (Base::Absent, Some(_)) | (Base::Rip, _) | (Base::Reg(_), _) => {
            put_front(out, &mem.disp);
            put_paren(out, mem);
        }
    }
}

fn put_mem<'a>(out: &mut Fragments<'a>, mem: &'a Mem)
    requires { array_vec_len out.old + 13 ≤ 48 }
    ensures text { fragments_text out.new.items ≡ fragments_text out.old.items ++ render (mem_items mem.now) }
    ensures len { array_vec_len out.new ≤ array_vec_len out.old + 13 }
{
    put_segment(out, mem.fs);
    put_place(out, mem);
}

fn put_segment<'a>(out: &mut Fragments<'a>, fs: bool)
    requires { array_vec_len out.old + 1 ≤ 48 }
    ensures text { fragments_text out.new.items ≡ fragments_text out.old.items ++ render (segment_items fs) }
    ensures len { array_vec_len out.new ≤ array_vec_len out.old + 1 }
{
    if fs {
        put(out, Fragment::Text(b"%fs:"));
    }
}

/// Appends an operand, where a register has a width.
pub(crate) fn put_arg<'a>(out: &mut Fragments<'a>, width: Width, arg: &'a Arg)
    requires { array_vec_len out.old + 13 ≤ 48 }
    ensures text { fragments_text out.new.items ≡ fragments_text out.old.items ++ render (arg_items width arg.now) }
    ensures len { array_vec_len out.new ≤ array_vec_len out.old + 13 }
{
    match arg {
        Arg::Absent => {}
        Arg::Reg(r) => put(out, Fragment::Text(register_text(width, *r))),
        Arg::Imm(imm) => {
            put(out, Fragment::Text(b"$"));
            put_imm(out, imm);
        }
        Arg::Mem(mem) => put_mem(out, mem),
        Arg::Code(atom) => put_atom(out, atom.get()),
    }
}
