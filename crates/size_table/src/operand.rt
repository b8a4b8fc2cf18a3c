// The bytes of operands.

ghost use Rattle.std.specs.Prelude.{◌≡◌, ◌≤◌};
ghost use Rattle.size_table.specs.Operands.{fits_byte, needs_sib, needs_disp, sib_size, based_size, disp_size, mem_size, rm_size, either_size, imm_size, is_small, is_acc};

use insn_ir::{Arg, Base, Disp, Imm, Mem, Reg, Width};

/// Whether a number is a signed one of 8 bits.
fn fits_byte(n: i64) -> bool
    ensures { result ≡ fits_byte n }
{
    -128 <= n && n <= 127
}

fn needs_sib(base: Reg) -> bool
    ensures { result ≡ needs_sib base }
{
    matches!(base, Reg::Rsp | Reg::R12)
}

fn needs_disp(base: Reg) -> bool
    ensures { result ≡ needs_disp base }
{
    matches!(base, Reg::Rbp | Reg::R13)
}

fn sib_size(base: Base, index: Option<Reg>) -> u8
    ensures size { result ≡ sib_size base index }
    ensures most { result ≤ 1 }
{
    match (base, index) {
        (Base::Absent, _) => 1,
        (Base::Rip, _) => 0,
        (Base::Reg(base), None) => u8::from(needs_sib(base)),
        (Base::Reg(_), Some(_)) => 1,
    }
}

fn based_size(base: Reg, disp: &Disp) -> u8
    ensures size { result ≡ based_size base disp.now }
    ensures most { result ≤ 4 }
{
    match disp {
        Disp::Num(0) if !needs_disp(base) => 0,
        Disp::Num(n) if fits_byte(i64::from(*n)) => 1,
        Disp::Num(_) | Disp::Sym(_) => 4,
    }
}

fn disp_size(base: Base, disp: &Disp) -> u8
    ensures size { result ≡ disp_size base disp.now }
    ensures most { result ≤ 4 }
{
    match base {
        Base::Absent | Base::Rip => 4,
        Base::Reg(base) => based_size(base, disp),
    }
}

/// ModRM, SIB and displacement of a memory operand.
pub(crate) fn mem_size(mem: &Mem) -> u8
    ensures size { result ≡ mem_size mem.now }
    ensures most { result ≤ 6 }
{
    1 + sib_size(mem.base, mem.index) + disp_size(mem.base, &mem.disp)
}

/// ModRM, SIB and displacement of an operand.
pub(crate) fn rm_size(arg: &Arg) -> u8
    ensures size { result ≡ rm_size arg.now }
    ensures most { result ≤ 6 }
{
    match arg {
        Arg::Mem(mem) => mem_size(mem),
        Arg::Absent | Arg::Reg(_) | Arg::Imm(_) | Arg::Code(_) => 1,
    }
}

/// ModRM, SIB and displacement of two operands of which one at most is memory.
pub(crate) fn either_size(a: &Arg, b: &Arg) -> u8
    ensures size { result ≡ either_size a.now b.now }
    ensures most { result ≤ 6 }
{
    match a {
        Arg::Mem(mem) => mem_size(mem),
        Arg::Absent | Arg::Reg(_) | Arg::Imm(_) | Arg::Code(_) => rm_size(b),
    }
}

/// An immediate of a width.
pub(crate) fn imm_size(width: Width) -> u8
    ensures size { result ≡ imm_size width }
    ensures most { result ≤ 4 }
{
    match width {
        Width::B => 1,
        Width::W => 2,
        Width::L | Width::Q => 4,
    }
}

/// Whether an immediate of 8 bits can hold it.
pub(crate) fn is_small(imm: &Imm) -> bool
    ensures { result ≡ is_small imm.now }
{
    match imm {
        Imm::Num(n) => fits_byte(*n),
        Imm::Sym(_) => false,
    }
}

/// Whether an operand is al, ax, eax or rax.
pub(crate) fn is_acc(arg: &Arg) -> bool
    ensures { result ≡ is_acc arg.now }
{
    matches!(arg, Arg::Reg(Reg::Rax))
}
