// Registers by name.
ghost use Rattle.std.specs.Prelude.{◌≡◌};
ghost use Rattle.insn_ir.specs.declared.op.Width.TheVariants.{B, W, L, Q};
ghost use Rattle.att_grammar.specs.Registers.{register_at, register_named};

use insn_ir::{Reg, Width};

#[tactic(auto, unfolding(att_grammar::specs::Registers::register_at))]
fn quad(name: &[u8]) -> Option<Reg>
    ensures { result ≡ register_at Q name.now }
{
    match name {
        b"rax" => Some(Reg::Rax),
        b"rcx" => Some(Reg::Rcx),
        b"rdx" => Some(Reg::Rdx),
        b"rbx" => Some(Reg::Rbx),
        b"rsp" => Some(Reg::Rsp),
        b"rbp" => Some(Reg::Rbp),
        b"rsi" => Some(Reg::Rsi),
        b"rdi" => Some(Reg::Rdi),
        b"r8" => Some(Reg::R8),
        b"r9" => Some(Reg::R9),
        b"r10" => Some(Reg::R10),
        b"r11" => Some(Reg::R11),
        b"r12" => Some(Reg::R12),
        b"r13" => Some(Reg::R13),
        b"r14" => Some(Reg::R14),
        b"r15" => Some(Reg::R15),
        _ => None,
    }
}

#[tactic(auto, unfolding(att_grammar::specs::Registers::register_at))]
fn long(name: &[u8]) -> Option<Reg>
    ensures { result ≡ register_at L name.now }
{
    match name {
        b"eax" => Some(Reg::Rax),
        b"ecx" => Some(Reg::Rcx),
        b"edx" => Some(Reg::Rdx),
        b"ebx" => Some(Reg::Rbx),
        b"esp" => Some(Reg::Rsp),
        b"ebp" => Some(Reg::Rbp),
        b"esi" => Some(Reg::Rsi),
        b"edi" => Some(Reg::Rdi),
        b"r8d" => Some(Reg::R8),
        b"r9d" => Some(Reg::R9),
        b"r10d" => Some(Reg::R10),
        b"r11d" => Some(Reg::R11),
        b"r12d" => Some(Reg::R12),
        b"r13d" => Some(Reg::R13),
        b"r14d" => Some(Reg::R14),
        b"r15d" => Some(Reg::R15),
        _ => None,
    }
}

#[tactic(auto, unfolding(att_grammar::specs::Registers::register_at))]
fn word(name: &[u8]) -> Option<Reg>
    ensures { result ≡ register_at W name.now }
{
    match name {
        b"ax" => Some(Reg::Rax),
        b"cx" => Some(Reg::Rcx),
        b"dx" => Some(Reg::Rdx),
        b"bx" => Some(Reg::Rbx),
        b"sp" => Some(Reg::Rsp),
        b"bp" => Some(Reg::Rbp),
        b"si" => Some(Reg::Rsi),
        b"di" => Some(Reg::Rdi),
        b"r8w" => Some(Reg::R8),
        b"r9w" => Some(Reg::R9),
        b"r10w" => Some(Reg::R10),
        b"r11w" => Some(Reg::R11),
        b"r12w" => Some(Reg::R12),
        b"r13w" => Some(Reg::R13),
        b"r14w" => Some(Reg::R14),
        b"r15w" => Some(Reg::R15),
        _ => None,
    }
}

#[tactic(auto, unfolding(att_grammar::specs::Registers::register_at))]
fn byte(name: &[u8]) -> Option<Reg>
    ensures { result ≡ register_at B name.now }
{
    match name {
        b"al" => Some(Reg::Rax),
        b"cl" => Some(Reg::Rcx),
        b"dl" => Some(Reg::Rdx),
        b"bl" => Some(Reg::Rbx),
        b"spl" => Some(Reg::Rsp),
        b"bpl" => Some(Reg::Rbp),
        b"sil" => Some(Reg::Rsi),
        b"dil" => Some(Reg::Rdi),
        b"r8b" => Some(Reg::R8),
        b"r9b" => Some(Reg::R9),
        b"r10b" => Some(Reg::R10),
        b"r11b" => Some(Reg::R11),
        b"r12b" => Some(Reg::R12),
        b"r13b" => Some(Reg::R13),
        b"r14b" => Some(Reg::R14),
        b"r15b" => Some(Reg::R15),
        _ => None,
    }
}

/// The register and the width of a name.
#[tactic(auto, unfolding(att_grammar::specs::Registers::register_named))]
pub fn register_named(name: &[u8]) -> Option<(Reg, Width)>
    ensures { result ≡ register_named name.now }
{
    if let Some(r) = quad(name) {
        return Some((r, Width::Q));
    }
    if let Some(r) = long(name) {
        return Some((r, Width::L));
    }
    if let Some(r) = word(name) {
        return Some((r, Width::W));
    }
    Some((byte(name)?, Width::B))
}
