// Registers as they are written.

ghost use Rattle.std.specs.Prelude.{◌≡◌};
ghost use Rattle.att_grammar.specs.Spelling.{render};
ghost use Rattle.att_grammar.specs.Canonical.{register_items};
ghost use Rattle.insn_ir.specs.declared.op.Width.{Width};

use insn_ir::{Reg, Width};

/// `%` and the name of a register at a width.
pub(crate) fn register_text(width: Width, r: Reg) -> &'static [u8]
    ensures { result.now ≡ render (register_items width r) }
{
    match width {
        Width::B => byte_text(r),
        Width::W => word_text(r),
        Width::L => long_text(r),
        Width::Q => quad_text(r),
    }
}

fn byte_text(r: Reg) -> &'static [u8]
    ensures { result.now ≡ render (register_items Width.B r) }
{
    match r {
        Reg::Rax => b"%al",
        Reg::Rcx => b"%cl",
        Reg::Rdx => b"%dl",
        Reg::Rbx => b"%bl",
        Reg::Rsp => b"%spl",
        Reg::Rbp => b"%bpl",
        Reg::Rsi => b"%sil",
        Reg::Rdi => b"%dil",
        Reg::R8 => b"%r8b",
        Reg::R9 => b"%r9b",
        Reg::R10 => b"%r10b",
        Reg::R11 => b"%r11b",
        Reg::R12 => b"%r12b",
        Reg::R13 => b"%r13b",
        Reg::R14 => b"%r14b",
        Reg::R15 => b"%r15b",
    }
}

fn word_text(r: Reg) -> &'static [u8]
    ensures { result.now ≡ render (register_items Width.W r) }
{
    match r {
        Reg::Rax => b"%ax",
        Reg::Rcx => b"%cx",
        Reg::Rdx => b"%dx",
        Reg::Rbx => b"%bx",
        Reg::Rsp => b"%sp",
        Reg::Rbp => b"%bp",
        Reg::Rsi => b"%si",
        Reg::Rdi => b"%di",
        Reg::R8 => b"%r8w",
        Reg::R9 => b"%r9w",
        Reg::R10 => b"%r10w",
        Reg::R11 => b"%r11w",
        Reg::R12 => b"%r12w",
        Reg::R13 => b"%r13w",
        Reg::R14 => b"%r14w",
        Reg::R15 => b"%r15w",
    }
}

fn long_text(r: Reg) -> &'static [u8]
    ensures { result.now ≡ render (register_items Width.L r) }
{
    match r {
        Reg::Rax => b"%eax",
        Reg::Rcx => b"%ecx",
        Reg::Rdx => b"%edx",
        Reg::Rbx => b"%ebx",
        Reg::Rsp => b"%esp",
        Reg::Rbp => b"%ebp",
        Reg::Rsi => b"%esi",
        Reg::Rdi => b"%edi",
        Reg::R8 => b"%r8d",
        Reg::R9 => b"%r9d",
        Reg::R10 => b"%r10d",
        Reg::R11 => b"%r11d",
        Reg::R12 => b"%r12d",
        Reg::R13 => b"%r13d",
        Reg::R14 => b"%r14d",
        Reg::R15 => b"%r15d",
    }
}

fn quad_text(r: Reg) -> &'static [u8]
    ensures { result.now ≡ render (register_items Width.Q r) }
{
    match r {
        Reg::Rax => b"%rax",
        Reg::Rcx => b"%rcx",
        Reg::Rdx => b"%rdx",
        Reg::Rbx => b"%rbx",
        Reg::Rsp => b"%rsp",
        Reg::Rbp => b"%rbp",
        Reg::Rsi => b"%rsi",
        Reg::Rdi => b"%rdi",
        Reg::R8 => b"%r8",
        Reg::R9 => b"%r9",
        Reg::R10 => b"%r10",
        Reg::R11 => b"%r11",
        Reg::R12 => b"%r12",
        Reg::R13 => b"%r13",
        Reg::R14 => b"%r14",
        Reg::R15 => b"%r15",
    }
}
