// Shifts, products, conditions and control.

use crate::checks::have_sizes;
use std::test::Fail;

const SHIFTS: [(&str, u8); 32] = [
    ("shll $1, %eax", 2),
    ("shll $2, %eax", 3),
    ("shll $33, %eax", 3),
    ("shll %cl, %eax", 2),
    ("shlq $1, %r8", 3),
    ("shlq $63, %rax", 4),
    ("shlq %cl, (%rdi)", 3),
    ("shrl $31, %r9d", 4),
    ("shrl $1, (%rsp)", 3),
    ("shrq $3, %rdi", 4),
    ("sarl $31, %edx", 3),
    ("sarq %cl, %rdx", 3),
    ("sarq $1, %rdx", 3),
    ("sarl $4, x(%rip)", 7),
    ("imull %ecx", 2),
    ("imulq %rdi", 3),
    ("mull %r8d", 3),
    ("mulq (%rdi)", 3),
    ("divl %ecx", 2),
    ("divq 8(%rsp)", 5),
    ("idivl %esi", 2),
    ("idivq %r9", 3),
    ("imull %ecx, %eax", 3),
    ("imulq (%rdi), %rax", 4),
    ("imulq %r8, %r9", 4),
    ("imull $3, %eax, %eax", 3),
    ("imull $127, %edi, %eax", 3),
    ("imull $128, %edi, %eax", 6),
    ("imull $1000, %r8d, %eax", 7),
    ("imulq $24, %rdi, %rax", 4),
    ("imulq $-129, 8(%rbp), %r10", 8),
    ("imull $x, %edi, %eax", 6),
];

#[test]
fn shifts_and_products(rt: HostRuntime) -> Result<(), Fail> {
    have_sizes(&rt, &SHIFTS)
}

const CHOICES: [(&str, u8); 19] = [
    ("sete %al", 3),
    ("setne %sil", 4),
    ("setl %r8b", 4),
    ("seta (%rdi)", 3),
    ("setbe 1(%rsp)", 5),
    ("cmovel %ecx, %eax", 3),
    ("cmovneq %rdi, %rax", 4),
    ("cmovsl (%rdi), %r8d", 4),
    ("cmovgeq x(%rip), %rax", 8),
    ("cmovll %r9d, %eax", 4),
    ("cwtl", 1),
    ("cltq", 2),
    ("cltd", 1),
    ("cqto", 2),
    ("nop", 1),
    ("ret", 1),
    ("rep ret", 2),
    ("endbr64", 4),
    ("ud2", 2),
];

#[test]
fn conditions_and_extensions(rt: HostRuntime) -> Result<(), Fail> {
    have_sizes(&rt, &CHOICES)
}

const CONTROL: [(&str, u8); 15] = [
    ("call g", 5),
    ("call g@PLT", 5),
    ("call *%rax", 2),
    ("call *%r12", 3),
    ("call *8(%rax)", 3),
    ("call *g@GOTPCREL(%rip)", 6),
    ("call *(%r13)", 4),
    ("jmp *%rax", 2),
    ("jmp *%r11", 3),
    ("jmp *.L4(,%rdi,8)", 7),
    ("jmp *(%rsp)", 3),
    ("jmp *g@GOTPCREL(%rip)", 6),
    ("notrack jmp *%rax", 3),
    ("notrack jmp *.L4(,%rdi,8)", 8),
    ("notrack jmp *%r8", 4),
];

#[test]
fn calls_and_indirect_jumps(rt: HostRuntime) -> Result<(), Fail> {
    have_sizes(&rt, &CONTROL)
}
