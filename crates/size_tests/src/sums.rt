// Sums, comparisons, logic and steps.

use crate::checks::have_sizes;
use std::test::Fail;

const ADD: [(&str, u8); 34] = [
    ("addb $5, %al", 2),
    ("addb $5, %bl", 3),
    ("addb $5, %sil", 4),
    ("addb $-128, (%rdi)", 3),
    ("addb %sil, %al", 3),
    ("addb %al, 2(%r9)", 4),
    ("addb (%r9), %r9b", 3),
    ("addw $5, %ax", 4),
    ("addw $127, %cx", 4),
    ("addw $128, %ax", 4),
    ("addw $300, %cx", 5),
    ("addw $300, 4(%rsp)", 7),
    ("addw %r8w, %ax", 4),
    ("addl $1, %eax", 3),
    ("addl $127, %eax", 3),
    ("addl $128, %eax", 5),
    ("addl $-128, %eax", 3),
    ("addl $-129, %eax", 5),
    ("addl $128, %ecx", 6),
    ("addl $128, %r8d", 7),
    ("addl $1000, (%rdi)", 6),
    ("addl $1, x(%rip)", 7),
    ("addl $x, %eax", 5),
    ("addl $x, %ecx", 6),
    ("addl %edi, %eax", 2),
    ("addl (%rdi,%rsi,4), %eax", 3),
    ("addl %eax, -4(%rbp)", 3),
    ("addq $1, %rax", 4),
    ("addq $128, %rax", 6),
    ("addq $128, %rcx", 7),
    ("addq $-129, %r9", 7),
    ("addq $x, %rax", 6),
    ("addq %rdi, (%r14)", 3),
    ("addq %fs:0, %rax", 9),
];

#[test]
fn additions(rt: HostRuntime) -> Result<(), Fail> {
    have_sizes(&rt, &ADD)
}

const SUMS: [(&str, u8); 38] = [
    ("adcl $0, %edx", 3),
    ("adcq %rcx, %rdx", 3),
    ("adcb $1, %al", 2),
    ("subl $1, %edi", 3),
    ("subl %esi, %edi", 2),
    ("subq $8, %rsp", 4),
    ("subq $136, %rsp", 7),
    ("subw $1, %bp", 4),
    ("sbbl %eax, %eax", 2),
    ("sbbq $0, %rdx", 4),
    ("sbbl $200, %eax", 5),
    ("cmpb $0, (%rax)", 3),
    ("cmpb $10, %al", 2),
    ("cmpb $10, %dil", 4),
    ("cmpw $-1, %ax", 4),
    ("cmpw $1000, %si", 5),
    ("cmpl $2, %edi", 3),
    ("cmpl $255, %eax", 5),
    ("cmpl $255, %edi", 6),
    ("cmpq $-1, %rax", 4),
    ("cmpq %rdi, %rsi", 3),
    ("cmpq x(%rip), %rax", 7),
    ("cmpl $0, 12(%rsp)", 5),
    ("andl $15, %eax", 3),
    ("andl $255, %eax", 5),
    ("andl $255, %ebx", 6),
    ("andq $-16, %rsp", 4),
    ("andb $3, %cl", 3),
    ("orl $1, %eax", 3),
    ("orq $-1, %r10", 4),
    ("orw $4096, %ax", 4),
    ("orb %bpl, %cl", 3),
    ("xorl %eax, %eax", 2),
    ("xorl %r9d, %r9d", 3),
    ("xorq %rax, %rdx", 3),
    ("xorb $1, %al", 2),
    ("xorl $305419896, %eax", 5),
    ("xorl $305419896, %edx", 6),
];

#[test]
fn sums_and_logic(rt: HostRuntime) -> Result<(), Fail> {
    have_sizes(&rt, &SUMS)
}

const TESTS: [(&str, u8); 29] = [
    ("testb %al, %al", 2),
    ("testb $1, %al", 2),
    ("testb $1, %dil", 4),
    ("testb $8, 3(%rbx)", 4),
    ("testw %ax, %ax", 3),
    ("testw $1, %ax", 4),
    ("testw $1, %cx", 5),
    ("testl %edi, %edi", 2),
    ("testl $1, %eax", 5),
    ("testl $1, %ecx", 6),
    ("testl $128, (%rdi)", 6),
    ("testq %rax, %rax", 3),
    ("testq $1, %rax", 6),
    ("testq $1, %r8", 7),
    ("testl %eax, 4(%r12)", 5),
    ("notb %sil", 3),
    ("notw %ax", 3),
    ("notl %eax", 2),
    ("notq (%rdi)", 3),
    ("negb %al", 2),
    ("negl %r8d", 3),
    ("negq %rax", 3),
    ("incl %eax", 2),
    ("incw %cx", 3),
    ("incq x(%rip)", 7),
    ("incb %r8b", 3),
    ("decl 4(%rax)", 3),
    ("decq %r13", 3),
    ("decb (%rdi)", 2),
];

#[test]
fn tests_and_steps(rt: HostRuntime) -> Result<(), Fail> {
    have_sizes(&rt, &TESTS)
}
