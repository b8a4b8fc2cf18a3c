use super::*;
use insn_ir::{Arg, Atom, Base, DirectiveKind, Disp, EntryKind, Imm, Insn, Mem, NameList};
use std::alloc::{AllocError, Global};
use std::process::Abort;
use std::test::Fail;

// A name, perhaps with a specifier, and the offset.
fn push_atom(alloc: Global, out: &mut Vec<u8>, atom: &Atom) -> Result<(), AllocError> {
    out.extend_from_slice(atom.name.as_slice())?;
    if let Some(spec) = &atom.spec {
        out.push(b'@')?;
        out.extend_from_slice(spec.as_slice())?;
    }
    let offset = atom.offset;
    out.extend_from_slice(format!(in alloc; "+{offset}")?.as_bytes())
}

fn push_disp(alloc: Global, out: &mut Vec<u8>, disp: &Disp) -> Result<(), AllocError> {
    match disp {
        Disp::Num(n) => out.extend_from_slice(format!(in alloc; "{n}")?.as_bytes()),
        Disp::Sym(atom) => push_atom(alloc, out, atom.get()),
    }
}

// The displacement, and base, index and scale in parentheses, with `-` for what isn't there.
fn push_mem(alloc: Global, out: &mut Vec<u8>, mem: &Mem) -> Result<(), AllocError> {
    if mem.fs {
        out.extend_from_slice(b"fs:")?;
    }
    push_disp(alloc, out, &mem.disp)?;
    match mem.base {
        Base::Absent => out.extend_from_slice(b"(-,")?,
        Base::Rip => out.extend_from_slice(b"(Rip,")?,
        Base::Reg(r) => out.extend_from_slice(format!(in alloc; "({r:?},")?.as_bytes())?,
    }
    match mem.index {
        None => out.extend_from_slice(b"-,")?,
        Some(r) => out.extend_from_slice(format!(in alloc; "{r:?},")?.as_bytes())?,
    }
    let scale = mem.scale;
    out.extend_from_slice(format!(in alloc; "{scale})")?.as_bytes())
}

fn push_imm(alloc: Global, out: &mut Vec<u8>, imm: &Imm) -> Result<(), AllocError> {
    match imm {
        Imm::Num(n) => out.extend_from_slice(format!(in alloc; " ${n}")?.as_bytes()),
        Imm::Sym(atom) => {
            out.extend_from_slice(b" $")?;
            push_atom(alloc, out, atom.get())
        }
    }
}

fn push_arg(alloc: Global, out: &mut Vec<u8>, arg: &Arg) -> Result<(), AllocError> {
    match arg {
        Arg::Absent => Ok(()),
        Arg::Reg(r) => out.extend_from_slice(format!(in alloc; " {r:?}")?.as_bytes()),
        Arg::Imm(imm) => push_imm(alloc, out, imm),
        Arg::Mem(mem) => {
            out.push(b' ')?;
            push_mem(alloc, out, mem)
        }
        Arg::Code(atom) => {
            out.extend_from_slice(b" =")?;
            push_atom(alloc, out, atom.get())
        }
    }
}

fn push_insn(alloc: Global, out: &mut Vec<u8>, insn: &Insn) -> Result<(), AllocError> {
    let (op, width) = (insn.op, insn.width);
    out.extend_from_slice(format!(in alloc; "{op:?} {width:?}")?.as_bytes())?;
    push_arg(alloc, out, &insn.a)?;
    push_arg(alloc, out, &insn.b)?;
    push_arg(alloc, out, &insn.c)
}

fn push_names(out: &mut Vec<u8>, names: &NameList) -> Result<(), AllocError> {
    for name in names.as_slice() {
        out.push(b' ')?;
        out.extend_from_slice(name.as_slice())?;
    }
    Ok(())
}

// A kind in words.
fn push_kind(alloc: Global, out: &mut Vec<u8>, kind: &EntryKind) -> Result<(), AllocError> {
    match kind {
        EntryKind::Blank => out.extend_from_slice(b"blank"),
        EntryKind::InlineMark => out.extend_from_slice(b"mark"),
        EntryKind::Directive(DirectiveKind::Breaking) => out.extend_from_slice(b"breaking"),
        EntryKind::Directive(_) => out.extend_from_slice(b"directive"),
        EntryKind::Insn(insn) => push_insn(alloc, out, insn),
        EntryKind::Label(name) => {
            out.extend_from_slice(b"label ")?;
            out.extend_from_slice(name.as_slice())
        }
        EntryKind::Opaque(names) => {
            out.extend_from_slice(b"opaque")?;
            push_names(out, names)
        }
    }
}

// A line's entry is that of the text in words.
fn reads(rt: &(impl Abort + AllocGlobal), line: &str, words: &str) -> Result<(), Fail> {
    let piece = line.as_bytes();
    assert!(rt; piece.len() < 1 << 32);
    let entry = read_entry(rt.alloc(), piece, 7)?;
    assert_eq!(rt; entry.serial, 7);
    let mut out = Vec::new(rt.alloc());
    push_kind(rt.alloc(), &mut out, &entry.kind)?;
    assert_eq!(rt; out.as_slice(), words.as_bytes(), "{line}");
    Ok(())
}

// The same of each row of a table, a line and its text in words, and how many there are.
fn all_read(rt: &(impl Abort + AllocGlobal), table: &str, count: usize) -> Result<(), Fail> {
    let mut rows: usize = 0;
    for row in table.lines() {
        if let Some((line, words)) = row.split_once(" | ") {
            reads(rt, line, words)?;
            rows = rows.saturating_add(1);
        }
    }
    assert_eq!(rt; rows, count);
    Ok(())
}

// Every operation at its widths and with its operands.
const INSTRUCTIONS: &str = "
movb\t%al, %bl | Mov B Rax Rbx
movb\t%cl, -8(%rbp,%r12,4) | Mov B Rcx -8(Rbp,R12,4)
movb\t-8(%rbp,%r12,4), %cl | Mov B -8(Rbp,R12,4) Rcx
mov -8(%rbp,%r12,4),%cl | Mov B -8(Rbp,R12,4) Rcx
movb\t$-5, %r8b | Mov B $-5 R8
movb\t$0x11, -8(%rbp,%r12,4) | Mov B $17 -8(Rbp,R12,4)
movw\t%bp, %si | Mov W Rbp Rsi
mov %bp,%si | Mov W Rbp Rsi
movw\t%si, -8(%rbp,%r12,4) | Mov W Rsi -8(Rbp,R12,4)
movw\t-8(%rbp,%r12,4), %sp | Mov W -8(Rbp,R12,4) Rsp
movw\t$-5, %r11w | Mov W $-5 R11
mov $-5,%r11w | Mov W $-5 R11
movw\t$0x11, -8(%rbp,%r12,4) | Mov W $17 -8(Rbp,R12,4)
movl\t%r10d, %r9d | Mov L R10 R9
movl\t%r11d, -8(%rbp,%r12,4) | Mov L R11 -8(Rbp,R12,4)
mov %r11d,-8(%rbp,%r12,4) | Mov L R11 -8(Rbp,R12,4)
movl\t-8(%rbp,%r12,4), %edi | Mov L -8(Rbp,R12,4) Rdi
movl\t$-5, %r14d | Mov L $-5 R14
movl\t$0x11, -8(%rbp,%r12,4) | Mov L $17 -8(Rbp,R12,4)
movq\t%r15, %r12 | Mov Q R15 R12
movq\t%rax, -8(%rbp,%r12,4) | Mov Q Rax -8(Rbp,R12,4)
movq\t-8(%rbp,%r12,4), %r10 | Mov Q -8(Rbp,R12,4) R10
mov -8(%rbp,%r12,4),%r10 | Mov Q -8(Rbp,R12,4) R10
movq\t$-5, %rcx | Mov Q $-5 Rcx
movq\t$0x11, -8(%rbp,%r12,4) | Mov Q $17 -8(Rbp,R12,4)
addb\t%spl, %r15b | Add B Rsp R15
add %spl,%r15b | Add B Rsp R15
addb\t%bpl, -8(%rbp,%r12,4) | Add B Rbp -8(Rbp,R12,4)
addb\t-8(%rbp,%r12,4), %r13b | Add B -8(Rbp,R12,4) R13
addb\t$-5, %spl | Add B $-5 Rsp
add $-5,%spl | Add B $-5 Rsp
addb\t$0x11, -8(%rbp,%r12,4) | Add B $17 -8(Rbp,R12,4)
addw\t%r9w, %dx | Add W R9 Rdx
addw\t%r10w, -8(%rbp,%r12,4) | Add W R10 -8(Rbp,R12,4)
add %r10w,-8(%rbp,%r12,4) | Add W R10 -8(Rbp,R12,4)
addw\t-8(%rbp,%r12,4), %ax | Add W -8(Rbp,R12,4) Rax
addw\t$-5, %di | Add W $-5 Rdi
addw\t$0x11, -8(%rbp,%r12,4) | Add W $17 -8(Rbp,R12,4)
addl\t%r14d, %ebp | Add L R14 Rbp
addl\t%r15d, -8(%rbp,%r12,4) | Add L R15 -8(Rbp,R12,4)
addl\t-8(%rbp,%r12,4), %ebx | Add L -8(Rbp,R12,4) Rbx
add -8(%rbp,%r12,4),%ebx | Add L -8(Rbp,R12,4) Rbx
addl\t$-5, %r10d | Add L $-5 R10
addl\t$0x11, -8(%rbp,%r12,4) | Add L $17 -8(Rbp,R12,4)
addq\t%rbx, %r8 | Add Q Rbx R8
add %rbx,%r8 | Add Q Rbx R8
addq\t%rsp, -8(%rbp,%r12,4) | Add Q Rsp -8(Rbp,R12,4)
addq\t-8(%rbp,%r12,4), %rsi | Add Q -8(Rbp,R12,4) Rsi
addq\t$-5, %r13 | Add Q $-5 R13
add $-5,%r13 | Add Q $-5 R13
addq\t$0x11, -8(%rbp,%r12,4) | Add Q $17 -8(Rbp,R12,4)
adcb\t$-5, %r11b | Adc B $-5 R11
adcw\t$0x11, -8(%rbp,%r12,4) | Adc W $17 -8(Rbp,R12,4)
adcl\t%r10d, %r9d | Adc L R10 R9
adcq\t%r11, -8(%rbp,%r12,4) | Adc Q R11 -8(Rbp,R12,4)
subb\t%r12b, %dil | Sub B R12 Rdi
sub %r12b,%dil | Sub B R12 Rdi
subw\t%r13w, -8(%rbp,%r12,4) | Sub W R13 -8(Rbp,R12,4)
subl\t-8(%rbp,%r12,4), %ebp | Sub L -8(Rbp,R12,4) Rbp
subq\t$-5, %r12 | Sub Q $-5 R12
sub $-5,%r12 | Sub Q $-5 R12
sbbb\t%al, -8(%rbp,%r12,4) | Sbb B Rax -8(Rbp,R12,4)
sbbw\t-8(%rbp,%r12,4), %r10w | Sbb W -8(Rbp,R12,4) R10
sbbl\t$-5, %ecx | Sbb L $-5 Rcx
sbb $-5,%ecx | Sbb L $-5 Rcx
sbbq\t$0x11, -8(%rbp,%r12,4) | Sbb Q $17 -8(Rbp,R12,4)
cmpb\t-8(%rbp,%r12,4), %r15b | Cmp B -8(Rbp,R12,4) R15
cmpw\t$-5, %si | Cmp W $-5 Rsi
cmp $-5,%si | Cmp W $-5 Rsi
cmpl\t$0x11, -8(%rbp,%r12,4) | Cmp L $17 -8(Rbp,R12,4)
cmpq\t%rdi, %rsp | Cmp Q Rdi Rsp
andb\t$-5, %r11b | And B $-5 R11
and $-5,%r11b | And B $-5 R11
andw\t$0x11, -8(%rbp,%r12,4) | And W $17 -8(Rbp,R12,4)
andl\t%r10d, %r9d | And L R10 R9
andq\t%r11, -8(%rbp,%r12,4) | And Q R11 -8(Rbp,R12,4)
and %r11,-8(%rbp,%r12,4) | And Q R11 -8(Rbp,R12,4)
orb\t%r12b, -8(%rbp,%r12,4) | Or B R12 -8(Rbp,R12,4)
orw\t-8(%rbp,%r12,4), %r14w | Or W -8(Rbp,R12,4) R14
orl\t$-5, %ebp | Or L $-5 Rbp
or $-5,%ebp | Or L $-5 Rbp
orq\t$0x11, -8(%rbp,%r12,4) | Or Q $17 -8(Rbp,R12,4)
xorb\t$0x11, -8(%rbp,%r12,4) | Xor B $17 -8(Rbp,R12,4)
xorw\t%cx, %r10w | Xor W Rcx R10
xor %cx,%r10w | Xor W Rcx R10
xorl\t%edx, -8(%rbp,%r12,4) | Xor L Rdx -8(Rbp,R12,4)
xorq\t-8(%rbp,%r12,4), %r8 | Xor Q -8(Rbp,R12,4) R8
testb\t%spl, -8(%rbp,%r12,4) | Test B Rsp -8(Rbp,R12,4)
test %spl,-8(%rbp,%r12,4) | Test B Rsp -8(Rbp,R12,4)
testb\t$-5, %sil | Test B $-5 Rsi
testw\t%si, -8(%rbp,%r12,4) | Test W Rsi -8(Rbp,R12,4)
testw\t$-5, %sp | Test W $-5 Rsp
test $-5,%sp | Test W $-5 Rsp
testl\t%r8d, %r11d | Test L R8 R11
testl\t%r9d, -8(%rbp,%r12,4) | Test L R9 -8(Rbp,R12,4)
testl\t$-5, %r9d | Test L $-5 R9
test $-5,%r9d | Test L $-5 R9
testl\t$0x11, -8(%rbp,%r12,4) | Test L $17 -8(Rbp,R12,4)
testq\t%r12, -8(%rbp,%r12,4) | Test Q R12 -8(Rbp,R12,4)
testq\t$-5, %r14 | Test Q $-5 R14
test $-5,%r14 | Test Q $-5 R14
not %r14b | Not B R14
notw -8(%rbp,%r12,4) | Not W -8(Rbp,R12,4)
not %r15d | Not L R15
notq -8(%rbp,%r12,4) | Not Q -8(Rbp,R12,4)
neg %al | Neg B Rax
negw -8(%rbp,%r12,4) | Neg W -8(Rbp,R12,4)
neg %ecx | Neg L Rcx
negq -8(%rbp,%r12,4) | Neg Q -8(Rbp,R12,4)
inc %dl | Inc B Rdx
incw -8(%rbp,%r12,4) | Inc W -8(Rbp,R12,4)
inc %ebx | Inc L Rbx
incq -8(%rbp,%r12,4) | Inc Q -8(Rbp,R12,4)
dec %spl | Dec B Rsp
decw -8(%rbp,%r12,4) | Dec W -8(Rbp,R12,4)
dec %ebp | Dec L Rbp
decq -8(%rbp,%r12,4) | Dec Q -8(Rbp,R12,4)
imull %esi | Imul1 L Rsi
imulq -8(%rbp,%r12,4) | Imul1 Q -8(Rbp,R12,4)
imul %rdi | Imul1 Q Rdi
mull %r8d | Mul L R8
mulq -8(%rbp,%r12,4) | Mul Q -8(Rbp,R12,4)
mul %r9 | Mul Q R9
divl %r10d | Div L R10
divq -8(%rbp,%r12,4) | Div Q -8(Rbp,R12,4)
div %r11 | Div Q R11
idivl %r12d | Idiv L R12
idivq -8(%rbp,%r12,4) | Idiv Q -8(Rbp,R12,4)
idiv %r13 | Idiv Q R13
shll %r14d | Shl L $1 R14
shlq -8(%rbp,%r12,4) | Shl Q $1 -8(Rbp,R12,4)
shl $63, %r15 | Shl Q $63 R15
shll $33, -8(%rbp,%r12,4) | Shl L $33 -8(Rbp,R12,4)
shl %cl, %eax | Shl L Rcx Rax
shlq %cl, -8(%rbp,%r12,4) | Shl Q Rcx -8(Rbp,R12,4)
sall %ecx | Shl L $1 Rcx
salq -8(%rbp,%r12,4) | Shl Q $1 -8(Rbp,R12,4)
sal $63, %rdx | Shl Q $63 Rdx
sall $33, -8(%rbp,%r12,4) | Shl L $33 -8(Rbp,R12,4)
sal %cl, %ebx | Shl L Rcx Rbx
salq %cl, -8(%rbp,%r12,4) | Shl Q Rcx -8(Rbp,R12,4)
shrl %esp | Shr L $1 Rsp
shrq -8(%rbp,%r12,4) | Shr Q $1 -8(Rbp,R12,4)
shr $63, %rbp | Shr Q $63 Rbp
shrl $33, -8(%rbp,%r12,4) | Shr L $33 -8(Rbp,R12,4)
shr %cl, %esi | Shr L Rcx Rsi
shrq %cl, -8(%rbp,%r12,4) | Shr Q Rcx -8(Rbp,R12,4)
sarl %edi | Sar L $1 Rdi
sarq -8(%rbp,%r12,4) | Sar Q $1 -8(Rbp,R12,4)
sar $63, %r8 | Sar Q $63 R8
sarl $33, -8(%rbp,%r12,4) | Sar L $33 -8(Rbp,R12,4)
sar %cl, %r9d | Sar L Rcx R9
sarq %cl, -8(%rbp,%r12,4) | Sar Q Rcx -8(Rbp,R12,4)
movabsq $-1, %rax | Movabs Q $-1 Rax
movabs $0x8000000000000000, %r9 | Movabs Q $-9223372036854775808 R9
mov $2147483648, %rax | Movabs Q $2147483648 Rax
movq $-2147483649, %rax | Movabs Q $-2147483649 Rax
movq $2147483647, %rax | Mov Q $2147483647 Rax
movq $18446744073709551615, %rax | Mov Q $-1 Rax
movl $18446744073709551615, %eax | Mov L $-1 Rax
movb $255, %al | Mov B $-1 Rax
movb $-128, %al | Mov B $-128 Rax
movw $65535, %ax | Mov W $-1 Rax
movl $2147483648, %eax | Mov L $-2147483648 Rax
movl $x, %eax | Mov L $x+0 Rax
movq $x@GOT+8, %rax | Mov Q $x@GOT+8 Rax
movzbw %al, %cx | Movz(B) W Rax Rcx
movzbl (%rdi), %eax | Movz(B) L 0(Rdi,-,1) Rax
movzbq %sil, %rax | Movz(B) Q Rsi Rax
movzwl %ax, %eax | Movz(W) L Rax Rax
movzwq (%rdi), %rax | Movz(W) Q 0(Rdi,-,1) Rax
movsbw (%rdi), %cx | Movs(B) W 0(Rdi,-,1) Rcx
movsbl %dil, %eax | Movs(B) L Rdi Rax
movsbq %r8b, %rax | Movs(B) Q R8 Rax
movswl %ax, %eax | Movs(W) L Rax Rax
movswq %ax, %rax | Movs(W) Q Rax Rax
movslq %edi, %rdi | Movs(L) Q Rdi Rdi
movslq (%rdi), %rdi | Movs(L) Q 0(Rdi,-,1) Rdi
leal 1(%rsi), %eax | Lea L 1(Rsi,-,1) Rax
leaq x(%rip), %rax | Lea Q x+0(Rip,-,1) Rax
lea (,%rdi,8), %rax | Lea Q 0(-,Rdi,8) Rax
push %rax | Push Q Rax
pushq %r15 | Push Q R15
pushq 8(%rdi) | Push Q 8(Rdi,-,1)
pushq $-7 | Push Q $-7
push $sym | Push Q $sym+0
pop %rbp | Pop Q Rbp
popq %r9 | Pop Q R9
leave | Leave Q
leaveq | Leave Q
xchgl %eax, %ecx | Xchg L Rax Rcx
xchg %r8, %rax | Xchg Q R8 Rax
bswapl %eax | Bswap L Rax
bswap %r9 | Bswap Q R9
imull %ecx, %eax | Imul2 L Rcx Rax
imul (%rdi), %rax | Imul2 Q 0(Rdi,-,1) Rax
imull $3, %ecx, %eax | Imul3 L $3 Rcx Rax
imulq $-9, (%rdi), %rax | Imul3 Q $-9 0(Rdi,-,1) Rax
imul $3, %rax | Imul3 Q $3 Rax Rax
cwtl | Cwtl L
cltq | Cltq Q
cltd | Cltd L
cqto | Cqto Q
jmp .L2 | Jmp Q =.L2+0
jmpq f@PLT | Jmp Q =f@PLT+0
jmp .L2@PLT | Jmp Q =.L2@PLT+0
jmp *%rax | JmpStar Q Rax
jmp *.L4(,%rdi,8) | JmpStar Q .L4+0(-,Rdi,8)
jmp *(%rdi) | JmpStar Q 0(Rdi,-,1)
notrack jmp\t*.L4(,%rdi,8) | JmpStarNotrack Q .L4+0(-,Rdi,8)
notrack jmp *%rdi | JmpStarNotrack Q Rdi
call g | Call Q =g+0
callq g@PLT | Call Q =g@PLT+0
call *%rax | CallStar Q Rax
callq *g@GOTPCREL(%rip) | CallStar Q g@GOTPCREL+0(Rip,-,1)
call *%fs:16 | CallStar Q fs:16(-,-,1)
ret | Ret Q
retq | Ret Q
rep ret | RepRet Q
repz ret | RepRet Q
nop | Nop Q
endbr64 | Endbr64 Q
ud2 | Ud2 Q
movq %fs:40, %rax | Mov Q fs:40(-,-,1) Rax
movq %fs:(%rdi), %rax | Mov Q fs:0(Rdi,-,1) Rax
movl x@tpoff+4-12+2(%rax,%rcx), %edx | Mov L x@tpoff+-6(Rax,Rcx,1) Rdx
movl 8+x(%rip), %eax | Mov L x+8(Rip,-,1) Rax
movl +8(%rsp), %eax | Mov L 8(Rsp,-,1) Rax
movl -2147483648(%rsp), %eax | Mov L -2147483648(Rsp,-,1) Rax
movl x, %eax | Mov L x+0(-,-,1) Rax
movl 16, %eax | Mov L 16(-,-,1) Rax
movl foo@.(%rip), %eax | Mov L foo@.+0(Rip,-,1) Rax
movl (,%rdi), %eax | Mov L 0(-,Rdi,1) Rax
movl 0b11(%rsp), %eax | Mov L 3(Rsp,-,1) Rax
movq $1-2, %rax # c | Mov Q $-1 Rax
movl $9223372036854775808-9223372036854775809, %eax | Mov L $-1 Rax
jo .L2 | Jcc(O) Q =.L2+0
seto %al | Setcc(O) B Rax
cmovo %ecx, %eax | Cmov(O) L Rcx Rax
cmovoq (%rdi), %rax | Cmov(O) Q 0(Rdi,-,1) Rax
jno .L2 | Jcc(No) Q =.L2+0
setno %al | Setcc(No) B Rax
cmovno %ecx, %eax | Cmov(No) L Rcx Rax
cmovnoq (%rdi), %rax | Cmov(No) Q 0(Rdi,-,1) Rax
jb .L2 | Jcc(B) Q =.L2+0
jc .L2 | Jcc(B) Q =.L2+0
jnae .L2 | Jcc(B) Q =.L2+0
setnae %al | Setcc(B) B Rax
cmovb %ecx, %eax | Cmov(B) L Rcx Rax
cmovnaeq (%rdi), %rax | Cmov(B) Q 0(Rdi,-,1) Rax
jae .L2 | Jcc(Ae) Q =.L2+0
jnb .L2 | Jcc(Ae) Q =.L2+0
jnc .L2 | Jcc(Ae) Q =.L2+0
setnc %al | Setcc(Ae) B Rax
cmovae %ecx, %eax | Cmov(Ae) L Rcx Rax
cmovncq (%rdi), %rax | Cmov(Ae) Q 0(Rdi,-,1) Rax
je .L2 | Jcc(E) Q =.L2+0
jz .L2 | Jcc(E) Q =.L2+0
setz %al | Setcc(E) B Rax
cmove %ecx, %eax | Cmov(E) L Rcx Rax
cmovzq (%rdi), %rax | Cmov(E) Q 0(Rdi,-,1) Rax
jne .L2 | Jcc(Ne) Q =.L2+0
jnz .L2 | Jcc(Ne) Q =.L2+0
setnz %al | Setcc(Ne) B Rax
cmovne %ecx, %eax | Cmov(Ne) L Rcx Rax
cmovnzq (%rdi), %rax | Cmov(Ne) Q 0(Rdi,-,1) Rax
jbe .L2 | Jcc(Be) Q =.L2+0
jna .L2 | Jcc(Be) Q =.L2+0
setna %al | Setcc(Be) B Rax
cmovbe %ecx, %eax | Cmov(Be) L Rcx Rax
cmovnaq (%rdi), %rax | Cmov(Be) Q 0(Rdi,-,1) Rax
ja .L2 | Jcc(A) Q =.L2+0
jnbe .L2 | Jcc(A) Q =.L2+0
setnbe %al | Setcc(A) B Rax
cmova %ecx, %eax | Cmov(A) L Rcx Rax
cmovnbeq (%rdi), %rax | Cmov(A) Q 0(Rdi,-,1) Rax
js .L2 | Jcc(S) Q =.L2+0
sets %al | Setcc(S) B Rax
cmovs %ecx, %eax | Cmov(S) L Rcx Rax
cmovsq (%rdi), %rax | Cmov(S) Q 0(Rdi,-,1) Rax
jns .L2 | Jcc(Ns) Q =.L2+0
setns %al | Setcc(Ns) B Rax
cmovns %ecx, %eax | Cmov(Ns) L Rcx Rax
cmovnsq (%rdi), %rax | Cmov(Ns) Q 0(Rdi,-,1) Rax
jp .L2 | Jcc(P) Q =.L2+0
jpe .L2 | Jcc(P) Q =.L2+0
setpe %al | Setcc(P) B Rax
cmovp %ecx, %eax | Cmov(P) L Rcx Rax
cmovpeq (%rdi), %rax | Cmov(P) Q 0(Rdi,-,1) Rax
jnp .L2 | Jcc(Np) Q =.L2+0
jpo .L2 | Jcc(Np) Q =.L2+0
setpo %al | Setcc(Np) B Rax
cmovnp %ecx, %eax | Cmov(Np) L Rcx Rax
cmovpoq (%rdi), %rax | Cmov(Np) Q 0(Rdi,-,1) Rax
jl .L2 | Jcc(L) Q =.L2+0
jnge .L2 | Jcc(L) Q =.L2+0
setnge %al | Setcc(L) B Rax
cmovl %ecx, %eax | Cmov(L) L Rcx Rax
cmovngeq (%rdi), %rax | Cmov(L) Q 0(Rdi,-,1) Rax
jge .L2 | Jcc(Ge) Q =.L2+0
jnl .L2 | Jcc(Ge) Q =.L2+0
setnl %al | Setcc(Ge) B Rax
cmovge %ecx, %eax | Cmov(Ge) L Rcx Rax
cmovnlq (%rdi), %rax | Cmov(Ge) Q 0(Rdi,-,1) Rax
jle .L2 | Jcc(Le) Q =.L2+0
jng .L2 | Jcc(Le) Q =.L2+0
setng %al | Setcc(Le) B Rax
cmovle %ecx, %eax | Cmov(Le) L Rcx Rax
cmovngq (%rdi), %rax | Cmov(Le) Q 0(Rdi,-,1) Rax
jg .L2 | Jcc(G) Q =.L2+0
jnle .L2 | Jcc(G) Q =.L2+0
setnle %al | Setcc(G) B Rax
cmovg %ecx, %eax | Cmov(G) L Rcx Rax
cmovnleq (%rdi), %rax | Cmov(G) Q 0(Rdi,-,1) Rax
setg (%rdi) | Setcc(G) B 0(Rdi,-,1)
";

// What is no instruction of the profile.
const OPAQUE: &str = "
addsd %xmm1, %xmm0 | opaque addsd xmm1 xmm0
vaddps %ymm0, %ymm1, %ymm2 | opaque vaddps ymm0 ymm1 ymm2
fldl (%rax) | opaque fldl rax
fadd %st | opaque fadd st
movss (%rax), %xmm0 | opaque movss rax xmm0
movsb | opaque movsb
movsl | opaque movsl
stosq | opaque stosq
rep movsb | opaque rep movsb
rep stosq | opaque rep stosq
repz | opaque repz
rep | opaque rep
notrack | opaque notrack
lock addl $1, (%rax) | opaque lock addl rax
mfence | opaque mfence
lfence | opaque lfence
roll $1, %eax | opaque roll eax
rorq %cl, %rax | opaque rorq cl rax
rcll %eax | opaque rcll eax
bsfl %eax, %ecx | opaque bsfl eax ecx
bsrq %rax, %rcx | opaque bsrq rax rcx
tzcntl %eax, %ecx | opaque tzcntl eax ecx
shldl $1, %eax, %ecx | opaque shldl eax ecx
shrdl $1, %eax, %ecx | opaque shrdl eax ecx
cbtw | opaque cbtw
cwtd | opaque cwtd
syscall | opaque syscall
int3 | opaque int3
movb %ah, %al | opaque movb ah al
movb %al, %ch | opaque movb al ch
movl (%eax), %eax | opaque movl eax eax
movl (%rax,%ecx), %eax | opaque movl rax ecx eax
ret $8 | opaque ret
popq (%rax) | opaque popq rax
pop %rsp | opaque pop rsp
popq %rsp | opaque popq rsp
xchgl %eax, (%rdx) | opaque xchgl eax rdx
xchgl %eax, %eax | opaque xchgl eax eax
xchgb %al, %cl | opaque xchgb al cl
xchgw %ax, %cx | opaque xchgw ax cx
shlb $1, %al | opaque shlb al
sarw $1, %ax | opaque sarw ax
shlb %al | opaque shlb al
nopw 0(%rax) | opaque nopw rax
nopl (%rax) | opaque nopl rax
nop %eax | opaque nop eax
movq %gs:0, %rax | opaque movq gs rax
movq %ds:0, %rax | opaque movq ds rax
testl (%rdi), %eax | opaque testl rdi eax
testl %eax, $1 | opaque testl eax
shl %cl, (%rdi) | opaque shl cl rdi
shl %cl | opaque shl cl
shl (%rdi) | opaque shl rdi
add $1, (%rdi) | opaque add rdi
addl %eax, %rbx | opaque addl eax rbx
add %eax, %rbx | opaque add eax rbx
movl %eax, %rax | opaque movl eax rax
movl (%rax), (%rdx) | opaque movl rax rdx
addl (%rax), (%rdx) | opaque addl rax rdx
pushq (%rax), (%rdx) | opaque pushq rax rdx
shll $32, %eax | opaque shll eax
shlq $64, %rax | opaque shlq rax
shlq $128, %rax | opaque shlq rax
shll $256, %eax | opaque shll eax
shll $-1, %eax | opaque shll eax
shll $x, %eax | opaque shll x eax
shll %ecx, %eax | opaque shll ecx eax
movl 08(%rsp), %eax | opaque movl rsp eax
movl 0x(%rsp), %eax | opaque movl rsp eax
jmpq *%rax | opaque jmpq rax
notrack jmpq *%rax | opaque notrack jmpq rax
notrack jmp .L2 | opaque notrack jmp .L2
notrack call *%rax | opaque notrack call rax
rep retq | opaque rep retq
rep ret $8 | opaque rep ret
repne ret | opaque repne ret
je *%rax | opaque je rax
jmp *%eax | opaque jmp eax
call *%ax | opaque call ax
jmp *$8 | opaque jmp
movabsq $x, %rax | opaque movabsq x rax
movabsq $1, %eax | opaque movabsq eax
movabsq $1, (%rax) | opaque movabsq rax
movq $4294967295, (%rax) | opaque movq rax
addq $2147483648, %rax | opaque addq rax
pushq $2147483648 | opaque pushq
movb $256, %al | opaque movb al
movb $-129, %al | opaque movb al
movw $65536, %ax | opaque movw ax
movl $4294967296, %eax | opaque movl eax
movl $-2147483649, %eax | opaque movl eax
movb $x, %al | opaque movb x al
movw $x, %ax | opaque movw x ax
movl $18446744073709551616, %eax | opaque movl eax
movl $18446744073709551615+1, %eax | opaque movl eax
movq $-9223372036854775809, %rax | opaque movq rax
leaw (%rax), %ax | opaque leaw rax ax
leab (%rax), %al | opaque leab rax al
leaq %fs:8, %rax | opaque leaq fs rax
leaq %rax, %rcx | opaque leaq rax rcx
movq %fs:x(%rip), %rax | opaque movq fs x rip rax
movl (%rip), %eax | opaque movl rip eax
movl 8(%rip), %eax | opaque movl rip eax
movl x(%rip,%rax), %eax | opaque movl x rip rax eax
movl (%rax,%rip), %eax | opaque movl rax rip eax
movl (%rax,%rsp), %ecx | opaque movl rax rsp ecx
movl (,%rsp,2), %ecx | opaque movl rsp ecx
movl (%rax,%rcx,3), %edx | opaque movl rax rcx edx
movl (%rax,%rcx,0), %edx | opaque movl rax rcx edx
movl (%rax,,2), %edx | opaque movl rax edx
movl (%rax,), %ecx | opaque movl rax ecx
movl (%rax,%rcx,), %edx | opaque movl rax rcx edx
movl (), %eax | opaque movl eax
movl (%rax, %eax | opaque movl rax eax
movl 2147483648(%rax), %ecx | opaque movl rax ecx
movl -2147483649(%rax), %ecx | opaque movl rax ecx
movl a-b, %eax | opaque movl a b eax
movl a+b, %eax | opaque movl a b eax
movl -a, %eax | opaque movl a eax
movl .+4, %eax | opaque movl . eax
movl 1++2, %eax | opaque movl eax
movl 1+, %eax | opaque movl eax
movl %fs:, %eax | opaque movl fs eax
jmp +f | opaque jmp f
jmp f+4 | opaque jmp f
jmp f+0 | opaque jmp f
jmp . | opaque jmp .
jmp 8 | opaque jmp
jmp | opaque jmp
jmp .L2, .L3 | opaque jmp .L2 .L3
call f-1 | opaque call f
call | opaque call
bswapw %ax | opaque bswapw ax
bswapl (%rax) | opaque bswapl rax
imulb %cl | opaque imulb cl
imulw $3, %ax | opaque imulw ax
imull $3, (%rax) | opaque imull rax
imull $3, %eax, (%rdx) | opaque imull eax rdx
imull %eax, %ecx, %edx | opaque imull eax ecx edx
mulb %al | opaque mulb al
divw %ax | opaque divw ax
cmovbb %al, %cl | opaque cmovbb al cl
cmovew %ax, %cx | opaque cmovew ax cx
cmovel %eax, (%rcx) | opaque cmovel eax rcx
cmovexl %eax, %ecx | opaque cmovexl eax ecx
sete %eax | opaque sete eax
setel %al | opaque setel al
movzbl %eax, %ecx | opaque movzbl eax ecx
movzbl %al, %cl | opaque movzbl al cl
movzx %al, %ecx | opaque movzx al ecx
movslq %ax, %rcx | opaque movslq ax rcx
movslq (%rax), %ecx | opaque movslq rax ecx
pushl %eax | opaque pushl eax
push %eax | opaque push eax
pushw %ax | opaque pushw ax
push %ax | opaque push ax
pushb $1 | opaque pushb
leavel | opaque leavel
leave %rax | opaque leave rax
retl | opaque retl
jmpl .L2 | opaque jmpl .L2
cltq %rax | opaque cltq rax
cwtl %eax | opaque cwtl eax
endbr32 | opaque endbr32
ud2a | opaque ud2a
ud1 | opaque ud1
mov %eax | opaque mov eax
mov | opaque mov
movl %eax | opaque movl eax
movl %eax, $5 | opaque movl eax
movl $5, $6 | opaque movl
movl %eax, %ecx, %edx | opaque movl eax ecx edx
movl %eax %ecx | opaque movl eax ecx
movl %eax, %ecx, | opaque movl eax ecx
movl , %ecx | opaque movl ecx
movl %rip, %eax | opaque movl rip eax
movl %zax, %eax | opaque movl zax eax
movl %, %eax | opaque movl eax
movl $, %eax | opaque movl eax
addl $1 | opaque addl
decl | opaque decl
MOVL %eax, %ecx | opaque MOVL eax ecx
cpuid | opaque cpuid
bt %eax, %ecx | opaque bt eax ecx
";

#[test]
fn reads_instructions(rt: HostRuntime) -> Result<(), Fail> {
    all_read(&rt, INSTRUCTIONS, 315)?;
    all_read(&rt, OPAQUE, 184)
}

#[test]
fn reads_entries(rt: HostRuntime) -> Result<(), Fail> {
    for (line, words) in [
        ("", "blank"),
        (" \t\r", "blank"),
        ("\t# nop\n", "blank"),
        ("\n", "blank"),
        ("f:", "label f"),
        ("  .L2:", "label .L2"),
        ("1:", "opaque"),
        ("#APP", "mark"),
        ("\t#NO_APP\n", "mark"),
        ("#APP1", "blank"),
        ("x#APP", "opaque x"),
        ("x = 5", "breaking"),
        (".x = 5", "breaking"),
        ("mov = 1", "breaking"),
        ("\t.text\n", "directive"),
        ("\t.org 8", "breaking"),
        ("\tnop;", "Nop Q"),
        ("f: nop", "opaque f nop"),
        ("$5", "opaque"),
        ("\"a\"", "opaque"),
        ("\tsall %eax", "Shl L $1 Rax"),
        ("\tleal (%rdi,%rsi), %eax", "Lea L 0(Rdi,Rsi,1) Rax"),
        ("\tcmovl %ecx, %eax", "Cmov(L) L Rcx Rax"),
        ("\tmovq $4294967295, %rax", "Movabs Q $4294967295 Rax"),
        ("\taddl $4294967295, %eax", "Add L $-1 Rax"),
        ("\timull $3, %eax", "Imul3 L $3 Rax Rax"),
        ("\tmovl -0x8(%rbp), %eax", "Mov L -8(Rbp,-,1) Rax"),
        ("\tmovl 010(%rsp), %eax", "Mov L 8(Rsp,-,1) Rax"),
        ("\tmovl 08(%rsp), %eax", "opaque movl rsp eax"),
        ("\tjc .L2", "Jcc(B) Q =.L2+0"),
        ("\tpush %rax", "Push Q Rax"),
        ("\tcallq g", "Call Q =g+0"),
        ("\tshll $32, %eax", "opaque shll eax"),
        ("\tpop %rsp", "opaque pop rsp"),
        ("\tmovl (%rax), (%rdx)", "opaque movl rax rdx"),
    ] {
        reads(&rt, line, words)?;
    }
    Ok(())
}
