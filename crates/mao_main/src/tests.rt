ghost use Rattle.pass_script.specs.declared.kinds.PassKind.{PassKind};

use asm_unit::AsmUnit;
use asm_writer::{directive_text, insn_text};
use att_reader::read_entry;
use insn_ir::{DirectiveKind, EntryKind};
use mao_core::{Goal, GoalKind, GoalList, Report, Status, mao};
use mao_outside::{MemSink, MemSource};
use pass_base::{Pass, PassBook, PassTally};
use pass_drops::{NopIn, NopKill};
use pass_script::{PassKind, PassOpts};
use std::alloc::{AllocError, AllocGlobal, Global};
use std::boxed::Box;
use std::process::Abort;
use std::test::Fail;
use unit_edits::Journal;

const COMMAND: [&str; 2] = ["mao", "--mao=NOPKILL"];

const WITH_NOPS: &[u8; 120] =
    b"\t.text\n\t.p2align 4\n\t.type f, @function\nf:\n\tmovl $1, %eax\n\tnop\n\tje .L2\n\taddq $-1, %rax\n\tnop\n.L2:\n\tnop\n\tret\n\t.size f, .-f\n";

const WITHOUT_NOPS: &[u8; 105] =
    b"\t.text\n\t.p2align 4\n\t.type f, @function\nf:\n\tmovl $1, %eax\n\tje .L2\n\taddq $-1, %rax\n.L2:\n\tret\n\t.size f, .-f\n";

// What a run came to: its status, how many parts its journal has, and what each sink took.
#[derive(Drop)]
struct Outcome {
    status: Status,
    parts: usize,
    taken: Vec<u8>,
    noted: Vec<u8>,
}

// Runs the command by a book of its own.
fn run_by_boxes(
    rt: &(impl Abort + AllocGlobal),
    words: &[&str],
    source: &mut MemSource,
    out: &mut MemSink,
    notes: &mut MemSink,
) -> Result<Report, Fail> {
    let mut boxes: Vec<Box<dyn Pass>> = Vec::new(rt.alloc());
    boxes.push(Box::new(rt.alloc(), NopIn::new())?)?;
    boxes.push(Box::new(rt.alloc(), NopKill::new())?)?;
    let mut book = PassBook::new(boxes).expect(rt, "a box for each kind of the catalogue");
    Ok(mao(rt.alloc(), words, source, out, notes, &mut book))
}

fn outcome_by(
    rt: &(impl Abort + AllocGlobal),
    words: &[&str],
    text: &[u8],
) -> Result<Outcome, Fail> {
    let mut source = MemSource::new(text.to_vec(rt.alloc())?, 1000, Vec::new(rt.alloc()));
    let mut out = MemSink::new(rt.alloc(), 2000, 64, Vec::new(rt.alloc()))?;
    let mut notes = MemSink::new(rt.alloc(), 1000, 64, Vec::new(rt.alloc()))?;
    let report = run_by_boxes(rt, words, &mut source, &mut out, &mut notes)?;
    Ok(Outcome {
        status: report.status,
        parts: report.journal.parts().len(),
        taken: out.taken().to_vec(rt.alloc())?,
        noted: notes.taken().to_vec(rt.alloc())?,
    })
}

fn filtered(rt: &(impl Abort + AllocGlobal), text: &[u8]) -> Result<Outcome, Fail> {
    outcome_by(rt, &COMMAND, text)
}

// A run, with its words: the text, what is written, and the notes.
fn check_runs(
    rt: &(impl Abort + AllocGlobal),
    cases: &[(&[&str], &[u8], &[u8], &[u8])],
) -> Result<(), Fail> {
    for (words, text, wanted, noted) in cases {
        let outcome = outcome_by(rt, words, text)?;
        assert_eq!(rt; outcome.status, Status::Fine);
        assert_eq!(rt; outcome.taken.as_slice(), *wanted);
        assert_eq!(rt; outcome.noted.as_slice(), *noted);
    }
    Ok(())
}

#[test]
fn nops_of_clear_functions_go(rt: HostRuntime) -> Result<(), Fail> {
    let words: &[&str] = &["mao", "--mao=NOPKILL", "--journal"];
    check_runs(
        &rt,
        &[
            (
                words,
                WITH_NOPS,
                WITHOUT_NOPS,
                b"step 1 NOPKILL: 3 edits\nedit 1 f remove 7\nedit 1 f remove 10\nedit 1 f remove 13\n",
            ),
            (
                words,
                b"\t.text\n\t.p2align 4\n\t.type f, @function\nf:\n\tnop; nop; ret\n\t.size f, .-f\n",
                b"\t.text\n\t.p2align 4\n\t.type f, @function\nf:\n ret\n\t.size f, .-f\n",
                b"step 1 NOPKILL: 2 edits\nedit 1 f remove 6\nedit 1 f remove 7\n",
            ),
            (
                words,
                b".text\r\n.type f,@function\r\nf: nop\r\n\tret\r\n.size f,.-f",
                b".text\r\n.type f,@function\r\nf:\tret\r\n.size f,.-f",
                b"step 1 NOPKILL: 1 edits\nedit 1 f remove 4\n",
            ),
            (
                words,
                b".text\n.type f,@function\nf: nop\njmp f\n.size f,.-f\n",
                b".text\n.type f,@function\nf:jmp f\n.size f,.-f\n",
                b"step 1 NOPKILL: 1 edits\nedit 1 f remove 4\n",
            ),
            (words, b"", b"", b"step 1 NOPKILL: 0 edits\n"),
            (words, b"\tnop\n", b"\tnop\n", b"step 1 NOPKILL: 0 edits\n"),
        ],
    )
}

const FOUR_PLACES: &[u8] =
    b"\t.text\n\t.p2align 4\n\t.type f, @function\nf:\n\tmovl $1, %eax\n\tmovl $2, %ecx\n\tmovl $3, %edx\n\tret\n\t.size f, .-f\n";

#[test]
fn nops_come_by_the_draws(rt: HostRuntime) -> Result<(), Fail> {
    check_runs(
        &rt,
        &[
            (
                &["mao", "--mao=NOPIN=seed[42],density[50]", "--journal"],
                b"\t.text\n\t.p2align 4\n\t.type f, @function\nf:\n\tnop\n\tret\n\t.size f, .-f\n",
                b"\t.text\n\t.p2align 4\n\t.type f, @function\nf:\n\tnop\n\tret\n\t.size f, .-f\n",
                b"step 1 NOPIN: 0 edits\n",
            ),
            (
                &["mao", "--mao=NOPIN=seed[42],density[50]", "--journal"],
                FOUR_PLACES,
                b"\t.text\n\t.p2align 4\n\t.type f, @function\nf:\n\tmovl $1, %eax\n\tmovl $2, %ecx\n\tnop\n\tmovl $3, %edx\n\tret\n\t.size f, .-f\n",
                b"step 1 NOPIN: 1 edits\nedit 1 f nop 8 11\n",
            ),
        ],
    )
}

#[test]
fn steps_work_on_what_the_steps_before_left(rt: HostRuntime) -> Result<(), Fail> {
    check_runs(
        &rt,
        &[
            (
                &[
                    "mao",
                    "--journal",
                    "--mao=NOPIN=seed[42],density[50]:NOPKILL",
                ],
                FOUR_PLACES,
                FOUR_PLACES,
                b"step 1 NOPIN: 1 edits\nstep 2 NOPKILL: 1 edits\nedit 1 f nop 8 11\nedit 2 f remove 11\n",
            ),
            (&["mao"], WITH_NOPS, WITH_NOPS, b""),
            (
                &["mao", "--mao=NOPKILL:NOPKILL"],
                WITH_NOPS,
                WITHOUT_NOPS,
                b"step 1 NOPKILL: 3 edits\nstep 2 NOPKILL: 0 edits\n",
            ),
            (
                &["mao", "--mao=NOPKILL=align[1]"],
                b"\t.text\n\t.p2align 4\n\t.type f, @function\nf:\n\t.p2align 3\n\tret\n\t.size f, .-f\n",
                b"\t.text\n\t.p2align 4\n\t.type f, @function\nf:\n\tret\n\t.size f, .-f\n",
                b"step 1 NOPKILL: 1 edits\n",
            ),
        ],
    )
}

// A file of one function, which is kept as it is, and the line that says why.
const KEPT: [(&[u8], &[u8]); 9] = [
    (
        b"\t.text\n\t.p2align 4\n\t.type f, @function\nf:\n\taddsd %xmm1, %xmm0\n\tnop\n\tret\n\t.size f, .-f\n",
        b"f unchanged: unknown line, line 5\n",
    ),
    (
        b"\t.text\n\t.p2align 4\n\t.type f, @function\nf:\n\tleaq .L2(%rip), %rax\n.L2:\n\tnop\n\tret\n\t.size f, .-f\n",
        b"f unchanged: label as value, line 5\n",
    ),
    (
        b"\t.macro m\n\t.text\n\t.type f, @function\nf:\n\tnop\n\tret\n\t.size f, .-f\n",
        b"file unchanged: line 1\n",
    ),
    (
        b"\t.text\n\t.p2align 4\n\t.type f, @function\nf:\n.L1:\n\tjmp g1\n\tnop\n\tret\n\t.size f, .-f\n\t.data\ng1:\n\t.quad 0\n",
        b"f unchanged: jump elsewhere, line 6\n",
    ),
    (
        b"\t.text\n\t.p2align 4\n\t.type f, @function\nf:\n#APP\n\tnop\n#NO_APP\n\tret\n\t.size f, .-f\n",
        b"f unchanged: inline assembly, line 5\n",
    ),
    (
        b"\t.text\n\t.p2align 4\n\t.type f, @function\nf:\n\t.byte 1\n\tnop\n\tret\n\t.size f, .-f\n",
        b"f unchanged: data in code, line 5\n",
    ),
    (
        b"\t.text\n\t.p2align 4\n\t.type f, @function\nf:\n\tleaq .LX(%rip), %rax\n\tjmp *%rax\n\t.set .LX, .L3\n.L3:\n\tnop\n\tret\n\t.size f, .-f\n",
        b"f unchanged: label used outside, line 7\n",
    ),
    (
        b".text\n.type f,@function\nf:\nL: nop\nL: ret\n.size f,.-f\n",
        b"file unchanged: line 5\n",
    ),
    (
        b".text\n.type f,@function\nf:\n.cfi_lsda 0,.L0\nnop\nret\n.size f,.-f\n",
        b"f unchanged: exception table, line 4\n",
    ),
];

#[test]
fn functions_with_a_cause_are_kept_and_noted(rt: HostRuntime) -> Result<(), Fail> {
    for (text, why) in KEPT {
        let outcome = filtered(&rt, text)?;
        assert_eq!(rt; outcome.status, Status::Fine);
        assert_eq!(rt; outcome.taken.as_slice(), text);
        let mut noted = why.to_vec(rt.alloc())?;
        noted.extend_from_slice(b"step 1 NOPKILL: 0 edits\n")?;
        assert_eq!(rt; outcome.noted.as_slice(), noted.as_slice());
    }
    Ok(())
}

#[test]
fn each_function_is_judged_by_itself(rt: HostRuntime) -> Result<(), Fail> {
    let text =
        b".text\n.type f,@function\nf: nop\naddsd %xmm1, %xmm0\nret\n.size f,.-f\n.type g,@function\ng: nop\nret\n.size g,.-g\n.type h,@function\nh: fld1\nnop\nret\n.size h,.-h\n";
    let wanted =
        b".text\n.type f,@function\nf: nop\naddsd %xmm1, %xmm0\nret\n.size f,.-f\n.type g,@function\ng:ret\n.size g,.-g\n.type h,@function\nh: fld1\nnop\nret\n.size h,.-h\n";
    let outcome = filtered(&rt, text)?;
    assert_eq!(rt; outcome.taken.as_slice(), wanted.as_slice());
    assert_eq!(rt;
        outcome.noted.as_slice(),
        b"f unchanged: unknown line, line 4\nh unchanged: unknown line, line 12\nstep 1 NOPKILL: 1 edits\n".as_slice()
    );
    Ok(())
}

// GCC's form: a function whose jump table stands in another section.
const PICK: &[u8] =
    b"\t.file\t\"pick.c\"\n\t.text\n\t.p2align 4\n\t.globl\tpick\n\t.type\tpick, @function\npick:\n.LFB0:\n\t.cfi_startproc\n\tendbr64\n\tcmpl\t$2, %edi\n\tja\t.L5\n\tmovl\t%edi, %edi\n\tnotrack jmp\t*.L4(,%rdi,8)\n\t.section\t.rodata\n\t.align 8\n\t.align 4\n.L4:\n\t.quad\t.L7\n\t.quad\t.L6\n\t.quad\t.L3\n\t.text\n\t.p2align 4,,10\n\t.p2align 3\n.L7:\n\tleal\t1(%rsi), %eax\n\tret\n\t.p2align 4,,10\n\t.p2align 3\n.L6:\n\tmovl\t%esi, %eax\n\tsubl\t$7, %eax\n\ttestl\t%eax, %eax\n\tjs\t.L5\n\tret\n\t.p2align 4,,10\n\t.p2align 3\n.L3:\n\tleal\t(%rsi,%rsi,2), %eax\n\tret\n.L5:\n\txorl\t%eax, %eax\n\tret\n\t.cfi_endproc\n.LFE0:\n\t.size\tpick, .-pick\n\t.ident\t\"GCC: (GNU) 13.2.0\"\n\t.section\t.note.GNU-stack,\"\",@progbits\n";

#[test]
fn a_jump_table_keeps_its_function_clear(rt: HostRuntime) -> Result<(), Fail> {
    let outcome = filtered(&rt, PICK)?;
    assert_eq!(rt; outcome.status, Status::Fine);
    assert_eq!(rt; outcome.taken.as_slice(), PICK);
    assert_eq!(rt;
        outcome.noted.as_slice(),
        b"step 1 NOPKILL: 0 edits\n".as_slice()
    );
    Ok(())
}

#[test]
fn wrong_words_are_usage_and_read_nothing(rt: HostRuntime) -> Result<(), Fail> {
    let cases: [(&[&str], &[u8]); 7] = [
        (&["mao", "--mao"], b"mao: usage\n"),
        (&["mao", "--mao=NOPKILL", "--mao=NOPKILL"], b"mao: usage\n"),
        (
            &["mao", "--mao=NOPKILL:FOO"],
            b"mao: script: unknown pass at 8\n",
        ),
        (
            &["mao", "--mao=NOPIN=density[101]"],
            b"mao: script: bad number at 14\n",
        ),
        (&["mao", "--mao=NOPIN:"], b"mao: script: malformed at 6\n"),
        (
            &["mao", "--mao=NOPKILL=foo[1]"],
            b"mao: script: unknown option at 8\n",
        ),
        (
            &["mao", "--mao=NOPIN=seed[1],seed[2]"],
            b"mao: script: malformed at 14\n",
        ),
    ];
    for (words, line) in cases {
        let outcome = outcome_by(&rt, words, WITH_NOPS)?;
        assert_eq!(rt; outcome.status, Status::Usage);
        assert_eq!(rt; outcome.parts, 0);
        assert_eq!(rt; outcome.taken.as_slice(), b"".as_slice());
        assert_eq!(rt; outcome.noted.as_slice(), line);
    }
    Ok(())
}

// The status of a run whose streams fail at these calls, and what its sinks took.
fn with_faults(
    rt: &(impl Abort + AllocGlobal),
    reads: &[u64],
    writes: &[u64],
    tells: &[u64],
) -> Result<Outcome, Fail> {
    let mut source = MemSource::new(
        WITH_NOPS.to_vec(rt.alloc())?,
        1000,
        reads.to_vec(rt.alloc())?,
    );
    let mut out = MemSink::new(rt.alloc(), 200, 1, writes.to_vec(rt.alloc())?)?;
    let mut notes = MemSink::new(rt.alloc(), 200, 1, tells.to_vec(rt.alloc())?)?;
    let report = run_by_boxes(rt, &COMMAND, &mut source, &mut out, &mut notes)?;
    Ok(Outcome {
        status: report.status,
        parts: report.journal.parts().len(),
        taken: out.taken().to_vec(rt.alloc())?,
        noted: notes.taken().to_vec(rt.alloc())?,
    })
}

#[test]
fn faults_of_the_streams_are_told(rt: HostRuntime) -> Result<(), Fail> {
    let read = with_faults(&rt, &[1], &[], &[])?;
    assert_eq!(rt; read.status, Status::ReadFault);
    assert_eq!(rt; read.taken.as_slice(), b"".as_slice());
    assert_eq!(rt; read.noted.as_slice(), b"mao: read fault\n".as_slice());
    let write = with_faults(&rt, &[], &[2], &[])?;
    assert_eq!(rt; write.status, Status::WriteFault);
    assert_eq!(rt; write.taken.as_slice(), b"\t".as_slice());
    assert_eq!(rt; write.noted.as_slice(), b"mao: write fault\n".as_slice());
    Ok(())
}

#[test]
fn a_fault_of_the_notes_comes_behind_the_whole_text(rt: HostRuntime) -> Result<(), Fail> {
    let first = with_faults(&rt, &[], &[], &[1])?;
    assert_eq!(rt; first.status, Status::NotesFault);
    assert_eq!(rt; first.taken.as_slice(), WITHOUT_NOPS.as_slice());
    assert_eq!(rt; first.noted.as_slice(), b"".as_slice());
    let later = with_faults(&rt, &[], &[], &[5])?;
    assert_eq!(rt; later.status, Status::NotesFault);
    assert_eq!(rt; later.noted.as_slice(), b"step".as_slice());
    let both = with_faults(&rt, &[1], &[], &[2])?;
    assert_eq!(rt; both.status, Status::ReadFault);
    assert_eq!(rt; both.noted.as_slice(), b"m".as_slice());
    Ok(())
}

// A text of a first byte and others. Its length is a parameter, since a proof would write out a text of a length that
// it knows.
fn repeated(
    rt: &(impl Abort + AllocGlobal),
    first: u8,
    rest: u8,
    len: usize,
) -> Result<Vec<u8>, Fail> {
    let mut text = vec![in rt.alloc(); rest; len]?;
    if let Some(byte) = text.first_mut() {
        *byte = first;
    }
    Ok(text)
}

#[test]
fn limits_are_exact(rt: HostRuntime) -> Result<(), Fail> {
    for (first, rest, len, status) in [
        (b'#', b'x', 33_554_432, Status::Fine),
        (b'#', b'x', 33_554_433, Status::TooBig),
        (b'\n', b'\n', 2_000_000, Status::Fine),
        (b'\n', b'\n', 2_000_001, Status::TooBig),
    ] {
        let text = repeated(&rt, first, rest, len)?;
        let mut source = MemSource::new(text, 1_000_000, Vec::new(rt.alloc()));
        let mut out = MemSink::new(rt.alloc(), len, 1_000_000, Vec::new(rt.alloc()))?;
        let mut notes = MemSink::new(rt.alloc(), 200, 200, Vec::new(rt.alloc()))?;
        let report = run_by_boxes(&rt, &COMMAND, &mut source, &mut out, &mut notes)?;
        assert_eq!(rt; report.status, status);
        let taken = if status == Status::Fine { len } else { 0 };
        assert_eq!(rt; out.taken().len(), taken);
    }
    Ok(())
}

// NOPKILL that always wants memory.
#[derive(Drop)]
struct Wanting {
    opts: PassOpts,
}

impl Pass for Wanting {
    ghost its_kind = { λ _. PassKind.NopKill };

    ghost its_opts = { λ p. p.opts };

    ghost its_count = { λ _. 0 };

    fn kind(&self) -> PassKind {
        PassKind::NopKill
    }

    fn set(&mut self, opts: &PassOpts) {
        self.opts = *opts;
    }

    fn run(
        &mut self,
        _alloc: Global,
        _unit: &mut AsmUnit,
        _f: u32,
        _journal: &mut Journal,
    ) -> Result<PassTally, AllocError> {
        Err(AllocError)
    }
}

const DEFAULTS: PassOpts = PassOpts {
    seed: 1,
    density: 10,
    align: 0,
    max: 16,
};

#[test]
fn the_boxes_do_the_work(rt: HostRuntime) -> Result<(), Fail> {
    let mut boxes: Vec<Box<dyn Pass>> = Vec::new(rt.alloc());
    boxes.push(Box::new(rt.alloc(), NopIn::new())?)?;
    boxes.push(Box::new(rt.alloc(), Wanting { opts: DEFAULTS })?)?;
    let mut book = PassBook::new(boxes).expect(&rt, "a box for each kind of the catalogue");
    let mut source = MemSource::new(WITH_NOPS.to_vec(rt.alloc())?, 1000, Vec::new(rt.alloc()));
    let mut out = MemSink::new(rt.alloc(), 200, 64, Vec::new(rt.alloc()))?;
    let mut notes = MemSink::new(rt.alloc(), 200, 64, Vec::new(rt.alloc()))?;
    let report = mao(
        rt.alloc(),
        &COMMAND,
        &mut source,
        &mut out,
        &mut notes,
        &mut book,
    );
    assert_eq!(rt; report.status, Status::NoMemory);
    assert_eq!(rt; out.taken(), b"".as_slice());
    assert_eq!(rt; notes.taken(), b"mao: out of memory\n".as_slice());
    Ok(())
}

#[test]
fn goals_stand_in_their_order(rt: HostRuntime) -> Result<(), Fail> {
    let mut goals = GoalList::new(rt.alloc());
    assert!(rt; goals.as_slice().is_empty());
    for (kind, met) in [(GoalKind::Loop16, true), (GoalKind::BrAlign, false)] {
        goals.push(Goal {
            f: 0,
            kind,
            first: 7,
            second: 10,
            met,
        })?;
    }
    assert_eq!(rt; goals.as_slice().len(), 2);
    assert_eq!(rt; goals.as_slice()[1].kind, GoalKind::BrAlign);
    Ok(())
}

// The canonical text of what a line says, or nothing where the line isn't read.
fn canonical(rt: &(impl Abort + AllocGlobal), line: &[u8]) -> Result<Vec<u8>, Fail> {
    assert!(rt; line.len() < 1000);
    match read_entry(rt.alloc(), line, 1)?.kind {
        EntryKind::Insn(insn) => Ok(insn_text(rt.alloc(), &insn)?),
        EntryKind::Directive(DirectiveKind::Align { power, fill, max }) if power <= 12 => {
            Ok(directive_text(rt.alloc(), power, fill, max)?)
        }
        _ => Ok(Vec::new(rt.alloc())),
    }
}

#[test]
fn lines_are_read_and_written_canonically(rt: HostRuntime) -> Result<(), Fail> {
    let cases: [(&[u8], &[u8]); 18] = [
        (b"\tsall %eax\n", b"shll $1, %eax"),
        (b"\tleal (%rdi,%rsi), %eax\n", b"leal (%rdi,%rsi,1), %eax"),
        (b"\tcmovl %ecx, %eax\n", b"cmovll %ecx, %eax"),
        (b"\tmovq $4294967295, %rax\n", b"movabsq $4294967295, %rax"),
        (b"\taddl $4294967295, %eax\n", b"addl $-1, %eax"),
        (b"\timull $3, %eax\n", b"imull $3, %eax, %eax"),
        (b"\tmovl -0x8(%rbp), %eax\n", b"movl -8(%rbp), %eax"),
        (b"\tmovl 010(%rsp), %eax\n", b"movl 8(%rsp), %eax"),
        (b"\tmovl 08(%rsp), %eax\n", b""),
        (b"\tjc .L2\n", b"jb .L2"),
        (b"\tpush %rax\n", b"pushq %rax"),
        (b"\tcallq g\n", b"call g"),
        (b"\t.balign 16\n", b".p2align 4"),
        (b"\t.p2align 4,0x90\n", b".p2align 4,144"),
        (b"\tshll $32, %eax\n", b""),
        (b"\tpop %rsp\n", b""),
        (b"\tmovl (%rax), (%rdx)\n", b""),
        (
            b"\tnotrack jmp *.L4(,%rdi,8)\n",
            b"notrack jmp *.L4(,%rdi,8)",
        ),
    ];
    for (line, wanted) in cases {
        let text = canonical(&rt, line)?;
        assert_eq!(rt; text.as_slice(), wanted, "{line:?}");
        assert_eq!(rt; canonical(&rt, &text)?.as_slice(), wanted, "{line:?}");
    }
    Ok(())
}
