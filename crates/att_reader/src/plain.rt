// Entries that name no symbol, as small values that are copied.
ghost use Rattle.std.specs.Prelude.{◌≡◌, ◌<◌, ◌++◌, ◌∷◌, [], IfSome};
ghost use Rattle.att_reader.specs.Made.{entry};
ghost use Rattle.att_reader.specs.Plain.{mem_of, arg_of, insn_of, kind_of};

use insn_ir::{Arg, Base, DirectiveKind, Disp, Entry, EntryKind, Imm, Insn, Mem, Op, Reg, Width};

/// A memory operand whose displacement is a number.
#[derive(Clone, Copy)]
pub struct PlainMem {
    pub fs: bool,
    pub disp: i32,
    pub base: Base,
    pub index: Option<Reg>,
    pub scale: u8,
}

/// An operand without a symbol.
#[derive(Clone, Copy)]
pub enum PlainArg {
    Absent,
    Reg(Reg),
    Number(i64),
    Mem(PlainMem),
}

/// An instruction without a symbol.
#[derive(Clone, Copy)]
pub struct PlainInsn {
    pub op: Op,
    pub width: Width,
    pub a: PlainArg,
    pub b: PlainArg,
    pub c: PlainArg,
}

/// What an entry that names no symbol is.
#[derive(Clone, Copy)]
pub enum PlainKind {
    Blank,
    Inert,
    Cfi,
    Align {
        power: u8,
        fill: Option<u64>,
        max: Option<u32>,
    },
    Insn(PlainInsn),
}

fn plain_mem(mem: &Mem) -> Option<PlainMem>
    ensures { IfSome result (λ m. mem_of m ≡ mem.now) }
{
    match &mem.disp {
        Disp::Num(disp) => Some(PlainMem {
            fs: mem.fs,
            disp: *disp,
            base: mem.base,
            index: mem.index,
            scale: mem.scale,
        }),
        Disp::Sym(_) => None,
    }
}

fn plain_arg(arg: &Arg) -> Option<PlainArg>
    ensures { IfSome result (λ a. arg_of a ≡ arg.now) }
{
    match arg {
        Arg::Absent => Some(PlainArg::Absent),
        Arg::Reg(reg) => Some(PlainArg::Reg(*reg)),
        Arg::Imm(Imm::Num(number)) => Some(PlainArg::Number(*number)),
        Arg::Mem(mem) => Some(PlainArg::Mem(plain_mem(mem)?)),
        Arg::Imm(Imm::Sym(_)) | Arg::Code(_) => None,
    }
}

fn plain_insn(insn: &Insn) -> Option<PlainInsn>
    ensures { IfSome result (λ i. insn_of i ≡ insn.now) }
{
    Some(PlainInsn {
        op: insn.op,
        width: insn.width,
        a: plain_arg(&insn.a)?,
        b: plain_arg(&insn.b)?,
        c: plain_arg(&insn.c)?,
    })
}

fn plain_directive(kind: &DirectiveKind) -> Option<PlainKind>
    ensures { IfSome result (λ k. kind_of k ≡ EntryKind.Directive kind.now) }
{
    match kind {
        DirectiveKind::Inert => Some(PlainKind::Inert),
        DirectiveKind::Cfi => Some(PlainKind::Cfi),
        DirectiveKind::Align { power, fill, max } => Some(PlainKind::Align {
            power: *power,
            fill: *fill,
            max: *max,
        }),
        _ => None,
    }
}

/// What an entry is as a small value, if it names no symbol.
pub fn plain_kind(kind: &EntryKind) -> Option<PlainKind>
    ensures { IfSome result (λ k. kind_of k ≡ kind.now) }
{
    match kind {
        EntryKind::Blank => Some(PlainKind::Blank),
        EntryKind::Insn(insn) => Some(PlainKind::Insn(plain_insn(insn)?)),
        EntryKind::Directive(directive) => plain_directive(directive),
        EntryKind::Label(_) | EntryKind::InlineMark | EntryKind::Opaque(_) => None,
    }
}

impl PlainMem {
    #[inline(always)]
    fn mem(self) -> Mem
        ensures { result ≡ mem_of self }
    {
        Mem {
            fs: self.fs,
            disp: Disp::Num(self.disp),
            base: self.base,
            index: self.index,
            scale: self.scale,
        }
    }
}

impl PlainArg {
    #[inline(always)]
    fn arg(self) -> Arg
        ensures { result ≡ arg_of self }
    {
        match self {
            PlainArg::Absent => Arg::Absent,
            PlainArg::Reg(reg) => Arg::Reg(reg),
            PlainArg::Number(number) => Arg::Imm(Imm::Num(number)),
            PlainArg::Mem(mem) => Arg::Mem(mem.mem()),
        }
    }
}

impl PlainKind {
    /// Appends the entry of this kind, made where it is to stay.
    #[inline(always)]
    pub fn put(self, out: &mut Vec<Entry>, serial: u32)
        requires room { out.old.len < out.old.cap }
        ensures { out.new.items ≡ out.old.items ++ entry serial (kind_of self) ∷ [] }
    {
        match self {
            PlainKind::Blank => out.push_reserved(Entry {
                serial,
                kind: EntryKind::Blank,
            }),
            PlainKind::Inert => out.push_reserved(Entry {
                serial,
                kind: EntryKind::Directive(DirectiveKind::Inert),
            }),
            PlainKind::Cfi => out.push_reserved(Entry {
                serial,
                kind: EntryKind::Directive(DirectiveKind::Cfi),
            }),
            PlainKind::Align { power, fill, max } => out.push_reserved(Entry {
                serial,
                kind: EntryKind::Directive(DirectiveKind::Align { power, fill, max }),
            }),
            PlainKind::Insn(insn) => out.push_reserved(Entry {
                serial,
                kind: EntryKind::Insn(Insn {
                    op: insn.op,
                    width: insn.width,
                    a: insn.a.arg(),
                    b: insn.b.arg(),
                    c: insn.c.arg(),
                }),
            }),
        }
    }
}
