// The symbols that an entry names.

ghost use Rattle.std.specs.Prelude.{◌≡◌, map, option_map, option_to_list};
ghost use Rattle.insn_ir.specs.declared.insn.Disp.{Disp};
ghost use Rattle.jump_tables.specs.EntryNames.{lent_name, names_in};
ghost use Rattle.insn_ir.specs.Jumps.{plain_name, table_of_mem};
ghost use Rattle.jump_tables.specs.Uses.{atoms_of_arg, names, insn_names, directive_names, table_jump};

use insn_ir::{Arg, Atom, Base, DirectiveKind, Disp, EntryKind, Imm, Insn, Mem, Name, Op};

/// The symbol of an operand, with its offset.
pub fn symbol_of(arg: &Arg) -> Option<&Atom>
    ensures { option_to_list (option_map (λ a. a.now) result) ≡ atoms_of_arg arg.now }
{
    match arg {
        Arg::Imm(Imm::Sym(atom)) => Some(atom.get()),
        Arg::Mem(mem) => match &mem.disp {
            Disp::Sym(atom) => Some(atom.get()),
            Disp::Num(_) => None,
        },
        Arg::Code(atom) => Some(atom.get()),
        _ => None,
    }
}

// The name of a symbol that stands by itself.
fn lone_name(atom: &Atom) -> Option<&Name>
    ensures { option_map (λ n. n.now) result ≡ plain_name (Disp.Sym atom.now) }
{
    if atom.spec.is_none() && atom.offset == 0 {
        Some(&atom.name)
    } else {
        None
    }
}

fn plain_name_of(disp: &Disp) -> Option<&Name>
    ensures { option_map (λ n. n.now) result ≡ plain_name disp.now }
{
    match disp {
        Disp::Sym(atom) => lone_name(atom.get()),
        Disp::Num(_) => None,
    }
}

fn table_of(mem: &Mem) -> Option<&Name>
    ensures { option_map (λ n. n.now) result ≡ table_of_mem mem.now }
{
    if !mem.fs && matches!(mem.base, Base::Absent) && mem.index.is_some() && mem.scale == 8 {
        plain_name_of(&mem.disp)
    } else {
        None
    }
}

/// The T of a table jump `jmp *T(,%r,8)`.
pub fn table_jump_of(kind: &EntryKind) -> Option<&Name>
    ensures { option_map (λ n. n.now) result ≡ table_jump kind.now }
{
    match kind {
        EntryKind::Insn(insn) => match (insn.op, &insn.a) {
            (Op::JmpStar | Op::JmpStarNotrack, Arg::Mem(mem)) => table_of(mem),
            _ => None,
        },
        _ => None,
    }
}

/// The symbols that an entry names, in order, as the entry lends them: at most three by themselves, and those of a list.
#[derive(Clone, Copy)]
pub struct EntryNames<'a> {
    pub first: Option<&'a Name>,
    pub second: Option<&'a Name>,
    pub third: Option<&'a Name>,
    pub rest: &'a [Name],
}

/// The symbol of an operand.
fn name_of_arg(arg: &Arg) -> Option<&Name>
    ensures { lent_name result ≡ map (λ a. a.name) (atoms_of_arg arg.now) }
{
    match symbol_of(arg) {
        Some(atom) => Some(&atom.name),
        None => None,
    }
}

/// The symbols that an instruction names, in the order of its operands.
pub fn names_of_insn(insn: &Insn) -> EntryNames<'_>
    ensures { names_in result ≡ insn_names insn.now }
{
    EntryNames {
        first: name_of_arg(&insn.a),
        second: name_of_arg(&insn.b),
        third: name_of_arg(&insn.c),
        rest: &[],
    }
}

/// The names of a list.
pub fn names_of_list(list: &[Name]) -> EntryNames<'_>
    ensures { names_in result ≡ list.now }
{
    EntryNames {
        first: None,
        second: None,
        third: None,
        rest: list,
    }
}

fn names_of_directive(kind: &DirectiveKind) -> EntryNames<'_>
    ensures { names_in result ≡ directive_names kind.now }
{
    match kind {
        DirectiveKind::Export(list) | DirectiveKind::Bytes(list) => names_of_list(list.as_slice()),
        DirectiveKind::Words { names: list, .. } => names_of_list(list.as_slice()),
        DirectiveKind::FuncType(name) | DirectiveKind::FuncEnd(name) => EntryNames {
            first: Some(name),
            second: None,
            third: None,
            rest: &[],
        },
        DirectiveKind::Alias(alias, of) => EntryNames {
            first: Some(alias),
            second: Some(of),
            third: None,
            rest: &[],
        },
        _ => names_of_list(&[]),
    }
}

/// The symbols that an entry names; a label names none.
pub fn names_of(kind: &EntryKind) -> EntryNames<'_>
    ensures { names_in result ≡ names kind.now }
{
    match kind {
        EntryKind::Insn(insn) => names_of_insn(insn),
        EntryKind::Directive(directive) => names_of_directive(directive),
        EntryKind::Opaque(list) => names_of_list(list.as_slice()),
        _ => names_of_list(&[]),
    }
}
