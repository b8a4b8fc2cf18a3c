// The text of a unit, put into a sink.

ghost use Rattle.std.specs.Prelude.{◌≡◌, ◌<◌, ◌++◌, [], ℕ, take, length, OnOk, OnErr, IfOk};
ghost use Rattle.std.specs.Bool.{OnTrue, OnFalse};
ghost use Rattle.std.specs.Io.KnownBytes.{Appends};
ghost use Rattle.mao_outside.specs.Causes.{HasCause};
ghost use Rattle.att_grammar.specs.Canonical.{line_of};
ghost use Rattle.att_grammar.specs.Entries.{IsOfProfile};
ghost use Rattle.entry_list.specs.Listed.{values_of};
ghost use Rattle.asm_writer.specs.Fragments.{fragments_text};
ghost use Rattle.asm_writer.specs.Unit.{new_text, entry_text, unit_text, IsWritable, AreWritable};
ghost use Rattle.asm_writer.specs.Runs.{IsRun, run_text, Passes, waits};

use crate::fragment::Fragment;
use crate::line::{align_fragments, insn_fragments};
use crate::sink::put_fragments;
use arrayvec::ArrayVec;
use asm_unit::{AsmUnit, Held};
use att_lexer::Span;
use entry_list::EntryList;
use insn_ir::{DirectiveKind, EntryKind};
use mao_outside::{Failed, Sink, put_all};

// How many bytes wait to be put together at most.
const ROOM: usize = 8192;

// Bytes that aren't put yet. They are gathered, since a sink takes few long pieces sooner than many short ones.
type Gathered = ArrayVec<u8, ROOM>;

// Kept pieces that follow one another in the text and aren't gathered yet.
#[derive(Clone, Copy)]
struct Run {
    from: usize,
    to: usize,
}

// Puts what is gathered.
fn put_gathered<K: Sink>(sink: &mut K, gathered: &mut Gathered) -> Result<(), Failed>
    ensures all { OnOk result (Appends (K.taken sink.old) (K.taken sink.new) gathered.old.items) }
    ensures none { OnOk result (gathered.new.items ≡ []) }
    ensures part { OnErr result ((n : ℕ) × (n < length gathered.old.items)
        × Appends (K.taken sink.old) (K.taken sink.new) (take n gathered.old.items)) }
    ensures idle { length gathered.old.items ≡ 0 → sink.new ≡ sink.old }
    ensures cause { HasCause (K.faults sink.old) (K.faults sink.new) result }
{
    put_all(sink, gathered.as_slice())?;
    gathered.clear();
    Ok(())
}

// Whether bytes have room with what is gathered: then they go with it.
fn join(gathered: &mut Gathered, bytes: &[u8]) -> bool
    ensures joined { OnTrue result (gathered.new.items ≡ gathered.old.items ++ bytes.now) }
    ensures left { OnFalse result (gathered.new.items ≡ gathered.old.items) }
{
    gathered.try_extend_from_slice(bytes).is_ok()
}

// Bytes that go with what is gathered, which is put first where they have no room with it.
fn gather<K: Sink>(sink: &mut K, gathered: &mut Gathered, bytes: &[u8]) -> Result<(), Failed>
    ensures all { OnOk result (Passes (K.taken sink.old) (K.taken sink.new) (gathered.old.items ++ bytes.now) gathered.new.items) }
    ensures part { OnErr result ((n : ℕ) × (n < length (gathered.old.items ++ bytes.now))
        × Appends (K.taken sink.old) (K.taken sink.new) (take n (gathered.old.items ++ bytes.now))) }
    ensures idle { length (gathered.old.items ++ bytes.now) ≡ 0 → sink.new ≡ sink.old }
    ensures cause { HasCause (K.faults sink.old) (K.faults sink.new) result }
{
    if join(gathered, bytes) {
        return Ok(());
    }
    put_gathered(sink, gathered)?;
    if join(gathered, bytes) {
        return Ok(());
    }
    put_all(sink, bytes)?;
    Ok(())
}

// A tab, what the fragments say, and a newline.
fn put_line<K: Sink>(sink: &mut K, fragments: &[Fragment<'_>]) -> Result<(), Failed>
    ensures all { OnOk result (Appends (K.taken sink.old) (K.taken sink.new) (line_of (fragments_text fragments.now))) }
    ensures part { OnErr result ((n : ℕ) × (n < length (line_of (fragments_text fragments.now)))
        × Appends (K.taken sink.old) (K.taken sink.new) (take n (line_of (fragments_text fragments.now)))) }
    ensures cause { HasCause (K.faults sink.old) (K.faults sink.new) result }
{
    put_all(sink, b"\t")?;
    put_fragments(sink, fragments)?;
    put_all(sink, b"\n")?;
    Ok(())
}

// The line of an entry that has no piece.
fn put_new<K: Sink>(sink: &mut K, kind: &EntryKind) -> Result<(), Failed>
    requires { IsOfProfile kind.now }
    ensures all { OnOk result (Appends (K.taken sink.old) (K.taken sink.new) (new_text kind.now)) }
    ensures part { OnErr result ((n : ℕ) × (n < length (new_text kind.now))
        × Appends (K.taken sink.old) (K.taken sink.new) (take n (new_text kind.now))) }
    ensures idle { length (new_text kind.now) ≡ 0 → sink.new ≡ sink.old }
    ensures cause { HasCause (K.faults sink.old) (K.faults sink.new) result }
{
    match kind {
        EntryKind::Insn(insn) => put_line(sink, insn_fragments(insn).as_slice()),
        EntryKind::Directive(DirectiveKind::Align { power, fill, max }) => {
            put_line(sink, align_fragments(*power, *fill, *max).as_slice())
        }
        _ => Ok(()),
    }
}

// One entry more: a piece that joins the run waits with it, and any other entry has the run gathered first.
fn pass<K: Sink>(
    sink: &mut K,
    gathered: &mut Gathered,
    text: &[u8],
    run: Run,
    kind: &EntryKind,
    span: Option<Span>,
) -> Result<Run, Failed>
    requires run { IsRun text.now run }
    requires writable { IsWritable text.now kind.now span }
    ensures run { IfOk result (IsRun text.now) }
    ensures all { IfOk result (λ next. Passes (K.taken sink.old) (K.taken sink.new) (waits gathered.old.items text.now run ++ entry_text text.now kind.now span) (waits gathered.new.items text.now next)) }
    ensures part { OnErr result ((n : ℕ) × (n < length (waits gathered.old.items text.now run ++ entry_text text.now kind.now span))
        × Appends (K.taken sink.old) (K.taken sink.new) (take n (waits gathered.old.items text.now run ++ entry_text text.now kind.now span))) }
    ensures idle { length (waits gathered.old.items text.now run ++ entry_text text.now kind.now span) ≡ 0 → sink.new ≡ sink.old }
    ensures cause { HasCause (K.faults sink.old) (K.faults sink.new) result }
{
    let Some(span) = span else {
        gather(sink, gathered, &text[run.from..run.to])?;
        put_gathered(sink, gathered)?;
        put_new(sink, kind)?;
        return Ok(Run {
            from: run.to,
            to: run.to,
        });
    };
    let start = span.start as usize;
    let to = start + span.len as usize;
    if start == run.to {
        return Ok(Run { from: run.from, to });
    }
    gather(sink, gathered, &text[run.from..run.to])?;
    Ok(Run { from: start, to })
}

// The run and what is gathered, put at the end.
fn put_rest<K: Sink>(
    sink: &mut K,
    gathered: &mut Gathered,
    text: &[u8],
    run: Run,
) -> Result<(), Failed>
    requires { IsRun text.now run }
    ensures all { OnOk result (Appends (K.taken sink.old) (K.taken sink.new) (waits gathered.old.items text.now run)) }
    ensures part { OnErr result ((n : ℕ) × (n < length (waits gathered.old.items text.now run))
        × Appends (K.taken sink.old) (K.taken sink.new) (take n (waits gathered.old.items text.now run))) }
    ensures idle { length (waits gathered.old.items text.now run) ≡ 0 → sink.new ≡ sink.old }
    ensures cause { HasCause (K.faults sink.old) (K.faults sink.new) result }
{
    gather(sink, gathered, &text[run.from..run.to])?;
    put_gathered(sink, gathered)?;
    Ok(())
}

// The text of the entries of a list. Each node is visited once.
fn write_list<K: Sink>(list: &EntryList<Held>, text: &[u8], sink: &mut K) -> Result<(), Failed>
    requires writable { AreWritable text.now (values_of list.now.pairs) }
    ensures all { OnOk result (Appends (K.taken sink.old) (K.taken sink.new) (unit_text text.now (values_of list.now.pairs))) }
    ensures part { OnErr result ((n : ℕ) × (n < length (unit_text text.now (values_of list.now.pairs)))
        × Appends (K.taken sink.old) (K.taken sink.new) (take n (unit_text text.now (values_of list.now.pairs)))) }
    ensures idle { length (unit_text text.now (values_of list.now.pairs)) ≡ 0 → sink.new ≡ sink.old }
    ensures cause { HasCause (K.faults sink.old) (K.faults sink.new) result }
{
    let nodes = list.nodes();
    let mut gathered = Gathered::new();
    let mut run = Run { from: 0, to: 0 };
    let mut at = list.first();
    while let Some(key) = at {
        let node = &nodes[key];
        let held = &node.value;
        run = pass(sink, &mut gathered, text, run, &held.entry.kind, held.span)?;
        at = node.next;
    }
    put_rest(sink, &mut gathered, text, run)?;
    Ok(())
}

/// Puts the text of a unit into the sink. `text` is what the unit was read from: kept pieces stand as they did there,
/// and an entry that has no piece is a tab, its canonical text and a newline.
///
/// Kept pieces are put together, some thousand bytes a call. It takes no memory. `Failed` comes only where the sink
/// counted a fault; then a proper prefix was taken. Where the text is empty the sink isn't called.
pub fn write_unit<K: Sink>(unit: &AsmUnit, text: &[u8], sink: &mut K) -> Result<(), Failed>
    requires writable { AreWritable text.now unit.now.held }
    ensures all { OnOk result (Appends (K.taken sink.old) (K.taken sink.new) (unit_text text.now unit.now.held)) }
    ensures part { OnErr result ((n : ℕ) × (n < length (unit_text text.now unit.now.held))
        × Appends (K.taken sink.old) (K.taken sink.new) (take n (unit_text text.now unit.now.held))) }
    ensures idle { length (unit_text text.now unit.now.held) ≡ 0 → sink.new ≡ sink.old }
    ensures cause { HasCause (K.faults sink.old) (K.faults sink.new) result }
{
    write_list(unit.list(), text, sink)
}
