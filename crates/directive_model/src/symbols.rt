// Functions and aliases.
ghost use Rattle.std.specs.Prelude.{◌≡◌, IfOk};
ghost use Rattle.att_grammar.specs.Directives.{typed_of, func_type, sized_of, func_end, alias_of, signed_of, constant_of, set_by};

use att_grammar::{Cursor, Word};
use insn_ir::{DirectiveKind, Name};
use std::alloc::{AllocError, Global};

// The name in `f, @function`.
#[tactic(auto, unfolding(att_grammar::specs::Directives::typed_of))]
fn typed<'a>(at: &Cursor<'a>) -> Option<Word<'a>>
    ensures { result ≡ typed_of at.now }
{
    let (name, rest) = at.word()?;
    let rest = rest.expect(b',')?.expect(b'@')?.this_word(b"function")?;
    if rest.is_at_end() { Some(name) } else { None }
}

pub fn function_type(alloc: Global, at: &Cursor) -> Result<DirectiveKind, AllocError>
    ensures { IfOk result (λ kind. kind ≡ func_type (typed_of at.now)) }
{
    match typed(at) {
        Some(name) => Ok(DirectiveKind::FuncType(Name::from_slice(alloc, name.bytes())?)),
        None => Ok(DirectiveKind::Inert),
    }
}

// The name in `f, .-f`.
#[tactic(auto, unfolding(att_grammar::specs::Directives::sized_of))]
fn sized<'a>(at: &Cursor<'a>) -> Option<Word<'a>>
    ensures { result ≡ sized_of at.now }
{
    let (name, rest) = at.word()?;
    let rest = rest
        .expect(b',')?
        .this_word(b".")?
        .expect(b'-')?
        .this_word(name.bytes())?;
    if rest.is_at_end() { Some(name) } else { None }
}

pub fn function_end(alloc: Global, at: &Cursor) -> Result<DirectiveKind, AllocError>
    ensures { IfOk result (λ kind. kind ≡ func_end (sized_of at.now)) }
{
    match sized(at) {
        Some(name) => Ok(DirectiveKind::FuncEnd(Name::from_slice(alloc, name.bytes())?)),
        None => Ok(DirectiveKind::Inert),
    }
}

// The names in `a, b`.
#[tactic(auto, unfolding(att_grammar::specs::Directives::alias_of))]
fn alias<'a>(at: &Cursor<'a>) -> Option<(Word<'a>, Word<'a>)>
    ensures { result ≡ alias_of at.now }
{
    let (first, rest) = at.name()?;
    let (second, rest) = rest.expect(b',')?.name()?;
    if rest.is_at_end() {
        Some((first, second))
    } else {
        None
    }
}

// A number, perhaps behind `-`.
#[tactic(auto, unfolding(att_grammar::specs::Directives::signed_of))]
fn signed<'a>(at: &Cursor<'a>) -> Option<(u64, Cursor<'a>)>
    ensures { result ≡ signed_of at.now }
{
    if let Some(found) = at.number() {
        return Some(found);
    }
    at.expect(b'-')?.number()
}

// The name in `a, n` with a number.
#[tactic(auto, unfolding(att_grammar::specs::Directives::constant_of))]
fn constant<'a>(at: &Cursor<'a>) -> Option<Word<'a>>
    ensures { result ≡ constant_of at.now }
{
    let (name, rest) = at.name()?;
    let (_, rest) = signed(&rest.expect(b',')?)?;
    if rest.is_at_end() { Some(name) } else { None }
}

pub fn alias_or_constant(alloc: Global, at: &Cursor) -> Result<DirectiveKind, AllocError>
    ensures { IfOk result (λ kind. kind ≡ set_by (alias_of at.now) at.now) }
{
    if let Some((first, second)) = alias(at) {
        return Ok(DirectiveKind::Alias(
            Name::from_slice(alloc, first.bytes())?,
            Name::from_slice(alloc, second.bytes())?,
        ));
    }
    match constant(at) {
        Some(_) => Ok(DirectiveKind::Inert),
        None => Ok(DirectiveKind::Breaking),
    }
}
