// Operands.
ghost use Rattle.std.specs.Prelude.{◌≡◌, [], ◌∷◌, Some, None, IfSome, ◌≤◌, ◌<◌, ◌^◌};
ghost use Rattle.insn_ir.specs.declared.op.Reg.TheVariants.{Rsp};
ghost use Rattle.att_grammar.specs.Operands.{register_of, wide_of, index_of, is_scale, scale_of, indexed_of, rip_of, based_of, paren_of, displaced, displacement_of, place_of, is_symbolic, is_address, address_behind, segment_of, address_of, immediate_of, operand_of, next_of, operands_of};

use crate::expressions::expression;
use crate::forms::same_reg;
use crate::registers::register_named;
use att_grammar::{Address, Cursor, Displacement, Operand, Operands, Paren, Sum, Symbol};
use insn_ir::{Base, Reg, Width};

// `%` and a name.
#[tactic(auto, unfolding(att_grammar::specs::Operands::register_of))]
fn register<'a>(at: &Cursor<'a>) -> Option<((Reg, Width), Cursor<'a>)>
    ensures { result ≡ register_of at.now }
{
    let (name, rest) = at.expect(b'%')?.word()?;
    Some((register_named(name.bytes())?, rest))
}

// A register of 64 bits.
#[tactic(auto, unfolding(att_grammar::specs::Operands::wide_of))]
fn wide<'a>(at: &Cursor<'a>) -> Option<(Reg, Cursor<'a>)>
    ensures { result ≡ wide_of at.now }
{
    match register(at)? {
        ((r, Width::Q), rest) => Some((r, rest)),
        ((_, Width::B | Width::W | Width::L), _) => None,
    }
}

// An index: a register of 64 bits that isn't `%rsp`.
#[tactic(auto, unfolding(att_grammar::specs::Operands::index_of))]
fn index<'a>(at: &Cursor<'a>) -> Option<(Reg, Cursor<'a>)>
    ensures { result ≡ index_of at.now }
{
    let (r, rest) = wide(at)?;
    if same_reg(r, Reg::Rsp) {
        None
    } else {
        Some((r, rest))
    }
}

// A scale that may be written, and `)`.
#[tactic(auto, unfolding(att_grammar::specs::Operands::scale_of))]
fn scale<'a>(at: &Cursor<'a>) -> Option<(u8, Cursor<'a>)>
    ensures { result ≡ scale_of at.now }
{
    if let Some(rest) = at.expect(b')') {
        return Some((1, rest));
    }
    let (n, rest) = at.expect(b',')?.number()?;
    if n == 1 || n == 2 || n == 4 || n == 8 {
        Some((n as u8, rest.expect(b')')?))
    } else {
        None
    }
}

// `,` and an index behind a base.
#[tactic(auto, unfolding(att_grammar::specs::Operands::indexed_of))]
fn indexed<'a>(base: Base, at: &Cursor<'a>) -> Option<(Paren, Cursor<'a>)>
    ensures { result ≡ indexed_of base at.now }
{
    let (r, rest) = index(&at.expect(b',')?)?;
    let (scale, rest) = scale(&rest)?;
    Some((
        Paren {
            base,
            index: Some(r),
            scale,
        },
        rest,
    ))
}

// `%rip)`.
#[tactic(auto, unfolding(att_grammar::specs::Operands::rip_of))]
fn rip<'a>(at: &Cursor<'a>) -> Option<(Paren, Cursor<'a>)>
    ensures { result ≡ rip_of at.now }
{
    let rest = at.expect(b'%')?.this_word(b"rip")?.expect(b')')?;
    Some((
        Paren {
            base: Base::Rip,
            index: None,
            scale: 1,
        },
        rest,
    ))
}

#[tactic(auto, unfolding(att_grammar::specs::Operands::based_of))]
fn based<'a>(at: &Cursor<'a>) -> Option<(Paren, Cursor<'a>)>
    ensures { result ≡ based_of at.now }
{
    let (r, behind) = wide(at)?;
    if let Some(rest) = behind.expect(b')') {
        return Some((
            Paren {
                base: Base::Reg(r),
                index: None,
                scale: 1,
            },
            rest,
        ));
    }
    indexed(Base::Reg(r), &behind)
}

// A base, an index or both in parentheses.
#[tactic(auto, unfolding(att_grammar::specs::Operands::paren_of))]
fn paren<'a>(at: &Cursor<'a>) -> Option<(Paren, Cursor<'a>)>
    ensures { result ≡ paren_of at.now }
{
    let inner = at.expect(b'(')?;
    if let Some(found) = rip(&inner) {
        return Some(found);
    }
    if let Some(found) = based(&inner) {
        return Some(found);
    }
    indexed(Base::Absent, &inner)
}

fn displaced<'a>(symbol: Option<Symbol<'a>>, number: i64) -> Option<Displacement<'a>>
    ensures { result ≡ displaced symbol.entry number }
{
    match symbol {
        Some(symbol) => Some(Displacement::Symbol(symbol, number)),
        None => {
            if number >= -(1 << 31) && number < 1 << 31 {
                Some(Displacement::Number(number as i32))
            } else {
                None
            }
        }
    }
}

// An expression as a displacement.
#[tactic(auto, unfolding(att_grammar::specs::Operands::displacement_of))]
fn displacement<'a>(at: &Cursor<'a>) -> Option<(Displacement<'a>, Cursor<'a>)>
    ensures { result ≡ displacement_of at.now }
{
    let (sum, rest) = expression(at)?;
    let Sum { symbol, number } = sum;
    Some((displaced(symbol, number)?, rest))
}

// A parenthesis, or a displacement and perhaps a parenthesis.
#[tactic(auto, unfolding(att_grammar::specs::Operands::place_of))]
fn place<'a>(at: &Cursor<'a>) -> Option<(Displacement<'a>, Paren, Cursor<'a>)>
    ensures { result ≡ place_of at.now }
{
    if let Some((paren, rest)) = paren(at) {
        return Some((Displacement::Number(0), paren, rest));
    }
    let (disp, behind) = displacement(at)?;
    if let Some((paren, rest)) = paren(&behind) {
        return Some((disp, paren, rest));
    }
    let none = Paren {
        base: Base::Absent,
        index: None,
        scale: 1,
    };
    Some((disp, none, behind))
}

// Whether `%rip` has a symbol and no segment.
fn is_address(fs: bool, disp: &Displacement, base: Base) -> bool
    ensures { result ≡ is_address fs disp.now base }
{
    match base {
        Base::Absent | Base::Reg(_) => true,
        Base::Rip => is_symbolic(disp) && !fs,
    }
}

fn is_symbolic(disp: &Displacement) -> bool
    ensures { result ≡ is_symbolic disp.now }
{
    match disp {
        Displacement::Number(_) => false,
        Displacement::Symbol(_, _) => true,
    }
}

#[tactic(auto, unfolding(att_grammar::specs::Operands::address_behind))]
fn address_behind<'a>(fs: bool, at: &Cursor<'a>) -> Option<(Address<'a>, Cursor<'a>)>
    ensures { result ≡ address_behind fs at.now }
{
    let (disp, paren, rest) = place(at)?;
    if is_address(fs, &disp, paren.base) {
        Some((Address { fs, disp, paren }, rest))
    } else {
        None
    }
}

// What follows `%fs:`.
#[tactic(auto, unfolding(att_grammar::specs::Operands::segment_of))]
fn segment<'a>(at: &Cursor<'a>) -> Option<Cursor<'a>>
    ensures { result ≡ segment_of at.now }
{
    at.expect(b'%')?.this_word(b"fs")?.expect(b':')
}

#[tactic(auto, unfolding(att_grammar::specs::Operands::address_of))]
fn address<'a>(at: &Cursor<'a>) -> Option<(Address<'a>, Cursor<'a>)>
    ensures { result ≡ address_of at.now }
{
    match segment(at) {
        Some(rest) => address_behind(true, &rest),
        None => address_behind(false, at),
    }
}

// `$` and an expression.
#[tactic(auto, unfolding(att_grammar::specs::Operands::immediate_of))]
fn immediate<'a>(at: &Cursor<'a>) -> Option<(Sum<'a>, Cursor<'a>)>
    ensures { result ≡ immediate_of at.now }
{
    expression(&at.expect(b'$')?)
}

/// The operand in front, and what follows it.
#[tactic(auto, unfolding(att_grammar::specs::Operands::operand_of))]
pub fn operand<'a>(at: &Cursor<'a>) -> Option<(Operand<'a>, Cursor<'a>)>
    ensures { result ≡ operand_of at.now }
{
    if let Some(((r, width), rest)) = register(at) {
        return Some((Operand::Register(r, width), rest));
    }
    if let Some((sum, rest)) = immediate(at) {
        return Some((Operand::Immediate(sum), rest));
    }
    let (address, rest) = address(at)?;
    Some((Operand::Memory(address), rest))
}

// `,` and an operand.
#[tactic(auto, unfolding(att_grammar::specs::Operands::next_of))]
fn next<'a>(at: &Cursor<'a>) -> Option<(Operand<'a>, Cursor<'a>)>
    ensures { result ≡ next_of at.now }
{
    operand(&at.expect(b',')?)
}

/// Up to three operands, and nothing behind them.
#[tactic(auto, unfolding(att_grammar::specs::Operands::operands_of))]
pub fn operands<'a>(at: &Cursor<'a>) -> Option<Operands<'a>>
    ensures { result ≡ operands_of at.now }
{
    if at.is_at_end() {
        return Some(Operands::Nothing);
    }
    let (a, rest) = operand(at)?;
    if rest.is_at_end() {
        return Some(Operands::One(a));
    }
    let (b, rest) = next(&rest)?;
    if rest.is_at_end() {
        return Some(Operands::Two(a, b));
    }
    let (c, rest) = next(&rest)?;
    if rest.is_at_end() {
        return Some(Operands::Three(a, b, c));
    }
    None
}
