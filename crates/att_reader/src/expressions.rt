// Expressions: a symbol and a sum of numbers.
ghost use Rattle.std.specs.Prelude.{◌≡◌, ◌+◌, ◌*◌, ◌^◌, ◌<◌, ◌≤◌, length, IfSome};
ghost use Rattle.att_grammar.specs.Expressions.{specifier_of, symbol_of, term_of, sign_of, with_term, terms_from, signed_sum, sum_of, terms_behind, expression_of};

use att_grammar::{Cursor, Sum, Symbol, Term, Total, Word};

#[tactic(auto, unfolding(att_grammar::specs::Expressions::specifier_of))]
fn specifier<'a>(at: &Cursor<'a>) -> Option<(Word<'a>, Cursor<'a>)>
    ensures { result ≡ specifier_of at.now }
{
    at.expect(b'@')?.word()
}

/// A name, perhaps with a specifier, and what follows it.
#[tactic(auto, unfolding(att_grammar::specs::Expressions::symbol_of))]
pub fn symbol<'a>(at: &Cursor<'a>) -> Option<(Symbol<'a>, Cursor<'a>)>
    ensures { result ≡ symbol_of at.now }
{
    let (name, rest) = at.name()?;
    if let Some((spec, rest)) = specifier(&rest) {
        return Some((
            Symbol {
                name,
                spec: Some(spec),
            },
            rest,
        ));
    }
    Some((Symbol { name, spec: None }, rest))
}

#[tactic(auto, unfolding(att_grammar::specs::Expressions::term_of))]
fn term<'a>(at: &Cursor<'a>) -> Option<(Term<'a>, Cursor<'a>)>
    ensures { result ≡ term_of at.now }
{
    if let Some((n, rest)) = at.number() {
        return Some((Term::Number(n), rest));
    }
    let (symbol, rest) = symbol(at)?;
    Some((Term::Symbol(symbol), rest))
}

// Whether a sign adds, and what follows it.
#[tactic(auto, unfolding(att_grammar::specs::Expressions::sign_of))]
fn sign<'a>(at: &Cursor<'a>) -> Option<(bool, Cursor<'a>)>
    ensures { result ≡ sign_of at.now }
{
    if let Some(rest) = at.expect(b'+') {
        return Some((true, rest));
    }
    let rest = at.expect(b'-')?;
    Some((false, rest))
}

// One more term.
fn with_term<'a>(total: Total<'a>, adds: bool, term: Term<'a>) -> Option<Total<'a>>
    requires { total.plus + total.minus < 2 ^ 127 }
    ensures value { result ≡ with_term total.entry adds term.entry }
    ensures growth { IfSome result (λ t. t.plus + t.minus < total.entry.plus + total.entry.minus + 2 ^ 64) }
{
    let Total {
        symbol,
        plus,
        minus,
    } = total;
    match (term, adds) {
        (Term::Number(n), true) => Some(Total {
            symbol,
            plus: plus + n as u128,
            minus,
        }),
        (Term::Number(n), false) => Some(Total {
            symbol,
            plus,
            minus: minus + n as u128,
        }),
        (Term::Symbol(s), true) => match symbol {
            None => Some(Total {
                symbol: Some(s),
                plus,
                minus,
            }),
            Some(_) => None,
        },
        (Term::Symbol(_), false) => None,
    }
}

// A sum as a signed number of 64 bits.
fn signed_sum(plus: u128, minus: u128) -> Option<i64>
    requires { plus + minus < 2 ^ 127 }
    ensures { result ≡ signed_sum plus minus }
{
    if plus < minus {
        let below = minus - plus;
        if below <= 1 << 63 {
            Some(-(below as i128) as i64)
        } else {
            None
        }
    } else {
        let above = plus - minus;
        if above < 1 << 63 {
            Some(above as i64)
        } else if above < 1 << 64 {
            Some((above as i128 - (1 << 64)) as i64)
        } else {
            None
        }
    }
}

// The terms that follow, each behind its sign.
#[tactic(auto, using(att_grammar::proofs::Terms::terms_end, att_grammar::proofs::Terms::terms_no_term, att_grammar::proofs::Terms::terms_no_total, att_grammar::proofs::Terms::terms_one, att_grammar::proofs::Terms::behind_sign_fewer, att_grammar::proofs::Terms::behind_term_fewer))]
fn terms<'a>(first: Total<'a>, at: Cursor<'a>) -> Option<(Total<'a>, Cursor<'a>)>
    requires total { first.plus + first.minus < 2 ^ 64 }
    requires few { length at < 2 ^ 32 }
    ensures value { result ≡ terms_from first.entry at.entry }
    ensures small { IfSome result (λ r. r.0.plus + r.0.minus < 2 ^ 127) }
{
    let mut total = first;
    let mut rest = at;
    while let Some((adds, behind)) = sign(&rest) {
        let (term, next) = term(&behind)?;
        total = with_term(total, adds, term)?;
        rest = next;
    }
    Some((total, rest))
}

// The terms behind a sign.
#[tactic(auto, unfolding(att_grammar::specs::Expressions::terms_behind))]
fn terms_behind<'a>(adds: bool, at: &Cursor<'a>) -> Option<(Sum<'a>, Cursor<'a>)>
    ensures { result ≡ terms_behind adds at.now }
{
    let (term, rest) = term(at)?;
    let none = Total {
        symbol: None,
        plus: 0,
        minus: 0,
    };
    let first = with_term(none, adds, term)?;
    let _ = rest.len();
    let (all, rest) = terms(first, rest)?;
    let Total {
        symbol,
        plus,
        minus,
    } = all;
    let number = signed_sum(plus, minus)?;
    Some((Sum { symbol, number }, rest))
}

/// Terms, the first perhaps behind a sign, and what follows them.
#[tactic(auto, unfolding(att_grammar::specs::Expressions::expression_of))]
pub fn expression<'a>(at: &Cursor<'a>) -> Option<(Sum<'a>, Cursor<'a>)>
    ensures { result ≡ expression_of at.now }
{
    if let Some((adds, behind)) = sign(at) {
        return terms_behind(adds, &behind);
    }
    terms_behind(true, at)
}
