// Operands as they are written: names are lent by the text, and registers keep their width.
ghost use Rattle.std.specs.Prelude.{◌≡◌};

use insn_ir::{Base, Reg, Width};
use std::marker::Model;

/// A word of the text.
#[derive(Drop)]
pub struct Word<'a> {
    bytes: &'a [u8],
}

impl<'a> Model for Word<'a> {
    ghost use Rattle.std.specs.Prelude.{List, ℕ};

    ghost Value = { List ℕ };

    ghost view = { λ w. w.bytes.now };
}

impl<'a> Word<'a> {
    /// The word that these bytes are.
    pub fn new(bytes: &'a [u8]) -> Word<'a>
        ensures { result ≡ bytes.now }
    {
        Word { bytes }
    }

    /// Its bytes.
    pub fn bytes(&self) -> &'a [u8]
        ensures { result.now ≡ self.now }
    {
        self.bytes
    }
}

/// A name, perhaps with a specifier behind `@`.
#[derive(Drop)]
pub struct Symbol<'a> {
    pub name: Word<'a>,
    pub spec: Option<Word<'a>>,
}

/// A term of an expression.
#[derive(Drop)]
pub enum Term<'a> {
    Number(u64),
    Symbol(Symbol<'a>),
}

/// Terms so far: the symbol, the sum of the numbers that are added and of those that are subtracted.
#[derive(Drop)]
pub struct Total<'a> {
    pub symbol: Option<Symbol<'a>>,
    pub plus: u128,
    pub minus: u128,
}

/// What an expression says: a symbol, where it has one, and the sum of its numbers.
#[derive(Drop)]
pub struct Sum<'a> {
    pub symbol: Option<Symbol<'a>>,
    pub number: i64,
}

/// A displacement: a number of 32 bits, or a symbol and an offset.
#[derive(Drop)]
pub enum Displacement<'a> {
    Number(i32),
    Symbol(Symbol<'a>, i64),
}

/// What stands in a parenthesis; the scale is 1 where none is written.
#[derive(Clone, Copy, PartialEq, Eq, Debug)]
pub struct Paren {
    pub base: Base,
    pub index: Option<Reg>,
    pub scale: u8,
}

/// A memory operand; the displacement is 0 where none is written.
#[derive(Drop)]
pub struct Address<'a> {
    pub fs: bool,
    pub disp: Displacement<'a>,
    pub paren: Paren,
}

/// An operand.
#[derive(Drop)]
pub enum Operand<'a> {
    Register(Reg, Width),
    Immediate(Sum<'a>),
    Memory(Address<'a>),
}

/// The operands of an instruction, in the order of the text.
#[derive(Drop)]
pub enum Operands<'a> {
    Nothing,
    One(Operand<'a>),
    Two(Operand<'a>, Operand<'a>),
    Three(Operand<'a>, Operand<'a>, Operand<'a>),
}
