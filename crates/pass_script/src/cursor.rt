// What is left of the text of a script.

ghost use Rattle.std.specs.Prelude.{◌≡◌, ◌≢◌, ◌+◌, ◌≤◌, ◌↔◌, take, ◌∷◌, [], IsTrue, length, MatchOption, slice_get, Some};
ghost use Rattle.std.specs.List.{prefix_len, take_while};
ghost use Rattle.pass_script.specs.Grammar.{is_digit, is_name_byte};
ghost use Rattle.pass_script.specs.walks.Left.{past};

use std::marker::Model;

/// The bytes of a text from a place on.
#[derive(Drop)]
pub struct Cursor<'a> {
    text: &'a [u8],
    place: usize,
}

impl<'a> Model for Cursor<'a> {
    ghost use Rattle.std.specs.Prelude.{drop, length, ◌≤◌};
    ghost use Rattle.pass_script.specs.walks.Left.{Left};

    ghost Value = { Left };

    ghost view = { λ c. record { place = c.place; bytes = drop c.place c.text.now } };

    ghost invariant = { λ c. c.place ≤ length c.text.now };
}

fn is_digit(b: u8) -> bool
    ensures { result ≡ is_digit b }
{
    b.is_ascii_digit()
}

fn is_name_byte(b: u8) -> bool
    ensures { result ≡ is_name_byte b }
{
    b.is_ascii_alphanumeric()
}

// How many letters and digits stand in front.
fn name_len(bytes: &[u8]) -> usize
    ensures value { result ≡ prefix_len is_name_byte bytes.now }
    ensures within { result ≤ length bytes.now }
{
    bytes.iter().take_while(|b| is_name_byte(**b)).count()
}

// How many digits stand in front.
fn digits_len(bytes: &[u8]) -> usize
    ensures value { result ≡ prefix_len is_digit bytes.now }
    ensures within { result ≤ length bytes.now }
{
    bytes.iter().take_while(|b| is_digit(**b)).count()
}

impl<'a> Cursor<'a> {
    /// All of a text.
    pub fn new(text: &'a [u8]) -> Cursor<'a>
        ensures { result ≡ record { place = 0; bytes = text.now } }
    {
        Cursor { text, place: 0 }
    }

    /// How many bytes stand before.
    pub fn place(&self) -> usize
        ensures { result ≡ self.now.place }
    {
        self.place
    }

    // The bytes from the place on.
    fn rest(&self) -> &'a [u8]
        ensures { result.now ≡ self.now.bytes }
    {
        &self.text[self.place..]
    }

    pub fn is_at_end(&self) -> bool
        ensures { IsTrue result ↔ (self.now.bytes ≡ []) }
    {
        self.rest().is_empty()
    }

    /// What follows this byte, where it stands in front.
    pub fn expect(&self, b: u8) -> Option<Cursor<'a>>
        ensures { MatchOption result (slice_get self.now.bytes 0 ≢ Some b) (λ c. (self.now.bytes ≡ b ∷ c.bytes) × (c.place ≡ self.now.place + 1)) }
    {
        match self.rest() {
            [first, ..] if *first == b => Some(self.split(1).1),
            _ => None,
        }
    }

    // So many bytes, and what follows them.
    fn split(&self, len: usize) -> (&'a [u8], Cursor<'a>)
        requires { len ≤ length self.now.bytes }
        ensures front { result.0.now ≡ take len self.now.bytes }
        ensures rest { result.1 ≡ past len self.now }
    {
        let rest = Cursor {
            text: self.text,
            place: self.place + len,
        };
        (&self.rest()[..len], rest)
    }

    /// The letters and digits in front, and what follows them.
    pub fn name(&self) -> (&'a [u8], Cursor<'a>)
        ensures name { result.0.now ≡ take_while is_name_byte self.now.bytes }
        ensures rest { result.1 ≡ past (prefix_len is_name_byte self.now.bytes) self.now }
    {
        self.split(name_len(self.rest()))
    }

    /// The digits in front, and what follows them.
    pub fn digits(&self) -> (&'a [u8], Cursor<'a>)
        ensures digits { result.0.now ≡ take_while is_digit self.now.bytes }
        ensures rest { result.1 ≡ past (prefix_len is_digit self.now.bytes) self.now }
    {
        self.split(digits_len(self.rest()))
    }
}
