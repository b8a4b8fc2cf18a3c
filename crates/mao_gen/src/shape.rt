// The shapes of functions.

ghost use Rattle.std.specs.Prelude.{◌≡◌};
ghost use Rattle.mao_gen.specs.Shapes.{shape_of};

/// What the body of a function is.
#[derive(Clone, Copy, PartialEq, Eq, Debug)]
pub enum Shape {
    /// A subtraction whose result is tested once more before a branch.
    Branch,
    /// Two loads of one stack slot.
    Loads,
    /// Two additions to one register, and a `nop`.
    Sums,
    /// A loop that counts down.
    Loop,
}

impl Shape {
    /// The shape that a random word stands for.
    pub fn of_word(word: u32) -> Shape
        ensures { result ≡ shape_of word }
    {
        match word % 4 {
            0 => Shape::Branch,
            1 => Shape::Loads,
            2 => Shape::Sums,
            _ => Shape::Loop,
        }
    }
}
