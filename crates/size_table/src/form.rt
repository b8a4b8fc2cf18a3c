// The two encodings of a direct jump.

/// How far a direct `jmp` or `jcc` can reach: by a displacement of 8 bits, or of 32.
#[derive(Clone, Copy, PartialEq, Eq, Debug)]
pub enum JumpForm {
    Short,
    Near,
}
