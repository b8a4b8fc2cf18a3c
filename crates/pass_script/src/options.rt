// The options of passes.

ghost use Rattle.std.specs.Prelude.{◌≡◌, ◌<◌, ◌^◌, IsTrue};
ghost use Rattle.pass_script.specs.Catalogue.{option_of, name_of_option, is_in_range, with_number, defaults};

use crate::kinds::PassKind;

/// An option of a pass.
#[derive(Clone, Copy, PartialEq, Eq, Debug)]
pub enum PassOption {
    /// What NOPIN's generator begins with.
    Seed,
    /// How many of 100 draws insert a `nop`, for NOPIN.
    Density,
    /// 1 where NOPKILL removes alignments too, else 0.
    Align,
    /// How many branches of a function BRALIGN moves at most.
    Max,
}

impl PassOption {
    /// The option of a pass that has a name.
    pub fn of_name(kind: PassKind, name: &[u8]) -> Option<PassOption>
        ensures { result ≡ option_of kind name.now }
    {
        match (kind, name) {
            (PassKind::NopIn, b"seed") => Some(PassOption::Seed),
            (PassKind::NopIn, b"density") => Some(PassOption::Density),
            (PassKind::NopKill, b"align") => Some(PassOption::Align),
            (PassKind::BrAlign, b"max") => Some(PassOption::Max),
            _ => None,
        }
    }

    /// Whether a number lies in the option's range.
    pub fn is_in_range(self, number: u64) -> bool
        ensures { result ≡ is_in_range self number }
    {
        match self {
            PassOption::Seed => true,
            PassOption::Density => number <= 100,
            PassOption::Align => number <= 1,
            PassOption::Max => number >= 1 && number <= 64,
        }
    }
}

/// The options of a pass. Each pass reads those of its own.
#[derive(Clone, Copy, PartialEq, Eq, Debug)]
pub struct PassOpts {
    pub seed: u64,
    pub density: u32,
    pub align: u32,
    pub max: u32,
}

impl Default for PassOpts {
    ghost is_default = { λ o. o ≡ defaults };

    fn default() -> PassOpts {
        PassOpts {
            seed: 1,
            density: 10,
            align: 0,
            max: 16,
        }
    }
}

impl PassOpts {
    /// These, but for an option that is given a number of its range.
    pub fn with(self, option: PassOption, number: u64) -> PassOpts
        requires { IsTrue (is_in_range option number) }
        ensures { result ≡ with_number option number self }
    {
        match option {
            PassOption::Seed => PassOpts {
                seed: number,
                ..self
            },
            PassOption::Density => PassOpts {
                density: number as u32,
                ..self
            },
            PassOption::Align => PassOpts {
                align: number as u32,
                ..self
            },
            PassOption::Max => PassOpts {
                max: number as u32,
                ..self
            },
        }
    }
}
