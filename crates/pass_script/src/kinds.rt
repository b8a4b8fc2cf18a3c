// The kinds of passes and their names.

ghost use Rattle.std.specs.Prelude.{◌≡◌};
ghost use Rattle.pass_script.specs.Catalogue.{catalogue, name_of, kind_of};

/// The kinds of passes, in the order of the catalogue.
#[derive(Clone, Copy, PartialEq, Eq, Debug)]
pub enum PassKind {
    RedTest,
    RedMov,
    Zee,
    AddAdd,
    Dce,
    NopIn,
    NopKill,
    Loop16,
    BrAlign,
}

static CATALOGUE: [PassKind; 2] = [PassKind::NopIn, PassKind::NopKill];

/// The kinds that a script can name: those of the passes that are built.
pub fn catalogue() -> &'static [PassKind]
    ensures { result.now ≡ catalogue }
{
    &CATALOGUE
}

/// A pass's name in scripts and notes, for every kind.
pub fn name_of_kind(kind: PassKind) -> &'static str
    ensures { result.now ≡ name_of kind }
{
    match kind {
        PassKind::RedTest => "REDTEST",
        PassKind::RedMov => "REDMOV",
        PassKind::Zee => "ZEE",
        PassKind::AddAdd => "ADDADD",
        PassKind::Dce => "DCE",
        PassKind::NopIn => "NOPIN",
        PassKind::NopKill => "NOPKILL",
        PassKind::Loop16 => "LOOP16",
        PassKind::BrAlign => "BRALIGN",
    }
}

/// The kind of the catalogue that has a name, or `None` where none has it.
pub fn kind_of_name(name: &[u8]) -> Option<PassKind>
    ensures { result ≡ kind_of name.now }
{
    catalogue()
        .iter()
        .copied()
        .find(|kind| name_of_kind(*kind).as_bytes() == name)
}
