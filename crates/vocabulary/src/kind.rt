ghost use Rattle.std.specs.Prelude.{◌≡◌, Some};
ghost use Rattle.vocabulary.specs.Entities.{kind_or_fault};
ghost use Rattle.vocabulary.specs.Kinds.{code_of, kind_text};

use crate::fault::NameFault;
use std::fmt;

/// What a name stands for.
#[derive(Clone, Copy, Debug, PartialEq, Eq, Hash)]
pub enum Kind {
    /// A set of things, with the byte 0.
    Concept = 0,
    /// A relation between things, with the byte 1.
    Role,
    /// One thing, with the byte 2.
    Individual,
}

/// The kind that a byte stands for, 0 to 2, as `specs/Kinds` has it. Every other byte is refused as `BadKind`.
impl TryFrom<u8> for Kind {
    type Error = NameFault;

    ghost try_from_gives = { λ byte r. r ≡ kind_or_fault byte };

    fn try_from(byte: u8) -> Result<Kind, NameFault> {
        match byte {
            0 => Ok(Kind::Concept),
            1 => Ok(Kind::Role),
            2 => Ok(Kind::Individual),
            _ => Err(NameFault::BadKind),
        }
    }
}

/// The byte that stands for a kind.
impl From<Kind> for u8 {
    ghost from_gives = { λ kind byte. byte ≡ code_of kind };

    fn from(kind: Kind) -> u8 {
        kind as u8
    }
}

/// The kind by its word.
impl fmt::Display for Kind {
    ghost output = { λ kind. Some (kind_text kind) };

    fn fmt<W: fmt::Write>(&self, f: &mut fmt::Formatter<W>) -> fmt::Result {
        f.write_str(match self {
            Kind::Concept => "concept",
            Kind::Role => "role",
            Kind::Individual => "individual",
        })
    }
}
