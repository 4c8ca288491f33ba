ghost use Rattle.std.specs.Option.{ok_or};
ghost use Rattle.std.specs.Prelude.{◌≡◌};

use terms::{AxiomKind, UnknownCode};

/// What a record asks for.
#[derive(Clone, Copy, Debug, PartialEq, Eq, Hash)]
pub enum RecordKind {
    /// That a name be made.
    Name,
    /// That an axiom of a kind be filed.
    Axiom(AxiomKind),
    /// That a name be seeded.
    Seed,
}

/// The record kind of a number, as `specs/Kinds` says: 1, 16 to 22, or 32.
impl TryFrom<u16> for RecordKind {
    ghost use Rattle.records.specs.Kinds.{record_kind_of};

    type Error = UnknownCode;

    ghost try_from_gives = { λ number r. r ≡ ok_or (record_kind_of number) (record {}) };

    fn try_from(number: u16) -> Result<RecordKind, UnknownCode> {
        match number {
            1 => Ok(RecordKind::Name),
            32 => Ok(RecordKind::Seed),
            _ => Ok(RecordKind::Axiom(AxiomKind::try_from(number)?)),
        }
    }
}

/// The number of a record kind, as `specs/Kinds` says.
impl From<RecordKind> for u16 {
    ghost use Rattle.records.specs.Kinds.{record_number};

    ghost from_gives = { λ kind number. number ≡ record_number kind };

    fn from(kind: RecordKind) -> u16 {
        match kind {
            RecordKind::Name => 1,
            RecordKind::Axiom(kind) => u16::from(kind),
            RecordKind::Seed => 32,
        }
    }
}
