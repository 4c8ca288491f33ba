ghost use Rattle.std.specs.Option.{ok_or};
ghost use Rattle.std.specs.Prelude.{◌≡◌};
ghost use Rattle.terms.specs.Codes.{axiom_kind_of, kind_number, kind_of_axiom};

use crate::code::UnknownCode;
use crate::term::{RoleItem, TermId};
use vocabulary::NameId;

/// The seven kinds of axioms, by the kinds of their records, 16 to 22. The axioms themselves are told at `Axiom`.
#[derive(Clone, Copy, Debug, PartialEq, Eq, Hash)]
pub enum AxiomKind {
    /// Two terms follow.
    Inclusion = 16,
    /// Two terms follow.
    Equivalence,
    /// Two role items follow.
    RoleInclusion,
    /// The number of a role follows.
    Transitive,
    /// A role item follows.
    Functional,
    /// The number of an individual and a term follow.
    ConceptAssertion,
    /// The numbers of a role and of two individuals follow.
    RoleAssertion,
}

/// The axiom kind of a record kind, 16 to 22, as `specs/Codes` has it. Every other number is refused.
impl TryFrom<u16> for AxiomKind {
    type Error = UnknownCode;

    ghost try_from_gives = { λ code r. r ≡ ok_or (axiom_kind_of code) (record {}) };

    fn try_from(code: u16) -> Result<AxiomKind, UnknownCode> {
        match code {
            16 => Ok(AxiomKind::Inclusion),
            17 => Ok(AxiomKind::Equivalence),
            18 => Ok(AxiomKind::RoleInclusion),
            19 => Ok(AxiomKind::Transitive),
            20 => Ok(AxiomKind::Functional),
            21 => Ok(AxiomKind::ConceptAssertion),
            22 => Ok(AxiomKind::RoleAssertion),
            _ => Err(UnknownCode),
        }
    }
}

/// The record kind of an axiom kind.
impl From<AxiomKind> for u16 {
    ghost from_gives = { λ kind code. code ≡ kind_number kind };

    fn from(kind: AxiomKind) -> u16 {
        kind as u16
    }
}

/// An axiom, whose terms lie in a table and are named by their places there. What it states, with its terms as trees, is a
/// `Rule` of specs/Forms.
#[derive(Clone, Copy, Debug)]
pub enum Axiom {
    /// The first concept is included in the second.
    Inclusion(TermId, TermId),
    /// The two concepts are equivalent.
    Equivalence(TermId, TermId),
    /// The first role is included in the second.
    RoleInclusion(RoleItem, RoleItem),
    /// The role is transitive.
    Transitive(NameId),
    /// The role has at most one partner for each thing.
    Functional(RoleItem),
    /// The individual is in the concept.
    ConceptAssertion(NameId, TermId),
    /// The role relates the first individual to the second.
    RoleAssertion(NameId, NameId, NameId),
}

impl Axiom {
    /// The kind of the axiom.
    pub fn kind(&self) -> AxiomKind
        ensures { result ≡ kind_of_axiom self.now }
    {
        match self {
            Axiom::Inclusion(_, _) => AxiomKind::Inclusion,
            Axiom::Equivalence(_, _) => AxiomKind::Equivalence,
            Axiom::RoleInclusion(_, _) => AxiomKind::RoleInclusion,
            Axiom::Transitive(_) => AxiomKind::Transitive,
            Axiom::Functional(_) => AxiomKind::Functional,
            Axiom::ConceptAssertion(_, _) => AxiomKind::ConceptAssertion,
            Axiom::RoleAssertion(_, _, _) => AxiomKind::RoleAssertion,
        }
    }
}
