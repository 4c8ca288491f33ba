ghost use Rattle.std.specs.Prelude.{◌≡◌};
ghost use Rattle.terms.specs.Roles.{role_name};

use crate::count::Count;
use vocabulary::NameId;

/// A role item: a role, taken one way round or the other.
#[derive(Clone, Copy, Debug, PartialEq, Eq, Hash)]
pub enum RoleItem {
    /// The role itself.
    Forward(NameId),
    /// The role's inverse: it relates two things where the role relates them the other way round.
    Inverse(NameId),
}

impl RoleItem {
    /// The name of the role, whichever way round it is taken.
    pub fn name(self) -> NameId
        ensures { result ≡ role_name self }
    {
        match self {
            RoleItem::Forward(name) | RoleItem::Inverse(name) => name,
        }
    }
}

/// How many terms may stand inside one another: `most_levels` of specs/Limits. Functions over terms count these levels
/// down.
pub const MOST_LEVELS: u8 = 24;

/// Where a term lies in its table: how many nodes were added before its own.
#[derive(Clone, Copy, Debug, PartialEq, Eq, Hash)]
pub struct TermId(pub u16);

/// One node of the table of terms. The terms inside it lie in the same table, and are named by their places there; the
/// tree that a node stands for, with all that is inside it, is a `Form` of specs/Forms.
#[derive(Clone, Copy, Debug, PartialEq, Eq, Hash)]
pub enum Term {
    /// ⊥, which no thing is in.
    Nothing,
    /// ⊤, which all things are in.
    Everything,
    /// The things of a concept.
    Concept(NameId),
    /// One individual alone.
    Just(NameId),
    /// All things but those of a term.
    Not(TermId),
    /// The things that two terms have in common.
    And(TermId, TermId),
    /// The things that have some partner by a role in a term.
    Exists(RoleItem, TermId),
    /// The things that have at least so many partners by a role in a term.
    AtLeast(Count, RoleItem, TermId),
}
