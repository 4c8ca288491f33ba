ghost use Rattle.std.specs.Prelude.{◌≡◌};
ghost use Rattle.locality.specs.Defaults.{concepts_of, roles_of};

use crate::defaults::{ConceptDefault, RoleDefault};

/// The locality tests that have a word. A test is what it sets the concepts and the roles outside
/// the list to; by that alone docs/LOCALITY.md and specs/Tables.antt say which axioms are local.
#[derive(Clone, Copy, Debug, Default, PartialEq, Eq, Hash)]
pub enum Test {
    /// Concepts and roles outside the list are empty. It is the default, where no test is named.
    #[default]
    Bottom,
    /// Concepts outside the list have all elements, roles outside it all pairs.
    Top,
}

impl Test {
    /// What the concepts outside the list are set to.
    pub fn concepts(self) -> ConceptDefault
        ensures { result ≡ concepts_of self }
    {
        match self {
            Test::Bottom => ConceptDefault::Empty,
            Test::Top => ConceptDefault::Full,
        }
    }

    /// What the roles outside the list are set to.
    pub fn roles(self) -> RoleDefault
        ensures { result ≡ roles_of self }
    {
        match self {
            Test::Bottom => RoleDefault::Empty,
            Test::Top => RoleDefault::Full,
        }
    }
}
