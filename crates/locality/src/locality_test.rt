ghost use Rattle.std.specs.Prelude.{◌≡◌, Bool};
ghost use Rattle.terms.specs.Forms.{Rule, rule};
ghost use Rattle.terms.specs.Tables.{nodes_of};
ghost use Rattle.locality.specs.Defaults.{default_of};
ghost use Rattle.locality.specs.Laws.{TestLaws};
ghost use Rattle.locality.specs.Flags.{listed_in};
ghost use Rattle.locality.specs.Tables.{local_by};
ghost use Rattle.locality.specs.Worlds.{Names, Default};
ghost use Rattle.locality.specs.lemmas.Keeps.{keeps_laws};

use crate::checks::Checks;
use crate::test::Test;
use terms::{Axiom, Terms};

/// A locality test: it says of an axiom whether it is local with respect to a list of names. What
/// it says and what it sets names outside the list to are data, and every test keeps the three laws
/// of specs/Laws.antt (docs/LOCALITY.md). It has no refusals.
pub trait LocalityTest {
    // what it says of an axiom, with a list of names
    ghost local: { Self → Rule → Names → Bool };

    // what names outside the list are set to
    ghost default: { Self → Default };

    /// Whether the axiom, whose terms lie in the table, is local with respect to the list: one flag
    /// for each name number; a name past its end is not on it.
    fn is_local(&self, terms: &Terms, axiom: Axiom, listed: &[bool]) -> bool
        ensures { result ≡ local self.now
            (rule (nodes_of terms.now) «axiom») (listed_in listed.now) };

    ghost keeps: { (t : Self) → TestLaws (local t) (default t) };
}

/// Each test that has a word answers by its tables, in specs/Tables.antt.
impl LocalityTest for Test {
    ghost local = { local_by };

    ghost default = { default_of };

    ghost keeps = { keeps_laws };

    fn is_local(&self, terms: &Terms, axiom: Axiom, listed: &[bool]) -> bool {
        let checks = Checks {
            concepts: self.concepts(),
            roles: self.roles(),
            terms,
            listed,
        };
        checks.is_local(axiom)
    }
}
