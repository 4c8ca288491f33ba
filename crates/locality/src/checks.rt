ghost use Rattle.std.specs.Prelude.{◌≡◌, ◌&&◌};
ghost use Rattle.terms.specs.Forms.{form, meaning, rule};
ghost use Rattle.terms.specs.Tables.{nodes_of};
ghost use Rattle.locality.specs.Flags.{listed_in};
ghost use Rattle.locality.specs.Tables.{outside, empty_term, full_term, local_rule};

use crate::defaults::{ConceptDefault, RoleDefault};
use terms::{Axiom, MOST_LEVELS, Term, TermId, Terms};
use vocabulary::NameId;

// What an axiom is tested against: a list of names, and what the names outside it are set to.
#[derive(Clone, Copy)]
pub(crate) struct Checks<'a> {
    pub(crate) concepts: ConceptDefault,
    pub(crate) roles: RoleDefault,
    pub(crate) terms: &'a Terms,
    pub(crate) listed: &'a [bool],
}

impl Checks<'_> {
    // Whether the name is on the list; one past the list's end is not.
    fn is_listed(&self, id: NameId) -> bool
        ensures { result ≡ listed_in self.now.listed.now id }
    {
        self.listed.get(usize::from(id.0)).copied().unwrap_or(false)
    }

    // The name is outside the list, and what it is then set to has the property.
    fn is_outside(&self, property: bool, id: NameId) -> bool
        ensures { result ≡ outside (listed_in self.now.listed.now) property id }
    {
        property && !self.is_listed(id)
    }

    // Whether the term is empty by its form, read down to a number of levels. The two checks are no
    // mirrors of one another: "at least" is never full, and one individual is neither.
    #[cycle(is_empty_is_full)]
    fn is_empty(&self, id: TermId, levels: u8) -> bool
        ensures { result ≡ empty_term self.now.concepts self.now.roles
            (listed_in self.now.listed.now) (form levels (nodes_of self.now.terms.now) id) }
    {
        if levels == 0 {
            return true;
        }
        match self.terms.at(id) {
            Term::Nothing => true,
            Term::Everything => false,
            Term::Concept(name) => self.is_outside(self.concepts.has_no_element(), name),
            Term::Just(_) => false, // the individual is in it
            Term::Not(inner) => self.is_full(inner, levels - 1),
            Term::And(left, right) => self.is_empty(left, levels - 1)
                || self.is_empty(right, levels - 1),
            Term::Exists(role, inner) => self.is_outside(self.roles.has_no_pair(), role.name())
                || self.is_empty(inner, levels - 1),
            Term::AtLeast(count, role, inner) => self.is_outside(
                self.roles.falls_short(count.get()),
                role.name(),
            ) || self.is_empty(inner, levels - 1),
        }
    }

    // Whether the term is full by its form, read down to a number of levels.
    #[cycle(is_empty_is_full)]
    fn is_full(&self, id: TermId, levels: u8) -> bool
        ensures { result ≡ full_term self.now.concepts self.now.roles
            (listed_in self.now.listed.now) (form levels (nodes_of self.now.terms.now) id) }
    {
        if levels == 0 {
            return false;
        }
        match self.terms.at(id) {
            Term::Nothing => false,
            Term::Everything => true,
            Term::Concept(name) => self.is_outside(self.concepts.has_every_element(), name),
            Term::Just(_) => false, // there may be other elements
            Term::Not(inner) => self.is_empty(inner, levels - 1),
            Term::And(left, right) => self.is_full(left, levels - 1)
                && self.is_full(right, levels - 1),
            Term::Exists(role, inner) => self.is_outside(self.roles.has_partners(), role.name())
                && self.is_full(inner, levels - 1),
            Term::AtLeast(_, _, _) => false, // there may be too few elements
        }
    }

    // Whether the whole term is empty by its form.
    #[tactic(auto, unfolding(terms::specs::Forms::meaning))]
    fn never(&self, id: TermId) -> bool
        ensures { result ≡ empty_term self.now.concepts self.now.roles
            (listed_in self.now.listed.now) (meaning (nodes_of self.now.terms.now) id) }
    {
        self.is_empty(id, MOST_LEVELS)
    }

    // Whether the whole term is full by its form.
    #[tactic(auto, unfolding(terms::specs::Forms::meaning))]
    fn always(&self, id: TermId) -> bool
        ensures { result ≡ full_term self.now.concepts self.now.roles
            (listed_in self.now.listed.now) (meaning (nodes_of self.now.terms.now) id) }
    {
        self.is_full(id, MOST_LEVELS)
    }

    // The axiom is local against the list.
    pub(crate) fn is_local(&self, axiom: Axiom) -> bool
        ensures { result ≡ local_rule self.now.concepts self.now.roles
            (listed_in self.now.listed.now) (rule (nodes_of self.now.terms.now) «axiom») }
    {
        match axiom {
            Axiom::Inclusion(left, right) => self.never(left) || self.always(right),
            Axiom::Equivalence(left, right) => {
                let empty = self.never(left) && self.never(right);
                let full = self.always(left) && self.always(right);
                empty || full
            }
            Axiom::RoleInclusion(left, right) => {
                self.is_outside(self.roles.has_no_pair(), left.name())
                    || self.is_outside(self.roles.has_every_pair(), right.name())
            }
            Axiom::Transitive(role) => self.is_outside(self.roles.is_transitive(), role),
            Axiom::Functional(role) => self.is_outside(self.roles.is_functional(), role.name()),
            Axiom::ConceptAssertion(_, term) => self.always(term),
            Axiom::RoleAssertion(role, _, _) => self.is_outside(self.roles.has_every_pair(), role),
        }
    }
}
