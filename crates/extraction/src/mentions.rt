// The names of an axiom, added to a list.
ghost use Rattle.terms.specs.Forms.{form, meaning, rule};
ghost use Rattle.terms.specs.Tables.{nodes_of};
ghost use Rattle.locality.specs.Mentions.{same, in_term, in_rule};
ghost use Rattle.extraction.specs.Listing.{Adds};

use terms::{Axiom, MOST_LEVELS, Term, TermId, Terms};
use vocabulary::NameId;

fn list_name(listed: &mut [bool], id: NameId)
    ensures { Adds (same id) listed.old listed.new }
{
    let at = usize::from(id.0);
    if at < listed.len() {
        listed[at] = true;
    }
}

// Adds the names of a term, read down to a number of levels.
fn list_term(listed: &mut [bool], terms: &Terms, id: TermId, levels: u8)
    ensures { Adds (in_term (form levels (nodes_of terms.now) id)) listed.old listed.new }
{
    if levels == 0 {
        return;
    }
    match terms.at(id) {
        Term::Nothing | Term::Everything => {}
        Term::Concept(name) | Term::Just(name) => list_name(listed, name),
        Term::Not(inner) => list_term(listed, terms, inner, levels - 1),
        Term::And(left, right) => {
            list_term(listed, terms, left, levels - 1);
            list_term(listed, terms, right, levels - 1);
        }
        Term::Exists(role, inner) | Term::AtLeast(_, role, inner) => {
            list_name(listed, role.name());
            list_term(listed, terms, inner, levels - 1);
        }
    }
}

// Adds the names of a whole term.
#[tactic(auto, unfolding(terms::specs::Forms::meaning))]
fn list_whole(listed: &mut [bool], terms: &Terms, id: TermId)
    ensures { Adds (in_term (meaning (nodes_of terms.now) id)) listed.old listed.new }
{
    list_term(listed, terms, id, MOST_LEVELS);
}

// Adds the names of an axiom, individuals too.
pub(crate) fn list_axiom(listed: &mut [bool], terms: &Terms, axiom: Axiom)
    ensures { Adds (in_rule (rule (nodes_of terms.now) «axiom»)) listed.old listed.new }
{
    match axiom {
        Axiom::Inclusion(left, right) | Axiom::Equivalence(left, right) => {
            list_whole(listed, terms, left);
            list_whole(listed, terms, right);
        }
        Axiom::RoleInclusion(left, right) => {
            list_name(listed, left.name());
            list_name(listed, right.name());
        }
        Axiom::Transitive(role) => list_name(listed, role),
        Axiom::Functional(role) => list_name(listed, role.name()),
        Axiom::ConceptAssertion(individual, term) => {
            list_name(listed, individual);
            list_whole(listed, terms, term);
        }
        Axiom::RoleAssertion(role, from, to) => {
            list_name(listed, role);
            list_name(listed, from);
            list_name(listed, to);
        }
    }
}
