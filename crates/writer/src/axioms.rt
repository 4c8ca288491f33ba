ghost use Rattle.std.specs.Prelude.{◌≡◌, [], ◌∷◌};
ghost use Rattle.terms.specs.Forms.{form, meaning, rule};
ghost use Rattle.terms.specs.Tables.{nodes_of};
ghost use Rattle.terms.specs.Writing.{role_bytes, term_bytes, body_bytes};
ghost use Rattle.writer.specs.Placing.{IsReadBack, Writes};

use crate::sink::{Cursor, Sink};
use terms::{Axiom, Code, Direction, MOST_LEVELS, RoleItem, Term, TermId, Terms};

// A role item: its direction, then its role.
fn put_role<S: Sink>(sink: &mut S, item: RoleItem)
    ensures { S.takes sink.old (role_bytes item) sink.new }
{
    let (direction, role) = match item {
        RoleItem::Forward(role) => (Direction::Forward, role),
        RoleItem::Inverse(role) => (Direction::Inverse, role),
    };
    sink.put(u8::from(direction));
    sink.put_number(role.0);
}

// A term, down to a number of levels; of what a full sink has no room for, nothing is gone through.
fn put_term<S: Sink>(sink: &mut S, terms: &Terms, id: TermId, levels: u8)
    ensures { S.takes sink.old (term_bytes (form levels (nodes_of terms.now) id)) sink.new }
{
    if sink.is_full() {
        return;
    }
    if levels == 0 {
        sink.put(u8::from(Code::Nothing));
        return;
    }
    match terms.at(id) {
        Term::Nothing => sink.put(u8::from(Code::Nothing)),
        Term::Everything => sink.put(u8::from(Code::Everything)),
        Term::Concept(name) => {
            sink.put(u8::from(Code::Concept));
            sink.put_number(name.0);
        }
        Term::Just(name) => {
            sink.put(u8::from(Code::Just));
            sink.put_number(name.0);
        }
        Term::Not(inner) => {
            sink.put(u8::from(Code::Not));
            put_term(sink, terms, inner, levels - 1);
        }
        Term::And(first, second) => {
            sink.put(u8::from(Code::And));
            put_term(sink, terms, first, levels - 1);
            put_term(sink, terms, second, levels - 1);
        }
        Term::Exists(role, inner) => {
            sink.put(u8::from(Code::Exists));
            put_role(sink, role);
            put_term(sink, terms, inner, levels - 1);
        }
        Term::AtLeast(count, role, inner) => {
            sink.put(u8::from(Code::AtLeast));
            sink.put_number(count.get());
            put_role(sink, role);
            put_term(sink, terms, inner, levels - 1);
        }
    }
}

// A term with all its levels.
fn put_whole<S: Sink>(sink: &mut S, terms: &Terms, id: TermId)
    ensures { S.takes sink.old (term_bytes (meaning (nodes_of terms.now) id)) sink.new }
{
    put_term(sink, terms, id, MOST_LEVELS);
}

/// Puts the body of an axiom, whose terms lie in a table, into a sink. Its bytes are those of `specs/Writing` of terms, and
/// are read back as `specs/Placing` says.
#[tactic(auto, using(terms::proofs::ReadBack::read_back))]
pub fn put_axiom<S: Sink>(sink: &mut S, terms: &Terms, axiom: Axiom)
    ensures bytes { S.takes sink.old (body_bytes (rule (nodes_of terms.now) «axiom»)) sink.new }
    ensures back { IsReadBack (rule (nodes_of terms.now) «axiom») }
{
    match axiom {
        Axiom::Inclusion(lower, upper) => {
            put_whole(sink, terms, lower);
            put_whole(sink, terms, upper);
        }
        Axiom::Equivalence(left, right) => {
            put_whole(sink, terms, left);
            put_whole(sink, terms, right);
        }
        Axiom::RoleInclusion(narrow, wide) => {
            put_role(sink, narrow);
            put_role(sink, wide);
        }
        Axiom::Transitive(role) => sink.put_number(role.0),
        Axiom::Functional(role) => put_role(sink, role),
        Axiom::ConceptAssertion(individual, concept) => {
            sink.put_number(individual.0);
            put_whole(sink, terms, concept);
        }
        Axiom::RoleAssertion(role, from, to) => {
            sink.put_number(role.0);
            sink.put_number(from.0);
            sink.put_number(to.0);
        }
    }
}

/// Writes the body of an axiom, from a place in a buffer on, as far as there is room. Answers the place behind it, or None
/// where the room is short. What was written is read back, as `specs/Placing` says.
pub fn write_axiom(terms: &Terms, axiom: Axiom, out: &mut [u8], at: usize) -> Option<usize>
    ensures { Writes (rule (nodes_of terms.now) «axiom») out.old at result out.new }
{
    let mut cursor = Cursor { out, at: Some(at) };
    put_axiom(&mut cursor, terms, axiom);
    cursor.at
}
