// Names, terms and axioms in the notation of description logics.
ghost use Rattle.std.specs.Prelude.{◌≡◌, Some};
ghost use Rattle.std.specs.Fmt.{WritesOnOk};
ghost use Rattle.book.specs.Calls.{vocabulary_of, terms_of};
ghost use Rattle.vocabulary.specs.Naming.{entities};
ghost use Rattle.terms.specs.Forms.{form, meaning, rule};
ghost use Rattle.terms.specs.Tables.{nodes_of};
ghost use Rattle.notation.specs.Notation.{
  name_text,
  role_text,
  term_text,
  ends_open,
  predicate_text,
  axiom_text,
};

use book::Book;
use std::fmt;
use std::fmt::Formatter;
use terms::{Axiom, MOST_LEVELS, RoleItem, Term, TermId};
use vocabulary::NameId;

/// A part of a book (a name, a role, a term or an axiom) in the notation of description logics, as specs/Notation.antt has it.
#[derive(Clone, Copy)]
pub struct Shown<'a, T>(pub &'a Book, pub T);

/// A name, by its label.
impl fmt::Display for Shown<'_, NameId> {
    ghost output = { λ s. Some (name_text (entities (vocabulary_of s.0.now)) s.1) };

    fn fmt<W: fmt::Write>(&self, f: &mut Formatter<W>) -> fmt::Result {
        match self.0.names().get(self.1) {
            Some(name) => write!(f, "{label}", label = name.label),
            None => f.write_str("?"),
        }
    }
}

/// A role, or the inverse of one.
impl fmt::Display for Shown<'_, RoleItem> {
    ghost output = { λ s. Some (role_text (entities (vocabulary_of s.0.now)) s.1) };

    #[tactic(auto, using(crate::proofs::Signs::signs))]
    fn fmt<W: fmt::Write>(&self, f: &mut Formatter<W>) -> fmt::Result {
        match self.1 {
            RoleItem::Forward(id) => {
                let role = Shown(self.0, id);
                write!(f, "{role}")
            }
            RoleItem::Inverse(id) => {
                let role = Shown(self.0, id);
                write!(f, "{role}⁻")
            }
        }
    }
}

// Writes a term, read down to a number of levels; ⊥ stands below them, as where there is no term. No term of a book has
// more levels than it is shown with, so of a book's axioms nothing is left out.
#[tactic(auto, using(crate::proofs::Signs::signs))]
fn write_term<W: fmt::Write>(
    f: &mut Formatter<W>,
    book: &Book,
    id: TermId,
    levels: u8,
) -> fmt::Result
    ensures { let tree = form levels (nodes_of (terms_of book.now)) id in
        let text = term_text (entities (vocabulary_of book.now)) tree in
        WritesOnOk W.write_str_gives f.old result text f.new }
{
    if levels == 0 {
        return f.write_str("⊥");
    }
    match book.terms().at(id) {
        Term::Nothing => f.write_str("⊥"),
        Term::Everything => f.write_str("⊤"),
        Term::Concept(id) => {
            let concept = Shown(book, id);
            write!(f, "{concept}")
        }
        Term::Just(id) => {
            let individual = Shown(book, id);
            write!(f, "{{{individual}}}")
        }
        Term::Not(term) => {
            f.write_str("¬")?;
            write_term(f, book, term, levels - 1)
        }
        Term::And(left, right) => {
            f.write_str("(")?;
            write_term(f, book, left, levels - 1)?;
            f.write_str(" ⊓ ")?;
            write_term(f, book, right, levels - 1)?;
            f.write_str(")")
        }
        Term::Exists(role, term) => {
            let role = Shown(book, role);
            write!(f, "∃{role}.")?;
            write_term(f, book, term, levels - 1)
        }
        Term::AtLeast(count, role, term) => {
            let count = count.get();
            let role = Shown(book, role);
            write!(f, "≥{count} {role}.")?;
            write_term(f, book, term, levels - 1)
        }
    }
}

/// A term.
impl fmt::Display for Shown<'_, TermId> {
    ghost output = { λ s.
        let names = entities (vocabulary_of s.0.now) in
        Some (term_text names (meaning (nodes_of (terms_of s.0.now)) s.1)) };

    #[tactic(auto, unfolding(terms::specs::Forms::meaning))]
    fn fmt<W: fmt::Write>(&self, f: &mut Formatter<W>) -> fmt::Result {
        write_term(f, self.0, self.1, MOST_LEVELS)
    }
}

// Whether a term needs parentheses where an argument follows it.
#[tactic(auto, unfolding(terms::specs::Forms::meaning))]
fn is_open(book: &Book, id: TermId) -> bool
    ensures { result ≡ ends_open (meaning (nodes_of (terms_of book.now)) id) }
{
    matches!(
        book.terms().at(id),
        Term::Not(_) | Term::Exists(_, _) | Term::AtLeast(_, _, _)
    )
}

// A term that an argument follows.
#[derive(Clone, Copy)]
struct Predicate(TermId);

impl fmt::Display for Shown<'_, Predicate> {
    ghost output = { λ s.
        let names = entities (vocabulary_of s.0.now) in
        Some (predicate_text names (meaning (nodes_of (terms_of s.0.now)) s.1.0)) };

    fn fmt<W: fmt::Write>(&self, f: &mut Formatter<W>) -> fmt::Result {
        let Predicate(id) = self.1;
        let term = Shown(self.0, id);
        if is_open(self.0, id) {
            write!(f, "({term})")
        } else {
            write!(f, "{term}")
        }
    }
}

/// An axiom.
impl fmt::Display for Shown<'_, Axiom> {
    ghost output = { λ s.
        let names = entities (vocabulary_of s.0.now) in
        Some (axiom_text names (rule (nodes_of (terms_of s.0.now)) s.1)) };

    #[tactic(auto, using(crate::proofs::Signs::signs))]
    fn fmt<W: fmt::Write>(&self, f: &mut Formatter<W>) -> fmt::Result {
        let book = self.0;
        match self.1 {
            Axiom::Inclusion(lower, upper) => {
                let lower = Shown(book, lower);
                let upper = Shown(book, upper);
                write!(f, "{lower} ⊑ {upper}")
            }
            Axiom::Equivalence(left, right) => {
                let left = Shown(book, left);
                let right = Shown(book, right);
                write!(f, "{left} ≡ {right}")
            }
            Axiom::RoleInclusion(narrow, wide) => {
                let narrow = Shown(book, narrow);
                let wide = Shown(book, wide);
                write!(f, "{narrow} ⊑ {wide}")
            }
            Axiom::Transitive(id) => {
                let role = Shown(book, id);
                write!(f, "Tra({role})")
            }
            Axiom::Functional(role) => {
                let role = Shown(book, role);
                write!(f, "Fun({role})")
            }
            Axiom::ConceptAssertion(id, concept) => {
                let individual = Shown(book, id);
                let concept = Shown(book, Predicate(concept));
                write!(f, "{concept}({individual})")
            }
            Axiom::RoleAssertion(role, from, to) => {
                let role = Shown(book, role);
                let from = Shown(book, from);
                let to = Shown(book, to);
                write!(f, "{role}({from}, {to})")
            }
        }
    }
}
