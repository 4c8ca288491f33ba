ghost use Rattle.std.specs.Prelude.{◌≡◌, ◌+◌, ◌-◌, ◌≤◌, length};
ghost use Rattle.terms.specs.Limits.{most_nodes};
ghost use Rattle.terms.specs.Reading.{read_axiom, read_rest, read_term, read_whole};
ghost use Rattle.terms.specs.Tables.{nodes_of};

use crate::reader::BodyReader;
use terms::{Axiom, AxiomKind, Code, ItemFault, MOST_LEVELS, Term, TermId, Terms};
use vocabulary::Kind;

// Reads the terms of a body into a table, which has room for a node for each byte that is still to be read.
#[derive(Drop)]
pub(crate) struct TermReader<'a> {
    pub(crate) items: BodyReader<'a>,
    pub(crate) terms: &'a mut Terms,
    ghost room: { length (nodes_of terms.now) + (length items.body.now - items.at) ≤ most_nodes },
}

impl TermReader<'_> {
    ghost use Rattle.codec.specs.Building.{Grows, LaysTerm, LaysInner, LaysAxiom, bytes_of, names_of};

    // A term, where so many levels are still allowed.
    #[cycle(after_code_term)]
    fn term(&mut self, allowed: u8) -> Result<TermId, ItemFault>
        ensures { Grows LaysTerm self.old result self.new
            (read_term (bytes_of self.old) (names_of self.old) allowed self.old.items.at) }
    {
        if allowed == 0 {
            return Err(ItemFault::TooDeep(self.items.at));
        }
        let code = self.items.code()?;
        let node = self.after_code(allowed - 1, code)?;
        Ok(self.terms.push(node).unwrap())
    }

    // The node that a code begins; the terms inside it have so many levels left.
    #[cycle(after_code_term)]
    fn after_code(&mut self, allowed: u8, code: Code) -> Result<Term, ItemFault>
        ensures { Grows LaysInner self.old result self.new
            (read_rest (bytes_of self.old) (names_of self.old)
            (read_term (bytes_of self.old) (names_of self.old) allowed)
            code self.old.items.at) }
    {
        match code {
            Code::Nothing => Ok(Term::Nothing),
            Code::Everything => Ok(Term::Everything),
            Code::Concept => Ok(Term::Concept(self.items.name(Kind::Concept)?)),
            Code::Just => Ok(Term::Just(self.items.name(Kind::Individual)?)),
            Code::Not => Ok(Term::Not(self.term(allowed)?)),
            Code::And => {
                let first = self.term(allowed)?;
                let second = self.term(allowed)?;
                Ok(Term::And(first, second))
            }
            Code::Exists => {
                let role = self.items.role_item()?;
                let inner = self.term(allowed)?;
                Ok(Term::Exists(role, inner))
            }
            Code::AtLeast => {
                let count = self.items.count()?;
                let role = self.items.role_item()?;
                let inner = self.term(allowed)?;
                Ok(Term::AtLeast(count, role, inner))
            }
        }
    }

    // A term of an axiom, of at most 24 levels.
    fn whole(&mut self) -> Result<TermId, ItemFault>
        ensures { Grows LaysTerm self.old result self.new
            (read_whole (bytes_of self.old) (names_of self.old) self.old.items.at) }
    {
        self.term(MOST_LEVELS)
    }

    // The items of an axiom, from the body's beginning.
    pub(crate) fn axiom(&mut self, kind: AxiomKind) -> Result<Axiom, ItemFault>
        requires { self.old.items.at ≡ 0 }
        ensures { Grows LaysAxiom self.old result self.new
            (read_axiom (bytes_of self.old) (names_of self.old) kind) }
    {
        match kind {
            AxiomKind::Inclusion => {
                let lower = self.whole()?;
                let upper = self.whole()?;
                Ok(Axiom::Inclusion(lower, upper))
            }
            AxiomKind::Equivalence => {
                let left = self.whole()?;
                let right = self.whole()?;
                Ok(Axiom::Equivalence(left, right))
            }
            AxiomKind::RoleInclusion => {
                let narrow = self.items.role_item()?;
                let wide = self.items.role_item()?;
                Ok(Axiom::RoleInclusion(narrow, wide))
            }
            AxiomKind::Transitive => Ok(Axiom::Transitive(self.items.name(Kind::Role)?)),
            AxiomKind::Functional => Ok(Axiom::Functional(self.items.role_item()?)),
            AxiomKind::ConceptAssertion => {
                let individual = self.items.name(Kind::Individual)?;
                let concept = self.whole()?;
                Ok(Axiom::ConceptAssertion(individual, concept))
            }
            AxiomKind::RoleAssertion => {
                let role = self.items.name(Kind::Role)?;
                let from = self.items.name(Kind::Individual)?;
                let to = self.items.name(Kind::Individual)?;
                Ok(Axiom::RoleAssertion(role, from, to))
            }
        }
    }
}
