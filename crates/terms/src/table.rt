ghost use Rattle.std.specs.Prelude.{◌≡◌, ℕ, true, ◌-◌, ◌<◌, [], length, take, IfOk, slice_index_or};
ghost use Rattle.terms.specs.declared.term.Term.TheVariants.{Nothing};
ghost use Rattle.terms.specs.Counts.{counts_in};
ghost use Rattle.terms.specs.Forms.{form, meaning, shape};
ghost use Rattle.terms.specs.Tables.{nodes_of, Pushed};

use crate::term::{Term, TermId};
use bounded::Bounded;
use std::alloc::{AllocError, Global};

/// How many nodes there is room for: `most_nodes` of specs/Limits.
pub const MOST_NODES: usize = 33280;

/// The nodes of all terms of a book, by their places from 0: 32,768 for the bodies that are filed, and 512 for one that is
/// being read. Each node takes at least one byte of its body, so there is room, and no memory is claimed after a table is
/// made. In clauses `nodes_of` gives the list of the nodes.
#[derive(Drop)]
pub struct Terms {
    nodes: Bounded<Term, MOST_NODES>,
}

impl Terms {
    /// An empty table, with room for every node that it will ever hold. It is refused only where the memory cannot be
    /// claimed.
    pub fn new(heap: Global) -> Result<Terms, AllocError>
        ensures { IfOk result (λ t. nodes_of t ≡ []) }
    {
        Ok(Terms {
            nodes: Bounded::new(heap)?,
        })
    }

    /// How many nodes there are.
    pub fn count(&self) -> usize
        ensures { result ≡ length (nodes_of self.now) }
    {
        self.nodes.len()
    }

    /// The node at a place, and ⊥ where there is none; no term of a book names such a place. The tree that it stands for is
    /// told in `specs/Forms`.
    pub fn at(&self, id: TermId) -> Term
        ensures value { result ≡ slice_index_or (nodes_of self.now) id.0 Nothing }
        ensures tree { (n : ℕ) → 0 < n →
            form n (nodes_of self.now) id ≡ shape (form (n - 1) (nodes_of self.now)) result }
        // every count in the term that begins here is at least 1
        ensures counts { counts_in (meaning (nodes_of self.now) id) ≡ true }
    {
        self.nodes
            .get(usize::from(id.0))
            .copied()
            .unwrap_or(Term::Nothing)
    }

    /// Adds a node behind the others, and answers its place. A table that has 33,280 nodes already stays as it is, and
    /// `None` is answered.
    pub fn push(&mut self, node: Term) -> Option<TermId>
        ensures { Pushed (nodes_of self.old) node result (nodes_of self.new) }
    {
        let at = self.nodes.push(node)?;
        Some(TermId(at as u16))
    }

    /// Keeps the first nodes, so many, and drops the others. Where there are no more than that, all stay.
    pub fn truncate(&mut self, count: usize)
        ensures { nodes_of self.new ≡ take count (nodes_of self.old) }
    {
        self.nodes.truncate(count);
    }
}
