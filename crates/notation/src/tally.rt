// How much a book holds.
ghost use Rattle.std.specs.Prelude.{◌≡◌, Some, count_by};
ghost use Rattle.vocabulary.specs.Kinds.{same_kind};

use book::Book;
use std::fmt;
use vocabulary::{Kind, Name};

/// How much a book holds: its names by kind, those in the signature, and its axioms.
#[derive(Clone, Copy, Debug)]
pub struct Tally {
    concepts: usize,
    roles: usize,
    individuals: usize,
    seeded: usize,
    axioms: usize,
}

// How many names are of a kind.
fn count_of(names: &[Name], kind: Kind) -> usize
    ensures { result ≡ count_by (λ n. same_kind n.kind kind) names.now }
{
    names.iter().filter(|name| name.kind == kind).count()
}

// How many names are in the signature.
fn count_seeded(names: &[Name]) -> usize
    ensures { result ≡ count_by (λ n. n.seeded) names.now }
{
    names.iter().filter(|name| name.seeded).count()
}

impl Tally {
    ghost use Rattle.book.specs.Calls.{contents};
    ghost use Rattle.notation.specs.Totals.{tally_of};

    /// The tally of a book.
    pub fn of(book: &Book) -> Tally
        ensures { result ≡ tally_of (contents book.now) }
    {
        let names = book.names().as_slice();
        Tally {
            concepts: count_of(names, Kind::Concept),
            roles: count_of(names, Kind::Role),
            individuals: count_of(names, Kind::Individual),
            seeded: count_seeded(names),
            axioms: book.axioms().len(),
        }
    }
}

/// A line for each number, as specs/Totals.antt has them.
impl fmt::Display for Tally {
    ghost use Rattle.notation.specs.Totals.{tally_text};

    ghost output = { λ t. Some (tally_text t) };

    fn fmt<W: fmt::Write>(&self, f: &mut fmt::Formatter<W>) -> fmt::Result {
        let Tally {
            concepts,
            roles,
            individuals,
            seeded,
            axioms,
        } = *self;
        write!(
            f,
            "concepts: {concepts}\nroles: {roles}\nindividuals: {individuals}\naxioms: {axioms}\nseeded names: {seeded}"
        )
    }
}
