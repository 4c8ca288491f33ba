// Tables as they are filled from a book: its signature, and its axioms in force.
ghost use Rattle.std.specs.Prelude.{◌≡◌, ◌≤◌, Bool, length, map};
ghost use Rattle.book.specs.Limits.{most_axioms};
ghost use Rattle.book.specs.Calls.{contents};
ghost use Rattle.locality.specs.Flags.{set_of, listed_in};
ghost use Rattle.extraction.specs.Sets.{is_in_force, signature};

use crate::tables::{Flags, NONE};
use book::{Book, Filed};
use vocabulary::Name;

// An item that is chosen or not: a name for the signature, an axiom to be in force.
trait Chosen {
    ghost chosen: { Self → Bool };

    fn is_chosen(&self) -> bool
        ensures { result ≡ chosen self.now };
}

impl Chosen for Name {
    ghost chosen = { λ n. n.seeded };

    fn is_chosen(&self) -> bool {
        self.seeded
    }
}

impl Chosen for Filed {
    ghost chosen = { λ f. f.in_force };

    fn is_chosen(&self) -> bool {
        self.in_force
    }
}

// A flag for each number that an item may have: whether there is one, and it is chosen.
fn choice<T: Chosen>(items: &[T]) -> Flags
    requires { length items.now ≤ most_axioms }
    ensures { set_of result ≡ set_of (map T.chosen items.now) }
{
    let mut flags = NONE;
    for (number, item) in items.iter().enumerate() {
        flags[number] = item.is_chosen();
    }
    flags
}

/// The signature of a book, as a list of flags: one for each number that a name may have.
pub fn seeded_names(book: &Book) -> Flags
    ensures { listed_in result ≡ signature (contents book.now) }
{
    choice(book.names().as_slice())
}

// The axioms of a book that are in force.
pub(crate) fn axioms_in_force(book: &Book) -> Flags
    ensures { set_of result ≡ is_in_force (contents book.now) }
{
    choice(book.axioms())
}
