ghost use Rattle.book.specs.Calls.{contents};
ghost use Rattle.extraction.specs.Extractions.{whole};
ghost use Rattle.extraction.specs.Extracts.{Holding};
ghost use Rattle.locality.specs.Flags.{set_of, listed_in};
ghost use Rattle.extraction.specs.Sets.{axiom_count, is_in_force};
ghost use Rattle.extraction.specs.Visits.{ListedTo};
ghost use Rattle.extraction.specs.lemmas.Repaired.{whole_meaning};

use crate::extractor::Extractor;
use crate::mentions::list_axiom;
use crate::start::{axioms_in_force, seeded_names};
use crate::tables::{Flags, Tables};
use book::{AtRest, Book};

/// The whole extractor: all axioms in force are kept, so worlds need no repair, and no round is counted.
#[derive(Clone, Copy, Debug)]
pub struct Whole;

// Adds the names of the axioms in a set to a list.
fn list_names(listed: &mut Flags, book: &Book, kept: &Flags)
    ensures { let b = contents book.now in
        ListedTo b (axiom_count b) (set_of kept.now) (listed_in listed.old) listed.new }
{
    for (filed, is_kept) in book.axioms().iter().zip(kept) {
        if *is_kept {
            list_axiom(listed, book.terms(), filed.axiom);
        }
    }
}

// Keeps all axioms in force.
fn keep_all(book: &Book, tables: &mut Tables)
    ensures { let b = contents book.now in
        Holding b (is_in_force b) tables.new }
{
    tables.kept = axioms_in_force(book);
    tables.closed = seeded_names(book);
    list_names(&mut tables.closed, book, &tables.kept);
}

/// It has no stage.
impl Extractor for Whole {
    ghost extraction = { λ e. whole };

    ghost means = { λ e b right. whole_meaning b };

    fn extract(&self, rest: &AtRest, tables: &mut Tables) -> u32 {
        keep_all(rest.book(), tables);
        0
    }

    fn hand_up(&self, rest: &AtRest, tables: &mut Tables) -> u32 {
        tables.kept = axioms_in_force(rest.book());
        0
    }
}
