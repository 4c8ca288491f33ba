// Which axioms of a book are local against its signature.
ghost use Rattle.std.specs.Prelude.{◌≡◌, Some};
ghost use Rattle.terms.specs.Forms.{rule};
ghost use Rattle.terms.specs.Tables.{nodes_of};
ghost use Rattle.book.specs.Calls.{contents, terms_of};
ghost use Rattle.book.specs.Contents.{filing};
ghost use Rattle.locality.specs.Flags.{listed_in};
ghost use Rattle.locality.specs.Tables.{local_by};
ghost use Rattle.extraction.specs.Sets.{signature};
ghost use Rattle.notation.specs.Lists.{numbered, verdict_line, verdict_text};

use crate::lines::{Lines, write_lines};
use book::{Book, Filed};
use extraction::{Flags, seeded_names};
use locality::{LocalityTest, Test};
use std::fmt;
use terms::Axiom;

/// The verdicts of the tests on each axiom of a book, against the names in its signature.
#[derive(Clone, Copy)]
pub struct Verdicts<'a> {
    book: &'a Book,
    listed: Flags,
}

impl<'a> Verdicts<'a> {
    ghost use Rattle.notation.specs.Verdicts.{book_of, names_of};

    /// The verdicts on a book's axioms.
    pub fn of(book: &'a Book) -> Verdicts<'a>
        ensures book { book_of result ≡ book.now }
        ensures listed { names_of result ≡ signature (contents book.now) }
    {
        Verdicts {
            book,
            listed: seeded_names(book),
        }
    }

    // The verdict of a test on an axiom.
    fn verdict(&self, test: Test, axiom: Axiom) -> &'static str
        ensures { let tested = rule (nodes_of (terms_of self.now.book.now)) «axiom» in
            result.now ≡ verdict_text (local_by test tested (listed_in self.now.listed)) }
    {
        if test.is_local(self.book.terms(), axiom, &self.listed) {
            "local"
        } else {
            "not local"
        }
    }
}

impl Lines<Filed> for Verdicts<'_> {
    ghost line = { λ v n x.
        verdict_line (listed_in v.listed) n (filing (nodes_of (terms_of v.book.now)) x) };

    fn write_line<W: fmt::Write>(
        &self,
        f: &mut fmt::Formatter<W>,
        number: usize,
        filed: &Filed,
    ) -> fmt::Result {
        let bottom = self.verdict(Test::Bottom, filed.axiom);
        let top = self.verdict(Test::Top, filed.axiom);
        writeln!(f, "{number}: bottom {bottom}, top {top}")
    }
}

/// A line for each axiom, as specs/Lists.antt has it.
impl fmt::Display for Verdicts<'_> {
    ghost output = { λ v.
        Some (numbered (verdict_line (listed_in v.listed)) (contents v.book.now).axioms) };

    #[tactic(auto, using(crate::proofs::Numbering::listing))]
    fn fmt<W: fmt::Write>(&self, f: &mut fmt::Formatter<W>) -> fmt::Result {
        write_lines(f, self, self.book.axioms())
    }
}
