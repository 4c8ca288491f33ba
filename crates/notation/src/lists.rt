// The names and the axioms of a book, a line for each.
ghost use Rattle.std.specs.Prelude.{◌≡◌, Some};
ghost use Rattle.vocabulary.specs.Entities.{entity};
ghost use Rattle.vocabulary.specs.Naming.{entities};
ghost use Rattle.terms.specs.Tables.{nodes_of};
ghost use Rattle.book.specs.Calls.{contents, vocabulary_of, terms_of};
ghost use Rattle.book.specs.Contents.{filing};
ghost use Rattle.notation.specs.Lists.{
  entity_text,
  entity_line,
  filing_line,
  force_text,
  listing_text,
  numbered,
  seeded_text,
};

use crate::lines::{Lines, Listed};
use crate::shown::Shown;
use book::{Book, Filed};
use std::fmt;
use std::fmt::Formatter;
use vocabulary::Name;

/// A name with its number, shown as number, kind and label.
#[derive(Clone, Copy)]
pub struct Numbered<'a>(pub usize, pub &'a Name);

/// The number, the kind and the label.
impl fmt::Display for Numbered<'_> {
    ghost output = { λ n. Some (entity_text n.0 (entity n.1.now)) };

    fn fmt<W: fmt::Write>(&self, f: &mut Formatter<W>) -> fmt::Result {
        let number = self.0;
        let Name { kind, label, .. } = *self.1;
        write!(f, "{number}: {kind} {label}")
    }
}

// What stands behind a name, seeded or not.
fn seeded_mark(seeded: bool) -> &'static str
    ensures { result.now ≡ seeded_text seeded }
{
    if seeded { " (seeded)" } else { "" }
}

// What stands behind an axiom, in force or not.
fn force_mark(in_force: bool) -> &'static str
    ensures { result.now ≡ force_text in_force }
{
    if in_force { "" } else { " (laid aside)" }
}

// The line of a name.
#[derive(Clone, Copy)]
struct NameLine;

impl Lines<Name> for NameLine {
    ghost line = { λ l n x. entity_line n (entity x) };

    fn write_line<W: fmt::Write>(
        &self,
        f: &mut Formatter<W>,
        number: usize,
        name: &Name,
    ) -> fmt::Result {
        let entry = Numbered(number, name);
        let mark = seeded_mark(name.seeded);
        writeln!(f, "{entry}{mark}")
    }
}

// The line of an axiom of a book.
#[derive(Clone, Copy)]
struct AxiomLine<'a>(&'a Book);

impl Lines<Filed> for AxiomLine<'_> {
    ghost line = { λ l n x.
        filing_line (entities (vocabulary_of l.0.now)) n (filing (nodes_of (terms_of l.0.now)) x) };

    fn write_line<W: fmt::Write>(
        &self,
        f: &mut Formatter<W>,
        number: usize,
        filed: &Filed,
    ) -> fmt::Result {
        let axiom = Shown(self.0, filed.axiom);
        let mark = force_mark(filed.in_force);
        writeln!(f, "{number}: {axiom}{mark}")
    }
}

/// All that a book holds, as specs/Lists.antt has it: a line for each name, then a line for each axiom.
#[derive(Clone, Copy)]
pub struct Listing<'a>(pub &'a Book);

/// The two lists.
impl fmt::Display for Listing<'_> {
    ghost output = { λ l. Some (listing_text (contents l.0.now)) };

    #[tactic(auto, using(crate::proofs::Numbering::listing))]
    fn fmt<W: fmt::Write>(&self, f: &mut Formatter<W>) -> fmt::Result {
        let names = Listed {
            lines: NameLine,
            items: self.0.names().as_slice(),
        };
        let axioms = Listed {
            lines: AxiomLine(self.0),
            items: self.0.axioms(),
        };
        write!(f, "names:\n{names}axioms:\n{axioms}")
    }
}
