// What a cut kept, told to its reader.
ghost use Rattle.std.specs.Fmt.{WritesOnOk};
ghost use Rattle.std.specs.Prelude.{◌≡◌, Some, length};
ghost use Rattle.vocabulary.specs.Entities.{entity};
ghost use Rattle.vocabulary.specs.Naming.{entities};
ghost use Rattle.terms.specs.Tables.{nodes_of};
ghost use Rattle.book.specs.Calls.{contents, vocabulary_of, terms_of};
ghost use Rattle.book.specs.Contents.{filing};
ghost use Rattle.notation.specs.Lists.{numbered};
ghost use Rattle.notation.specs.Marks.{
  is_marked,
  signature_line,
  drawn_line,
  kept_line,
  signature_section,
  kept_section,
  drawn_section,
};

use crate::lines::{Lines, Listed, write_lines};
use crate::lists::Numbered;
use crate::shown::Shown;
use book::{Book, Filed};
use extraction::Marking;
use std::fmt;
use std::fmt::Formatter;
use vocabulary::Name;

// Whether the item with this number is marked. A mark is a byte, 1 or 0, as marking writes it.
fn is_marked(marks: &[u8], number: usize) -> bool
    ensures { result ≡ is_marked marks.now number }
{
    marks.get(number).copied() == Some(1)
}

// The line of a name that is in the signature.
#[derive(Clone, Copy)]
struct SeededLine;

impl Lines<Name> for SeededLine {
    ghost line = { λ s n x. signature_line n (entity x) };

    fn write_line<W: fmt::Write>(
        &self,
        f: &mut Formatter<W>,
        number: usize,
        name: &Name,
    ) -> fmt::Result {
        if !name.seeded {
            return Ok(());
        }
        let entry = Numbered(number, name);
        writeln!(f, "  {entry}")
    }
}

// The line of a name that is drawn in: marked in these marks, and not in the signature.
#[derive(Clone, Copy)]
struct DrawnLine<'a>(&'a [u8]);

impl Lines<Name> for DrawnLine<'_> {
    ghost line = { λ d n x. drawn_line d.0.now n (entity x) };

    fn write_line<W: fmt::Write>(
        &self,
        f: &mut Formatter<W>,
        number: usize,
        name: &Name,
    ) -> fmt::Result {
        if name.seeded || !is_marked(self.0, number) {
            return Ok(());
        }
        let entry = Numbered(number, name);
        writeln!(f, "  {entry}")
    }
}

// The marked axioms of a book, a line for each.
#[derive(Clone, Copy)]
struct Kept<'a>(&'a Book, &'a [u8]);

impl Lines<Filed> for Kept<'_> {
    ghost line = { λ k n x.
        let names = entities (vocabulary_of k.0.now) in
        kept_line k.1.now names n (filing (nodes_of (terms_of k.0.now)) x) };

    fn write_line<W: fmt::Write>(
        &self,
        f: &mut Formatter<W>,
        number: usize,
        filed: &Filed,
    ) -> fmt::Result {
        if !is_marked(self.1, number) {
            return Ok(());
        }
        let axiom = Shown(self.0, filed.axiom);
        writeln!(f, "  {number}: {axiom}")
    }
}

impl fmt::Display for Kept<'_> {
    ghost output = { λ k.
        let b = contents k.0.now in Some (numbered (kept_line k.1.now b.names) b.axioms) };

    #[tactic(auto, using(crate::proofs::Numbering::listing))]
    fn fmt<W: fmt::Write>(&self, f: &mut Formatter<W>) -> fmt::Result {
        write_lines(f, self, self.0.axioms())
    }
}

/// A book that was cut: how many records its file had, the two buffers of marks as marking writes them, its answer, and how
/// many bytes the part has.
#[derive(Clone, Copy)]
pub struct Report<'a> {
    /// The book.
    pub book: &'a Book,
    /// How many records its file had.
    pub records: usize,
    /// The marks of the axioms, a byte for each.
    pub axioms: &'a [u8],
    /// The marks of the names, a byte for each.
    pub names: &'a [u8],
    /// What marking answered.
    pub marking: Marking,
    /// How many bytes the part has.
    pub bytes: usize,
}

// How many axioms a book has.
fn count_filed(book: &Book) -> usize
    ensures { result ≡ length (contents book.now).axioms }
{
    book.axioms().len()
}

impl Report<'_> {
    // The names in the signature.
    #[tactic(auto, using(crate::proofs::Numbering::listing))]
    fn write_signature<W: fmt::Write>(&self, f: &mut Formatter<W>) -> fmt::Result
        ensures { let text = signature_section (contents self.now.book.now) in
            WritesOnOk W.write_str_gives f.old result text f.new }
    {
        let names = Listed {
            lines: SeededLine,
            items: self.book.names().as_slice(),
        };
        write!(f, "signature:\n{names}")
    }

    // The axioms kept, behind their number.
    fn write_kept<W: fmt::Write>(&self, f: &mut Formatter<W>) -> fmt::Result
        ensures { let b = contents self.now.book.now in
            let text = kept_section b self.now.axioms.now self.now.marking.marked in
            WritesOnOk W.write_str_gives f.old result text f.new }
    {
        let marked = self.marking.marked;
        let filed = count_filed(self.book);
        let kept = Kept(self.book, self.axioms);
        write!(f, "axioms kept: {marked} of {filed}\n{kept}")
    }

    // The names drawn in, behind their number.
    #[tactic(auto, using(crate::proofs::Numbering::listing))]
    fn write_drawn<W: fmt::Write>(&self, f: &mut Formatter<W>) -> fmt::Result
        ensures { let b = contents self.now.book.now in
            let text = drawn_section b self.now.names.now self.now.marking.drawn_in in
            WritesOnOk W.write_str_gives f.old result text f.new }
    {
        let drawn = self.marking.drawn_in;
        let names = Listed {
            lines: DrawnLine(self.names),
            items: self.book.names().as_slice(),
        };
        write!(f, "names drawn in: {drawn}\n{names}")
    }
}

/// The report of a cut, as specs/Reports.antt has it.
impl fmt::Display for Report<'_> {
    ghost use Rattle.notation.specs.Reports.{summary_of, summary_text};

    ghost output = { λ r. Some (summary_text (summary_of r)) };

    fn fmt<W: fmt::Write>(&self, f: &mut Formatter<W>) -> fmt::Result {
        let records = self.records;
        writeln!(f, "records read: {records}")?;
        self.write_signature(f)?;
        self.write_kept(f)?;
        self.write_drawn(f)?;
        let rounds = self.marking.rounds;
        let bytes = self.bytes;
        writeln!(f, "rounds: {rounds}\nbytes written: {bytes}")
    }
}
