ghost use Rattle.book.specs.Calls.{contents};
ghost use Rattle.book.specs.Contents.{Contents};
ghost use Rattle.book.specs.Proper.{Sound};
ghost use Rattle.extraction.specs.Extractions.{Extraction};
ghost use Rattle.extraction.specs.Extractors.{Meaning};
ghost use Rattle.extraction.specs.Extracts.{Extracts, HandsUp};

use crate::tables::Tables;
use book::AtRest;

/// An extractor: it chooses among the axioms in force of a book those that it keeps (docs/EXTRACTION.md). What it comes to
/// is settled by the book's contents, as data, and means what specs/Extractors.antt says: a pile is an extractor with
/// stages on top of each other over it, or with none.
pub trait Extractor {
    ghost extraction: { Self → Contents → Extraction };

    /// Answers the rounds, and leaves the kept set and its closed signature in the tables. It never refuses.
    fn extract(&self, rest: &AtRest, tables: &mut Tables) -> u32
        ensures { let b = contents rest.now in
            let x = extraction self.now b in
            Extracts b x.kept x.rounds tables.new result };

    /// Answers the rounds, and leaves the kept set in the tables: what a stage is handed up. The closed signature is left
    /// open.
    fn hand_up(&self, rest: &AtRest, tables: &mut Tables) -> u32
        ensures { let x = extraction self.now (contents rest.now) in
            HandsUp x.kept x.rounds tables.new result }
    {
        self.extract(rest, tables)
    }

    ghost means: { (e : Self) (b : Contents) → Sound b → Meaning b (extraction e b) };
}
