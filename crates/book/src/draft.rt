ghost use Rattle.std.specs.Prelude.{◌≡◌, true, false, IfOk};

use crate::book::{AxiomId, Book};
use crate::fault::{AxiomFault, FileFault, NoSuchAxiom};
use crate::frozen::Frozen;
use codec::Body;
use std::alloc::{AllocError, Global};
use std::marker::Model;
use terms::AxiomKind;
use vocabulary::{NameFault, NameId, NoSuchName};

/// A draft: a book that may be changed. A clause sees the book. What each call does and answers is told in `specs/Calls`,
/// its refusals in `docs/REFUSALS.md`.
#[derive(Drop)]
pub struct Draft {
    book: Book,
}

impl Model for Draft {
    ghost use Rattle.book.specs.declared.book.Book.{Book};

    ghost Value = { Book };

    ghost view = { λ d. d.book };
}

impl Draft {
    ghost use Rattle.refusals.specs.Turns.{Gives};
    ghost use Rattle.book.specs.Calls.{contents, empty};
    ghost use Rattle.book.specs.Calls.{naming_call, seeding_call, forcing_call};
    ghost use Rattle.book.specs.Calls.{axiom_call, filing_call};
    ghost use Rattle.book.specs.Fitting.{SeedingFits, ForcingFits, AxiomFits, FilingFits};
    ghost use Rattle.book.specs.Proper.{Proper};
    ghost use Rattle.book.specs.Refusals.{axiom_refusal, file_refusal, missing_axiom_refusal};
    ghost use Rattle.refusals.specs.Choice.{Judged, refusal_of};
    ghost use Rattle.vocabulary.specs.Fitting.{NamingFits};
    ghost use Rattle.vocabulary.specs.Refusals.{name_refusal, missing_name_refusal};

    /// An empty draft. All memory that the book will ever need is claimed here.
    pub fn open(heap: Global) -> Result<Draft, AllocError>
        ensures { IfOk result (λ d. contents d ≡ empty) }
    {
        Ok(Draft {
            book: Book::new(heap)?,
        })
    }

    // A draft of this book.
    pub(crate) fn of(book: Book) -> Draft
        ensures { result ≡ book }
    {
        Draft { book }
    }

    /// The book as it stands. It keeps every kind and every limit, as `specs/Proper` says.
    pub fn book(&self) -> &Book
        ensures value { result.now ≡ self.now }
        ensures proper { Proper (contents result.now) }
    {
        &self.book
    }

    /// Ends the drafting. The book passes over unaltered, and this is never refused.
    pub fn freeze(self) -> Frozen
        ensures { result ≡ self }
    {
        let Draft { book } = self;
        Frozen::of(book)
    }

    /// Makes a name of a kind byte and a label, and answers its number; the name is not seeded. Refused, with 5 to 9,
    /// where the byte stands for no kind, the label is none or is held, or there are too many names.
    pub fn name(&mut self, kind: u8, label: &[u8]) -> Result<NameId, NameFault>
        ensures turn { Gives (contents self.new) result
            (naming_call (contents self.old) kind label.now) }
        ensures law { Judged (NamingFits (contents self.old).names kind label.now)
            (refusal_of name_refusal result) }
    {
        self.book.name(kind, label)
    }

    /// Puts a name into the signature, whether it stands there already or not. Refused, with 14, where no name has the
    /// number.
    pub fn seed(&mut self, id: NameId) -> Result<(), NoSuchName>
        ensures turn { Gives (contents self.new) result
            (seeding_call (contents self.old) id.0 true) }
        ensures law { Judged (SeedingFits (contents self.old) id.0)
            (refusal_of missing_name_refusal result) }
    {
        self.book.set_seeded(id, true)
    }

    /// Takes a name out of the signature, whether it stands there or not. Refused, with 14, where no name has the number.
    pub fn unseed(&mut self, id: NameId) -> Result<(), NoSuchName>
        ensures turn { Gives (contents self.new) result
            (seeding_call (contents self.old) id.0 false) }
        ensures law { Judged (SeedingFits (contents self.old) id.0)
            (refusal_of missing_name_refusal result) }
    {
        self.book.set_seeded(id, false)
    }

    /// Lays an axiom aside, whether it is in force or not: then it is not. Refused, with 19, where no axiom has the number.
    pub fn lay_aside(&mut self, id: AxiomId) -> Result<(), NoSuchAxiom>
        ensures turn { Gives (contents self.new) result
            (forcing_call (contents self.old) id.0 false) }
        ensures law { Judged (ForcingFits (contents self.old) id.0)
            (refusal_of missing_axiom_refusal result) }
    {
        self.book.set_in_force(id, false)
    }

    /// Puts an axiom in force again, whether it was laid aside or not. Refused, with 19, where no axiom has the number.
    pub fn restore(&mut self, id: AxiomId) -> Result<(), NoSuchAxiom>
        ensures turn { Gives (contents self.new) result
            (forcing_call (contents self.old) id.0 true) }
        ensures law { Judged (ForcingFits (contents self.old) id.0)
            (refusal_of missing_axiom_refusal result) }
    {
        self.book.set_in_force(id, true)
    }

    /// Files an axiom by a record kind and the bytes of its body, and answers its number; it is in force. Refused, with 3
    /// and 4, where the kind is none of an axiom or the bytes are too many for a body, and as [`Draft::file_axiom`] is.
    pub fn file(&mut self, kind: u16, body: &[u8]) -> Result<AxiomId, FileFault>
        ensures turn { Gives (contents self.new) result
            (filing_call (contents self.old) kind body.now) }
        ensures law { Judged (FilingFits (contents self.old) kind body.now)
            (refusal_of file_refusal result) }
    {
        self.book.file(kind, body)
    }

    /// Files an axiom of a kind, and answers its number; it is in force. Refused, with 10 to 18, where an item of the body
    /// is faulty, bytes are left behind the last one, or there are too many axioms or bytes.
    pub fn file_axiom(&mut self, kind: AxiomKind, body: &Body<'_>) -> Result<AxiomId, AxiomFault>
        ensures turn { Gives (contents self.new) result
            (axiom_call (contents self.old) kind body.now) }
        ensures law { Judged (AxiomFits (contents self.old) kind body.now)
            (refusal_of axiom_refusal result) }
    {
        self.book.admit(kind, body)
    }
}
