ghost use Rattle.std.specs.Prelude.{◌≡◌, ◌+◌, ◌≤◌, true, map, length, IfOk, Some, None};
ghost use Rattle.std.specs.Prelude.{if◌then◌else◌, nat_le, nat_lt};
ghost use Rattle.std.specs.List.{AllByRecursion, list_all};
ghost use Rattle.vocabulary.specs.Naming.{entities};
ghost use Rattle.terms.specs.Tables.{nodes_of};
ghost use Rattle.codec.specs.Bodies.{longest_body};
ghost use Rattle.book.specs.Contents.{filing, bodies_length, sound, Firm};
ghost use Rattle.book.specs.Limits.{most_axioms, most_bytes};

use crate::fault::{AxiomFault, FileFault, NoSuchAxiom};
use bounded::Bounded;
use codec::{Body, read_axiom};
use std::alloc::{AllocError, Global};
use terms::{Axiom, AxiomKind, Terms};
use vocabulary::{NameFault, NameId, NoSuchName, Vocabulary};

/// How many axioms a book may have.
pub const MOST_AXIOMS: usize = 1024;

// How many bytes the bodies of all axioms may have together.
/// How many bytes the bodies of a book may have together.
pub const MOST_BYTES: usize = 32768;

/// The number of an axiom: how many were filed before it.
#[derive(Clone, Copy, Debug, PartialEq, Eq, Hash)]
pub struct AxiomId(pub u16);

/// An axiom of a book.
#[derive(Clone, Copy, Debug)]
pub struct Filed {
    /// What it states; its terms lie in the book's table.
    pub axiom: Axiom,
    /// Filing puts it in force, laying aside ends that, and restoring puts it in force anew.
    pub in_force: bool,
}

/// The contents of a rule book: its names, some of them seeded, and its axioms, some of them in force. What every book
/// keeps is told in `docs/BOOK.md`.
#[derive(Drop)]
pub struct Book {
    names: Vocabulary,
    terms: Terms,
    axioms: Bounded<Filed, MOST_AXIOMS>,
    bytes: usize,
    // as the table's own invariant says; lemmas about books need it of the value
    ghost few: { length axioms ≤ most_axioms },
    ghost tally: { bytes ≡ bodies_length (map (filing (nodes_of terms)) axioms) },
    ghost limit: { bytes ≤ most_bytes },
    ghost sparse: { length (nodes_of terms) ≤ bytes },
    ghost right: { list_all (sound (entities names))
        (map (filing (nodes_of terms)) axioms) ≡ true },
    ghost firm: { ∥ AllByRecursion (Firm (nodes_of terms)) axioms ∥₁ },
}

impl Book {
    ghost use Rattle.refusals.specs.Turns.{Gives};
    ghost use Rattle.book.specs.declared.fault.AxiomFault.TheVariants.{LeftOver, AxiomsFull};
    ghost use Rattle.book.specs.declared.fault.AxiomFault.TheVariants.{BytesFull};
    ghost use Rattle.book.specs.Calls.{contents, empty, blank, vocabulary_of, terms_of, filed_of};
    ghost use Rattle.book.specs.Calls.{naming_call, seeding_call, forcing_call};
    ghost use Rattle.book.specs.Calls.{axiom_call, filing_call};

    // A book with nothing in it. All memory that it will ever need is claimed here.
    pub(crate) fn new(heap: Global) -> Result<Book, AllocError>
        ensures { IfOk result (λ b. contents b ≡ empty) }
    {
        Ok(Book {
            names: Vocabulary::new(heap)?,
            terms: Terms::new(heap)?,
            axioms: Bounded::new(heap)?,
            bytes: 0,
        })
    }

    /// Its names, by number.
    pub fn names(&self) -> &Vocabulary
        ensures { result.now ≡ vocabulary_of self.now }
    {
        &self.names
    }

    /// The table that the terms of its axioms lie in.
    pub fn terms(&self) -> &Terms
        ensures { result.now ≡ terms_of self.now }
    {
        &self.terms
    }

    /// The axioms in the order filed, so each at its number.
    pub fn axioms(&self) -> &[Filed]
        ensures { result.now ≡ filed_of self.now }
    {
        self.axioms.as_slice()
    }

    /// Whether the book has no name and no axiom.
    pub fn is_blank(&self) -> bool
        ensures { result ≡ blank (contents self.now) }
    {
        self.names.count() == 0 && self.axioms.len() == 0
    }

    // Makes a name of a kind byte and a label, and answers its number; the byte is any, as `Draft::name` tells.
    pub(crate) fn name(&mut self, kind: u8, label: &[u8]) -> Result<NameId, NameFault>
        ensures { Gives (contents self.new) result
            (naming_call (contents self.old) kind label.now) }
    {
        self.names.name(kind, label)
    }

    // Puts a name into the signature or takes it out.
    pub(crate) fn set_seeded(&mut self, id: NameId, on: bool) -> Result<(), NoSuchName>
        ensures { Gives (contents self.new) result (seeding_call (contents self.old) id.0 on) }
    {
        self.names.set_seeded(id, on)
    }

    // Puts an axiom in force, or lays it aside.
    pub(crate) fn set_in_force(&mut self, id: AxiomId, on: bool) -> Result<(), NoSuchAxiom>
        ensures { Gives (contents self.new) result (forcing_call (contents self.old) id.0 on) }
    {
        let filed = self.axioms.get_mut(usize::from(id.0)).ok_or(NoSuchAxiom)?;
        filed.in_force = on;
        Ok(())
    }

    // What stands against an axiom whose items end at `end` of `len` bytes, where there are `count` axioms with `bytes`
    // bytes together.
    fn obstacle(count: usize, bytes: usize, len: usize, end: usize) -> Option<AxiomFault>
        requires len_bound { len ≤ longest_body }
        requires bytes_bound { bytes ≤ most_bytes }
        ensures { result
            ≡ (if nat_lt end len then Some (LeftOver end)
            else if nat_le most_axioms count then Some AxiomsFull
            else if nat_lt most_bytes (bytes + len) then Some BytesFull
            else None) }
    {
        if end < len {
            Some(AxiomFault::LeftOver(end))
        } else if count >= MOST_AXIOMS {
            Some(AxiomFault::AxiomsFull)
        } else if bytes + len > MOST_BYTES {
            Some(AxiomFault::BytesFull)
        } else {
            None
        }
    }

    // Files an axiom of a kind.
    pub(crate) fn admit(&mut self, kind: AxiomKind, body: &Body<'_>) -> Result<AxiomId, AxiomFault>
        ensures { Gives (contents self.new) result (axiom_call (contents self.old) kind body.now) }
    {
        let len = body.len();
        let before = self.terms.count();
        let parsed = read_axiom(&mut self.terms, &self.names, kind, body).unwrap()?;
        let count = self.axioms.len();
        if let Some(fault) = Book::obstacle(count, self.bytes, len, parsed.end) {
            self.terms.truncate(before);
            return Err(fault);
        }
        let filed = Filed {
            axiom: parsed.axiom,
            in_force: true,
        };
        let number = self.axioms.push(filed).unwrap();
        self.bytes += len;
        Ok(AxiomId(number as u16))
    }

    // Files an axiom by a record kind and the bytes of its body.
    pub(crate) fn file(&mut self, kind: u16, body: &[u8]) -> Result<AxiomId, FileFault>
        ensures { Gives (contents self.new) result (filing_call (contents self.old) kind body.now) }
    {
        let kind = AxiomKind::try_from(kind).map_err(|_| FileFault::UnknownKind)?;
        let body = Body::new(body).ok_or(FileFault::BodyTooLong)?;
        Ok(self.admit(kind, &body)?)
    }
}
