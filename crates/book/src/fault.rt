ghost use Rattle.std.specs.Prelude.{◌≡◌, Some};
ghost use Rattle.refusals.specs.Refusals.{reason_text};
ghost use Rattle.book.specs.Refusals.{axiom_refusal, file_refusal, missing_axiom_refusal};
ghost use Rattle.book.specs.declared.fault.AxiomFault.TheVariants.{Item as OfItem};
ghost use Rattle.book.specs.declared.fault.FileFault.TheVariants.{Axiom as OfAxiom};

use refusals::{Reason, Refusal};
use std::error::Error;
use std::fmt;
use terms::ItemFault;

/// Why the body of an axiom is refused, of a kind that there is.
#[derive(Clone, Copy, Debug, PartialEq, Eq, Hash)]
pub enum AxiomFault {
    /// An item of the body is faulty.
    Item(ItemFault),
    /// Bytes are left behind the last item, from this place of the body on.
    LeftOver(usize),
    /// There are as many axioms as a book may have.
    AxiomsFull,
    /// With this one the bodies would have more bytes than a book may have.
    BytesFull,
}

/// A faulty item, told by the book.
impl From<ItemFault> for AxiomFault {
    ghost from_gives = { λ e r. r ≡ OfItem e };

    fn from(fault: ItemFault) -> AxiomFault {
        AxiomFault::Item(fault)
    }
}

impl AxiomFault {
    /// The refusal, with its place in the body, as `specs/Refusals` says.
    pub fn refusal(self) -> Refusal
        ensures { result ≡ axiom_refusal self }
    {
        let (reason, place) = match self {
            AxiomFault::Item(fault) => return fault.refusal(),
            AxiomFault::LeftOver(place) => (Reason::LeftOver, place),
            AxiomFault::AxiomsFull => (Reason::AxiomsFull, 0),
            AxiomFault::BytesFull => (Reason::BytesFull, 0),
        };
        Refusal { reason, place }
    }
}

/// The reason in words.
impl fmt::Display for AxiomFault {
    ghost output = { λ f. Some (reason_text (axiom_refusal f).reason) };

    fn fmt<W: fmt::Write>(&self, f: &mut fmt::Formatter<W>) -> fmt::Result {
        write!(f, "{reason}", reason = self.refusal().reason)
    }
}

impl Error for AxiomFault {}

/// Why filing by a record kind is refused.
#[derive(Clone, Copy, Debug, PartialEq, Eq, Hash)]
pub enum FileFault {
    /// The kind is none of an axiom.
    UnknownKind,
    /// There are more bytes than a body may have.
    BodyTooLong,
    /// The body is refused.
    Axiom(AxiomFault),
}

/// A refused body, told by what is filed.
impl From<AxiomFault> for FileFault {
    ghost from_gives = { λ e r. r ≡ OfAxiom e };

    fn from(fault: AxiomFault) -> FileFault {
        FileFault::Axiom(fault)
    }
}

impl FileFault {
    /// The refusal, with its place in the body, as `specs/Refusals` says.
    pub fn refusal(self) -> Refusal
        ensures { result ≡ file_refusal self }
    {
        let reason = match self {
            FileFault::UnknownKind => Reason::UnknownKind,
            FileFault::BodyTooLong => Reason::BodyTooLong,
            FileFault::Axiom(fault) => return fault.refusal(),
        };
        Refusal { reason, place: 0 }
    }
}

/// The reason in words.
impl fmt::Display for FileFault {
    ghost output = { λ f. Some (reason_text (file_refusal f).reason) };

    fn fmt<W: fmt::Write>(&self, f: &mut fmt::Formatter<W>) -> fmt::Result {
        write!(f, "{reason}", reason = self.refusal().reason)
    }
}

impl Error for FileFault {}

/// Why laying aside or restoring is refused: no axiom has the number.
#[derive(Clone, Copy, Debug, PartialEq, Eq, Hash)]
pub struct NoSuchAxiom;

impl NoSuchAxiom {
    /// The refusal, at the place 0, as `specs/Refusals` says.
    pub fn refusal(self) -> Refusal
        ensures { result ≡ missing_axiom_refusal self }
    {
        Refusal {
            reason: Reason::NoSuchAxiom,
            place: 0,
        }
    }
}

/// The reason in words.
impl fmt::Display for NoSuchAxiom {
    ghost output = { λ f. Some (reason_text (missing_axiom_refusal f).reason) };

    fn fmt<W: fmt::Write>(&self, f: &mut fmt::Formatter<W>) -> fmt::Result {
        write!(f, "{reason}", reason = self.refusal().reason)
    }
}

impl Error for NoSuchAxiom {}
