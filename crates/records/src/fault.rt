ghost use Rattle.std.specs.Prelude.{◌≡◌, ◌^◌, ◌<◌, Some};
ghost use Rattle.refusals.specs.Refusals.{reason_text};
ghost use Rattle.records.specs.Faults.{seed_refusal, record_reason, place_in};
ghost use Rattle.records.specs.declared.fault.RecordFault.TheVariants.{Name as OfName};
ghost use Rattle.records.specs.declared.fault.RecordFault.TheVariants.{Axiom as OfAxiom};
ghost use Rattle.records.specs.declared.fault.RecordFault.TheVariants.{Seed as OfSeed};
ghost use Rattle.records.specs.declared.fault.SeedFault.TheVariants.{Item as OfItem};
ghost use Rattle.terms.specs.declared.fault.ItemFault.TheVariants.{WrongName as OfNumber};

use crate::reader::HEAD_LENGTH;
use book::AxiomFault;
use refusals::{Reason, Refusal};
use std::error::Error;
use std::fmt;
use terms::ItemFault;
use vocabulary::{NameFault, NoSuchName};

/// Why the record of a seed is refused.
#[derive(Clone, Copy, Debug, PartialEq, Eq, Hash)]
pub enum SeedFault {
    /// The name's number is faulty.
    Item(ItemFault),
    /// Bytes are left behind the number, from this place of the body on.
    LeftOver(usize),
}

/// A faulty item, told by the record.
impl From<ItemFault> for SeedFault {
    ghost from_gives = { λ e r. r ≡ OfItem e };

    fn from(fault: ItemFault) -> SeedFault {
        SeedFault::Item(fault)
    }
}

/// A number that no name has is a faulty item.
impl From<NoSuchName> for SeedFault {
    ghost from_gives = { λ e r. r ≡ OfItem (OfNumber 0) };

    fn from(_fault: NoSuchName) -> SeedFault {
        SeedFault::Item(ItemFault::WrongName(0))
    }
}

impl SeedFault {
    /// The refusal, with its place in the body, as `specs/Faults` says.
    pub fn refusal(self) -> Refusal
        ensures { result ≡ seed_refusal self }
    {
        match self {
            SeedFault::Item(fault) => fault.refusal(),
            SeedFault::LeftOver(place) => Refusal {
                reason: Reason::LeftOver,
                place,
            },
        }
    }
}

/// The reason in words.
impl fmt::Display for SeedFault {
    ghost output = { λ f. Some (reason_text (seed_refusal f).reason) };

    fn fmt<W: fmt::Write>(&self, f: &mut fmt::Formatter<W>) -> fmt::Result {
        write!(f, "{reason}", reason = self.refusal().reason)
    }
}

impl Error for SeedFault {}

/// Why a record of a file is not taken.
#[derive(Clone, Copy, Debug, PartialEq, Eq, Hash)]
pub enum RecordFault {
    /// The file ends inside the record's head or its body.
    CutShort,
    /// The kind is none of a record.
    UnknownKind,
    /// There are more bytes than a body may have.
    BodyTooLong,
    /// The name that it asks for is refused.
    Name(NameFault),
    /// The axiom that it asks for is refused.
    Axiom(AxiomFault),
    /// The seed that it asks for is refused.
    Seed(SeedFault),
}

/// A refused name, told by its record.
impl From<NameFault> for RecordFault {
    ghost from_gives = { λ e r. r ≡ OfName e };

    fn from(fault: NameFault) -> RecordFault {
        RecordFault::Name(fault)
    }
}

/// A refused axiom, told by its record.
impl From<AxiomFault> for RecordFault {
    ghost from_gives = { λ e r. r ≡ OfAxiom e };

    fn from(fault: AxiomFault) -> RecordFault {
        RecordFault::Axiom(fault)
    }
}

/// A refused seed, told by its record.
impl From<SeedFault> for RecordFault {
    ghost from_gives = { λ e r. r ≡ OfSeed e };

    fn from(fault: SeedFault) -> RecordFault {
        RecordFault::Seed(fault)
    }
}

impl RecordFault {
    /// The reason of the refusal, as `specs/Faults` says.
    pub fn reason(self) -> Reason
        ensures { result ≡ record_reason self }
    {
        match self {
            RecordFault::CutShort => Reason::RecordCutShort,
            RecordFault::UnknownKind => Reason::UnknownKind,
            RecordFault::BodyTooLong => Reason::BodyTooLong,
            RecordFault::Name(fault) => fault.refusal().reason,
            RecordFault::Axiom(fault) => fault.refusal().reason,
            RecordFault::Seed(fault) => fault.refusal().reason,
        }
    }

    // The place of the fault in a file, where the record begins at an offset.
    pub(crate) fn place_in(self, offset: usize) -> usize
        requires { place_in offset self < 2 ^ 64 }
        ensures { result ≡ place_in offset self }
    {
        match self {
            RecordFault::CutShort | RecordFault::UnknownKind | RecordFault::BodyTooLong => offset,
            RecordFault::Name(fault) => offset + HEAD_LENGTH + fault.refusal().place,
            RecordFault::Axiom(fault) => offset + HEAD_LENGTH + fault.refusal().place,
            RecordFault::Seed(fault) => offset + HEAD_LENGTH + fault.refusal().place,
        }
    }
}

/// The reason in words.
impl fmt::Display for RecordFault {
    ghost output = { λ f. Some (reason_text (record_reason f)) };

    fn fmt<W: fmt::Write>(&self, f: &mut fmt::Formatter<W>) -> fmt::Result {
        write!(f, "{reason}", reason = self.reason())
    }
}

impl Error for RecordFault {}
