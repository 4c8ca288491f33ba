ghost use Rattle.std.specs.Prelude.{◌≡◌, Some};
ghost use Rattle.refusals.specs.Refusals.{reason_text};
ghost use Rattle.vocabulary.specs.Refusals.{name_refusal, missing_name_refusal};

use refusals::{Reason, Refusal};
use std::error::Error;
use std::fmt;

/// Why a name is refused. When each of these fits is told in `specs/Fitting`.
#[derive(Clone, Copy, Debug, PartialEq, Eq, Hash)]
pub enum NameFault {
    /// The kind byte is missing or stands for no kind.
    BadKind,
    /// The label has no byte, or more than 32.
    LabelLength,
    /// A byte of the label is below 33 or above 126.
    LabelByte,
    /// A name of the same kind has the label already.
    LabelTaken,
    /// There are 1,024 names already.
    TableFull,
}

impl NameFault {
    /// The refusal of naming that the fault is told by: its place is 0. `specs/Refusals` has its reason.
    pub fn refusal(self) -> Refusal
        ensures { result ≡ name_refusal self }
    {
        let reason = match self {
            NameFault::BadKind => Reason::BadKind,
            NameFault::LabelLength => Reason::LabelLength,
            NameFault::LabelByte => Reason::LabelByte,
            NameFault::LabelTaken => Reason::LabelTaken,
            NameFault::TableFull => Reason::NamesFull,
        };
        Refusal { reason, place: 0 }
    }
}

/// The reason in words.
impl fmt::Display for NameFault {
    ghost output = { λ f. Some (reason_text (name_refusal f).reason) };

    fn fmt<W: fmt::Write>(&self, f: &mut fmt::Formatter<W>) -> fmt::Result {
        fmt::Display::fmt(&self.refusal().reason, f)
    }
}

impl Error for NameFault {}

/// Why seeding or unseeding is refused: no name has the number.
#[derive(Clone, Copy, Debug, PartialEq, Eq, Hash)]
pub struct NoSuchName;

impl NoSuchName {
    /// The refusal: the number is an item that is wrong, as `specs/Refusals` says.
    pub fn refusal(self) -> Refusal
        ensures { result ≡ missing_name_refusal self }
    {
        Refusal {
            reason: Reason::WrongName,
            place: 0,
        }
    }
}

/// The reason in words.
impl fmt::Display for NoSuchName {
    ghost output = { λ f. Some (reason_text (missing_name_refusal f).reason) };

    fn fmt<W: fmt::Write>(&self, f: &mut fmt::Formatter<W>) -> fmt::Result {
        fmt::Display::fmt(&Reason::WrongName, f)
    }
}

impl Error for NoSuchName {}
