ghost use Rattle.std.specs.Prelude.{◌≡◌, Some};
ghost use Rattle.refusals.specs.Refusals.{reason_text};
ghost use Rattle.records.specs.Stops.{stop_of, load_refusal, taken_before};
ghost use Rattle.records.specs.declared.load_fault.LoadFault.TheVariants.{Stopped as AtRecord};

use crate::stopped::Stopped;
use refusals::{Reason, Refusal};
use std::error::Error;
use std::fmt;

/// Why a loading is refused.
#[derive(Clone, Copy, Debug, PartialEq, Eq, Hash)]
pub enum LoadFault {
    /// The book has a name or an axiom.
    NotEmpty,
    /// A record is not taken.
    Stopped(Stopped),
}

/// A record that is not taken refuses the loading.
impl From<Stopped> for LoadFault {
    ghost from_gives = { λ e r. r ≡ AtRecord e };

    fn from(stopped: Stopped) -> LoadFault {
        LoadFault::Stopped(stopped)
    }
}

impl LoadFault {
    /// How many records were taken before the fault; they stay.
    pub fn taken(self) -> usize
        ensures { result ≡ taken_before (stop_of self) }
    {
        match self {
            LoadFault::NotEmpty => 0,
            LoadFault::Stopped(stopped) => stopped.taken,
        }
    }

    /// The refusal, with its place in the file in bytes, as `specs/Stops` says.
    pub fn refusal(self) -> Refusal
        ensures { result ≡ load_refusal (stop_of self) }
    {
        match self {
            LoadFault::NotEmpty => Refusal {
                reason: Reason::NotEmpty,
                place: 0,
            },
            LoadFault::Stopped(stopped) => Refusal {
                reason: stopped.fault.reason(),
                place: stopped.fault.place_in(stopped.offset),
            },
        }
    }
}

/// The reason in words.
impl fmt::Display for LoadFault {
    ghost output = { λ f. Some (reason_text (load_refusal (stop_of f)).reason) };

    fn fmt<W: fmt::Write>(&self, f: &mut fmt::Formatter<W>) -> fmt::Result {
        write!(f, "{reason}", reason = self.refusal().reason)
    }
}

impl Error for LoadFault {}
