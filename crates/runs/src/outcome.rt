ghost use Rattle.std.specs.Prelude.{◌≡◌, Some};
ghost use Rattle.vocabulary.specs.Refusals.{missing_name_refusal, name_refusal};
ghost use Rattle.book.specs.Refusals.{file_refusal, missing_axiom_refusal};
ghost use Rattle.records.specs.Stops.{stop_of};
ghost use Rattle.runs.specs.Answers.{answer_text, done_text, fault_text};
ghost use Rattle.runs.specs.Steps.{refused_loading};
ghost use Rattle.runs.specs.declared.outcome.CallFault.TheVariants.{Refused};

use book::{AxiomId, FileFault, NoSuchAxiom};
use records::LoadFault;
use refusals::Refusal;
use std::error::Error;
use std::fmt;
use vocabulary::{NameFault, NameId, NoSuchName};

/// What an accepted call did.
#[derive(Clone, Copy, Debug, PartialEq, Eq, Hash)]
pub enum Done {
    /// A name was made; its number.
    Named(NameId),
    /// An axiom was filed; its number.
    Filed(AxiomId),
    /// A file was loaded; how many records it has.
    Loaded(usize),
    /// The call has nothing to tell.
    Accepted,
}

/// The text of what was done: `ok`, and the number where there is one (specs/Answers.antt).
impl fmt::Display for Done {
    ghost output = { λ d. Some (done_text d) };

    fn fmt<W: fmt::Write>(&self, f: &mut fmt::Formatter<W>) -> fmt::Result {
        match *self {
            Done::Named(NameId(number)) => write!(f, "ok {number}"),
            Done::Filed(AxiomId(number)) => write!(f, "ok {number}"),
            Done::Loaded(count) => write!(f, "ok {count}"),
            Done::Accepted => f.write_str("ok"),
        }
    }
}

/// Why a call did not do what it asks for.
#[derive(Clone, Copy, Debug, PartialEq, Eq, Hash)]
pub enum CallFault {
    /// The call is refused.
    Refused(Refusal),
    /// A loading is refused; how many records were taken before.
    LoadRefused(Refusal, usize),
    /// A book of this status does not have the call.
    NotAllowed,
}

/// A fault of naming, as its refusal.
impl From<NameFault> for CallFault {
    ghost from_gives = { λ fault r. r ≡ Refused (name_refusal fault) };

    fn from(fault: NameFault) -> CallFault {
        CallFault::Refused(fault.refusal())
    }
}

/// A fault of filing, as its refusal.
impl From<FileFault> for CallFault {
    ghost from_gives = { λ fault r. r ≡ Refused (file_refusal fault) };

    fn from(fault: FileFault) -> CallFault {
        CallFault::Refused(fault.refusal())
    }
}

/// A number that no axiom has, as its refusal.
impl From<NoSuchAxiom> for CallFault {
    ghost from_gives = { λ missing r. r ≡ Refused (missing_axiom_refusal missing) };

    fn from(missing: NoSuchAxiom) -> CallFault {
        CallFault::Refused(missing.refusal())
    }
}

/// A number that no name has, as its refusal.
impl From<NoSuchName> for CallFault {
    ghost from_gives = { λ missing r. r ≡ Refused (missing_name_refusal missing) };

    fn from(missing: NoSuchName) -> CallFault {
        CallFault::Refused(missing.refusal())
    }
}

/// A fault of loading, as its refusal and the count of records taken.
impl From<LoadFault> for CallFault {
    ghost from_gives = { λ fault r. r ≡ refused_loading (stop_of fault) };

    fn from(fault: LoadFault) -> CallFault {
        CallFault::LoadRefused(fault.refusal(), fault.taken())
    }
}

/// The text of a fault: `refused` and its numbers, or `not-allowed` (specs/Answers.antt).
impl fmt::Display for CallFault {
    ghost output = { λ f. Some (fault_text f) };

    fn fmt<W: fmt::Write>(&self, f: &mut fmt::Formatter<W>) -> fmt::Result {
        match *self {
            CallFault::Refused(refusal) => write!(f, "refused {refusal}"),
            CallFault::LoadRefused(refusal, taken) => write!(f, "refused {refusal} {taken}"),
            CallFault::NotAllowed => f.write_str("not-allowed"),
        }
    }
}

/// A fault of a call is an error.
impl Error for CallFault {}

/// What a call answers: what it did, or why it did not.
pub type Outcome = Result<Done, CallFault>;

/// An outcome as the answer to a call in a script.
#[derive(Clone, Copy, Debug)]
pub struct Answer(pub Outcome);

/// The text of what was done, or of the fault (specs/Answers.antt).
impl fmt::Display for Answer {
    ghost output = { λ a. Some (answer_text a.0) };

    fn fmt<W: fmt::Write>(&self, f: &mut fmt::Formatter<W>) -> fmt::Result {
        match self.0 {
            Ok(done) => fmt::Display::fmt(&done, f),
            Err(fault) => fmt::Display::fmt(&fault, f),
        }
    }
}
