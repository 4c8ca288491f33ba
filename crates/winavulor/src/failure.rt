// Why a command ends without having done its work.
ghost use Rattle.std.specs.Prelude.{◌≡◌};
ghost use Rattle.winavulor.specs.declared.failure.Failure.TheVariants.{Memory};

use crate::command::{USAGE, UsageFault};
use extraction::MarkFault;
use notation::Told;
use refusals::Refusal;
use scripts::ScriptFault;
use std::alloc::{AllocError, AllocFailed};
use std::io;
use thiserror::Error;

/// Why a command ends without having done its work; each case prints what is told of it.
#[derive(Debug, Drop, Error)]
pub enum Failure {
    /// The words are no command.
    #[error("{0}\n{USAGE}")]
    Usage(UsageFault),
    #[error("{path} cannot be read: {error}")]
    Unreadable {
        path: String,
        error: io::Error,
    },
    #[error("{path} cannot be written: {error}")]
    Unwritable {
        path: String,
        error: io::Error,
    },
    #[error("{path} has other bytes than were written")]
    Altered {
        path: String,
    },
    /// The book file at this path is refused behind so many records.
    #[error("{path} is refused at byte {place}\n{told}\nrecords taken before it: {taken}", place = .refusal.place, told = Told(*.refusal))]
    Refused {
        path: String,
        refusal: Refusal,
        taken: usize,
    },
    /// A line of the script is no call.
    #[error(transparent)]
    Script(#[from] ScriptFault),
    #[error("the book has no name '{0}'; a name is given as KIND:LABEL")]
    NoSuchName(String),
    #[error("marking is refused\n{told}", told = Told(.0.refusal()))]
    NotMarked(#[from] MarkFault),
    #[error("out of memory")]
    Memory,
    #[error("the words of the command cannot be read: {0}")]
    Words(io::Error),
    /// The system refuses the command's output.
    #[error(transparent)]
    System(#[from] io::Error),
}

/// Want of memory.
impl From<AllocError> for Failure {
    ghost from_gives = { λ _ f. f ≡ Memory };

    fn from(_: AllocError) -> Failure {
        Failure::Memory
    }
}

/// Want of memory that hands a value back.
impl<T: Drop> From<AllocFailed<T>> for Failure {
    ghost from_gives = { λ _ f. f ≡ Memory };

    fn from(_: AllocFailed<T>) -> Failure {
        Failure::Memory
    }
}
