// Why the run of a script ends at a line.
ghost use Rattle.std.specs.Prelude.{◌≡◌};
ghost use Rattle.scripts.specs.declared.halt.Halt.TheVariants.{NoCall, Memory};

use std::alloc::{AllocError, AllocFailed};
use thiserror::Error;

/// Why a line is no call, as docs/SCRIPTS.md tells.
#[derive(Clone, Copy, Debug, PartialEq, Eq, Error)]
pub enum LineFault {
    /// The first word is no call.
    #[error("the first word is no call")]
    UnknownCall,
    /// A word is missing.
    #[error("a word is missing")]
    TooFewWords,
    /// There are words too many.
    #[error("there are words too many")]
    TooManyWords,
    /// A number is not written in decimal digits.
    #[error("a number is not written in decimal digits")]
    NotDecimal,
    /// A number is above the greatest that its place takes.
    #[error("a number is too large")]
    TooLarge,
    /// A digit of the bytes stands alone.
    #[error("a hexadecimal digit has no partner")]
    OddDigits,
    /// A character of the bytes is no hexadecimal digit.
    #[error("a character is no hexadecimal digit")]
    NotHexadecimal,
    /// There is no pile of this name.
    #[error("there is no pile of this name")]
    UnknownPile,
}

/// What ends the run of a script: a line that is no call, or want of memory.
#[derive(Clone, Copy, Debug, Error)]
pub enum Halt {
    /// The line is no call.
    #[error(transparent)]
    NoCall(LineFault),
    /// No memory is left.
    #[error("no memory is left")]
    Memory,
}

/// A line that is no call ends the run.
impl From<LineFault> for Halt {
    ghost from_gives = { λ f h. h ≡ NoCall f };

    fn from(fault: LineFault) -> Halt {
        Halt::NoCall(fault)
    }
}

/// Want of memory ends the run.
impl From<AllocError> for Halt {
    ghost from_gives = { λ _ h. h ≡ Memory };

    fn from(_: AllocError) -> Halt {
        Halt::Memory
    }
}

/// So does want of memory that hands a value back.
impl<T: Drop> From<AllocFailed<T>> for Halt {
    ghost from_gives = { λ _ h. h ≡ Memory };

    fn from(_: AllocFailed<T>) -> Halt {
        Halt::Memory
    }
}

/// The line that ended a run, counted from 1, and why it did.
#[derive(Clone, Copy, Debug, Error)]
#[error("line {line}: {halt}")]
pub struct ScriptFault {
    /// The line, counted from 1.
    pub line: usize,
    /// Why it ended the run.
    pub halt: Halt,
}
