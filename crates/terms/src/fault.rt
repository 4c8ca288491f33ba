ghost use Rattle.std.specs.Prelude.{◌≡◌, Some};
ghost use Rattle.refusals.specs.Refusals.{reason_text};
ghost use Rattle.terms.specs.Refusals.{item_refusal};

use refusals::{Reason, Refusal};
use std::error::Error;
use std::fmt;

/// The first faulty item of a body, with its offset in bytes there. An item is a code, a count, a direction byte or the
/// number of a name. When each of these fits is told in `specs/Fitting`.
#[derive(Clone, Copy, Debug, PartialEq, Eq, Hash)]
pub enum ItemFault {
    /// A term is due with 24 others around it.
    TooDeep(usize),
    /// The body ends before the item or inside it.
    CutShort(usize),
    /// The code byte is above 7.
    UnknownCode(usize),
    /// The direction byte is above 1.
    UnknownDirection(usize),
    /// No name has this number, or the one that has it is of another kind than wanted.
    WrongName(usize),
    /// The count is 0.
    ZeroCount(usize),
}

impl ItemFault {
    /// The refusal that the fault is told by: its place is the item's offset. `specs/Refusals` has its reason.
    pub fn refusal(self) -> Refusal
        ensures { result ≡ item_refusal self }
    {
        let (reason, place) = match self {
            ItemFault::TooDeep(at) => (Reason::TooDeep, at),
            ItemFault::CutShort(at) => (Reason::ItemCutShort, at),
            ItemFault::UnknownCode(at) => (Reason::UnknownCode, at),
            ItemFault::UnknownDirection(at) => (Reason::UnknownDirection, at),
            ItemFault::WrongName(at) => (Reason::WrongName, at),
            ItemFault::ZeroCount(at) => (Reason::ZeroCount, at),
        };
        Refusal { reason, place }
    }
}

/// The reason in words.
impl fmt::Display for ItemFault {
    ghost output = { λ f. Some (reason_text (item_refusal f).reason) };

    fn fmt<W: fmt::Write>(&self, f: &mut fmt::Formatter<W>) -> fmt::Result {
        fmt::Display::fmt(&self.refusal().reason, f)
    }
}

impl Error for ItemFault {}
