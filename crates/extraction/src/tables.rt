ghost use Rattle.std.specs.Prelude.{◌≡◌, length, slice_set};
ghost use Rattle.book.specs.Calls.{contents};
ghost use Rattle.locality.specs.Flags.{set_of, by_number};
ghost use Rattle.extraction.specs.Marking.{bit, flags_over};
ghost use Rattle.extraction.specs.Sets.{axiom_count, name_count};

use book::{AtRest, MOST_AXIOMS};
use vocabulary::MOST_NAMES;

// There is room for as many axioms as names.
const _: () = prove!(MOST_AXIOMS == MOST_NAMES);

/// A flag for each number that an axiom or a name may have.
pub type Flags = [bool; MOST_AXIOMS];

// No flag is set.
pub(crate) const NONE: Flags = [false; MOST_AXIOMS];

/// The tables that a call lends to an extractor: the axioms handed up to a stage, the axioms kept, and the names of the
/// closed signature (specs/Extracts.antt).
#[derive(Clone, Copy, Debug)]
pub struct Tables {
    pub(crate) handed: Flags,
    pub(crate) kept: Flags,
    pub(crate) closed: Flags,
}

// Writes 1 or 0 for a flag at a place, if there is a byte.
fn write_flag(bytes: &mut [u8], number: usize, flag: bool)
    ensures { bytes.new ≡ slice_set bytes.old number (bit flag) }
{
    if number < bytes.len() {
        bytes[number] = u8::from(flag);
    }
}

// Writes 1 or 0 for each flag, as far as there are bytes.
fn write_flags(flags: &[bool], bytes: &mut [u8])
    ensures { bytes.new ≡ flags_over (length flags.now) (set_of flags.now) bytes.old }
{
    for (number, flag) in flags.iter().enumerate() {
        write_flag(bytes, number, *flag);
    }
}

impl Tables {
    ghost use Rattle.extraction.specs.Extracts.{blank_tables, kept_in, closed_in};

    /// Tables with nothing in them.
    pub fn new() -> Tables
        ensures { result ≡ blank_tables }
    {
        Tables {
            handed: NONE,
            kept: NONE,
            closed: NONE,
        }
    }

    /// The axioms kept: one flag for each number.
    pub fn kept(&self) -> &Flags
        ensures { set_of result.now ≡ kept_in self.now }
    {
        &self.kept
    }

    /// Writes 1 or 0 for each axiom of a book that was extracted from, whether it is kept, into one buffer, and for each
    /// name, whether it is in the closed signature, into another, as far as they go.
    pub fn write(&self, rest: &AtRest, axioms: &mut [u8], names: &mut [u8])
        ensures axioms { let kept = kept_in self.now in
            axioms.new ≡ flags_over (axiom_count (contents rest.now)) kept axioms.old }
        ensures names { let closed = by_number (closed_in self.now) in
            names.new ≡ flags_over (name_count (contents rest.now)) closed names.old }
    {
        let book = rest.book();
        write_flags(&self.kept[..book.axioms().len()], axioms);
        write_flags(&self.closed[..book.names().count()], names);
    }
}
