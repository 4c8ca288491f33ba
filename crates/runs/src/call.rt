use book::AxiomId;
use vocabulary::NameId;

/// A call that changes a draft, with its arguments as they were given: a kind byte, a record kind, a number or bytes that may
/// be refused. What each does stands in specs/Steps.antt, when it is refused in docs/REFUSALS.md.
#[derive(Drop)]
pub enum Edit {
    /// Makes a name of a kind byte and a label.
    Name { kind: u8, label: Vec<u8> },
    /// Files an axiom of a record kind, with a body.
    File { kind: u16, body: Vec<u8> },
    /// Loads a file of records into a book that has no name and no axiom.
    Load { file: Vec<u8> },
    /// Lays an axiom aside.
    LayAside(AxiomId),
    /// Puts an axiom that was laid aside in force again.
    Restore(AxiomId),
    /// Puts a name into the signature.
    Seed(NameId),
    /// Takes a name out of the signature.
    Unseed(NameId),
}

/// A call that may change a book or its status. A draft has every call but reopening, a frozen book reopening alone.
#[derive(Drop)]
pub enum Call {
    /// An edit of a draft.
    Edit(Edit),
    /// Freezes a draft.
    Freeze,
    /// Makes a frozen book a draft again.
    Reopen,
}
