ghost use Rattle.std.specs.Prelude.{◌≡◌};

use crate::kind::Kind;
use crate::label::Label;

/// The number of a name: how many were made before it.
#[derive(Clone, Copy, Debug, PartialEq, Eq, Hash)]
pub struct NameId(pub u16);

/// A name of the table. In specs it is an `Entity`, whose label is a list of bytes.
#[derive(Clone, Copy, Debug)]
pub struct Name {
    /// What the name stands for.
    pub kind: Kind,
    /// By what label, which no other name of the kind has.
    pub label: Label,
    /// Whether it is seeded, that is, in the signature.
    pub seeded: bool,
}

impl Name {
    ghost use Rattle.vocabulary.specs.Entities.{entity, is_named};

    /// Whether the name has this kind and this label.
    pub fn is(&self, kind: Kind, label: &[u8]) -> bool
        ensures { result ≡ is_named kind label.now (entity self.now) }
    {
        self.kind == kind && self.label.as_bytes() == label
    }
}
