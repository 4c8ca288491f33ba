ghost use Rattle.std.specs.Prelude.{◌≡◌, Some};
ghost use Rattle.refusals.specs.Refusals.{layer_of, refusal_text};

use crate::layer::Layer;
use crate::reason::Reason;
use std::fmt;

/// A refusal as it is told: its reason, and the place of the fault, which is a byte's offset in a body or in a file. Its
/// layer follows from the reason.
#[derive(Clone, Copy, Debug, PartialEq, Eq, Hash)]
pub struct Refusal {
    /// Why the call is refused.
    pub reason: Reason,
    /// The offset of the fault.
    pub place: usize,
}

impl Refusal {
    /// The layer of the refusal's reason.
    pub fn layer(self) -> Layer
        ensures { result ≡ layer_of self.reason }
    {
        self.reason.layer()
    }
}

/// Number, layer and place, with a space between them.
impl fmt::Display for Refusal {
    ghost output = { λ r. Some (refusal_text r) };

    fn fmt<W: fmt::Write>(&self, f: &mut fmt::Formatter<W>) -> fmt::Result {
        let number = u8::from(self.reason);
        let layer = u8::from(self.layer());
        write!(f, "{number} {layer} {place}", place = self.place)
    }
}
