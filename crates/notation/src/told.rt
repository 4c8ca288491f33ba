// Refusals in words.
ghost use Rattle.std.specs.Prelude.{Some};
ghost use Rattle.notation.specs.Refusals.{told_text};

use refusals::Refusal;
use std::fmt;

/// A refusal as a line for a reader: number, layer by number and word, place, and the reason in words.
#[derive(Clone, Copy, Debug)]
pub struct Told(pub Refusal);

/// The line, as specs/Refusals.antt has it.
impl fmt::Display for Told {
    ghost output = { λ t. Some (told_text t.0) };

    fn fmt<W: fmt::Write>(&self, f: &mut fmt::Formatter<W>) -> fmt::Result {
        let Refusal { reason, place } = self.0;
        let layer = self.0.layer();
        let number = u8::from(reason);
        let digit = u8::from(layer);
        write!(
            f,
            "number {number}, layer {digit} ({layer}), place {place}: {reason}"
        )
    }
}
