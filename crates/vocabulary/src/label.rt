ghost use Rattle.std.specs.Prelude.{◌≡◌, ◌≤◌, true, length, Some};
ghost use Rattle.vocabulary.specs.Limits.{longest_label};
ghost use Rattle.vocabulary.specs.Labels.{has_label_length, is_graphic_byte, is_graphic_text};

use crate::fault::NameFault;
use arrayvec::ArrayString;
use std::{fmt, str};

// How many bytes a label may have: `longest_label` of specs/Limits.
const LONGEST: usize = 32;

/// The label of a name: 1 to 32 bytes, each from 33 to 126, as `specs/Labels` has it. It is kept inline and claims no
/// memory.
#[derive(Clone, Copy, Debug)]
pub struct Label {
    text: ArrayString<LONGEST>,
    ghost fits: { has_label_length text.bytes ≡ true },
    ghost clean: { is_graphic_text text.bytes ≡ true },
}

// Whether a byte may stand in a label.
fn is_graphic(byte: u8) -> bool
    ensures { result ≡ is_graphic_byte byte }
{
    matches!(byte, 33..=126)
}

// Whether all bytes may.
fn all_graphic(bytes: &[u8]) -> bool
    ensures { result ≡ is_graphic_text bytes.now }
{
    bytes.iter().all(|byte| is_graphic(*byte))
}

// The same bytes as a text that is kept inline.
#[tactic(auto, using(crate::proofs::Texts::graphic_text))]
fn inline(bytes: &[u8]) -> ArrayString<LONGEST>
    requires short { length bytes.now ≤ longest_label }
    requires clean { is_graphic_text bytes.now ≡ true }
    ensures { result.bytes ≡ bytes.now }
{
    let text = str::from_utf8(bytes).unwrap();
    ArrayString::from(text).unwrap()
}

/// The label with these bytes. They are refused as `LabelLength` where there are none or too many, else as `LabelByte`
/// where one of them is below 33 or above 126.
impl<'a> TryFrom<&'a [u8]> for Label {
    ghost use Rattle.vocabulary.specs.Entities.{bytes_or_fault, label_or_fault};

    type Error = NameFault;

    ghost try_from_gives = { λ bytes r. bytes_or_fault r ≡ label_or_fault bytes.now };

    fn try_from(bytes: &'a [u8]) -> Result<Label, NameFault> {
        if !(1..=LONGEST).contains(&bytes.len()) {
            return Err(NameFault::LabelLength);
        }
        if !all_graphic(bytes) {
            return Err(NameFault::LabelByte);
        }
        Ok(Label {
            text: inline(bytes),
        })
    }
}

impl Label {
    ghost use Rattle.vocabulary.specs.Entities.{label_of};

    /// The bytes of the label.
    pub fn as_bytes(&self) -> &[u8]
        ensures { result.now ≡ label_of self.now }
    {
        self.text.as_str().as_bytes()
    }
}

/// The label, byte for byte.
impl fmt::Display for Label {
    ghost use Rattle.vocabulary.specs.Entities.{label_of};

    ghost output = { λ l. Some (label_of l) };

    fn fmt<W: fmt::Write>(&self, f: &mut fmt::Formatter<W>) -> fmt::Result {
        f.write_str(self.text.as_str())
    }
}
