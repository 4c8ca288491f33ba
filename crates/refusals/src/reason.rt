ghost use Rattle.std.specs.Prelude.{◌≡◌, Some};
ghost use Rattle.refusals.specs.Refusals.{reason_number, reason_text};

use crate::layer::Layer;
use std::fmt;

/// Why something is refused, in the order of the numbers that the format gives the reasons, 1 to 21.
#[derive(Clone, Copy, Debug, PartialEq, Eq, Hash)]
pub enum Reason {
    /// The book to load into has a name or an axiom.
    NotEmpty = 1,
    /// A record's head or its body is cut short.
    RecordCutShort,
    /// A kind is none of a record, or none of an axiom that is filed.
    UnknownKind,
    /// A body has more than 512 bytes.
    BodyTooLong,
    /// The kind byte of a name is missing or above 2.
    BadKind,
    /// A label has no byte, or more than 32.
    LabelLength,
    /// A byte of a label is outside 33 to 126.
    LabelByte,
    /// A name of the kind has the label.
    LabelTaken,
    /// There are 1,024 names.
    NamesFull,
    /// A term is due inside 24 others.
    TooDeep,
    /// The body ends before or inside an item.
    ItemCutShort,
    /// A code is above 7.
    UnknownCode,
    /// A direction byte is above 1.
    UnknownDirection,
    /// No name of the kind wanted has the number.
    WrongName,
    /// A count is 0.
    ZeroCount,
    /// Bytes are left behind the last item.
    LeftOver,
    /// There are 1,024 axioms.
    AxiomsFull,
    /// The bodies would have more than 32,768 bytes together.
    BytesFull,
    /// No axiom has the number.
    NoSuchAxiom,
    /// No name is seeded.
    EmptySignature,
    /// A buffer is too short.
    ShortBuffer,
}

/// The number of a reason, 1 to 21.
impl From<Reason> for u8 {
    ghost from_gives = { λ reason number. number ≡ reason_number reason };

    fn from(reason: Reason) -> u8 {
        reason as u8
    }
}

impl Reason {
    ghost use Rattle.refusals.specs.Refusals.{layer_of};

    /// The layer of a refusal for this reason, which follows from the number: 1 to 4 are the file's, 10 to 15 an item's,
    /// all others the book's.
    pub fn layer(self) -> Layer
        ensures { result ≡ layer_of self }
    {
        match u8::from(self) {
            1..=4 => Layer::File,
            10..=15 => Layer::Item,
            _ => Layer::Book,
        }
    }
}

/// The reason in words.
impl fmt::Display for Reason {
    ghost output = { λ reason. Some (reason_text reason) };

    fn fmt<W: fmt::Write>(&self, f: &mut fmt::Formatter<W>) -> fmt::Result {
        f.write_str(match self {
            Reason::NotEmpty => "the book to load into has a name or an axiom already",
            Reason::RecordCutShort => "the file ends inside a record",
            Reason::UnknownKind => "the kind is none that is known here",
            Reason::BodyTooLong => "the body has more than 512 bytes",
            Reason::BadKind => "the kind byte of the name is missing or above 2",
            Reason::LabelLength => "the label has no byte, or more than 32",
            Reason::LabelByte => "a byte of the label is below 33 or above 126",
            Reason::LabelTaken => "a name of this kind has this label already",
            Reason::NamesFull => "the book has 1,024 names already",
            Reason::TooDeep => "a term is due inside 24 other terms",
            Reason::ItemCutShort => "the body ends where an item should begin, or inside one",
            Reason::UnknownCode => "the code of a term is above 7",
            Reason::UnknownDirection => "a direction byte is above 1",
            Reason::WrongName => "no name has this number, or it is of another kind than wanted",
            Reason::ZeroCount => "a count is 0",
            Reason::LeftOver => "the body goes on behind its last item",
            Reason::AxiomsFull => "the book has 1,024 axioms already",
            Reason::BytesFull =>
                "the bodies of the book would have more than 32,768 bytes together",
            Reason::NoSuchAxiom => "no axiom has this number",
            Reason::EmptySignature => "no name is seeded, so there is nothing to mark for",
            Reason::ShortBuffer => "a buffer is too short",
        })
    }
}
