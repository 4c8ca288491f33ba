ghost use Rattle.std.specs.Prelude.{◌≡◌, Some};
ghost use Rattle.refusals.specs.Refusals.{layer_number, layer_text};

use std::fmt;

/// Which part of a file or a call a refusal is about: the file's records, the book, or one item of a body.
#[derive(Clone, Copy, Debug, PartialEq, Eq, Hash)]
pub enum Layer {
    /// The records of a file.
    File = 1,
    /// The book.
    Book,
    /// One item of a body.
    Item,
}

/// The layer's number, 1 to 3, from the outside in.
impl From<Layer> for u8 {
    ghost from_gives = { λ layer number. number ≡ layer_number layer };

    fn from(layer: Layer) -> u8 {
        layer as u8
    }
}

/// The layer by its word.
impl fmt::Display for Layer {
    ghost output = { λ layer. Some (layer_text layer) };

    fn fmt<W: fmt::Write>(&self, f: &mut fmt::Formatter<W>) -> fmt::Result {
        f.write_str(match self {
            Layer::File => "file",
            Layer::Book => "book",
            Layer::Item => "item",
        })
    }
}
