ghost use Rattle.std.specs.Prelude.{◌≡◌};

use crate::book::Book;
use crate::draft::Draft;
use std::marker::Model;

/// A book at rest: nothing can change it as long as it is lent. Only a frozen book lends one, so what takes a book at rest
/// cannot be asked of a draft. A clause sees the book.
#[derive(Drop)]
pub struct AtRest {
    book: Book,
}

impl Model for AtRest {
    ghost use Rattle.book.specs.declared.book.Book.{Book};

    ghost Value = { Book };

    ghost view = { λ r. r.book };
}

impl AtRest {
    ghost use Rattle.book.specs.Calls.{contents};
    ghost use Rattle.book.specs.Proper.{Proper};

    /// The book. It keeps every kind and every limit, as `specs/Proper` says.
    pub fn book(&self) -> &Book
        ensures value { result.now ≡ self.now }
        ensures proper { Proper (contents result.now) }
    {
        &self.book
    }
}

/// A frozen book: it stays as it is until it is reopened. A clause sees the book.
#[derive(Drop)]
pub struct Frozen {
    rest: AtRest,
}

impl Model for Frozen {
    ghost use Rattle.book.specs.declared.book.Book.{Book};

    ghost Value = { Book };

    ghost view = { λ f. f.rest };
}

impl Frozen {
    // A frozen book of this book.
    pub(crate) fn of(book: Book) -> Frozen
        ensures { result ≡ book }
    {
        Frozen {
            rest: AtRest { book },
        }
    }

    /// The book at rest, which can be marked and written.
    pub fn at_rest(&self) -> &AtRest
        ensures { result.now ≡ self.now }
    {
        &self.rest
    }

    /// Ends the rest: the book may be changed again. It passes over unaltered, and this is never refused.
    pub fn reopen(self) -> Draft
        ensures { result ≡ self }
    {
        let Frozen { rest } = self;
        let AtRest { book } = rest;
        Draft::of(book)
    }
}
