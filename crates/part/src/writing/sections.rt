// The three sections of a part, put into a sink: its names, its seeds and its axioms.
ghost use Rattle.std.specs.Prelude.{◌≡◌, map, length};
ghost use Rattle.vocabulary.specs.Naming.{entities};
ghost use Rattle.writer.specs.Placing.{overlay};
ghost use Rattle.records.specs.Files.{file_bytes};
ghost use Rattle.part.specs.Parts.{name_entry, seed_entry, seeds_from};

use crate::writing::entries::{put_name, put_rule, put_seed};
use book::Book;
use extraction::Flags;
use vocabulary::{NameId, Vocabulary};
use writer::{Cursor, Length, Sink};

// All names.
fn put_names<S: Sink>(sink: &mut S, names: &Vocabulary)
    ensures { S.takes sink.old (file_bytes (map name_entry (entities names.now))) sink.new }
{
    for name in names.as_slice() {
        put_name(sink, name);
    }
}

// The seeded names, by their numbers.
fn put_seeds<S: Sink>(sink: &mut S, names: &Vocabulary)
    ensures { let seeds = map seed_entry (seeds_from 0 (entities names.now)) in
        S.takes sink.old (file_bytes seeds) sink.new }
{
    for (number, name) in names.as_slice().iter().enumerate() {
        let id = NameId(number as u16);
        if name.seeded {
            put_seed(sink, id);
        }
    }
}

// The part that the axioms of a book make whose flag is set.
#[derive(Clone, Copy)]
pub(crate) struct Part<'a> {
    pub(crate) book: &'a Book,
    pub(crate) kept: &'a Flags,
}

impl Part<'_> {
    ghost use Rattle.part.specs.Writing.{axioms_written, part_written};

    // Puts the axioms whose flag is set.
    fn put_axioms<S: Sink>(&self, sink: &mut S)
        ensures { S.takes sink.old (axioms_written self.now) sink.new }
    {
        for (filed, is_kept) in self.book.axioms().iter().zip(self.kept) {
            if *is_kept {
                put_rule(sink, self.book.terms(), filed.axiom);
            }
        }
    }

    fn put<S: Sink>(&self, sink: &mut S)
        ensures { S.takes sink.old (part_written self.now) sink.new }
    {
        put_names(sink, self.book.names());
        put_seeds(sink, self.book.names());
        self.put_axioms(sink);
    }

    // How many bytes the part has.
    pub(crate) fn len(&self) -> usize
        ensures { result ≡ length (part_written self.now) }
    {
        let mut length = Length::default();
        self.put(&mut length);
        length.bytes
    }

    // The part from the buffer's first byte on, as far as there is room.
    pub(crate) fn write(&self, out: &mut [u8])
        ensures { out.new ≡ overlay 0 (part_written self.now) out.old }
    {
        let mut cursor = Cursor { out, at: Some(0) };
        self.put(&mut cursor);
    }
}
