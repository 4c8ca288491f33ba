// Puts records into a sink. A record is taken by its count where its bytes make no other difference.
ghost use Rattle.std.specs.Prelude.{◌≡◌, ◌≤◌, ◌++◌, length};
ghost use Rattle.vocabulary.specs.Entities.{entity};
ghost use Rattle.terms.specs.Forms.{rule};
ghost use Rattle.terms.specs.Tables.{nodes_of};
ghost use Rattle.terms.specs.Writing.{body_bytes};
ghost use Rattle.terms.specs.Numbers.{two_bytes};
ghost use Rattle.codec.specs.Bodies.{longest_body};
ghost use Rattle.records.specs.Kinds.{record_number};
ghost use Rattle.part.specs.Parts.{name_as_record, seed_as_record, axiom_as_record};

use records::RecordKind;
use terms::{Axiom, Terms};
use vocabulary::{Name, NameId};
use writer::{Length, Sink, put_axiom};

// How many bytes a record has before its body.
const HEADER: usize = 4;

// The length of a record's body, and the record's kind.
fn put_header<S: Sink>(sink: &mut S, len: u16, kind: RecordKind)
    ensures { S.takes sink.old (two_bytes len ++ two_bytes (record_number kind)) sink.new }
{
    sink.put_number(len);
    sink.put_number(u16::from(kind));
}

// The record of a name.
pub(crate) fn put_name<S: Sink>(sink: &mut S, name: &Name)
    ensures { S.takes sink.old (name_as_record (entity name.now)) sink.new }
{
    let label = name.label.as_bytes();
    if sink.put_count(HEADER + 1 + label.len()) {
        return;
    }
    put_header(sink, label.len() as u16 + 1, RecordKind::Name);
    sink.put(u8::from(name.kind));
    sink.put_all(label);
}

// The record that seeds the name with a number.
pub(crate) fn put_seed<S: Sink>(sink: &mut S, id: NameId)
    ensures { S.takes sink.old (seed_as_record id.0) sink.new }
{
    if sink.put_count(HEADER + 2) {
        return;
    }
    put_header(sink, 2, RecordKind::Seed);
    sink.put_number(id.0);
}

// How many bytes the body of an axiom has.
fn body_len(terms: &Terms, axiom: Axiom) -> usize
    requires { length (body_bytes (rule (nodes_of terms.now) «axiom»)) ≤ longest_body }
    ensures { result ≡ length (body_bytes (rule (nodes_of terms.now) «axiom»)) }
{
    let mut length = Length::default();
    put_axiom(&mut length, terms, axiom);
    length.bytes
}

// The record of an axiom.
pub(crate) fn put_rule<S: Sink>(sink: &mut S, terms: &Terms, axiom: Axiom)
    requires { length (body_bytes (rule (nodes_of terms.now) «axiom»)) ≤ longest_body }
    ensures { S.takes sink.old (axiom_as_record (rule (nodes_of terms.now) «axiom»)) sink.new }
{
    let len = body_len(terms, axiom);
    if sink.put_count(HEADER + len) {
        return;
    }
    put_header(sink, len as u16, RecordKind::Axiom(axiom.kind()));
    put_axiom(sink, terms, axiom);
}
