// What the words of a cut order: a part of a book file, for the names in use, in a new file.
ghost use Rattle.std.specs.Prelude.{◌≡◌, ◌≢◌, IfErr, IfOk, IfSome, IfNone, map, position, string_bytes};
ghost use Rattle.book.specs.Calls.{vocabulary_of};
ghost use Rattle.vocabulary.specs.declared.kind.Kind.{Kind};
ghost use Rattle.std.specs.Option.{option_map};
ghost use Rattle.vocabulary.specs.Entities.{entity, is_named};
ghost use Rattle.vocabulary.specs.Kinds.{kind_text};
ghost use Rattle.vocabulary.specs.Naming.{entities};
ghost use Rattle.extraction.specs.Marking.{lent};
ghost use Rattle.runs.specs.Steps.{change_of};
ghost use Rattle.winavulor.specs.Cuts.{IsCutFrom};
ghost use Rattle.scripts.specs.Readings.{AnswersInRoom};
ghost use Rattle.winavulor.specs.Readings.{FailsInWords, word_in};
ghost use Rattle.winavulor.specs.Words.{name_of_word, seedings};

use crate::command::Order;
use crate::cut::Module;
use crate::failure::Failure;
use crate::files::{drafted, read, remove, save};
use book::Book;
use locality::Test;
use runs::Edit;
use scripts::NamedPile;
use std::alloc::Global;
use vocabulary::{Kind, Name, NameId};

// The kind that a word names.
fn kind_of(word: &str) -> Option<Kind>
    ensures found { IfSome result (λ kind. word.now ≡ kind_text kind) }
    ensures none { IfNone result ((kind : Kind) → word.now ≢ kind_text kind) }
{
    match word {
        "concept" => Some(Kind::Concept),
        "role" => Some(Kind::Role),
        "individual" => Some(Kind::Individual),
        _ => None,
    }
}

// The number of the first name with this kind and this label.
fn number_of(names: &[Name], kind: Kind, label: &[u8]) -> Option<usize>
    ensures { result ≡ position (λ n. is_named kind label.now (entity n)) names.now }
{
    names.iter().position(|name| name.is(kind, label))
}

// The name of a book that a word KIND:LABEL stands for.
fn find(book: &Book, word: &str) -> Option<NameId>
    ensures { let names = entities (vocabulary_of book.now) in
        option_map (λ id. id.0) result ≡ name_of_word names word.now }
{
    let (first, label) = word.split_once(':')?;
    let kind = kind_of(first)?;
    let names = book.names().as_slice();
    let number = number_of(names, kind, label.as_bytes())?;
    Some(NameId(number as u16))
}

// The edits of a cut: the names in use are seeded beside the file's own seeds.
fn edits(heap: Global, book: &Book, words: &[String]) -> Result<Vec<Edit>, Failure>
    ensures answers { let names = entities (vocabulary_of book.now) in
        AnswersInRoom word_in (λ v. map change_of v.items) result
        (seedings names (map string_bytes words.now)) }
    ensures fails { IfErr result FailsInWords }
{
    let mut edits = Vec::new(heap);
    for word in words {
        let Some(id) = find(book, word.as_str()) else {
            return Err(Failure::NoSuchName(word.clone()?));
        };
        edits.push(Edit::Seed(id))?;
    }
    Ok(edits)
}

// The part of the book file with these bytes for the names in use, and how many records the file has.
fn module_of(
    rt: &HostRuntime,
    path: &str,
    bytes: &[u8],
    pile: &NamedPile<Test>,
    words: &[String],
) -> Result<(Module, usize), Failure>
    ensures { IfOk result (λ r.
        IsCutFrom bytes.now r.1 (map string_bytes words.now) pile.now (record {
          marks = lent r.0.axioms r.0.names;
          marking = r.0.marking;
          part = r.0.part.items;
        })) }
{
    let (draft, records) = drafted(rt, path, bytes)?;
    let edits = edits(rt.alloc(), draft.book(), words)?;
    let module = Module::of(rt.alloc(), pile, draft, edits.as_slice())?;
    Ok((module, records))
}

// Loads the file of the part again, which must have the part's bytes, and reports.
fn confirm(rt: &HostRuntime, module: &Module, path: &str, records: usize) -> Result<(), Failure> {
    let bytes = read(rt, path)?;
    if bytes.as_slice() != module.part() {
        return Err(Failure::Altered {
            path: String::from_str(rt.alloc(), path)?,
        });
    }
    let (_, again) = drafted(rt, path, bytes.as_slice())?;
    let report = module.report(records);
    rt.print(format!(in rt.alloc(); "{report}")?)?;
    println!(rt; "records loaded again: {again}")?;
    Ok(())
}

// Does what the words of the command order. The part goes to a file that is not there yet, and stays only if all is well.
pub(crate) fn carry_out(rt: &HostRuntime, order: Order<'_>) -> Result<(), Failure> {
    let bytes = read(rt, order.book)?;
    let (module, records) = module_of(rt, order.book, bytes.as_slice(), &order.pile, order.names)?;
    save(rt, order.part, module.part())?;
    let end = confirm(rt, &module, order.part, records);
    if end.is_err() {
        remove(rt, order.part);
    }
    end
}
