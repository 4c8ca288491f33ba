// A line of a script, read as a request.
ghost use Rattle.std.specs.Prelude.{◌≡◌};
ghost use Rattle.std.specs.Option.{option_map};
ghost use Rattle.scripts.specs.Lines.{asked_of, is_comment, line_request, request_from, request_of_words};
ghost use Rattle.scripts.specs.Readings.{AnswersInRoom, fault_in, left};

use crate::halt::{Halt, LineFault};
use crate::piles::NamedPile;
use crate::verb::{Verb, verb_of};
use crate::words::Words;
use book::AxiomId;
use locality::Test;
use runs::{Call, Edit};
use std::alloc::Global;
use vocabulary::NameId;

/// What a line asks for: a call that may change the book, or a marking or a writing with buffers of these lengths.
#[derive(Drop)]
pub enum Request {
    /// A call.
    Perform(Call),
    /// A marking through a pile.
    Mark {
        pile: NamedPile<Test>,
        axioms: u16,
        names: u16,
    },
    /// A writing through a pile.
    Write {
        pile: NamedPile<Test>,
        axioms: u16,
        names: u16,
        part: u16,
    },
}

impl Request {
    ghost use Rattle.runs.specs.Steps.{change, change_of};
    ghost use Rattle.scripts.specs.Lines.{asked_of, perform};

    // That an edit be made.
    fn of_edit(edit: Edit) -> Request
        ensures { asked_of result ≡ perform (change (change_of edit)) }
    {
        Request::Perform(Call::Edit(edit))
    }
}

impl<'a> Words<'a> {
    ghost use Rattle.scripts.specs.Lines.{asked_of};
    ghost use Rattle.scripts.specs.Readings.{ReadsInRoom, left};

    // The request with this first word, from the words behind it.
    fn request(&mut self, heap: Global, verb: Verb) -> Result<Request, Halt>
        ensures { ReadsInRoom asked_of result self.new (request_from verb (left self.old)) }
    {
        match verb {
            Verb::Name => {
                let kind = self.byte()?;
                let label = self.bytes(heap)?;
                Ok(Request::of_edit(Edit::Name { kind, label }))
            }
            Verb::File => {
                let kind = self.number()?;
                let body = self.bytes(heap)?;
                Ok(Request::of_edit(Edit::File { kind, body }))
            }
            Verb::Load => Ok(Request::of_edit(Edit::Load {
                file: self.bytes(heap)?,
            })),
            Verb::Aside => Ok(Request::of_edit(Edit::LayAside(AxiomId(self.number()?)))),
            Verb::Restore => Ok(Request::of_edit(Edit::Restore(AxiomId(self.number()?)))),
            Verb::Seed => Ok(Request::of_edit(Edit::Seed(NameId(self.number()?)))),
            Verb::Unseed => Ok(Request::of_edit(Edit::Unseed(NameId(self.number()?)))),
            Verb::Freeze => Ok(Request::Perform(Call::Freeze)),
            Verb::Reopen => Ok(Request::Perform(Call::Reopen)),
            Verb::Mark => {
                let pile = self.pile()?;
                let axioms = self.number()?;
                let names = self.number()?;
                Ok(Request::Mark {
                    pile,
                    axioms,
                    names,
                })
            }
            Verb::Write => {
                let pile = self.pile()?;
                let axioms = self.number()?;
                let names = self.number()?;
                let part = self.number()?;
                Ok(Request::Write {
                    pile,
                    axioms,
                    names,
                    part,
                })
            }
        }
    }
}

fn is_comment(line: &str) -> bool
    ensures { result ≡ is_comment line.now }
{
    line.starts_with("#")
}

// The request of these words; none, if there is no word.
fn request_of_words(heap: Global, words: Words<'_>) -> Result<Option<Request>, Halt>
    ensures { let asked = request_of_words (left words.entry) in
        AnswersInRoom fault_in (option_map asked_of) result asked }
{
    let mut words = words;
    let Some(first) = words.next() else {
        return Ok(None);
    };
    let verb = verb_of(first).ok_or(LineFault::UnknownCall)?;
    let request = words.request(heap, verb)?;
    if words.next().is_some() {
        return Err(Halt::NoCall(LineFault::TooManyWords));
    }
    Ok(Some(request))
}

// The request of a line, or None for a line that is skipped: a comment, or one without a word.
pub(crate) fn request_of(heap: Global, line: &str) -> Result<Option<Request>, Halt>
    ensures { AnswersInRoom fault_in (option_map asked_of) result (line_request line.now) }
{
    if is_comment(line) {
        return Ok(None);
    }
    request_of_words(heap, Words { rest: line })
}
