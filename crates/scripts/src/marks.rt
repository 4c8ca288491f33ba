// Marking and writing as a line of a script asks for them: through a pile, into buffers that are made for it.
ghost use Rattle.std.specs.Prelude.{◌≡◌, List, IfOk, OnOk, replicate, string_bytes};
ghost use Rattle.refusals.specs.Turns.{Gives};
ghost use Rattle.extraction.specs.Marking.{lent};
ghost use Rattle.part.specs.Writing.{lent_for_part};
ghost use Rattle.runs.specs.Promise.{AreOfBytes, Promise};
ghost use Rattle.runs.specs.Steps.{Step, standing};
ghost use Rattle.scripts.specs.Outcomes.{outcome};
ghost use Rattle.scripts.specs.Replies.{
  pile_of,
  mark_buffers,
  write_buffers,
  marked_text,
  written_text,
  marking_text,
  writing_text,
  marking_turn,
  writing_turn,
};

use crate::bytes::word_of;
use crate::piles::NamedPile;
use extraction::{MarkFault, Marking, Pile, Whole};
use locality::Test;
use runs::{CallFault, State};
use std::alloc::{AllocError, Global};

// A buffer of a length, with 255 in every byte.
fn buffer(heap: Global, len: u16) -> Result<Vec<u8>, AllocError>
    ensures { IfOk result (λ v. v.items ≡ replicate len 255) }
{
    vec![in heap; 255; usize::from(len)]
}

// What a call on a frozen book answered, where there is no answer of a draft.
fn outcome_of<T>(answer: Option<Result<T, MarkFault>>) -> Result<T, CallFault>
    ensures { result ≡ outcome answer }
{
    match answer {
        None => Err(CallFault::NotAllowed),
        Some(Err(fault)) => Err(CallFault::Refused(fault.refusal())),
        Some(Ok(value)) => Ok(value),
    }
}

// What a marking answered, and its two buffers then. A draft gives no answer.
#[derive(Debug, Drop)]
struct Marked {
    answer: Option<Result<Marking, MarkFault>>,
    axioms: Vec<u8>,
    names: Vec<u8>,
}

impl Marked {
    // Marks a book through a pile, with buffers of these lengths.
    fn of(
        heap: Global,
        state: &State,
        pile: &Pile<'_, Test, Whole>,
        axioms: u16,
        names: u16,
    ) -> Result<Marked, AllocError>
        ensures gives { IfOk result (λ m.
            Gives (lent m.axioms.items m.names.items) m.answer
            (marking_turn (standing state.now) pile.now.tests.now (mark_buffers axioms names))) }
        ensures promise { OnOk result
            ((cs : List Step) → AreOfBytes cs → Promise cs (pile_of pile.now.tests.now)) }
    {
        let mut axioms = buffer(heap, axioms)?;
        let mut names = buffer(heap, names)?;
        let answer = state.mark(pile, axioms.as_mut_slice(), names.as_mut_slice());
        Ok(Marked {
            answer,
            axioms,
            names,
        })
    }

    // The answer, as a script tells it.
    fn told(&self, heap: Global) -> Result<String, AllocError>
        ensures { IfOk result (λ t.
            string_bytes t ≡ marked_text (outcome self.now.answer)
            (lent self.now.axioms.items self.now.names.items)) }
    {
        match outcome_of(self.answer) {
            Err(fault) => format!(in heap; "{fault}"),
            Ok(marking) => {
                let Marking {
                    marked,
                    closed,
                    drawn_in,
                    rounds,
                } = marking;
                let axioms = word_of(heap, self.axioms.as_slice())?;
                let names = word_of(heap, self.names.as_slice())?;
                format!(in heap; "ok {marked} {closed} {drawn_in} {rounds} {axioms} {names}")
            }
        }
    }
}

// What a writing answered, and its three buffers then. A draft gives no answer.
#[derive(Debug, Drop)]
struct Written {
    answer: Option<Result<usize, MarkFault>>,
    axioms: Vec<u8>,
    names: Vec<u8>,
    part: Vec<u8>,
}

impl Written {
    // Writes the part of a book through a pile, with buffers of these lengths.
    fn of(
        heap: Global,
        state: &State,
        pile: &Pile<'_, Test, Whole>,
        axioms: u16,
        names: u16,
        part: u16,
    ) -> Result<Written, AllocError>
        ensures gives { IfOk result (λ w.
            Gives (lent_for_part w.axioms.items w.names.items w.part.items) w.answer
            (writing_turn (standing state.now) pile.now.tests.now
            (write_buffers axioms names part))) }
        ensures promise { OnOk result
            ((cs : List Step) → AreOfBytes cs → Promise cs (pile_of pile.now.tests.now)) }
    {
        let mut axioms = buffer(heap, axioms)?;
        let mut names = buffer(heap, names)?;
        let mut part = buffer(heap, part)?;
        let answer = state.write(
            pile,
            axioms.as_mut_slice(),
            names.as_mut_slice(),
            part.as_mut_slice(),
        );
        Ok(Written {
            answer,
            axioms,
            names,
            part,
        })
    }

    // The answer, as a script tells it.
    fn told(&self, heap: Global) -> Result<String, AllocError>
        ensures { IfOk result (λ t.
            string_bytes t ≡ written_text (outcome self.now.answer)
            (lent_for_part self.now.axioms.items self.now.names.items self.now.part.items)) }
    {
        match outcome_of(self.answer) {
            Err(fault) => format!(in heap; "{fault}"),
            Ok(bytes) => {
                let axioms = word_of(heap, self.axioms.as_slice())?;
                let names = word_of(heap, self.names.as_slice())?;
                let part = word_of(heap, self.part.as_slice())?;
                format!(in heap; "ok {bytes} {axioms} {names} {part}")
            }
        }
    }
}

// Marks a book through a pile, with buffers of these lengths, and tells the answer.
pub(crate) fn mark(
    heap: Global,
    state: &State,
    pile: &NamedPile<Test>,
    axioms: u16,
    names: u16,
) -> Result<String, AllocError>
    ensures text { IfOk result (λ t.
        string_bytes t ≡ marking_text
        (marking_turn (standing state.now) pile.now (mark_buffers axioms names))) }
    ensures promise { OnOk result
        ((cs : List Step) → AreOfBytes cs → Promise cs (pile_of pile.now)) }
{
    let stages = pile.extractor();
    Marked::of(heap, state, &stages, axioms, names)?.told(heap)
}

// Writes the part of a book through a pile, with buffers of these lengths, and tells the answer.
pub(crate) fn write(
    heap: Global,
    state: &State,
    pile: &NamedPile<Test>,
    axioms: u16,
    names: u16,
    part: u16,
) -> Result<String, AllocError>
    ensures text { IfOk result (λ t.
        string_bytes t ≡ writing_text
        (writing_turn (standing state.now) pile.now (write_buffers axioms names part))) }
    ensures promise { OnOk result
        ((cs : List Step) → AreOfBytes cs → Promise cs (pile_of pile.now)) }
{
    let stages = pile.extractor();
    Written::of(heap, state, &stages, axioms, names, part)?.told(heap)
}
