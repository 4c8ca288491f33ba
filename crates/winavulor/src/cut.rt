// Cutting: from a book and the names in use to the part of the book for them.
ghost use Rattle.std.specs.Prelude.{◌≡◌, IfOk, Ok, length};
ghost use Rattle.refusals.specs.Turns.{Gives};
ghost use Rattle.book.specs.Calls.{contents};
ghost use Rattle.extraction.specs.Marking.{lent, marking};
ghost use Rattle.notation.specs.Reports.{summary_of};
ghost use Rattle.part.specs.Parts.{part_bytes};
ghost use Rattle.runs.specs.declared.state.State.TheVariants.{Draft as OfDraft, Frozen as OfFrozen};
ghost use Rattle.runs.specs.Steps.{edits_then_freeze, standing, state_from};
ghost use Rattle.scripts.specs.Replies.{pile_of};
ghost use Rattle.winavulor.specs.Cuts.{no_marks};

use crate::failure::Failure;
use book::{AtRest, Draft, Frozen, MOST_AXIOMS, MOST_BYTES};
use extraction::{Marking, mark_pile};
use locality::Test;
use notation::Report;
use part::write;
use runs::{Edit, freeze_after};
use scripts::NamedPile;
use std::alloc::Global;
use vocabulary::MOST_NAMES;

/// A book that was cut: frozen behind the edits of the cut, with what is marked of it, and its part.
#[derive(Drop)]
pub struct Module {
    frozen: Frozen,
    marking: Marking,
    axioms: [u8; MOST_AXIOMS],
    names: [u8; MOST_NAMES],
    part: Vec<u8>,
}

// The longest part that the limits of a book allow: 1,024 names of 37 bytes, as many seeds of 6, and as many axioms of 4
// bytes and their bodies, which have 32,768 bytes together.
const LONGEST: usize = (37 + 6) * MOST_NAMES + 4 * MOST_AXIOMS + MOST_BYTES;

// The part of a book at rest.
fn part_of(heap: Global, pile: &NamedPile<Test>, rest: &AtRest) -> Result<Vec<u8>, Failure>
    ensures { IfOk result (λ v.
        let b = contents rest.now in v.items ≡ part_bytes b (pile_of pile.now b).kept) }
{
    let mut axioms = [0; MOST_AXIOMS];
    let mut names = [0; MOST_NAMES];
    let mut part = vec![in heap; 0; LONGEST]?;
    let pile = pile.extractor();
    let len = write(rest, &pile, &mut axioms, &mut names, part.as_mut_slice())?;
    part.truncate(len);
    Ok(part)
}

impl Module {
    // Makes edits on a draft, freezes it, marks it through a pile, and writes its part.
    pub(crate) fn of(
        heap: Global,
        pile: &NamedPile<Test>,
        draft: Draft,
        edits: &[Edit],
    ) -> Result<Module, Failure>
        ensures frozen { IfOk result (λ m.
            standing (OfFrozen m.frozen)
            ≡ state_from (standing (OfDraft draft)) (edits_then_freeze edits.now)) }
        ensures marks { IfOk result (λ m.
            let b = contents m.frozen in
            Gives (lent m.axioms m.names) (Ok m.marking)
            (marking b (pile_of pile.now b) no_marks)) }
        ensures part { IfOk result (λ m.
            let b = contents m.frozen in
            m.part.items ≡ part_bytes b (pile_of pile.now b).kept) }
    {
        let frozen = freeze_after(draft, edits);
        let mut axioms = [0; MOST_AXIOMS];
        let mut names = [0; MOST_NAMES];
        let stages = pile.extractor();
        let marking = mark_pile(frozen.at_rest(), &stages, &mut axioms, &mut names)?;
        let part = part_of(heap, pile, frozen.at_rest())?;
        Ok(Module {
            frozen,
            marking,
            axioms,
            names,
            part,
        })
    }

    // The bytes of the part.
    pub(crate) fn part(&self) -> &[u8]
        ensures { result.now ≡ self.now.part.items }
    {
        self.part.as_slice()
    }

    // What is kept of a book that was read from so many records, and how long the part is.
    pub(crate) fn report(&self, records: usize) -> Report<'_>
        ensures { summary_of result ≡ record {
          book = contents self.now.frozen;
          records = records;
          axioms = self.now.axioms;
          names = self.now.names;
          marking = self.now.marking;
          bytes = length self.now.part.items;
        } }
    {
        Report {
            book: self.frozen.at_rest().book(),
            records,
            axioms: &self.axioms,
            names: &self.names,
            marking: self.marking,
            bytes: self.part.len(),
        }
    }
}
