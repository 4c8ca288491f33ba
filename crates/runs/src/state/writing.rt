ghost use Rattle.std.specs.Prelude.{List, IfSome};
ghost use Rattle.refusals.specs.Choice.{Judged, refusal_of};
ghost use Rattle.refusals.specs.Turns.{Gives};
ghost use Rattle.extraction.specs.Marking.{mark_refusal};
ghost use Rattle.part.specs.Fitting.{WritingFits};
ghost use Rattle.part.specs.Writing.{lent_for_part};
ghost use Rattle.runs.specs.Promise.{AreOfBytes, BookPromise, LedTo, Promise};
ghost use Rattle.runs.specs.Resting.{writing_if_frozen};
ghost use Rattle.runs.specs.Steps.{Step, standing};

use crate::state::State;
use extraction::{Extractor, MarkFault};
use part::write;

impl State {
    /// Writes the part of a frozen book through an extractor, as [`write`] does; the answer is `None` where the book is a
    /// draft, whose part cannot be written (specs/Resting.antt). The promise is of every list of calls that leads to the book
    /// or is of bytes, and of the book at hand (specs/Promise.antt).
    pub fn write<E: Extractor>(
        &self,
        pile: &E,
        axioms: &mut [u8],
        names: &mut [u8],
        part: &mut [u8],
    ) -> Option<Result<usize, MarkFault>>
        ensures gives { let before = lent_for_part axioms.old names.old part.old in
            let after = lent_for_part axioms.new names.new part.new in
            let s = standing self.now in
            let turn = writing_if_frozen (E.Extractor.extraction pile.now) s before in
            Gives after result turn }
        ensures law { let b = (standing self.now).book in
            let kept = (E.Extractor.extraction pile.now b).kept in
            let fits = WritingFits b kept (lent_for_part axioms.old names.old part.old) in
            IfSome result (λ r. Judged fits (refusal_of mark_refusal r)) }
        ensures promise { (cs : List Step) → AreOfBytes cs →
            Promise cs (E.Extractor.extraction pile.now) }
        ensures led { LedTo (standing self.now) (E.Extractor.extraction pile.now) }
        ensures book { let b = (standing self.now).book in
            BookPromise b (E.Extractor.extraction pile.now b) }
    {
        match self {
            State::Draft(_) => None,
            State::Frozen(frozen) => Some(write(frozen.at_rest(), pile, axioms, names, part)),
        }
    }
}
