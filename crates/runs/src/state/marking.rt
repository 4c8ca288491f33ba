ghost use Rattle.std.specs.Prelude.{List, IfSome};
ghost use Rattle.refusals.specs.Choice.{Judged, refusal_of};
ghost use Rattle.refusals.specs.Turns.{Gives};
ghost use Rattle.extraction.specs.Fitting.{MarkingFits};
ghost use Rattle.extraction.specs.Marking.{lent, mark_refusal};
ghost use Rattle.runs.specs.Promise.{AreOfBytes, BookPromise, LedTo, Promise};
ghost use Rattle.runs.specs.Resting.{marking_if_frozen, staged_over};
ghost use Rattle.runs.specs.Steps.{Step, standing};

use crate::state::State;
use extraction::{Extractor, MarkFault, Marking, Stage, mark};
use locality::LocalityTest;

impl State {
    /// Marks a frozen book through an extractor, as [`mark`] does; the answer is `None` where the book is a draft, which
    /// cannot be marked (specs/Resting.antt). The promise is of every list of calls that leads to the book or is of bytes, and
    /// of the book at hand (specs/Promise.antt).
    pub fn mark<E: Extractor>(
        &self,
        pile: &E,
        axioms: &mut [u8],
        names: &mut [u8],
    ) -> Option<Result<Marking, MarkFault>>
        ensures gives { let before = lent axioms.old names.old in
            let after = lent axioms.new names.new in
            let s = standing self.now in
            let turn = marking_if_frozen (E.Extractor.extraction pile.now) s before in
            Gives after result turn }
        ensures law { let fits =
            MarkingFits (standing self.now).book (lent axioms.old names.old) in
            IfSome result (λ r. Judged fits (refusal_of mark_refusal r)) }
        ensures promise { (cs : List Step) → AreOfBytes cs →
            Promise cs (E.Extractor.extraction pile.now) }
        ensures led { LedTo (standing self.now) (E.Extractor.extraction pile.now) }
        ensures book { let b = (standing self.now).book in
            BookPromise b (E.Extractor.extraction pile.now b) }
    {
        match self {
            State::Draft(_) => None,
            State::Frozen(frozen) => Some(mark(frozen.at_rest(), pile, axioms, names)),
        }
    }

    /// Marks a frozen book through a stage, as [`State::mark`] does: what it comes to is told here outright, by its test and
    /// by what the extractor below comes to.
    pub fn mark_stage<T: LocalityTest, E: Extractor>(
        &self,
        stage: &Stage<T, E>,
        axioms: &mut [u8],
        names: &mut [u8],
    ) -> Option<Result<Marking, MarkFault>>
        ensures gives { let t = stage.now.test in
            let below = E.Extractor.extraction stage.now.below in
            let x = staged_over (T.LocalityTest.local t) (T.LocalityTest.default t) below in
            let before = lent axioms.old names.old in
            let after = lent axioms.new names.new in
            Gives after result (marking_if_frozen x (standing self.now) before) }
        ensures law { let fits =
            MarkingFits (standing self.now).book (lent axioms.old names.old) in
            IfSome result (λ r. Judged fits (refusal_of mark_refusal r)) }
        ensures promise { let t = stage.now.test in
            let below = E.Extractor.extraction stage.now.below in
            let x = staged_over (T.LocalityTest.local t) (T.LocalityTest.default t) below in
            (cs : List Step) → AreOfBytes cs → Promise cs x }
        ensures led { let t = stage.now.test in
            let below = E.Extractor.extraction stage.now.below in
            let x = staged_over (T.LocalityTest.local t) (T.LocalityTest.default t) below in
            LedTo (standing self.now) x }
        ensures book { let t = stage.now.test in
            let below = E.Extractor.extraction stage.now.below in
            let x = staged_over (T.LocalityTest.local t) (T.LocalityTest.default t) below in
            let b = (standing self.now).book in
            BookPromise b (x b) }
    {
        self.mark(stage, axioms, names)
    }
}
