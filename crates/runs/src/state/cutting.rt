ghost use Rattle.std.specs.Prelude.{◌≡◌, map, IfSome};
ghost use Rattle.refusals.specs.Choice.{Judged, refusal_of};
ghost use Rattle.refusals.specs.Turns.{Gives};
ghost use Rattle.extraction.specs.Fitting.{MarkingFits};
ghost use Rattle.extraction.specs.Marking.{lent, mark_refusal};
ghost use Rattle.runs.specs.Promise.{BookPromise, LedThrough, LedTo};
ghost use Rattle.runs.specs.Resting.{marking_if_frozen};
ghost use Rattle.runs.specs.Steps.{standing, state_from, step_of};

use crate::call::Call;
use crate::state::State;
use extraction::{Extractor, MarkFault, Marking};

/// A book after a list of calls, and what marking it answered.
#[derive(Drop)]
pub struct Cut {
    /// The book after the calls.
    pub state: State,
    /// The answer; there is none where that book is a draft, which cannot be marked.
    pub marking: Option<Result<Marking, MarkFault>>,
}

impl State {
    /// Performs the calls of a list in their order, whatever each answers, and then marks the book through an extractor, as
    /// [`State::mark`] does. The promise is of every list of calls that led here before, with these behind it, of every list
    /// that leads to the book then, and of that book (specs/Promise.antt).
    pub fn mark_after<E: Extractor>(
        self,
        calls: &[Call],
        pile: &E,
        axioms: &mut [u8],
        names: &mut [u8],
    ) -> Cut
        ensures state { let cs = map step_of calls.now in
            standing result.state ≡ state_from (standing self) cs }
        ensures gives { let before = lent axioms.old names.old in
            let after = lent axioms.new names.new in
            let s = state_from (standing self) (map step_of calls.now) in
            let turn = marking_if_frozen (E.Extractor.extraction pile.now) s before in
            Gives after result.marking turn }
        ensures law { let fits =
            MarkingFits (standing result.state).book (lent axioms.old names.old) in
            IfSome result.marking (λ r. Judged fits (refusal_of mark_refusal r)) }
        ensures through { let x = E.Extractor.extraction pile.now in
            LedThrough (standing self) (map step_of calls.now) x }
        ensures led { LedTo (standing result.state) (E.Extractor.extraction pile.now) }
        ensures book { let b = (standing result.state).book in
            BookPromise b (E.Extractor.extraction pile.now b) }
    {
        let state = self.perform_all(calls);
        let marking = state.mark(pile, axioms, names);
        Cut { state, marking }
    }
}
