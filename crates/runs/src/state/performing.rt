ghost use Rattle.std.specs.Prelude.{◌≡◌, ◌≢◌, map, Err, IfOk};
ghost use Rattle.refusals.specs.Choice.{Judged};
ghost use Rattle.refusals.specs.Turns.{Gives};
ghost use Rattle.book.specs.Calls.{contents};
ghost use Rattle.runs.specs.Fitting.{CallIsJudged, EditFits, refusal_in};
ghost use Rattle.runs.specs.Steps.{change_of, step_of, standing, start, edit_turn, call_turn, state_from};
ghost use Rattle.runs.specs.declared.outcome.CallFault.TheVariants.{NotAllowed};

use crate::call::{Call, Edit};
use crate::outcome::{CallFault, Done, Outcome};
use crate::state::State;
use book::{Book, Draft};
use records::load;
use std::alloc::{AllocError, Global};

// Makes an edit on a draft.
pub(crate) fn make(draft: &mut Draft, edit: &Edit) -> Outcome
    ensures gives { let turn = edit_turn (contents draft.old) (change_of edit.now) in
        Gives (contents draft.new) result turn }
    ensures law { let fits = EditFits (contents draft.old) (change_of edit.now) in
        Judged fits (refusal_in result) }
    ensures allowed { result ≢ Err NotAllowed }
{
    match edit {
        Edit::Name { kind, label } => {
            let id = draft.name(*kind, label.as_slice())?;
            Ok(Done::Named(id))
        }
        Edit::File { kind, body } => {
            let id = draft.file(*kind, body.as_slice())?;
            Ok(Done::Filed(id))
        }
        Edit::Load { file } => {
            let taken = load(draft, file.as_slice())?;
            Ok(Done::Loaded(taken))
        }
        Edit::LayAside(id) => {
            draft.lay_aside(*id)?;
            Ok(Done::Accepted)
        }
        Edit::Restore(id) => {
            draft.restore(*id)?;
            Ok(Done::Accepted)
        }
        Edit::Seed(id) => {
            draft.seed(*id)?;
            Ok(Done::Accepted)
        }
        Edit::Unseed(id) => {
            draft.unseed(*id)?;
            Ok(Done::Accepted)
        }
    }
}

impl State {
    /// An empty draft. All memory that the book will ever need is claimed here; it fails where there is not enough.
    pub fn open(heap: Global) -> Result<State, AllocError>
        ensures { IfOk result (λ s. standing s ≡ start) }
    {
        Ok(State::Draft(Draft::open(heap)?))
    }

    /// The book as it stands.
    pub fn book(&self) -> &Book
        ensures { contents result.now ≡ (standing self.now).book }
    {
        match self {
            State::Draft(draft) => draft.book(),
            State::Frozen(frozen) => frozen.at_rest().book(),
        }
    }

    /// Performs a call, and answers the book after it and the outcome (specs/Steps.antt). A refused call changes nothing, but
    /// for the records that a loading took (specs/Fitting.antt); a book of a status that does not have the call is the same as
    /// before.
    pub fn perform(self, call: &Call) -> (State, Outcome)
        ensures gives { let turn = call_turn (standing self) (step_of call.now) in
            Gives (standing result.0) result.1 turn }
        ensures law { CallIsJudged (standing self) (step_of call.now) result.1 }
        ensures kept { result.1 ≡ Err NotAllowed → result.0 ≡ self }
    {
        match (self, call) {
            (State::Draft(draft), Call::Edit(edit)) => {
                let mut draft = draft;
                let outcome = make(&mut draft, edit);
                (State::Draft(draft), outcome)
            }
            (State::Draft(draft), Call::Freeze) => {
                (State::Frozen(draft.freeze()), Ok(Done::Accepted))
            }
            (State::Frozen(frozen), Call::Reopen) => {
                (State::Draft(frozen.reopen()), Ok(Done::Accepted))
            }
            (state, _) => (state, Err(CallFault::NotAllowed)),
        }
    }

    /// Performs the calls of a list in their order, whatever each answers.
    pub fn perform_all(self, calls: &[Call]) -> State
        ensures { standing result ≡ state_from (standing self) (map step_of calls.now) }
    {
        calls.iter().fold(self, |state, call| state.perform(call).0)
    }
}
