ghost use Rattle.std.specs.Prelude.{◌≡◌};
ghost use Rattle.runs.specs.Steps.{edits_then_freeze, standing, state_from};
ghost use Rattle.runs.specs.declared.state.State.TheVariants.{Draft as OfDraft, Frozen as OfFrozen};

use crate::call::Edit;
use crate::state::performing::make;
use book::{Draft, Frozen};

/// Makes the edits of a list on a draft in their order, whatever each answers, and freezes it. It stands as the list of these
/// calls leads to, with freezing behind them (specs/Steps.antt).
pub fn freeze_after(draft: Draft, edits: &[Edit]) -> Frozen
    ensures { let steps = edits_then_freeze edits.now in
        standing (OfFrozen result) ≡ state_from (standing (OfDraft draft)) steps }
{
    let mut draft = draft;
    for edit in edits {
        let _outcome = make(&mut draft, edit);
    }
    draft.freeze()
}
