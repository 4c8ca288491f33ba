ghost use Rattle.std.specs.Prelude.{◌≡◌};
ghost use Rattle.refusals.specs.Turns.{Gives};
ghost use Rattle.book.specs.Calls.{contents};
ghost use Rattle.records.specs.Loading.{name_turn, seed_turn, body_turn, record_turn};
ghost use Rattle.records.specs.Reading.{entry_of};

use crate::fault::{RecordFault, SeedFault};
use crate::kind::RecordKind;
use crate::reader::Record;
use book::Draft;
use codec::{Body, read_name_number};
use vocabulary::NameFault;

// Makes the name of a body: its kind byte, then its label.
fn take_name(draft: &mut Draft, body: &Body<'_>) -> Result<(), NameFault>
    ensures { Gives (contents draft.new) result (name_turn (contents draft.old) body.now) }
{
    let [kind, label @ ..] = body.as_bytes() else {
        return Err(NameFault::BadKind);
    };
    draft.name(*kind, label)?;
    Ok(())
}

// Seeds the name whose number is the body.
fn take_seed(draft: &mut Draft, body: &Body<'_>) -> Result<(), SeedFault>
    ensures { Gives (contents draft.new) result (seed_turn (contents draft.old) body.now) }
{
    let len = body.len();
    let parsed = read_name_number(draft.book().names(), body)?;
    if parsed.end < len {
        return Err(SeedFault::LeftOver(parsed.end));
    }
    Ok(draft.seed(parsed.name)?)
}

// Takes a body as the naming, filing or seeding that its record asks for.
fn take_body(draft: &mut Draft, kind: RecordKind, body: &Body<'_>) -> Result<(), RecordFault>
    ensures { Gives (contents draft.new) result (body_turn (contents draft.old) kind body.now) }
{
    match kind {
        RecordKind::Name => take_name(draft, body)?,
        RecordKind::Axiom(kind) => {
            draft.file_axiom(kind, body)?;
        }
        RecordKind::Seed => take_seed(draft, body)?,
    }
    Ok(())
}

// Takes a record. A body of more than 512 bytes is not looked into.
pub(crate) fn take(draft: &mut Draft, entry: Record<'_>) -> Result<(), RecordFault>
    ensures { Gives (contents draft.new) result
        (record_turn (contents draft.old) (entry_of entry.entry)) }
{
    let kind = RecordKind::try_from(entry.kind).map_err(|_| RecordFault::UnknownKind)?;
    let body = Body::new(entry.body).ok_or(RecordFault::BodyTooLong)?;
    take_body(draft, kind, &body)
}
