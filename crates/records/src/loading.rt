ghost use Rattle.std.specs.Prelude.{◌≡◌, length};
ghost use Rattle.refusals.specs.Turns.{Gives};
ghost use Rattle.book.specs.Calls.{contents, with_fault};
ghost use Rattle.records.specs.Law.{IsLoading};
ghost use Rattle.records.specs.Loading.{loads, loading};
ghost use Rattle.records.specs.Steps.{Stepped};
ghost use Rattle.records.specs.Stops.{answer_of, stop_at};

use crate::fault::RecordFault;
use crate::load_fault::LoadFault;
use crate::reader::RecordReader;
use crate::stopped::Stopped;
use crate::taking::take;
use book::Draft;

// Takes the next record of a file.
fn step(draft: &mut Draft, reader: &mut RecordReader<'_>) -> Result<(), RecordFault>
    ensures { Stepped draft.old reader.old result draft.new reader.new }
{
    let entry = reader.record()?;
    take(draft, entry)
}

// Takes the records of a file in their order.
fn load_records(draft: &mut Draft, file: &[u8]) -> Result<usize, Stopped>
    ensures { Gives (contents draft.new) (with_fault stop_at result)
        (loads (length file.now) file.now (contents draft.old) 0 0) }
{
    let mut reader = RecordReader { file, at: 0 };
    let mut taken = 0;
    while reader.at < file.len() {
        let offset = reader.at;
        if let Err(fault) = step(draft, &mut reader) {
            return Err(Stopped {
                offset,
                fault,
                taken,
            });
        }
        taken += 1;
    }
    Ok(taken)
}

/// Loads a file into a book that has no name and no axiom, and answers how many records were taken. Refused, with 1,
/// where the book has a name or an axiom, and otherwise, with 2 to 18, at the first record that is not taken: the
/// records before it stay. `specs/Law` says what that is, `specs/Fitting` when each refusal fits.
#[tactic(auto, unfolding(crate::specs::Loading::loading))]
pub fn load(draft: &mut Draft, file: &[u8]) -> Result<usize, LoadFault>
    ensures turn { Gives (contents draft.new) (answer_of result)
        (loading (contents draft.old) file.now) }
    ensures law { IsLoading (contents draft.old) file.now (answer_of result) (contents draft.new) }
{
    if !draft.book().is_blank() {
        return Err(LoadFault::NotEmpty);
    }
    Ok(load_records(draft, file)?)
}
