ghost use Rattle.std.specs.Prelude.{◌^◌, ◌<◌};
ghost use Rattle.records.specs.Faults.{place_in};

use crate::fault::RecordFault;

/// Where a loading stopped. The place of the fault in the file fits a number.
#[derive(Clone, Copy, Debug, PartialEq, Eq, Hash)]
pub struct Stopped {
    /// The offset of the record that was not taken.
    pub offset: usize,
    /// Why it was not taken.
    pub fault: RecordFault,
    /// How many records were taken before it.
    pub taken: usize,
    ghost near: { place_in offset fault < 2 ^ 64 },
}
