ghost use Rattle.std.specs.Prelude.{◌≡◌, ◌≤◌, length};

use crate::fault::RecordFault;

// How many bytes the head of a record has.
pub(crate) const HEAD_LENGTH: usize = 4;

// A record of a file: the number of its kind, whether it is one or not, and its body as a part of the file.
#[derive(Clone, Copy)]
pub(crate) struct Record<'a> {
    pub(crate) kind: u16,
    pub(crate) body: &'a [u8],
}

// Goes through the records of a file; `at` is where the next one begins.
#[derive(Drop)]
pub(crate) struct RecordReader<'a> {
    pub(crate) file: &'a [u8],
    pub(crate) at: usize,
    ghost inside: { at ≤ length file.now },
}

impl<'a> RecordReader<'a> {
    ghost use Rattle.records.specs.Reading.{Yields};

    // The next record. Where its head or its body is cut short, the reader stays before it.
    pub(crate) fn record(&mut self) -> Result<Record<'a>, RecordFault>
        ensures { Yields self.old result self.new }
    {
        let rest = &self.file[self.at..];
        let [len_low, len_high, kind_low, kind_high, behind @ ..] = rest else {
            return Err(RecordFault::CutShort);
        };
        let len = usize::from(u16::from_le_bytes([*len_low, *len_high]));
        let body = behind.get(..len).ok_or(RecordFault::CutShort)?;
        self.at += HEAD_LENGTH + len;
        Ok(Record {
            kind: u16::from_le_bytes([*kind_low, *kind_high]),
            body,
        })
    }
}
