// Files, read and written.
ghost use Rattle.std.specs.Prelude.{◌≡◌, IfOk, Ok};
ghost use Rattle.book.specs.Calls.{contents, empty};
ghost use Rattle.records.specs.Loading.{loading};

use crate::failure::Failure;
use book::Draft;
use records::load;
use std::fs::File;
use std::io::Write;
use std::{fs, io};

pub(crate) fn read(rt: &HostRuntime, path: &str) -> Result<Vec<u8>, Failure> {
    match fs::read(rt, path) {
        Ok(bytes) => Ok(bytes),
        Err(error) => Err(Failure::Unreadable {
            path: String::from_str(rt.alloc(), path)?,
            error,
        }),
    }
}

// The book of a file with these bytes, and how many records the file has.
pub(crate) fn drafted(rt: &HostRuntime, path: &str, bytes: &[u8]) -> Result<(Draft, usize), Failure>
    ensures book { IfOk result (λ r. contents r.0 ≡ (loading empty bytes.now).state) }
    ensures taken { IfOk result (λ r. (loading empty bytes.now).answer ≡ Ok r.1) }
{
    let mut draft = Draft::open(rt.alloc())?;
    match load(&mut draft, bytes) {
        Ok(taken) => Ok((draft, taken)),
        Err(fault) => Err(Failure::Refused {
            path: String::from_str(rt.alloc(), path)?,
            refusal: fault.refusal(),
            taken: fault.taken(),
        }),
    }
}

// The book of a file, and how many records the file has.
pub(crate) fn loaded(rt: &HostRuntime, path: &str) -> Result<(Draft, usize), Failure> {
    let bytes = read(rt, path)?;
    drafted(rt, path, bytes.as_slice())
}

// Removes a file, if it can be.
pub(crate) fn remove(rt: &HostRuntime, path: &str) {
    match fs::remove_file(rt, path) {
        Ok(()) | Err(_) => {}
    }
}

// Writes a file that is not there yet; if it cannot be written whole, it does not stay.
fn create(rt: &HostRuntime, path: &str, bytes: &[u8]) -> io::Result<()> {
    let mut file = File::create_new(rt, path)?;
    let end = file.write_all(bytes);
    if end.is_err() {
        remove(rt, path);
    }
    end
}

pub(crate) fn save(rt: &HostRuntime, path: &str, bytes: &[u8]) -> Result<(), Failure> {
    match create(rt, path, bytes) {
        Ok(()) => Ok(()),
        Err(error) => Err(Failure::Unwritable {
            path: String::from_str(rt.alloc(), path)?,
            error,
        }),
    }
}
