//! The files of the system as a shelf. It does not tell what they hold.
ghost use Rattle.std.specs.Prelude.{◌≡◌, ◌<◌, ◌≤◌, ◌^◌, None, vec_len, IfOk};
ghost use Rattle.ftpp_outside.specs.Told.{Rose};

use crate::shelf::{Shelf, ShelfError};
use crate::source::{InputError, read_all};
use crate::standard::ReaderSource;
use std::alloc::Global;
use std::fs::File;
use std::rt::Files;

/// The files of the system as a shelf. A name is a path.
#[derive(Drop)]
pub struct StdShelf<'a, R: Files> {
    rt: &'a R,
    faults: u64,
    ghost faults_fit: { faults < 2 ^ 64 },
}

impl<'a, R: Files> StdShelf<'a, R> {
    /// The shelf of the files that this runtime reaches.
    pub fn new(rt: &'a R) -> Self
        ensures { result.faults ≡ 0 }
    {
        StdShelf { rt, faults: 0 }
    }
}

impl<R: Files> Shelf for StdShelf<'_, R> {
    ghost files = { λ _. None };

    ghost faults = { λ s. s.faults };

    fn load(&mut self, alloc: Global, name: &str, limit: usize) -> Result<Vec<u8>, ShelfError> {
        let answer = load_file(self.rt, alloc, name, limit);
        if matches!(&answer, Err(ShelfError::Fault)) {
            self.faults = self.faults.saturating_add(1);
        }
        answer
    }
}

/// Reads all bytes of a file, if they are no more than the limit. At most one byte more than the
/// limit is read.
fn load_file<R: Files>(
    rt: &R,
    alloc: Global,
    path: &str,
    limit: usize,
) -> Result<Vec<u8>, ShelfError>
    ensures short { IfOk result (λ v. vec_len v ≤ limit) }
{
    let Ok(file) = File::open(rt, path) else {
        return Err(ShelfError::Fault);
    };
    let mut source = ReaderSource::new(file);
    match read_all(alloc, &mut source, limit) {
        Ok(bytes) => Ok(bytes),
        Err(InputError::Read) => Err(ShelfError::Fault),
        Err(InputError::TooLong) => Err(ShelfError::TooLong),
        Err(InputError::Memory) => Err(ShelfError::Memory),
    }
}
