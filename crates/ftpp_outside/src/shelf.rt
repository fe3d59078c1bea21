//! Shelves of files.
ghost use Rattle.std.specs.Prelude.{◌≡◌, ℕ, ◌<◌, ◌≤◌, List, Option, vec_len, IfOk};
ghost use Rattle.ftpp_outside.specs.Files.{NamedBytes, Loads, IsLonger, IsMissing};
ghost use Rattle.ftpp_outside.specs.Told.{Rose};

use std::alloc::Global;
use thiserror::Error;

/// Why a file was not loaded.
#[derive(Debug, Drop, Error)]
pub enum ShelfError {
    /// There is no such file, or it could not be read.
    #[error("Fault")]
    Fault,
    /// The file has more bytes than were allowed.
    #[error("TooLong")]
    TooLong,
    /// The system gave no memory.
    #[error("Memory")]
    Memory,
}

/// What files are loaded from.
pub trait Shelf {
    /// The files, or `None` for a shelf that does not tell. Of two files of one name the first counts.
    ghost files: { Self → Option (List NamedBytes) };

    /// The number of faults so far, which stays at 2^64 - 1.
    ghost faults: { Self → ℕ };

    /// That the shelf is sure of a file: the next load of this name meets no fault. A shelf that can't know is sure of none.
    ghost sure_of: { Self → List ℕ → Type 0 } = { λ _ _. ⊥ };

    /// Loads all bytes of a file, if they are no more than the limit.
    ///
    /// # Errors
    ///
    /// [`ShelfError::Fault`] where the file is missing or can't be read, [`ShelfError::TooLong`]
    /// where it has more than `limit` bytes, [`ShelfError::Memory`] where the system gives no
    /// memory.
    fn load(&mut self, alloc: Global, name: &str, limit: usize) -> Result<Vec<u8>, ShelfError>
        ensures bytes { IfOk result (λ v. Loads (files self.old) name.now v.items) }
        ensures short { IfOk result (λ v. vec_len v ≤ limit) }
        ensures fault { result ≡ Err ShelfError.Fault → Rose (faults self.old) (faults self.new) }
        ensures sure { sure_of self.old name.now → result ≡ Err ShelfError.Fault → ⊥ }
        ensures missing { IsMissing (files self.old) name.now → Rose (faults self.old) (faults self.new) }
        ensures too_long { result ≡ Err ShelfError.TooLong → IsLonger (files self.old) name.now limit }
        ensures same { files self.new ≡ files self.old }
        ensures faults { faults self.old ≤ faults self.new };
}
