//! Sources of bytes.
ghost use Rattle.std.specs.Prelude.{◌≡◌, ℕ, ◌+◌, ◌<◌, ◌≤◌, List, [], Option, length, take, vec_len, IfOk, IfSome, OnErr, MatchResult};
ghost use Rattle.ftpp_outside.specs.Told.{raised, Rose, Gives};

use std::alloc::Global;
use thiserror::Error;

/// A read failed.
#[derive(Clone, Copy, Debug, PartialEq, Eq)]
pub struct ReadFault;

/// What bytes are read from.
pub trait Source {
    /// The bytes that are left, or `None` for a source that does not tell.
    ghost left: { Self → Option (List ℕ) };

    /// The number of bytes taken so far, which stays at 2^64 - 1.
    ghost taken: { Self → ℕ };

    /// The number of faults so far, which stays at 2^64 - 1.
    ghost faults: { Self → ℕ };

    /// Reads the next bytes into the front of `into` and returns how many. Unless `into` is empty, 0
    /// means the end of input.
    ///
    /// # Errors
    ///
    /// [`ReadFault`] where the read failed; no byte was taken.
    fn read(&mut self, into: &mut [u8]) -> Result<usize, ReadFault>
        ensures count { IfOk result (λ n. n ≤ length into.old) }
        ensures bytes { IfOk result (λ n. Gives (left self.old) (take n into.new) (left self.new)) }
        ensures end { result ≡ Ok 0 → 0 < length into.old → IfSome (left self.new) (λ xs. xs ≡ []) }
        ensures taken { MatchResult result (λ n. taken self.new ≡ raised (taken self.old) n) (λ _. taken self.new ≡ taken self.old) }
        ensures fault { OnErr result (Rose (faults self.old) (faults self.new)) }
        ensures same { OnErr result (left self.new ≡ left self.old) }
        ensures faults { faults self.old ≤ faults self.new };
}

/// Why input was not read.
#[derive(Debug, Drop, Error)]
pub enum InputError {
    /// A read failed.
    #[error("Read")]
    Read,
    /// More bytes came than were allowed.
    #[error("TooLong")]
    TooLong,
    /// The system gave no memory.
    #[error("Memory")]
    Memory,
}

/// The most bytes that one read asks for.
const PIECE: usize = 4096;

/// Reads all bytes that are left, if they are no more than the limit. At most one byte more than the
/// limit is taken.
///
/// # Errors
///
/// [`InputError::Read`] where a read failed, [`InputError::TooLong`] where more than `limit` bytes
/// were left, [`InputError::Memory`] where the system gives no memory.
#[tactic(auto, using(crate::proofs::Told::gives_none, crate::proofs::Told::gives_both))]
pub fn read_all<S: Source>(alloc: Global, src: &mut S, limit: usize) -> Result<Vec<u8>, InputError>
    ensures bytes { IfOk result (λ v. IfSome (S.left src.old) (λ xs. v.items ≡ xs)) }
    ensures short { IfOk result (λ v. vec_len v ≤ limit) }
    ensures end { IfOk result (λ _. IfSome (S.left src.new) (λ xs. xs ≡ [])) }
    ensures read { result ≡ Err InputError.Read → Rose (S.faults src.old) (S.faults src.new) }
    ensures too_long { result ≡ Err InputError.TooLong → S.taken src.new ≡ raised (S.taken src.old) (limit + 1) }
    ensures longer { result ≡ Err InputError.TooLong → IfSome (S.left src.old) (λ xs. limit < length xs) }
    ensures most { S.taken src.new ≤ raised (S.taken src.old) (limit + 1) }
    ensures faults { S.faults src.old ≤ S.faults src.new }
{
    let mut all = Vec::new(alloc);
    let mut piece = [0u8; PIECE];
    while all.len() <= limit {
        let want = (limit - all.len()).saturating_add(1).min(PIECE);
        let Ok(n) = src.read(&mut piece[..want]) else {
            return Err(InputError::Read);
        };
        if n == 0 {
            return Ok(all);
        }
        if all.extend_from_slice(&piece[..n]).is_err() {
            return Err(InputError::Memory);
        }
    }
    Err(InputError::TooLong)
}
