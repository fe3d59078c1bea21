//! A shelf in memory.
ghost use Rattle.std.specs.Prelude.{◌≡◌, ◌+◌, ◌-◌, ◌<◌, ◌≤◌, ◌↔◌, ◌⊎◌, ◌^◌, Some, None, length, map, min, vec_len, option_copied, Contains, IfOk, IfSome, IsSomeAnd};
ghost use Rattle.ftpp_outside.specs.Files.{bytes_of, named_bytes};
ghost use Rattle.ftpp_outside.specs.Told.{raised, Rose};

use crate::shelf::{Shelf, ShelfError};
use std::alloc::Global;

/// A shelf of files in memory. Of two files of one name the first counts. Chosen calls fail.
#[derive(Drop)]
pub struct MemShelf {
    files: Vec<(String, Vec<u8>)>,
    failing: Vec<u64>,
    calls: u64,
    faults: u64,
    ghost calls_fit: { calls < 2 ^ 64 },
    ghost faults_fit: { faults < 2 ^ 64 },
}

impl MemShelf {
    ghost use Rattle.ftpp_outside.specs.MemShelf.{shelved, next_call, failing_calls};

    /// A shelf of these files, each a name with its bytes. Calls are counted from 1, and those in
    /// the list `failing` fail.
    pub fn new(files: Vec<(String, Vec<u8>)>, failing: Vec<u64>) -> Self
        ensures files { shelved result ≡ map named_bytes files.items }
        ensures failing { failing_calls result ≡ failing.items }
        ensures first { next_call result ≡ 1 }
        ensures faults { result.faults ≡ 0 }
    {
        MemShelf {
            files,
            failing,
            calls: 0,
            faults: 0,
        }
    }

    /// Counts a fault, and returns the error that says so.
    fn fault(&mut self) -> ShelfError
        ensures error { result ≡ ShelfError.Fault }
        ensures counted { self.new.faults ≡ raised self.old.faults 1 }
        ensures stays { (shelved self.new ≡ shelved self.old) × (failing_calls self.new ≡ failing_calls self.old) × (next_call self.new ≡ next_call self.old) }
    {
        self.faults = self.faults.saturating_add(1);
        ShelfError::Fault
    }
}

/// The bytes of the first file of this name.
fn named<'a>(files: &'a [(String, Vec<u8>)], name: &str) -> Option<&'a [u8]>
    ensures { option_copied result ≡ bytes_of (map named_bytes files.now) name.now }
{
    for (it, bytes) in files {
        if it.as_str() == name {
            return Some(bytes.as_slice());
        }
    }
    None
}

/// A copy of these bytes, if they are no more than the limit.
fn copied(alloc: Global, bytes: &[u8], limit: usize) -> Result<Vec<u8>, ShelfError>
    ensures bytes { IfOk result (λ v. v.items ≡ bytes.now) }
    ensures short { IfOk result (λ v. vec_len v ≤ limit) }
    ensures too_long { result ≡ Err ShelfError.TooLong ↔ limit < length bytes.now }
    ensures no_fault { result ≡ Err ShelfError.Fault → ⊥ }
{
    if bytes.len() > limit {
        return Err(ShelfError::TooLong);
    }
    match Vec::from_slice(alloc, bytes) {
        Ok(copy) => Ok(copy),
        Err(_) => Err(ShelfError::Memory),
    }
}

impl Shelf for MemShelf {
    ghost use Rattle.ftpp_outside.specs.MemShelf.{shelved, next_call, failing_calls, IsSureOf};

    ghost files = { λ s. Some (shelved s) };

    ghost faults = { λ s. s.faults };

    ghost sure_of = { IsSureOf };

    fn load(&mut self, alloc: Global, name: &str, limit: usize) -> Result<Vec<u8>, ShelfError>
        ensures bytes { IfOk result (λ v. bytes_of (shelved self.old) name.now ≡ Some v.items) }
        ensures short { IfOk result (λ v. vec_len v ≤ limit) }
        ensures fault { result ≡ Err ShelfError.Fault → Rose self.old.faults self.new.faults }
        ensures sure { IsSureOf self.old name.now → result ≡ Err ShelfError.Fault → ⊥ }
        ensures missing { bytes_of (shelved self.old) name.now ≡ None → Rose self.old.faults self.new.faults }
        ensures too_long { result ≡ Err ShelfError.TooLong → IsSomeAnd (bytes_of (shelved self.old) name.now) (λ bytes. limit < length bytes) }
        ensures same { shelved self.new ≡ shelved self.old }
        ensures faults { self.old.faults ≤ self.new.faults }
        ensures counted { result ≡ Err ShelfError.Fault → self.new.faults ≡ raised self.old.faults 1 }
        ensures uncounted { (result ≡ Err ShelfError.Fault → ⊥) → self.new.faults ≡ self.old.faults }

        // Exactly the chosen calls, and those for a name that is not there, answer `Fault`.
        ensures fails { result ≡ Err ShelfError.Fault ↔ (Contains (failing_calls self.old) (next_call self.old) ⊎ (bytes_of (shelved self.old) name.now ≡ None)) }

        // A call that is not chosen answers `TooLong` for a file of more bytes than the limit.
        ensures longer { (Contains (failing_calls self.old) (next_call self.old) → ⊥) → IfSome (bytes_of (shelved self.old) name.now) (λ bytes. limit < length bytes → result ≡ Err ShelfError.TooLong) }
        ensures call { next_call self.new ≡ min (next_call self.old + 1) (2 ^ 64 - 1) }
        ensures stays { failing_calls self.new ≡ failing_calls self.old }
    {
        self.calls = self.calls.saturating_add(1);
        if self.failing.contains(&self.calls) {
            return Err(self.fault());
        }
        let Some(bytes) = named(&self.files, name) else {
            return Err(self.fault());
        };
        copied(alloc, bytes, limit)
    }
}
