//! A source and a sink that never fail.
ghost use Rattle.std.specs.Prelude.{◌≡◌, ◌+◌, ◌<◌, ◌≤◌, ◌^◌, None, Some, Ok, length, vec_len};
ghost use Rattle.ftpp_outside.specs.Told.{raised};

use crate::sink::{Sink, WriteFault};
use crate::source::{ReadFault, Source};

/// A source of bytes in memory that never fails.
#[derive(Drop)]
pub struct SteadySource {
    bytes: Vec<u8>,
    at: usize,
    taken: u64,
    ghost within: { at ≤ vec_len bytes },
    ghost taken_fits: { taken < 2 ^ 64 },
}

impl SteadySource {
    ghost use Rattle.ftpp_outside.specs.Steady.{unread};

    /// A source of these bytes.
    pub fn new(bytes: Vec<u8>) -> Self
        ensures unread { unread result ≡ bytes.items }
        ensures taken { result.taken ≡ 0 }
    {
        SteadySource {
            bytes,
            at: 0,
            taken: 0,
        }
    }
}

impl Source for SteadySource {
    ghost use Rattle.ftpp_outside.specs.Steady.{unread};

    ghost left = { λ s. Some (unread s) };

    ghost taken = { λ s. s.taken };

    ghost faults = { λ _. 0 };

    #[tactic(auto, using(crate::proofs::Told::next_bytes))]
    fn read(&mut self, into: &mut [u8]) -> Result<usize, ReadFault> {
        let rest = &self.bytes[self.at..];
        let n = rest.len().min(into.len());
        into[..n].copy_from_slice(&rest[..n]);
        self.at += n;
        self.taken = self.taken.saturating_add(n as u64);
        Ok(n)
    }
}

/// A sink that never fails. It counts the bytes written and keeps none.
#[derive(Clone, Copy, Debug)]
pub struct SteadySink {
    count: u64,
    ghost count_fits: { count < 2 ^ 64 },
}

impl SteadySink {
    /// A sink to which nothing was written.
    pub fn new() -> Self
        ensures { result.count ≡ 0 }
    {
        SteadySink { count: 0 }
    }

    /// The number of bytes written so far, which stays at 2^64 - 1.
    pub fn count(&self) -> u64
        ensures { result ≡ self.now.count }
    {
        self.count
    }
}

impl Sink for SteadySink {
    ghost written = { λ _. None };

    ghost faults = { λ _. 0 };

    fn write(&mut self, piece: &[u8]) -> Result<usize, WriteFault>
        ensures whole { result ≡ Ok (length piece.now) }
        ensures counted { self.new.count ≡ raised self.old.count (length piece.now) }
    {
        self.count = self.count.saturating_add(piece.len() as u64);
        Ok(piece.len())
    }
}
