//! A sink in memory.
ghost use Rattle.std.specs.Prelude.{◌≡◌, ◌+◌, ◌-◌, ◌<◌, ◌≤◌, ◌↔◌, ◌⊎◌, ◌^◌, [], Some, length, min, take, vec_len, vec_capacity, Contains, IsErr, IfOk, OnErr, MatchResult};
ghost use Rattle.ftpp_outside.specs.Told.{raised, Rose, Adds};

use crate::sink::{Sink, WriteFault};
use ftpp_base::NoMemory;
use std::alloc::Global;

/// A sink that keeps the bytes written, while it has room. One call takes a limited number of bytes,
/// and chosen calls fail.
#[derive(Drop)]
pub struct MemSink {
    bytes: Vec<u8>,
    room: usize,
    piece: usize,
    failing: Vec<u64>,
    calls: u64,
    faults: u64,
    ghost within: { vec_len bytes ≤ room },
    ghost reserved: { room ≤ vec_capacity bytes },
    ghost some: { 1 ≤ piece },
    ghost calls_fit: { calls < 2 ^ 64 },
    ghost faults_fit: { faults < 2 ^ 64 },
}

impl MemSink {
    ghost use Rattle.ftpp_outside.specs.MemSink.{kept, whole_room, next_call, failing_calls, most_at_once};

    /// A sink that reserves room for `room` bytes and takes at most `piece` bytes a call. Calls are
    /// counted from 1, and those in the list `failing` fail.
    ///
    /// # Errors
    ///
    /// [`NoMemory`] where the system gives no memory.
    pub fn new(
        alloc: Global,
        room: usize,
        piece: usize,
        failing: Vec<u64>,
    ) -> Result<Self, NoMemory>
        requires { 1 ≤ piece }
        ensures kept { IfOk result (λ s. kept s ≡ []) }
        ensures room { IfOk result (λ s. whole_room s ≡ room) }
        ensures piece { IfOk result (λ s. most_at_once s ≡ piece) }
        ensures failing { IfOk result (λ s. failing_calls s ≡ failing.items) }
        ensures first { IfOk result (λ s. next_call s ≡ 1) }
        ensures faults { IfOk result (λ s. s.faults ≡ 0) }
    {
        match Vec::with_capacity(alloc, room) {
            Ok(bytes) => Ok(MemSink {
                bytes,
                room,
                piece,
                failing,
                calls: 0,
                faults: 0,
            }),
            Err(_) => Err(NoMemory),
        }
    }

    /// The bytes that were written.
    pub fn bytes(&self) -> &[u8]
        ensures { result.now ≡ kept self.now }
    {
        self.bytes.as_slice()
    }
}

impl Sink for MemSink {
    ghost use Rattle.ftpp_outside.specs.MemSink.{kept, whole_room, next_call, failing_calls, most_at_once};

    ghost written = { λ s. Some (kept s) };

    ghost faults = { λ s. s.faults };

    fn write(&mut self, piece: &[u8]) -> Result<usize, WriteFault>
        ensures count { IfOk result (λ n. n ≤ length piece.now) }
        ensures progress { IfOk result (λ n. 0 < length piece.now → 1 ≤ n) }
        ensures bytes { IfOk result (λ n. Adds (Some (kept self.old)) (take n piece.now) (Some (kept self.new))) }
        ensures fault { OnErr result (Rose self.old.faults self.new.faults) }
        ensures same { OnErr result (kept self.new ≡ kept self.old) }
        ensures faults { self.old.faults ≤ self.new.faults }
        ensures counted { MatchResult result (λ _. self.new.faults ≡ self.old.faults) (λ _. self.new.faults ≡ raised self.old.faults 1) }

        // Exactly the chosen calls and those without room fail, and the others take all that fits.
        ensures fails { IsErr result ↔ (Contains (failing_calls self.old) (next_call self.old) ⊎ (length (kept self.old) ≡ whole_room self.old)) }
        ensures most { IfOk result (λ n. n ≡ min (min (length piece.now) (most_at_once self.old)) (whole_room self.old - length (kept self.old))) }
        ensures call { next_call self.new ≡ min (next_call self.old + 1) (2 ^ 64 - 1) }
        ensures stays { (failing_calls self.new ≡ failing_calls self.old) × (most_at_once self.new ≡ most_at_once self.old) × (whole_room self.new ≡ whole_room self.old) }
    {
        self.calls = self.calls.saturating_add(1);
        if self.failing.contains(&self.calls) || self.bytes.len() == self.room {
            self.faults = self.faults.saturating_add(1);
            return Err(WriteFault);
        }
        let n = piece
            .len()
            .min(self.piece)
            .min(self.room - self.bytes.len());
        self.bytes.extend_from_slice(&piece[..n]).unwrap();
        Ok(n)
    }
}
