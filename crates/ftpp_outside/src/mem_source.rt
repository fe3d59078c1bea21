//! A source in memory.
ghost use Rattle.std.specs.Prelude.{◌≡◌, ◌+◌, ◌-◌, ◌<◌, ◌≤◌, ◌↔◌, ◌^◌, [], Some, length, min, take, vec_len, Contains, IsErr, IfOk, IfSome, OnErr, MatchResult};
ghost use Rattle.ftpp_outside.specs.Told.{raised, Rose, Gives};

use crate::source::{ReadFault, Source};

/// A source of bytes in memory. One call gives a limited number of bytes, and chosen calls fail.
#[derive(Drop)]
pub struct MemSource {
    bytes: Vec<u8>,
    at: usize,
    piece: usize,
    failing: Vec<u64>,
    calls: u64,
    faults: u64,
    taken: u64,
    ghost within: { at ≤ vec_len bytes },
    ghost some: { 1 ≤ piece },
    ghost calls_fit: { calls < 2 ^ 64 },
    ghost faults_fit: { faults < 2 ^ 64 },
    ghost taken_fits: { taken < 2 ^ 64 },
}

impl MemSource {
    ghost use Rattle.ftpp_outside.specs.MemSource.{unread, next_call, failing_calls, most_at_once};

    /// A source of these bytes that gives at most `piece` bytes a call. Calls are counted from 1, and
    /// those in the list `failing` fail.
    pub fn new(bytes: Vec<u8>, piece: usize, failing: Vec<u64>) -> Self
        requires { 1 ≤ piece }
        ensures unread { unread result ≡ bytes.items }
        ensures piece { most_at_once result ≡ piece }
        ensures failing { failing_calls result ≡ failing.items }
        ensures first { next_call result ≡ 1 }
        ensures counts { (result.faults ≡ 0) × (result.taken ≡ 0) }
    {
        MemSource {
            bytes,
            at: 0,
            piece,
            failing,
            calls: 0,
            faults: 0,
            taken: 0,
        }
    }
}

impl Source for MemSource {
    ghost use Rattle.ftpp_outside.specs.MemSource.{unread, next_call, failing_calls, most_at_once};

    ghost left = { λ s. Some (unread s) };

    ghost taken = { λ s. s.taken };

    ghost faults = { λ s. s.faults };

    #[tactic(auto, using(crate::proofs::Told::next_bytes))]
    fn read(&mut self, into: &mut [u8]) -> Result<usize, ReadFault>
        ensures count { IfOk result (λ n. n ≤ length into.old) }
        ensures bytes { IfOk result (λ n. Gives (Some (unread self.old)) (take n into.new) (Some (unread self.new))) }
        ensures end { result ≡ Ok 0 → 0 < length into.old → unread self.new ≡ [] }
        ensures taken { MatchResult result (λ n. self.new.taken ≡ raised self.old.taken n) (λ _. self.new.taken ≡ self.old.taken) }
        ensures fault { OnErr result (Rose self.old.faults self.new.faults) }
        ensures same { OnErr result (unread self.new ≡ unread self.old) }
        ensures faults { self.old.faults ≤ self.new.faults }
        ensures counted { MatchResult result (λ _. self.new.faults ≡ self.old.faults) (λ _. self.new.faults ≡ raised self.old.faults 1) }

        // Exactly the chosen calls fail, and the others give all that fits.
        ensures fails { IsErr result ↔ Contains (failing_calls self.old) (next_call self.old) }
        ensures most { IfOk result (λ n. n ≡ min (min (length (unread self.old)) (most_at_once self.old)) (length into.old)) }
        ensures call { next_call self.new ≡ min (next_call self.old + 1) (2 ^ 64 - 1) }
        ensures stays { (failing_calls self.new ≡ failing_calls self.old) × (most_at_once self.new ≡ most_at_once self.old) }
    {
        self.calls = self.calls.saturating_add(1);
        if self.failing.contains(&self.calls) {
            self.faults = self.faults.saturating_add(1);
            return Err(ReadFault);
        }
        let rest = &self.bytes[self.at..];
        let n = rest.len().min(self.piece).min(into.len());
        into[..n].copy_from_slice(&rest[..n]);
        self.at += n;
        self.taken = self.taken.saturating_add(n as u64);
        Ok(n)
    }
}
