//! The log of an element: the latest entries, the oldest first.

ghost use Rattle.std.specs.Prelude.{◌≡◌, ◌≤◌, ◌↔◌, [], ◌∷◌, ◌++◌, length, nat_lt, slice_get, option_copied, None, if◌then◌else◌, IfOk, IsTrue};
ghost use Rattle.syndrome_log.specs.Log.{after_push, last_kept};

use crate::Syndrome;
use circular_buffer::HeapCircularBuffer;
use ftpp_base::NoMemory;
use std::alloc::Global;
use std::marker::Model;

/// How many entries a log holds.
pub const ENTRIES_KEPT: usize = 1024;

/// The last 1,024 entries that were pushed since the log was made or cleared. Clauses see the list of
/// them, the oldest first.
#[derive(Drop)]
pub struct SyndromeLog {
    /// The entries, in memory that is taken once.
    ring: HeapCircularBuffer<Syndrome>,
}

impl Model for SyndromeLog {
    ghost use Rattle.std.specs.Prelude.{◌≡◌, ◌≤◌, List, length};
    ghost use Rattle.syndrome_log.specs.declared.Syndrome.{Syndrome};
    ghost use Rattle.syndrome_log.specs.declared.latest.TheConstants.{ENTRIES_KEPT};

    ghost Value = { List Syndrome };

    ghost view = { λ l. l.ring.items };

    ghost invariant = { λ l. (l.ring.capacity ≡ ENTRIES_KEPT) × (length l.ring.items ≤ ENTRIES_KEPT) };
}

impl SyndromeLog {
    /// An empty log with memory for 1,024 entries, unless memory runs out.
    pub fn new(alloc: Global) -> Result<SyndromeLog, NoMemory>
        ensures { IfOk result (λ l. l ≡ []) }
    {
        match HeapCircularBuffer::with_capacity(alloc, ENTRIES_KEPT) {
            Ok(ring) => Ok(SyndromeLog { ring }),
            Err(_) => Err(NoMemory),
        }
    }

    /// Appends an entry. A full log drops its oldest entry, which is returned.
    pub fn push(&mut self, s: Syndrome) -> Option<Syndrome>
        ensures latest { self.new ≡ after_push self.old s }
        ensures overwritten { result ≡ (if nat_lt (length self.old) ENTRIES_KEPT then None else slice_get self.old 0) }
    {
        self.ring.push_back(s)
    }

    /// Appends these entries in their order. Of all entries the last 1,024 are kept.
    pub fn extend_from_slice(&mut self, entries: &[Syndrome])
        ensures { self.new ≡ last_kept (self.old ++ entries.now) }
    {
        self.ring.extend_from_slice(entries);
    }

    /// How many entries there are.
    pub fn len(&self) -> usize
        ensures len { result ≡ length self.now }
        ensures most { result ≤ ENTRIES_KEPT }
    {
        self.ring.len()
    }

    /// Whether there is no entry.
    pub fn is_empty(&self) -> bool
        ensures { IsTrue result ↔ (self.now ≡ []) }
    {
        self.ring.is_empty()
    }

    /// The entry at a place, the oldest at 0. None past the last.
    pub fn get(&self, i: usize) -> Option<&Syndrome>
        ensures { option_copied result ≡ slice_get self.now i }
    {
        self.ring.get(i)
    }

    /// Empties the log.
    pub fn clear(&mut self)
        ensures { self.new ≡ [] }
    {
        self.ring.clear();
    }
}
