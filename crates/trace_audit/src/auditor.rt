//! The auditor of a trace, frame by frame.

ghost use Rattle.std.specs.Prelude.{◌≡◌, ◌<◌, ◌⊎◌, ℕ, Some};
ghost use Rattle.trace_audit.specs.Progress.{is_awaited, progress_after, progress_first};

use crate::expected::{Seen, passes};
use crate::links::{link_at, per_round};
use crate::told::Told;
use crate::watched::Watched;
use config_table::Table;
use frame_format::{FrameBuf, copy_frame};
use ftpp_base::{MOST_CYCLES, Ne, Row};
use std::marker::Model;

/// The most frames of a cycle, those among five elements.
const MOST_FRAMES: usize = 80;

/// Tells of each frame of a trace among `N` elements whether it is expected by the frames before it, or is of the named
/// element. Clauses see what was known at the beginning of the cycle, and its frames so far.
#[derive(Drop)]
pub struct Auditor<const N: usize> {
    watched: Watched<N>,
    named: Option<Ne>,
    /// The frames of the cycle so far.
    frames: Row<FrameBuf, MOST_FRAMES>,
    told: Told<N>,
    /// Room for a frame that is spelled.
    wanted: FrameBuf,
}

impl<const N: usize> Model for Auditor<N> {
    ghost use Rattle.std.specs.Prelude.{◌≡◌};
    ghost use Rattle.trace_audit.specs.Progress.{Progress};
    ghost use Rattle.trace_audit.specs.Links.{all_bytes};
    ghost use Rattle.trace_audit.specs.Told.{IsAuditing};

    ghost Value = { Progress };

    ghost view = { λ a. record { known = a.watched; named = a.named; so_far = all_bytes a.frames.items } };

    ghost invariant = { λ a. IsAuditing N a.watched a.named (all_bytes a.frames.items) a.told };
}

/// A copy of a frame.
fn copied(frame: &FrameBuf) -> FrameBuf
    ensures { result ≡ frame.now }
{
    let mut copy = FrameBuf::new();
    copy_frame(frame, &mut copy);
    copy
}

impl<const N: usize> Auditor<N> {
    /// Before the first frame of a trace from this table on. Frames of the named element may be any.
    pub fn new(table: &Table, named: Option<Ne>) -> Auditor<N>
        requires elements { table.now.n ≡ N }
        requires named { (ne : ℕ) → named ≡ Some ne → ne < N }
        ensures { result ≡ progress_first table.now named }
    {
        // a table has four or five elements, which only a call of it tells
        let _elements = table.n();
        Auditor::begun(table, named)
    }

    /// The same, among four or five elements.
    pub(crate) fn begun(table: &Table, named: Option<Ne>) -> Auditor<N>
        requires elements { table.now.n ≡ N }
        requires size { (N ≡ 4) ⊎ (N ≡ 5) }
        requires named { (ne : ℕ) → named ≡ Some ne → ne < N }
        ensures { result ≡ progress_first table.now named }
    {
        Auditor {
            watched: Watched::new(table),
            named,
            frames: Row::new(),
            told: Told::new(table),
            wanted: FrameBuf::new(),
        }
    }

    /// Takes the next frame in the order of a trace, and tells whether it is the one that is expected, or is of the named
    /// element. Fewer than 100,000 cycles are whole.
    pub fn next(&mut self, frame: &FrameBuf) -> bool
        requires { self.old.known.cycle < MOST_CYCLES }
        ensures answer { result ≡ is_awaited self.old frame.now.items }
        ensures after { self.new ≡ progress_after self.old frame.now.items }
    {
        let link = link_at::<N>(self.frames.len());
        self.frames.push(copied(frame));
        let seen = Seen {
            watched: &self.watched,
            named: &self.named,
            frames: self.frames.as_slice(),
            told: &self.told,
        };
        let passes = passes(&seen, &link, &mut self.wanted);
        self.told
            .take_frames(&self.watched, &self.named, self.frames.as_slice());
        if self.frames.len() == 4 * per_round::<N>() {
            self.told.end_cycle(&mut self.watched, &self.named);
            self.frames.clear();
        }
        passes
    }
}
