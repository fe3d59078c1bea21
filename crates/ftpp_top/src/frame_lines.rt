//! The lines of the frames of a cycle, as they were delivered.

ghost use Rattle.std.specs.Prelude.{◌≡◌, ◌+◌, ◌<◌, ◌≤◌, ◌⊎◌, ◌++◌, [], length, slice_index_or};
ghost use Rattle.cluster.specs.Delivered.{rows_in, frame_at};
ghost use Rattle.cluster.specs.Carrying.{one_entry, entries_by, entries_of};
ghost use Rattle.report_text.specs.Words.{room};
ghost use Rattle.report_text.specs.Trace.{carried_lines, cycle_frames};

use cluster::Cluster;
use ftpp_base::{MOST_CYCLES, Ne, Round, Slot};
use report_text::{TextBuf, trace_text};

/// The line of one frame, and none from an element to itself.
fn frame_line<const N: usize>(cluster: &Cluster<N>, at: Slot, from: Ne, to: Ne, text: &mut TextBuf)
    requires from { from < N }
    requires to { to < N }
    requires cycle { at.cycle < MOST_CYCLES }
    requires room { length text.old + 687 ≤ room }
    ensures text { text.new ≡ text.old ++ carried_lines (one_entry at (slice_index_or (rows_in cluster.now.delivered at.round) from []) from to) }
    ensures len { length text.new ≤ length text.old + 682 }
    ensures own { from ≡ to → length text.new ≡ length text.old }
{
    if from.index() != to.index() {
        let frame = cluster.carried(at.round, from, to);
        trace_text::<N>(at.cycle, frame, at.round, from, to, text);
    }
}

/// The lines of the frames of one sender in a round, the receivers ascending.
fn sender_lines<const N: usize>(cluster: &Cluster<N>, at: Slot, from: Ne, text: &mut TextBuf)
    requires size { N ≤ 5 }
    requires from { from < N }
    requires cycle { at.cycle < MOST_CYCLES }
    requires room { length text.old + 3415 ≤ room }
    ensures text { text.new ≡ text.old ++ carried_lines (entries_by at (slice_index_or (rows_in cluster.now.delivered at.round) from []) from N) }
    ensures len { length text.new ≤ length text.old + 2728 }
{
    for to in 0..N {
        frame_line(cluster, at, from, Ne::at(to), text);
    }
}

/// The lines of the frames of a round, the senders ascending.
fn round_lines<const N: usize>(cluster: &Cluster<N>, at: Slot, text: &mut TextBuf)
    requires size { N ≤ 5 }
    requires cycle { at.cycle < MOST_CYCLES }
    requires room { length text.old + 14327 ≤ room }
    ensures text { text.new ≡ text.old ++ carried_lines (entries_of at (rows_in cluster.now.delivered at.round) N N) }
    ensures len { length text.new ≤ length text.old + 13640 }
{
    for from in 0..N {
        sender_lines(cluster, at, Ne::at(from), text);
    }
}

/// The slot of a round.
fn slot(cycle: u32, round: Round) -> Slot
    ensures { result ≡ record { cycle = cycle; round = round } }
{
    Slot { cycle, round }
}

/// Appends the lines of the frames that were delivered in the last cycle, which has this number.
#[tactic(auto, using(crate::proofs::Traced::cycle_traced))]
pub(crate) fn cycle_lines<const N: usize>(cluster: &Cluster<N>, cycle: u32, text: &mut TextBuf)
    requires size { (N ≡ 4) ⊎ (N ≡ 5) }
    requires cycle { cycle < MOST_CYCLES }
    requires room { length text.old + 55247 ≤ room }
    ensures { text.new ≡ text.old ++ carried_lines (cycle_frames N cycle (frame_at cluster.now.delivered)) }
{
    round_lines(cluster, slot(cycle, Round::A1), text);
    round_lines(cluster, slot(cycle, Round::A2), text);
    round_lines(cluster, slot(cycle, Round::B1), text);
    round_lines(cluster, slot(cycle, Round::B2), text);
}
