//! What an element sends in each round.

ghost use Rattle.std.specs.Prelude.{◌≡◌, ◌<◌, ◌⊎◌, ℕ, ◌==◌, if◌then◌else◌};
ghost use Rattle.ftpp_base.specs.Lists.{each_below};
ghost use Rattle.frame_format.specs.Frames.{frame_bytes};
ghost use Rattle.element_core.specs.Noted.{where_relayed};
ghost use Rattle.element_core.specs.ElementValue.{after_emit, frame_of, frames_in};
ghost use Rattle.element_core.specs.Frames.{cells_held};

use crate::kept_state::KeptState;
use crate::{Due, Element};
use bit_vote::Cells;
use config_table::Decision;
use element_notes::relayed;
use frame_format::{FrameBuf, encode, encode_one};
use ftpp_base::{MOST_CYCLES, Ne, Round};
use link_fabric::Link;
use two_round::TwoRound;

impl<const N: usize> Element<N> {
    /// Puts its frame of a round for each other element: what its ports show; the patterns that it holds; the head of its
    /// admitted member; the packets that it holds of the senders that count. Where it has none, the cells are absent.
    pub fn emit<L: Link<N>>(&mut self, round: Round, link: &mut L)
        requires due { self.old.due ≡ Due.Emit round }
        requires cycle { self.old.kept.cycle < MOST_CYCLES }
        requires owner { L.me link.old ≡ self.old.kept.me }
        ensures element { self.new ≡ after_emit round self.old }
        ensures frames { (to : ℕ) → to < N → frames_in (L.leaves link.new) to ≡ (if to == self.old.kept.me then frames_in (L.leaves link.old) to else frame_of self.old round) }
        ensures owner { L.me link.new ≡ L.me link.old }
        ensures came { L.came link.new ≡ L.came link.old }
    {
        write_frame(
            round,
            &self.kept,
            &self.patterns,
            &self.packets,
            &self.pending.decision,
            &mut self.frame,
        );
        link.put_all(self.kept.me(), &self.frame);
        self.due = Due::Absorb(round);
    }
}

/// Writes the frame of a round.
fn write_frame<const N: usize>(
    round: Round,
    kept: &KeptState,
    patterns: &TwoRound<N, 32>,
    packets: &TwoRound<N, 64>,
    decision: &Decision,
    frame: &mut FrameBuf,
)
    requires size { (N ≡ 4) ⊎ (N ≡ 5) }
    ensures { frame.new.items ≡ frame_bytes (record { cycle = kept.now.cycle; round = round }) kept.now.me (cells_held N kept.now patterns.now packets.now decision.now round) }
{
    let slot = kept.slot(round);
    let me = kept.me();
    match round {
        Round::A1 => encode_one(slot, me, Some(kept.pattern()), frame),
        Round::A2 => encode(slot, me, patterns.copies(), frame),
        Round::B1 => encode_one(slot, me, kept.packet(decision), frame),
        Round::B2 => encode(slot, me, &relayed_packets(packets, decision), frame),
    }
}

/// The packets that an element relays.
fn relayed_packets<const N: usize>(packets: &TwoRound<N, 64>, decision: &Decision) -> Cells<N, 64>
    requires { (N ≡ 4) ⊎ (N ≡ 5) }
    ensures { result ≡ each_below N (where_relayed decision.now packets.now.copies) }
{
    let mut cells = Cells::absent();
    for k in 0..N {
        cells.set(k, relayed_cell(packets, decision, Ne::at(k)));
    }
    cells
}

/// The cell about a sender: the copy that the element holds, where that is relayed.
fn relayed_cell<const N: usize>(
    packets: &TwoRound<N, 64>,
    decision: &Decision,
    sender: Ne,
) -> Option<[u8; 64]>
    requires { sender < N }
    ensures { result ≡ where_relayed decision.now packets.now.copies sender }
{
    if relayed(decision).has(sender.byte()) {
        packets.copy(sender)
    } else {
        None
    }
}
