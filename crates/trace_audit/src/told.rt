//! What the frames of a cycle tell so far.

ghost use Rattle.std.specs.Prelude.{◌≡◌, ◌+◌, ◌<◌, ◌≤◌, ◌⊎◌, ℕ, Some, None, length};
ghost use Rattle.ftpp_base.specs.declared.element.Round.TheVariants.{A1, B1};
ghost use Rattle.ftpp_base.specs.Lists.{each_below};
ghost use Rattle.bit_vote.specs.Vote.{Cell};
ghost use Rattle.bit_vote.specs.Agreed.{agreed};
ghost use Rattle.data_exchange.specs.Entries.{members_vote, packet_in};
ghost use Rattle.local_pattern.specs.Pattern.{read_column};
ghost use Rattle.frame_format.specs.Frames.{IsOfOne, width_in};
ghost use Rattle.scoreboard.specs.Times.{AreBefore, AreLinesOf};
ghost use Rattle.element_core.specs.Cycle.{update_packet};
ghost use Rattle.trace_audit.specs.Known.{Frames, cell_told, heard_told, known_after, least_receiver, own_told, round_told};
ghost use Rattle.trace_audit.specs.Trace.{frames_in, place_of};
ghost use Rattle.trace_audit.specs.Links.{all_bytes};
ghost use Rattle.trace_audit.specs.Told.{HoldsBefore, HoldsPackets, HoldsPatterns, HoldsTold, first_round};

use crate::links::{per_round, place_of};
use crate::rounds_told::{RoundTold, all_agreed};
use crate::watched::Watched;
use bit_vote::Cells;
use config_table::{Decision, Service, Table};
use data_exchange::members_result;
use frame_format::{FrameBuf, decode_one};
use ftpp_base::{MOST_CYCLES, Ne, Round};
use local_pattern::{LocalPattern, SystemPattern};
use packet_format::Packet;
use scoreboard::Scoreboard;

/// What the first rounds of a cycle tell, once their frames have come, and what is decided.
#[derive(Drop)]
pub(crate) struct Told<const N: usize> {
    pub(crate) patterns: RoundTold<N, 32>,
    pub(crate) pattern: SystemPattern<N>,
    pub(crate) decision: Decision,
    /// The scoreboard after the decision.
    pub(crate) after: Scoreboard,
    pub(crate) packets: RoundTold<N, 64>,
}

/// The least element that another sends to.
pub(crate) fn least_receiver(sender: Ne) -> Ne
    ensures { result ≡ least_receiver sender }
{
    if sender.byte() == 0 {
        Ne::at(1)
    } else {
        Ne::at(0)
    }
}

/// The bytes of the frame of a round from one element to another, among the frames of a cycle so far.
pub(crate) fn frame_at<const N: usize>(frames: &[FrameBuf], round: Round, from: Ne, to: Ne) -> &[u8]
    requires size { (N ≡ 4) ⊎ (N ≡ 5) }
    requires there { place_of N round from to < length frames.now }
    ensures { result.now ≡ frames_in N (all_bytes frames.now) round from to }
{
    frames[place_of::<N>(round, from, to)].as_slice()
}

/// The cell that a frame of a first round reads as.
pub(crate) fn cell_told<const N: usize, const B: usize>(
    watched: &Watched<N>,
    frames: &[FrameBuf],
    round: Round,
    from: Ne,
    to: Ne,
) -> Option<[u8; B]>
    requires size { (N ≡ 4) ⊎ (N ≡ 5) }
    requires round { IsOfOne round }
    requires width { B ≡ width_in round }
    requires there { place_of N round from to < length frames.now }
    ensures { result ≡ cell_told watched.now (frames_in N (all_bytes frames.now)) round from to }
{
    let bytes = frame_at::<N>(frames, round, from, to);
    decode_one(watched.slot(round), from, bytes).unwrap_or(None)
}

/// What the frame of the named element to a receiver reads as, if one is named.
fn heard_told<const N: usize, const B: usize>(
    watched: &Watched<N>,
    named: &Option<Ne>,
    frames: &[FrameBuf],
    round: Round,
    receiver: Ne,
) -> Option<[u8; B]>
    requires size { (N ≡ 4) ⊎ (N ≡ 5) }
    requires round { IsOfOne round }
    requires width { B ≡ width_in round }
    requires there { (ne : ℕ) → named.now ≡ Some ne → place_of N round ne receiver < length frames.now }
    ensures { result ≡ heard_told watched.now named.now (frames_in N (all_bytes frames.now)) round receiver }
{
    match named {
        Some(ne) => cell_told(watched, frames, round, *ne, receiver),
        None => None,
    }
}

/// What the frame of an element to its least receiver reads as.
fn own_told<const N: usize, const B: usize>(
    watched: &Watched<N>,
    frames: &[FrameBuf],
    round: Round,
    sender: Ne,
) -> Option<[u8; B]>
    requires size { (N ≡ 4) ⊎ (N ≡ 5) }
    requires round { IsOfOne round }
    requires width { B ≡ width_in round }
    requires there { place_of N round sender (least_receiver sender) < length frames.now }
    ensures { result ≡ own_told watched.now (frames_in N (all_bytes frames.now)) round sender }
{
    cell_told(watched, frames, round, sender, least_receiver(sender))
}

/// What each element's frame to its least receiver reads as.
#[tactic(auto, using(crate::proofs::Columns::no_cells, crate::proofs::Columns::one_cell, crate::proofs::Columns::all_cells))]
fn own_cells<const N: usize, const B: usize>(
    watched: &Watched<N>,
    frames: &[FrameBuf],
    round: Round,
) -> Cells<N, B>
    requires size { (N ≡ 4) ⊎ (N ≡ 5) }
    requires round { IsOfOne round }
    requires width { B ≡ width_in round }
    requires few { N ≤ 5 }
    requires narrow { B ≤ 64 }
    requires there { (s : ℕ) → s < N → place_of N round s (least_receiver s) < length frames.now }
    ensures { result ≡ each_below N (own_told watched.now (frames_in N (all_bytes frames.now)) round) }
{
    let mut own = Cells::absent();
    for k in 0..N {
        own.set(k, own_told(watched, frames, round, Ne::at(k)));
    }
    own
}

/// What the frame of the named element to each receiver reads as.
#[tactic(auto, using(crate::proofs::Columns::no_cells, crate::proofs::Columns::one_cell, crate::proofs::Columns::all_cells))]
fn heard_cells<const N: usize, const B: usize>(
    watched: &Watched<N>,
    named: &Option<Ne>,
    frames: &[FrameBuf],
    round: Round,
) -> Cells<N, B>
    requires size { (N ≡ 4) ⊎ (N ≡ 5) }
    requires round { IsOfOne round }
    requires width { B ≡ width_in round }
    requires few { N ≤ 5 }
    requires narrow { B ≤ 64 }
    requires there { (ne r : ℕ) → r < N → named.now ≡ Some ne → place_of N round ne r < length frames.now }
    ensures { result ≡ each_below N (heard_told watched.now named.now (frames_in N (all_bytes frames.now)) round) }
{
    let mut heard = Cells::absent();
    for k in 0..N {
        heard.set(k, heard_told(watched, named, frames, round, Ne::at(k)));
    }
    heard
}

/// A first round, as its frames tell it.
fn round_told<const N: usize, const B: usize>(
    watched: &Watched<N>,
    named: &Option<Ne>,
    frames: &[FrameBuf],
    round: Round,
) -> RoundTold<N, B>
    requires size { (N ≡ 4) ⊎ (N ≡ 5) }
    requires elements { watched.now.table.n ≡ N }
    requires round { IsOfOne round }
    requires width { B ≡ width_in round }
    requires few { N ≤ 5 }
    requires narrow { B ≤ 64 }
    requires named { (ne : ℕ) → named.now ≡ Some ne → ne < N }
    requires there { (s r : ℕ) → s < N → r < N → place_of N round s r < length frames.now }
    ensures { first_round named.now result ≡ round_told watched.now named.now (frames_in N (all_bytes frames.now)) round }
{
    RoundTold {
        own: own_cells(watched, frames, round),
        heard: heard_cells(watched, named, frames, round),
    }
}

/// The agreed pattern of agreed rows.
fn pattern_of<const N: usize>(rows: &Cells<N, 32>) -> SystemPattern<N>
    requires { N ≤ 5 }
    ensures { (value : ℕ → Cell) → rows.now ≡ each_below N value → result ≡ each_below N (λ ne. read_column (value ne)) }
{
    let mut pattern = SystemPattern::quiet();
    for k in 0..N {
        pattern.set_column(Ne::at(k), LocalPattern::read(rows.row(k)));
    }
    pattern
}

/// The agreed packet of an update: the vote over the agreed values of its members.
fn voted_update<const N: usize>(
    table: &Table,
    service: &Service,
    named: &Option<Ne>,
    packets: &RoundTold<N, 64>,
) -> Option<Packet>
    requires few { N ≤ 5 }
    requires elements { table.now.n ≡ N }
    ensures { result ≡ packet_in (members_vote table.now service.now (agreed (first_round named.now packets.now))) }
{
    let results = all_agreed(named, &packets.own, &packets.heard);
    members_result(table, service, &results)
}

/// The packet that an exchange of class 3 carries, and None where there is none.
fn update_packet<const N: usize>(
    table: &Table,
    decision: &Decision,
    named: &Option<Ne>,
    packets: &RoundTold<N, 64>,
) -> Option<Option<Packet>>
    requires few { N ≤ 5 }
    requires elements { table.now.n ≡ N }
    ensures { result ≡ update_packet table.now decision.now (first_round named.now packets.now) }
{
    match decision {
        Decision::Exchange(service) if service.desc.class == 3 => {
            Some(voted_update(table, service, named, packets))
        }
        _ => None,
    }
}

impl<const N: usize> Told<N> {
    /// Before anything was told.
    pub(crate) fn new(table: &Table) -> Told<N> {
        Told {
            patterns: RoundTold::absent(),
            pattern: SystemPattern::quiet(),
            decision: Decision::Idle,
            after: Scoreboard::new(table),
            packets: RoundTold::absent(),
        }
    }

    /// Takes the frames of A1, and decides.
    pub(crate) fn take_patterns(
        &mut self,
        watched: &Watched<N>,
        named: &Option<Ne>,
        frames: &[FrameBuf],
    )
        requires size { (N ≡ 4) ⊎ (N ≡ 5) }
        requires elements { watched.now.table.n ≡ N }
        requires named { (ne : ℕ) → named.now ≡ Some ne → ne < N }
        requires there { (s r : ℕ) → s < N → r < N → place_of N A1 s r < length frames.now }
        requires cycle { watched.now.cycle < MOST_CYCLES }
        ensures { HoldsPatterns N watched.now named.now (frames_in N (all_bytes frames.now)) self.new }
    {
        self.patterns = round_told(watched, named, frames, Round::A1);
        let rows = all_agreed(named, &self.patterns.own, &self.patterns.heard);
        self.pattern = pattern_of(&rows);
        self.decision = watched.decide(&self.pattern, &mut self.after);
    }

    /// Takes the frames of B1.
    pub(crate) fn take_packets(
        &mut self,
        watched: &Watched<N>,
        named: &Option<Ne>,
        frames: &[FrameBuf],
    )
        requires size { (N ≡ 4) ⊎ (N ≡ 5) }
        requires elements { watched.now.table.n ≡ N }
        requires named { (ne : ℕ) → named.now ≡ Some ne → ne < N }
        requires there { (s r : ℕ) → s < N → r < N → place_of N B1 s r < length frames.now }
        ensures packets { HoldsPackets N watched.now named.now (frames_in N (all_bytes frames.now)) self.new }
        ensures patterns { self.new ≡ record self.old { packets = self.new.packets } }
    {
        self.packets = round_told(watched, named, frames, Round::B1);
    }

    /// Takes the frames so far, of which the last is new: what a first round tells once its frames have come.
    pub(crate) fn take_frames(
        &mut self,
        watched: &Watched<N>,
        named: &Option<Ne>,
        frames: &[FrameBuf],
    )
        requires size { (N ≡ 4) ⊎ (N ≡ 5) }
        requires elements { watched.now.table.n ≡ N }
        requires named { (ne : ℕ) → named.now ≡ Some ne → ne < N }
        requires cycle { watched.now.cycle < MOST_CYCLES }
        requires before { HoldsBefore N watched.now named.now (all_bytes frames.now) self.old }
        ensures { HoldsTold N watched.now named.now (all_bytes frames.now) self.new }
    {
        if frames.len() == per_round::<N>() {
            self.take_patterns(watched, named, frames);
            return;
        }
        if frames.len() == 3 * per_round::<N>() {
            self.take_packets(watched, named, frames);
        }
    }

    /// Ends the cycle: the heads of the admitted members are popped, and an update of the table is taken.
    pub(crate) fn end_cycle(&mut self, watched: &mut Watched<N>, named: &Option<Ne>)
        requires few { N ≤ 5 }
        requires elements { watched.old.table.n ≡ N }
        requires cycle { watched.old.cycle < MOST_CYCLES }
        requires lines { AreLinesOf watched.old.table self.old.after }
        requires earlier { AreBefore (watched.old.cycle + 1) self.old.after }
        ensures { (frames : Frames) → HoldsPatterns N watched.old named.now frames self.old → HoldsPackets N watched.old named.now frames self.old → watched.new ≡ known_after watched.old named.now frames }
    {
        let asked = self.update(watched.table(), named);
        watched.serve(&self.pattern, &self.decision, &mut self.after);
        watched.update(&asked);
    }

    /// The packet that an exchange of class 3 carries, and None where there is none.
    fn update(&self, table: &Table, named: &Option<Ne>) -> Option<Option<Packet>>
        requires few { N ≤ 5 }
        requires elements { table.now.n ≡ N }
        ensures { result ≡ update_packet table.now self.now.decision (first_round named.now self.now.packets) }
    {
        update_packet(table, &self.decision, named, &self.packets)
    }
}
