//! Whether a frame is the expected one.

ghost use Rattle.std.specs.Prelude.{◌≡◌, ◌<◌, ◌⊎◌, length};
ghost use Rattle.ftpp_base.specs.declared.element.Round.TheVariants.{A1, A2, B1, B2};
ghost use Rattle.trace_audit.specs.Known.{is_expected, least_receiver};
ghost use Rattle.trace_audit.specs.Progress.{passes_at};
ghost use Rattle.trace_audit.specs.Trace.{frames_in, place_of};
ghost use Rattle.trace_audit.specs.Links.{all_bytes};
ghost use Rattle.trace_audit.specs.Told.{HoldsFor, HoldsPackets, HoldsPatterns};

use crate::due::{are_same, is_frame_of, is_packet_frame, packets_relayed, sends_packet};
use crate::links::Link;
use crate::patterns::shows_ports;
use crate::rounds_told::{copies, is_this};
use crate::told::{Told, cell_told, frame_at, least_receiver};
use crate::watched::Watched;
use frame_format::FrameBuf;
use ftpp_base::{Ne, Round};

/// The frames of a cycle so far, the last of which is that of the link, and what was known before it.
#[derive(Clone, Copy)]
pub(crate) struct Seen<'a, const N: usize> {
    pub(crate) watched: &'a Watched<N>,
    pub(crate) named: &'a Option<Ne>,
    pub(crate) frames: &'a [FrameBuf],
    pub(crate) told: &'a Told<N>,
}

/// Whether the frame of A1 from one element to another is expected: to the least receiver one that shows ports in which what
/// stands is kept, and to the others the same bytes.
#[tactic(auto, unfolding(crate::specs::Known::is_expected))]
fn is_pattern_frame<const N: usize>(seen: &Seen<N>, from: Ne, to: Ne) -> bool
    requires size { (N ≡ 4) ⊎ (N ≡ 5) }
    requires elements { seen.now.watched.now.table.n ≡ N }
    requires from { from < N }
    requires here { place_of N A1 from to < length seen.now.frames.now }
    requires first { place_of N A1 from (least_receiver from) < length seen.now.frames.now }
    ensures { result ≡ is_expected seen.now.watched.now seen.now.named.now (frames_in N (all_bytes seen.now.frames.now)) A1 from to }
{
    let first = least_receiver(from);
    if to == first {
        let cell = cell_told(seen.watched, seen.frames, Round::A1, from, first);
        shows_ports(seen.watched.standing(), from, &cell)
    } else {
        are_same(
            frame_at::<N>(seen.frames, Round::A1, from, to),
            frame_at::<N>(seen.frames, Round::A1, from, first),
        )
    }
}

/// Whether the frame of A2 from one element to another is expected: the one of the copies that the sender holds.
#[tactic(auto, unfolding(crate::specs::Known::is_expected))]
fn is_pattern_echo<const N: usize>(seen: &Seen<N>, from: Ne, to: Ne, wanted: &mut FrameBuf) -> bool
    requires size { (N ≡ 4) ⊎ (N ≡ 5) }
    requires elements { seen.now.watched.now.table.n ≡ N }
    requires from { from < N }
    requires here { place_of N A2 from to < length seen.now.frames.now }
    requires holds { HoldsPatterns N seen.now.watched.now seen.now.named.now (frames_in N (all_bytes seen.now.frames.now)) seen.now.told.now }
    ensures { result ≡ is_expected seen.now.watched.now seen.now.named.now (frames_in N (all_bytes seen.now.frames.now)) A2 from to }
{
    let round = &seen.told.patterns;
    let cells = copies(seen.named, &round.own, &round.heard, from);
    let frame = frame_at::<N>(seen.frames, Round::A2, from, to);
    is_frame_of(seen.watched.slot(Round::A2), from, &cells, frame, wanted)
}

/// Whether the frame of B1 from one element to another is expected: to the least receiver one whose cell is there exactly
/// where the sender contributes, and to the others the same bytes.
#[tactic(auto, unfolding(crate::specs::Known::is_expected))]
fn is_packet<const N: usize>(seen: &Seen<N>, from: Ne, to: Ne) -> bool
    requires size { (N ≡ 4) ⊎ (N ≡ 5) }
    requires elements { seen.now.watched.now.table.n ≡ N }
    requires from { from < N }
    requires here { place_of N B1 from to < length seen.now.frames.now }
    requires first { place_of N B1 from (least_receiver from) < length seen.now.frames.now }
    requires holds { HoldsPatterns N seen.now.watched.now seen.now.named.now (frames_in N (all_bytes seen.now.frames.now)) seen.now.told.now }
    ensures { result ≡ is_expected seen.now.watched.now seen.now.named.now (frames_in N (all_bytes seen.now.frames.now)) B1 from to }
{
    let first = least_receiver(from);
    let frame = frame_at::<N>(seen.frames, Round::B1, from, first);
    if to == first {
        let sends = sends_packet(&seen.told.decision, from);
        is_packet_frame(seen.watched.slot(Round::B1), from, sends, frame)
    } else {
        are_same(frame_at::<N>(seen.frames, Round::B1, from, to), frame)
    }
}

/// Whether the frame of B2 from one element to another is expected: the one of the copies that the sender relays.
#[tactic(auto, unfolding(crate::specs::Known::is_expected))]
fn is_packet_echo<const N: usize>(seen: &Seen<N>, from: Ne, to: Ne, wanted: &mut FrameBuf) -> bool
    requires size { (N ≡ 4) ⊎ (N ≡ 5) }
    requires elements { seen.now.watched.now.table.n ≡ N }
    requires from { from < N }
    requires here { place_of N B2 from to < length seen.now.frames.now }
    requires patterns { HoldsPatterns N seen.now.watched.now seen.now.named.now (frames_in N (all_bytes seen.now.frames.now)) seen.now.told.now }
    requires packets { HoldsPackets N seen.now.watched.now seen.now.named.now (frames_in N (all_bytes seen.now.frames.now)) seen.now.told.now }
    ensures { result ≡ is_expected seen.now.watched.now seen.now.named.now (frames_in N (all_bytes seen.now.frames.now)) B2 from to }
{
    let round = &seen.told.packets;
    let cells = packets_relayed(
        &seen.told.decision,
        seen.named,
        &round.own,
        &round.heard,
        from,
    );
    let frame = frame_at::<N>(seen.frames, Round::B2, from, to);
    is_frame_of(seen.watched.slot(Round::B2), from, &cells, frame, wanted)
}

/// Whether the frame of a link is expected. `wanted` is room for a frame that is spelled.
fn is_expected<const N: usize>(seen: &Seen<N>, link: &Link, wanted: &mut FrameBuf) -> bool
    requires size { (N ≡ 4) ⊎ (N ≡ 5) }
    requires elements { seen.now.watched.now.table.n ≡ N }
    requires from { link.now.from < N }
    requires here { place_of N link.now.round link.now.from link.now.to < length seen.now.frames.now }
    requires first { place_of N link.now.round link.now.from (least_receiver link.now.from) < length seen.now.frames.now }
    requires holds { HoldsFor N link.now.round seen.now.watched.now seen.now.named.now (frames_in N (all_bytes seen.now.frames.now)) seen.now.told.now }
    ensures { result ≡ is_expected seen.now.watched.now seen.now.named.now (frames_in N (all_bytes seen.now.frames.now)) link.now.round link.now.from link.now.to }
{
    match link.round {
        Round::A1 => is_pattern_frame(seen, link.from, link.to),
        Round::A2 => is_pattern_echo(seen, link.from, link.to, wanted),
        Round::B1 => is_packet(seen, link.from, link.to),
        Round::B2 => is_packet_echo(seen, link.from, link.to, wanted),
    }
}

/// Whether the frame of a link is expected, or is of the named element.
pub(crate) fn passes<const N: usize>(seen: &Seen<N>, link: &Link, wanted: &mut FrameBuf) -> bool
    requires size { (N ≡ 4) ⊎ (N ≡ 5) }
    requires elements { seen.now.watched.now.table.n ≡ N }
    requires from { link.now.from < N }
    requires here { place_of N link.now.round link.now.from link.now.to < length seen.now.frames.now }
    requires first { place_of N link.now.round link.now.from (least_receiver link.now.from) < length seen.now.frames.now }
    requires holds { HoldsFor N link.now.round seen.now.watched.now seen.now.named.now (frames_in N (all_bytes seen.now.frames.now)) seen.now.told.now }
    ensures { result ≡ passes_at seen.now.watched.now seen.now.named.now (frames_in N (all_bytes seen.now.frames.now)) link.now }
{
    if is_this(seen.named, link.from) {
        true
    } else {
        is_expected(seen, link, wanted)
    }
}
