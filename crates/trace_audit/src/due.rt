//! What the frames of a cycle have to be.

ghost use Rattle.std.specs.Prelude.{◌≡◌, ◌<◌, ◌≤◌, ◌⊎◌, ℕ, not};
ghost use Rattle.ftpp_base.specs.declared.element.Round.TheVariants.{B1};
ghost use Rattle.ftpp_base.specs.Lists.{each_below};
ghost use Rattle.packet_format.specs.Packets.{same_bytes};
ghost use Rattle.frame_format.specs.Frames.{IsOfAll, decoded, frame_bytes, width_in};
ghost use Rattle.config_table.specs.Kinds.{is_relayed};
ghost use Rattle.trace_audit.specs.Known.{copy_relayed, is_frame_with, sends_packet};
ghost use Rattle.trace_audit.specs.Watched.{is_cell_with};
ghost use Rattle.data_exchange.specs.Entries.{is_voted};

use crate::rounds_told::copy;
use bit_vote::Cells;
use config_table::{Decision, Kind, Service};
use data_exchange::contributes;
use frame_format::{FrameBuf, decode_one, encode};
use ftpp_base::{Ne, Slot};

/// Whether two frames are the same bytes.
pub(crate) fn are_same(one: &[u8], other: &[u8]) -> bool
    ensures { result ≡ same_bytes one.now other.now }
{
    one == other
}

/// Whether a frame is that of the cells, which is spelled in `wanted`.
pub(crate) fn is_frame_of<const N: usize, const B: usize>(
    slot: Slot,
    sender: Ne,
    cells: &Cells<N, B>,
    frame: &[u8],
    wanted: &mut FrameBuf,
) -> bool
    requires size { (N ≡ 4) ⊎ (N ≡ 5) }
    requires round { IsOfAll slot.round }
    requires width { B ≡ width_in slot.round }
    ensures { result ≡ same_bytes frame.now (frame_bytes slot sender cells.now) }
{
    encode(slot, sender, cells, wanted);
    are_same(frame, wanted.as_slice())
}

/// Whether an element contributes to what is decided.
pub(crate) fn sends_packet(decision: &Decision, ne: Ne) -> bool
    ensures { result ≡ sends_packet decision.now ne }
{
    match decision {
        Decision::Exchange(service) => contributes(service, ne),
        Decision::Idle | Decision::Discard { .. } => false,
    }
}

/// Whether a frame is one of B1 whose cell is there exactly where it has to be.
#[tactic(auto, using(crate::proofs::Packets::packet_frame))]
pub(crate) fn is_packet_frame(slot: Slot, sender: Ne, sends: bool, frame: &[u8]) -> bool
    requires { slot.round ≡ B1 }
    ensures { (n : ℕ) → result ≡ is_frame_with sends (decoded n slot sender frame.now) }
{
    let cell: Option<Option<[u8; 64]>> = decode_one(slot, sender, frame);
    is_with(sends, &cell)
}

/// Whether there is a cell as it has to be.
fn is_with(sends: bool, cell: &Option<Option<[u8; 64]>>) -> bool
    ensures { result ≡ is_cell_with sends cell.now }
{
    match cell {
        None => false,
        Some(cell) => cell.is_some() == sends,
    }
}

/// Whether a copy of an element's packet is relayed.
fn is_relayed(decision: &Decision, ne: Ne) -> bool
    ensures { result ≡ is_relayed decision.now ne }
{
    match decision {
        Decision::Exchange(service) => in_two_rounds(service) && contributes(service, ne),
        Decision::Idle | Decision::Discard { .. } => false,
    }
}

/// Whether an exchange takes two rounds.
fn in_two_rounds(service: &Service) -> bool
    ensures { result ≡ not (is_voted service.now.kind) }
{
    match service.kind {
        Kind::Voted => false,
        Kind::Source(_) | Kind::Every => true,
    }
}

/// The copies of packets that an element relays.
#[tactic(auto, using(crate::proofs::Columns::no_cells, crate::proofs::Columns::one_cell, crate::proofs::Columns::all_cells))]
pub(crate) fn packets_relayed<const N: usize>(
    decision: &Decision,
    named: &Option<Ne>,
    own: &Cells<N, 64>,
    heard: &Cells<N, 64>,
    receiver: Ne,
) -> Cells<N, 64>
    requires few { N ≤ 5 }
    requires receiver { receiver < N }
    ensures { result ≡ each_below N (copy_relayed decision.now (record { faulty = named.now; own = own.now; heard = heard.now }) receiver) }
{
    let mut cells = Cells::absent();
    for k in 0..N {
        cells.set(
            k,
            packet_relayed(decision, named, own, heard, receiver, Ne::at(k)),
        );
    }
    cells
}

/// The copy of one packet, if it is relayed.
fn packet_relayed<const N: usize>(
    decision: &Decision,
    named: &Option<Ne>,
    own: &Cells<N, 64>,
    heard: &Cells<N, 64>,
    receiver: Ne,
    sender: Ne,
) -> Option<[u8; 64]>
    requires receiver { receiver < N }
    requires sender { sender < N }
    ensures { result ≡ copy_relayed decision.now (record { faulty = named.now; own = own.now; heard = heard.now }) receiver sender }
{
    if is_relayed(decision, sender) {
        copy(named, own, heard, receiver, sender)
    } else {
        None
    }
}
