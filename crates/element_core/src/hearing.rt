//! What comes in a round: a frame from each other element, read as cells whatever its bytes are.

ghost use Rattle.std.specs.Prelude.{◌≡◌, ◌≢◌, ◌<◌, ◌⊎◌, [], length, replicate, slice_index_or, None, if◌then◌else◌, ◌==◌};
ghost use Rattle.ftpp_base.specs.Lists.{cell_at, each_below};
ghost use Rattle.two_round.specs.Echoes.{with_copy, with_relayed};
ghost use Rattle.frame_format.specs.Frames.{IsOfOne, IsOfAll, width_in, first_cell, reads_as};
ghost use Rattle.element_core.specs.ElementValue.{taken_of, copy_taken, frames_in};

use bit_vote::Cells;
use frame_format::{FrameBuf, decode, decode_one};
use ftpp_base::{Ne, Slot};
use link_fabric::Link;
use two_round::TwoRound;

/// Takes the frames of a first round; the element's own value stays in its own place.
pub(crate) fn hear_copies<const N: usize, const B: usize, L: Link<N>>(
    slot: Slot,
    me: Ne,
    link: &mut L,
    frame: &mut FrameBuf,
    exchange: &mut TwoRound<N, B>,
)
    requires size { (N ≡ 4) ⊎ (N ≡ 5) }
    requires round { IsOfOne slot.round }
    requires width { B ≡ width_in slot.round }
    requires owner { L.me link.old ≡ me }
    requires me { exchange.old.me ≡ me }
    requires below { me < N }
    requires count { length exchange.old.copies ≡ N }
    ensures heard { exchange.new ≡ record exchange.old { copies = each_below N (copy_taken N slot me (cell_at exchange.old.copies me) (frames_in (L.came link.old))) } }
    ensures owner { L.me link.new ≡ L.me link.old }
    ensures came { L.came link.new ≡ L.came link.old }
    ensures leaves { L.leaves link.new ≡ L.leaves link.old }
{
    for k in 0..N {
        let sender = Ne::at(k);
        hear_copy(slot, me, sender, link, frame, exchange);
    }
}

/// Takes the frame that another element sent in a first round.
fn hear_copy<const N: usize, const B: usize, L: Link<N>>(
    slot: Slot,
    me: Ne,
    sender: Ne,
    link: &mut L,
    frame: &mut FrameBuf,
    exchange: &mut TwoRound<N, B>,
)
    requires round { IsOfOne slot.round }
    requires width { B ≡ width_in slot.round }
    requires owner { L.me link.old ≡ me }
    requires me { exchange.old.me ≡ me }
    requires below { sender < N }
    ensures heard { exchange.new ≡ (if sender == me then exchange.old else with_copy exchange.old sender (first_cell (reads_as N slot sender (frames_in (L.came link.old) sender)))) }
    ensures owner { L.me link.new ≡ L.me link.old }
    ensures came { L.came link.new ≡ L.came link.old }
    ensures leaves { L.leaves link.new ≡ L.leaves link.old }
{
    if sender != me {
        match link.seen(sender) {
            Some(came) => exchange.take_first(
                sender,
                decode_one(slot, sender, came.as_slice()).unwrap_or(None),
            ),
            None => {
                link.take(sender, frame);
                exchange.take_first(
                    sender,
                    decode_one(slot, sender, frame.as_slice()).unwrap_or(None),
                );
            }
        }
    }
}

/// Takes the frames of a second round.
pub(crate) fn hear_echoes<const N: usize, const B: usize, L: Link<N>>(
    slot: Slot,
    me: Ne,
    link: &mut L,
    frame: &mut FrameBuf,
    exchange: &mut TwoRound<N, B>,
)
    requires size { (N ≡ 4) ⊎ (N ≡ 5) }
    requires round { IsOfAll slot.round }
    requires width { B ≡ width_in slot.round }
    requires owner { L.me link.old ≡ me }
    requires me { exchange.old.me ≡ me }
    requires count { length exchange.old.relayed ≡ N }
    requires own { slice_index_or exchange.old.relayed me [] ≡ replicate N None }
    ensures heard { exchange.new ≡ record exchange.old { relayed = each_below N (taken_of N slot me (replicate N None) (frames_in (L.came link.old))) } }
    ensures owner { L.me link.new ≡ L.me link.old }
    ensures came { L.came link.new ≡ L.came link.old }
    ensures leaves { L.leaves link.new ≡ L.leaves link.old }
{
    for k in 0..N {
        hear_echo(slot, me, Ne::at(k), link, frame, exchange);
    }
}

/// Takes the frame that another element sent in a second round.
fn hear_echo<const N: usize, const B: usize, L: Link<N>>(
    slot: Slot,
    me: Ne,
    relay: Ne,
    link: &mut L,
    frame: &mut FrameBuf,
    exchange: &mut TwoRound<N, B>,
)
    requires size { (N ≡ 4) ⊎ (N ≡ 5) }
    requires round { IsOfAll slot.round }
    requires width { B ≡ width_in slot.round }
    requires owner { L.me link.old ≡ me }
    requires me { exchange.old.me ≡ me }
    requires below { relay < N }
    ensures heard { exchange.new ≡ (if relay == me then exchange.old else with_relayed exchange.old relay (reads_as N slot relay (frames_in (L.came link.old) relay))) }
    ensures owner { L.me link.new ≡ L.me link.old }
    ensures came { L.came link.new ≡ L.came link.old }
    ensures leaves { L.leaves link.new ≡ L.leaves link.old }
{
    if relay != me {
        match link.seen(relay) {
            Some(came) => {
                let cells = decode::<N, B>(slot, relay, came.as_slice()).unwrap_or(Cells::absent());
                exchange.take_echo(relay, cells);
            }
            None => {
                link.take(relay, frame);
                let cells = decode::<N, B>(slot, relay, frame.as_slice()).unwrap_or(
                    Cells::absent(),
                );
                exchange.take_echo(relay, cells);
            }
        }
    }
}
