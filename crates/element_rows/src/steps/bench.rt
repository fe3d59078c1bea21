//! Four elements that exchange frames, of which one may be faulty.

use super::cases::{Case, Change, Edit, Posts, ROUNDS};
use bit_vote::Cells;
use built_in_tables::built_in_4;
use element_core::{Due, Element, Rejoined};
use frame_format::{FrameBuf, copy_frame};
use ftpp_base::{Ne, Round, Set8};
use link_fabric::LinkEnd;
use packet_format::{Delivered, Descriptor, Packet};
use processor_buffers::PostFull;
use std::alloc::Global;

/// An element with its link.
#[derive(Drop)]
pub(super) struct Seat {
    pub(super) element: Element<4>,
    pub(super) link: LinkEnd<4>,
}

/// A packet with these first bytes.
pub(super) fn packet(first: &[u8; 3]) -> Packet {
    let mut bytes = [0; 64];
    bytes[..3].copy_from_slice(first);
    Packet { bytes }
}

/// An element before its first cycle.
pub(super) fn new_seat(alloc: Global, number: u8) -> Option<Seat> {
    let me = Ne::new(number, 4)?;
    if me.index() >= 4 {
        return None;
    }
    let element = Element::new(alloc, me, &built_in_4()).ok()?;
    Some(Seat {
        element,
        link: LinkEnd::new(me),
    })
}

/// All four elements.
fn seats(alloc: Global) -> Option<Vec<Seat>> {
    let mut seats = Vec::with_capacity(alloc, 4).ok()?;
    for number in 0..4 {
        seats.push(new_seat(alloc, number)?).ok()?;
    }
    Some(seats)
}

/// What leaves an element for another.
pub(super) fn leaving(link: &LinkEnd<4>, to: Ne) -> Option<FrameBuf> {
    if to.index() >= 4 || to == link.owner {
        return None;
    }
    let mut frame = FrameBuf::new();
    copy_frame(link.leaving(to), &mut frame);
    Some(frame)
}

/// A frame comes to an element from another.
pub(super) fn arrive(link: &mut LinkEnd<4>, from: Ne, frame: &FrameBuf) -> Option<()> {
    if from.index() >= 4 || from == link.owner {
        return None;
    }
    link.arrive(from, frame);
    Some(())
}

/// An element sends its frames of a round, if that is due.
pub(super) fn send(seat: &mut Seat, round: Round) -> Option<()> {
    if seat.element.due() != Due::Emit(round) || seat.element.me() != seat.link.owner {
        return None;
    }
    if seat.element.cycle() >= 100_000 {
        return None;
    }
    seat.element.emit(round, &mut seat.link);
    Some(())
}

/// An element takes the frames of a round, if that is due.
pub(super) fn take(seat: &mut Seat, round: Round) -> Option<()> {
    if seat.element.due() != Due::Absorb(round) || seat.element.me() != seat.link.owner {
        return None;
    }
    seat.element.absorb(round, &mut seat.link);
    Some(())
}

/// A processor posts a packet, if the cycle has not begun.
pub(super) fn post(
    seat: &mut Seat,
    port: u8,
    desc: Descriptor,
    packet: Packet,
) -> Option<Result<(), PostFull>> {
    if seat.element.due() != Due::Emit(Round::A1) || port >= 8 {
        return None;
    }
    Some(seat.element.host_post(port, desc, packet))
}

/// A processor reads, if the cycle has not begun.
pub(super) fn read(seat: &mut Seat, port: u8) -> Option<Option<Delivered>> {
    if seat.element.due() != Due::Emit(Round::A1) || port >= 8 {
        return None;
    }
    Some(seat.element.host_read(port))
}

/// What an element tells of its agreed state, between two cycles.
pub(super) fn state(seat: &Seat) -> Option<[u8; 1887]> {
    if seat.element.due() != Due::Emit(Round::A1) {
        return None;
    }
    Some(seat.element.state())
}

/// An element rejoins by what the others tell, between two cycles.
pub(super) fn rejoin(seat: &mut Seat, states: &Cells<4, 1887>) -> Option<Rejoined> {
    if seat.element.due() != Due::Emit(Round::A1) {
        return None;
    }
    Some(seat.element.rejoin(states))
}

/// The processors post what they post in a cycle.
fn post_all(seats: &mut [Seat], posts: &[Posts], cycle: u32) -> Option<()> {
    for &(at, port, elements, desc, first) in posts {
        for seat in seats.iter_mut() {
            let is_there = (Set8 { bits: elements }).has(seat.element.me().byte());
            if is_there && at == cycle {
                post(seat, port, desc, packet(&first))?.ok()?;
            }
        }
    }
    Some(())
}

fn spoil(frame: &mut FrameBuf, change: Change) {
    match change {
        Change::Drop => frame.clear(),
        Change::Flip(at, bits) => {
            if let Some(byte) = frame.as_mut_slice().get_mut(at) {
                *byte ^= bits;
            }
        }
    }
}

/// Changes a frame of the faulty element to another.
fn spoil_by(frame: &mut FrameBuf, edits: &[Edit], cycle: u32, round: Round, to: Ne) {
    for &(cycles, rounds, receivers, change) in edits {
        let is_to = (Set8 { bits: receivers }).has(to.byte());
        if is_to && cycles.contains(&cycle) && rounds.contains(&round) {
            spoil(frame, change);
        }
    }
}

/// Carries the frame of a round from one element to another.
fn carry(seats: &mut [Seat], case: &Case, at: (u32, Round), from: u8, to: u8) -> Option<()> {
    let sender = Ne::new(from, 4)?;
    let receiver = Ne::new(to, 4)?;
    let mut frame = leaving(&seats.get(sender.index())?.link, receiver)?;
    if case.faulty == from {
        spoil_by(&mut frame, case.edits, at.0, at.1, receiver);
    }
    arrive(&mut seats.get_mut(receiver.index())?.link, sender, &frame)
}

/// All elements send and take their frames of a round.
fn round(seats: &mut [Seat], case: &Case, cycle: u32, round: Round) -> Option<()> {
    for seat in seats.iter_mut() {
        send(seat, round)?;
    }
    for from in 0..4 {
        for to in 0..4 {
            if from != to {
                carry(seats, case, (cycle, round), from, to)?;
            }
        }
    }
    for seat in seats.iter_mut() {
        take(seat, round)?;
    }
    Some(())
}

/// The elements after all cycles of a case.
pub(super) fn run(alloc: Global, case: &Case) -> Option<Vec<Seat>> {
    let mut seats = seats(alloc)?;
    for cycle in 0..case.cycles {
        post_all(seats.as_mut_slice(), case.posts, cycle)?;
        for &now in ROUNDS {
            round(seats.as_mut_slice(), case, cycle, now)?;
        }
    }
    Some(seats)
}
