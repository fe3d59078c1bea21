//! Four elements with the wires between them.

ghost use Rattle.std.specs.Prelude.{◌≡◌, IfSome};

use crate::mailbox::Mailbox;
use crate::seat::Seat;
use built_in_tables::built_in_4;
use element_core::Element;
use frame_format::{FrameBuf, copy_frame};
use ftpp_base::{Ne, Round};
use packet_format::{Descriptor, Packet};
use std::alloc::Global;

/// The wires between the elements.
#[derive(Clone, Copy, PartialEq, Eq, Drop)]
pub enum Wires {
    /// All carry what is sent.
    Whole,
    /// Those to and from one element carry nothing.
    CutAt(u8),
}

impl Wires {
    fn carry(self, from: Ne, to: Ne) -> bool {
        match self {
            Wires::Whole => true,
            Wires::CutAt(element) => from.byte() != element && to.byte() != element,
        }
    }
}

/// An element before its first cycle. None where memory is wanted.
fn seat(alloc: Global, number: u8) -> Option<Seat> {
    let me = Ne::new(number, 4)?;
    let table = built_in_4();
    let element = Element::new(alloc, me, &table).ok()?;
    Some(Seat {
        element,
        mailbox: Mailbox::new(me),
    })
}

/// All four elements, made from the built-in table. None where memory is wanted.
pub fn build(alloc: Global) -> Option<Vec<Seat>> {
    let mut seats = Vec::with_capacity(alloc, 4).ok()?;
    for number in 0..4 {
        seats.push(seat(alloc, number)?).ok()?;
    }
    Some(seats)
}

/// The processors at this port of these elements post the same packet.
pub fn post_alike(
    seats: &mut [Seat],
    elements: &[usize],
    port: u8,
    desc: Descriptor,
    packet: Packet,
) -> Option<()> {
    for &element in elements {
        seats.get_mut(element)?.post(port, desc, packet)?;
    }
    Some(())
}

/// Copies the frame that leaves an element for another into the inbox of that one; no bytes where the wire is cut.
fn carry(seats: &mut [Seat], wires: Wires, from: Ne, to: Ne) -> Option<()> {
    let mut frame = FrameBuf::new();
    if wires.carry(from, to) {
        let sender = &seats.get(from.index())?.mailbox;
        copy_frame(sender.outbox.get(to.index())?, &mut frame);
    }
    let receiver = &mut seats.get_mut(to.index())?.mailbox;
    copy_frame(&frame, receiver.inbox.get_mut(from.index())?);
    Some(())
}

/// Carries the frames of all elements.
fn carry_all(seats: &mut [Seat], wires: Wires) -> Option<()> {
    for from in 0..4 {
        for to in 0..4 {
            if from != to {
                carry(seats, wires, Ne::new(from, 4)?, Ne::new(to, 4)?)?;
            }
        }
    }
    Some(())
}

/// One round of a cycle: all elements send, the wires carry, all elements take.
pub fn round(seats: &mut [Seat], round: Round, wires: Wires) -> Option<()> {
    for seat in seats.iter_mut() {
        seat.send(round)?;
    }
    carry_all(seats, wires)?;
    for seat in seats.iter_mut() {
        seat.take(round)?;
    }
    Some(())
}
