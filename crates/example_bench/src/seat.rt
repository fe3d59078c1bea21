//! An element with its mailbox, stepped by hand.

use crate::mailbox::Mailbox;
use element_core::{Due, Element};
use ftpp_base::Round;
use packet_format::{Descriptor, Packet};

/// The number at which the count of cycles ends.
const LAST_CYCLE: u32 = 100_000;

/// An element with its mailbox.
#[derive(Drop)]
pub struct Seat {
    pub element: Element<4>,
    pub mailbox: Mailbox,
}

impl Seat {
    /// Puts the frames of a round into the outbox. None where that is not due.
    pub fn send(&mut self, round: Round) -> Option<()> {
        let is_own = self.element.me() == self.mailbox.owner;
        if !is_own || self.element.due() != Due::Emit(round) || self.element.cycle() >= LAST_CYCLE {
            return None;
        }
        self.element.emit(round, &mut self.mailbox);
        Some(())
    }

    /// Takes the frames of a round from the inbox. None where that is not due.
    pub fn take(&mut self, round: Round) -> Option<()> {
        let is_own = self.element.me() == self.mailbox.owner;
        if !is_own || self.element.due() != Due::Absorb(round) {
            return None;
        }
        self.element.absorb(round, &mut self.mailbox);
        Some(())
    }

    /// The processor at a port, below 8, posts. None where a cycle has begun, or the output is full.
    pub fn post(&mut self, port: u8, desc: Descriptor, packet: Packet) -> Option<()> {
        if port >= 8 || self.element.due() != Due::Emit(Round::A1) {
            return None;
        }
        self.element.host_post(port, desc, packet).ok()
    }
}
