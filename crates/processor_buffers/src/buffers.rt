//! Two bounded lists in memory that is taken once.

ghost use Rattle.std.specs.Prelude.{◌≡◌, ◌<◌, ◌≤◌, ◌↔◌, length, is_ok, is_some, IsErr, IfOk};
ghost use Rattle.processor_buffers.specs.Queues.{no_queues, first, head_of, has_out_room, has_in_room, carries, without_head, after_post, after_read, after_pop, after_delivery, handed_by};
ghost use Rattle.processor_buffers.specs.Buffers.{IsLimit, buffers_after};

use crate::{Handed, PostFull};
use circular_buffer::HeapCircularBuffer;
use ftpp_base::NoMemory;
use packet_format::{Delivered, Descriptor, Packet};
use std::alloc::{AllocError, Global};
use std::marker::Model;

/// The most packets that an output or an input may hold.
pub const MOST_SLOTS: usize = 64;

/// The limit of an output before another is set.
pub const USUAL_OUTS: u8 = 16;

/// The limit of an input before another is set.
pub const USUAL_INS: u8 = 32;

/// The packets that wait at one port to be sent, and those that wait to be read, each up to a limit.
/// Clauses see the two lists, the oldest first, and the two limits.
#[derive(Drop)]
pub struct PortBuffers {
    /// The packets to be sent, each with its request.
    output: HeapCircularBuffer<(Descriptor, Packet)>,
    /// The packets to be read.
    input: HeapCircularBuffer<Delivered>,
    /// The limit of the output.
    outs: u8,
    /// The limit of the input.
    ins: u8,
}

impl Model for PortBuffers {
    ghost use Rattle.std.specs.Prelude.{◌≡◌, ◌≤◌, length};
    ghost use Rattle.processor_buffers.specs.Buffers.{Buffers, IsLimit};

    ghost Value = { Buffers };

    ghost view = { λ b. record { queues = record { output = b.output.items; input = b.input.items }; outs = b.outs; ins = b.ins } };

    ghost invariant = { λ b. (b.output.capacity ≡ 64) × (b.input.capacity ≡ 64) × IsLimit b.outs (length b.output.items) × IsLimit b.ins (length b.input.items) };
}

impl PortBuffers {
    /// Empty buffers with the limits 16 and 32 and memory for 64 packets each, unless memory runs out.
    pub fn new(alloc: Global) -> Result<PortBuffers, NoMemory>
        ensures { IfOk result (λ b. b ≡ record { queues = no_queues; outs = 16; ins = 32 }) }
    {
        PortBuffers::with_slots(alloc).map_err(|_| NoMemory)
    }

    /// Empty buffers with the limits 16 and 32.
    fn with_slots(alloc: Global) -> Result<PortBuffers, AllocError>
        ensures { IfOk result (λ b. b ≡ record { queues = no_queues; outs = 16; ins = 32 }) }
    {
        let output = HeapCircularBuffer::with_capacity(alloc, MOST_SLOTS)?;
        let input = HeapCircularBuffer::with_capacity(alloc, MOST_SLOTS)?;
        Ok(PortBuffers {
            output,
            input,
            outs: USUAL_OUTS,
            ins: USUAL_INS,
        })
    }

    /// Sets how many packets the output and the input may hold: 1 to 64, and not fewer than they hold
    /// now.
    pub fn set_limits(&mut self, outs: u8, ins: u8)
        requires outs { IsLimit outs (length self.old.queues.output) }
        requires ins { IsLimit ins (length self.old.queues.input) }
        ensures { self.new ≡ record self.old { outs = outs; ins = ins } }
    {
        self.outs = outs;
        self.ins = ins;
    }

    /// The limit of the output and that of the input.
    pub fn limits(&self) -> (u8, u8)
        ensures { result ≡ (self.now.outs, self.now.ins) }
    {
        (self.outs, self.ins)
    }

    /// Appends a packet with its request to the output, unless that is full.
    pub fn post(&mut self, desc: Descriptor, packet: Packet) -> Result<(), PostFull>
        ensures queues { self.new ≡ buffers_after (after_post self.old.outs (desc, packet)) self.old }
        ensures room { is_ok result ≡ has_out_room self.old.outs self.old.queues }
        ensures full { IsErr result ↔ (length self.old.queues.output ≡ self.old.outs) }
    {
        if self.output.len() >= usize::from(self.outs) {
            return Err(PostFull);
        }
        self.output.push_back((desc, packet));
        Ok(())
    }

    /// Removes the oldest packet from the input and returns it, if there is one.
    pub fn read(&mut self) -> Option<Delivered>
        ensures queues { self.new ≡ buffers_after after_read self.old }
        ensures oldest { result ≡ first self.old.queues.input }
    {
        self.input.pop_front()
    }

    /// Appends a packet to the input, unless that is full: then the packet is lost.
    pub fn deliver(&mut self, d: Delivered) -> Handed
        ensures queues { self.new ≡ buffers_after (after_delivery self.old.ins d) self.old }
        ensures handed { result ≡ handed_by self.old.ins self.old.queues }
        ensures full { (result ≡ Handed.Overrun) ↔ (length self.old.queues.input ≡ self.old.ins) }
    {
        if self.input.len() >= usize::from(self.ins) {
            return Handed::Overrun;
        }
        self.input.push_back(d);
        Handed::Stored
    }

    /// The oldest packet of the output with its request, if there is one.
    pub fn head(&self) -> Option<(Descriptor, Packet)>
        ensures { result ≡ head_of self.now.queues }
    {
        self.output.front().copied()
    }

    /// Removes the oldest packet from the output, which is not empty.
    pub fn pop(&mut self)
        requires { 0 < length self.old.queues.output }
        ensures { self.new ≡ buffers_after without_head self.old }
    {
        self.output.pop_front();
    }

    /// Removes the oldest packet from the output, if its request is this one.
    pub fn pop_request(&mut self, desc: &Descriptor)
        ensures { self.new ≡ buffers_after (after_pop desc.now) self.old }
    {
        if self.carries(desc) {
            self.output.pop_front();
        }
    }

    /// Empties the output and the input.
    pub fn clear(&mut self)
        ensures { self.new ≡ buffers_after (λ q. no_queues) self.old }
    {
        self.output.clear();
        self.input.clear();
    }

    /// Whether the output is not empty, and whether the input is not full.
    pub fn flags(&self) -> (bool, bool)
        ensures { result ≡ (is_some (head_of self.now.queues), has_in_room self.now.ins self.now.queues) }
    {
        (
            !self.output.is_empty(),
            self.input.len() < usize::from(self.ins),
        )
    }

    /// Whether the oldest packet of the output has this request.
    fn carries(&self, desc: &Descriptor) -> bool
        ensures { result ≡ carries (head_of self.now.queues) desc.now }
    {
        match self.output.front() {
            Some((head, _)) => head == desc,
            None => false,
        }
    }
}
