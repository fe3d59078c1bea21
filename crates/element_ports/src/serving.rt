//! What an exchange or a discard does at the ports of one element.

ghost use Rattle.std.specs.Prelude.{◌≡◌, ◌<◌, option_copied};
ghost use Rattle.processor_buffers.specs.Queues.{after_pop, head_of};
ghost use Rattle.processor_buffers.specs.Heads.{packet_of_head};
ghost use Rattle.config_table.specs.Members.{admitted_members, member_at, receivers};
ghost use Rattle.element_ports.specs.PortQueues.{delivered_by, delivered_ports, delivered_to, handed_by_own, handed_here, member_row, port_queues, served_ports, with_port};
ghost use Rattle.element_ports.specs.Ports.{HasLimits};

use crate::Ports;
use crate::members::{admitted_at, receiver_at, sender_at};
use config_table::{Decision, Service, Table};
use ftpp_base::{Proc, Set8};
use packet_format::{Delivered, Descriptor, Packet};
use processor_buffers::Handed;

/// A packet as it is delivered.
fn delivered_by(cycle: u32, service: &Service, packet: &Packet) -> Delivered
    ensures { result ≡ delivered_by cycle service.now packet.now }
{
    Delivered {
        cycle,
        from: service.vid,
        class: service.desc.class,
        dest: service.desc.dest,
        packet: *packet,
    }
}

impl Ports {
    /// The 64 bytes of the packet that a group's live member here would send next, if its head carries the request. `None`
    /// too where no live member of the group stands here.
    pub fn member_row(&self, table: &Table, vid: u8, request: &Descriptor) -> Option<[u8; 64]>
        ensures { result ≡ member_row table.now self.now.me vid request.now self.now.queues }
    {
        match sender_at(table, vid, self.me) {
            Some(proc) => self.requested(proc.port, request),
            None => None,
        }
    }

    /// The bytes of a port's head, if that carries the request.
    fn requested(&self, port: u8, request: &Descriptor) -> Option<[u8; 64]>
        requires { port < 8 }
        ensures { result ≡ packet_of_head request.now (head_of (port_queues self.now.queues port)) }
    {
        match self.buffers[usize::from(port)].head() {
            Some((desc, packet)) if desc == *request => Some(packet.bytes),
            _ => None,
        }
    }

    /// Takes the head of the member here that was admitted to an exchange or a discard, if that carries the request.
    pub fn serve(&mut self, table: &Table, decision: &Decision)
        ensures { self.new ≡ record self.old { queues = served_ports table.now self.old.me decision.now self.old.queues } }
    {
        match decision {
            Decision::Idle => {}
            Decision::Discard {
                vid,
                desc,
                admitted,
                ..
            } => self.pop_admitted(table, *vid, desc, *admitted),
            Decision::Exchange(service) => self.pop_admitted(
                table,
                service.vid,
                &service.desc,
                service.admitted,
            ),
        }
    }

    /// Takes the head of the admitted member of a group here, if that carries the request.
    fn pop_admitted(&mut self, table: &Table, vid: u8, request: &Descriptor, admitted: Set8)
        ensures { let admitted_here = member_at (admitted_members table.now vid admitted) self.old.me in
            self.new ≡ record self.old { queues = with_port (after_pop request.now) self.old.queues admitted_here } }
    {
        if let Some(proc) = admitted_at(table, vid, admitted, self.me) {
            let buffers = &mut self.buffers[usize::from(proc.port)];
            buffers.pop_request(request);
        }
    }

    /// Hands the entry of an exchange to the member of the destination that stands here, and says what became of it.
    pub fn deliver(
        &mut self,
        table: &Table,
        cycle: u32,
        decision: &Decision,
        entry: Option<&Packet>,
    ) -> Option<(Proc, Handed)>
        requires { HasLimits table.now self.old }
        ensures ports { self.new ≡ record self.old { queues = delivered_ports table.now self.old.me cycle decision.now (option_copied entry.entry) self.old.queues } }
        ensures handed { result ≡ handed_here table.now self.old.me decision.now (option_copied entry.entry) self.old.queues }
        ensures me { self.new.me ≡ self.old.me }
        ensures limits { HasLimits table.now self.new }
    {
        let Decision::Exchange(service) = decision else {
            return None;
        };
        let Some(packet) = entry else {
            return None;
        };
        self.hand(table, cycle, service, packet)
    }

    /// Hands a packet to the receiver that stands here.
    fn hand(
        &mut self,
        table: &Table,
        cycle: u32,
        service: &Service,
        packet: &Packet,
    ) -> Option<(Proc, Handed)>
        requires { HasLimits table.now self.old }
        ensures ports { let receiver = member_at (receivers table.now service.now) self.old.me in
            self.new ≡ record self.old { queues = delivered_to table.now cycle service.now (Some packet.now) self.old.queues receiver } }
        ensures handed { let receiver = member_at (receivers table.now service.now) self.old.me in
            result ≡ handed_by_own table.now self.old.queues (Some packet.now) receiver }
    {
        match receiver_at(table, service, self.me) {
            Some(proc) => {
                let buffers = &mut self.buffers[usize::from(proc.port)];
                Some((proc, buffers.deliver(delivered_by(cycle, service, packet))))
            }
            None => None,
        }
    }
}
