//! The ports with their memory, and what processors do at them.

ghost use Rattle.std.specs.Prelude.{◌≡◌, ◌<◌, ◌↔◌, length, is_ok, IfOk, IsErr};
ghost use Rattle.packet_format.specs.declared.acts.Act.TheVariants.{Post, Read};
ghost use Rattle.config_table.specs.Table.{TableValue, out_limit};
ghost use Rattle.processor_buffers.specs.Queues.{first, has_out_room};
ghost use Rattle.element_ports.specs.PortQueues.{empty_ports, own_act, port_queues};
ghost use Rattle.element_ports.specs.Ports.{HasLimits, fresh, proc_at};

use config_table::Table;
use ftpp_base::{Ne, NoMemory, PORTS, Proc};
use packet_format::{Delivered, Descriptor, Packet};
use processor_buffers::{PortBuffers, PostFull};
use std::alloc::Global;
use std::marker::Model;

/// The eight ports of one element, with the limits of its table. Clauses see the element, and by port the queues and the limits.
#[derive(Drop)]
pub struct Ports {
    pub(crate) me: Ne,
    pub(crate) buffers: Vec<PortBuffers>,
}

impl Model for Ports {
    ghost use Rattle.std.specs.Prelude.{◌≡◌, length};
    ghost use Rattle.element_ports.specs.Ports.{PortsValue, seen};

    ghost Value = { PortsValue };

    ghost view = { λ p. seen p.me p.buffers.items };

    ghost invariant = { λ p. length p.buffers.items ≡ 8 };
}

/// The memory of eight ports.
fn eight_buffers(alloc: Global) -> Result<Vec<PortBuffers>, NoMemory>
    ensures { IfOk result (λ buffers. length buffers.items ≡ 8) }
{
    let mut buffers = Vec::with_capacity(alloc, usize::from(PORTS)).map_err(|_| NoMemory)?;
    for _port in 0..PORTS {
        buffers.push_reserved(PortBuffers::new(alloc)?);
    }
    Ok(buffers)
}

/// Empties the buffers of a processor, and gives them its limits.
pub(crate) fn renew(buffers: &mut PortBuffers, table: &Table, proc: Proc)
    ensures { buffers.new ≡ fresh table.now proc }
{
    let (outs, ins) = table.limits(proc);
    buffers.clear();
    buffers.set_limits(outs, ins);
}

impl Ports {
    /// Empty ports of an element, with the limits of the table.
    pub fn new(alloc: Global, me: Ne, table: &Table) -> Result<Ports, NoMemory>
        ensures me { IfOk result (λ ports. ports.me ≡ me) }
        ensures queues { IfOk result (λ ports. ports.queues ≡ empty_ports) }
        ensures limits { IfOk result (λ ports. HasLimits table.now ports) }
    {
        let buffers = eight_buffers(alloc)?;
        let mut ports = Ports { me, buffers };
        ports.reset(table);
        Ok(ports)
    }

    /// The element.
    pub fn me(&self) -> Ne
        ensures { result ≡ self.now.me }
    {
        self.me
    }

    /// Empties all ports, and gives them the limits of the table.
    pub fn reset(&mut self, table: &Table)
        ensures me { self.new.me ≡ self.old.me }
        ensures queues { self.new.queues ≡ empty_ports }
        ensures limits { HasLimits table.now self.new }
    {
        let ne = self.me.byte();
        for port in 0..PORTS {
            let buffers = &mut self.buffers[usize::from(port)];
            renew(buffers, table, Proc { ne, port });
        }
    }

    /// A processor posts a packet. The answer is `PostFull`, and nothing changes, exactly where its output is full.
    pub fn post(&mut self, port: u8, desc: Descriptor, packet: Packet) -> Result<(), PostFull>
        requires { port < 8 }
        ensures ports { (table : TableValue) → HasLimits table self.old
            → self.new ≡ record self.old { queues = own_act table self.old.queues (Post (proc_at self.old.me port) desc packet) } }
        ensures answer { (table : TableValue) → HasLimits table self.old
            → is_ok result ≡ has_out_room (out_limit table (proc_at self.old.me port)) (port_queues self.old.queues port) }
        ensures full { (table : TableValue) → HasLimits table self.old
            → IsErr result ↔ (length (port_queues self.old.queues port).output ≡ out_limit table (proc_at self.old.me port)) }
        ensures me { self.new.me ≡ self.old.me }
        ensures limits { (table : TableValue) → HasLimits table self.old → HasLimits table self.new }
    {
        let buffers = &mut self.buffers[usize::from(port)];
        buffers.post(desc, packet)
    }

    /// A processor reads the oldest packet of its input, if there is one.
    pub fn read(&mut self, port: u8) -> Option<Delivered>
        requires { port < 8 }
        ensures ports { (table : TableValue) → self.new ≡ record self.old { queues = own_act table self.old.queues (Read (proc_at self.old.me port)) } }
        ensures answer { result ≡ first (port_queues self.old.queues port).input }
        ensures me { self.new.me ≡ self.old.me }
        ensures limits { (table : TableValue) → HasLimits table self.old → HasLimits table self.new }
    {
        let buffers = &mut self.buffers[usize::from(port)];
        buffers.read()
    }
}
