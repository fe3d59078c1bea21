//! What the ports show.

ghost use Rattle.std.specs.Prelude.{◌≡◌, ◌<◌};
ghost use Rattle.config_table.specs.Table.{TableValue};
ghost use Rattle.element_ports.specs.PortQueues.{column_of, shown_entry};
ghost use Rattle.element_ports.specs.Ports.{HasLimits};

use crate::Ports;
use ftpp_base::PORTS;
use local_pattern::{Entry, LocalPattern};
use packet_format::Descriptor;
use processor_buffers::PortBuffers;

/// What an empty output shows.
const NO_DESCRIPTOR: Descriptor = Descriptor {
    dest: 0,
    class: 0,
    source: 0,
};

/// What one port shows. An empty output shows a descriptor of zeros.
fn shown(buffers: &PortBuffers) -> Entry
    ensures { result ≡ shown_entry buffers.now.ins buffers.now.queues }
{
    let (not_empty, not_full) = buffers.flags();
    let desc = match buffers.head() {
        Some((desc, _packet)) => desc,
        None => NO_DESCRIPTOR,
    };
    Entry {
        not_empty,
        not_full,
        desc,
    }
}

impl Ports {
    /// What the eight ports show.
    pub fn column(&self) -> LocalPattern
        ensures { (table : TableValue) → HasLimits table self.now → result ≡ column_of table self.now.me self.now.queues }
    {
        let mut pattern = LocalPattern::quiet();
        for port in 0..PORTS {
            pattern.set(port, shown(&self.buffers[usize::from(port)]));
        }
        pattern
    }
}
