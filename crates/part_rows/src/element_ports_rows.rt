ghost use Rattle.std.specs.Prelude.{◌<◌};
ghost use Rattle.element_ports.specs.Ports.{HasLimits};

use config_table::{ConfigError, Decision, Group, Kind, Service, Table};
use element_ports::*;
use ftpp_base::{Ne, Proc, Set8};
use local_pattern::Entry;
use packet_format::{Delivered, Descriptor, Packet};
use processor_buffers::{Handed, PostFull};
use std::test::Fail;

const NOTHING: Descriptor = Descriptor {
    dest: 0,
    class: 0,
    source: 0,
};

/// A request of group 2 to group 3.
const TO_THREE: Descriptor = Descriptor {
    dest: 3,
    class: 1,
    source: 0,
};

/// The group with some members masked, whose outputs hold one packet and whose inputs hold two.
fn small(mut group: Group, masked: u8) -> Group {
    group.masked = Set8 { bits: masked };
    group.outs = 1;
    group.ins = 2;
    group
}

/// Four elements; the last member of group 3 is masked.
fn four_elements() -> Result<Table, ConfigError> {
    Table::new(
        4,
        1,
        &[
            small(Group::usual(1, &[(0, 0), (1, 0), (2, 0), (3, 0)]), 0),
            small(Group::usual(2, &[(0, 1), (1, 1), (2, 1)]), 0),
            small(Group::usual(3, &[(1, 2), (2, 2), (3, 2)]), 4),
        ],
    )
}

/// A packet that begins with this byte.
fn packet(byte: u8) -> Packet {
    let mut bytes = [0; 64];
    bytes[0] = byte;
    Packet { bytes }
}

/// The exchange of a request of group 2, of which the members at elements 0 and 1 are admitted.
fn exchange(desc: Descriptor) -> Decision {
    Decision::Exchange(Service {
        vid: 2,
        desc,
        kind: Kind::Voted,
        admitted: Set8 { bits: 0b11 },
        waited: 0,
    })
}

/// Its packet as it is delivered.
fn delivered(cycle: u32, byte: u8) -> Delivered {
    Delivered {
        cycle,
        from: 2,
        class: 1,
        dest: 3,
        packet: packet(byte),
    }
}

/// What a port with an input that is not full shows of its output.
fn shown(desc: Option<Descriptor>) -> Entry {
    Entry {
        not_empty: desc.is_some(),
        not_full: true,
        desc: desc.unwrap_or(NOTHING),
    }
}

/// Whether a port takes so many posts and no more, has nothing to read, and shows the request.
fn holds(ports: &mut Ports, port: u8, room: u8) -> bool
    requires { port < 8 }
{
    for byte in 0..room {
        if ports.post(port, TO_THREE, packet(byte)).is_err() {
            return false;
        }
    }
    ports.post(port, TO_THREE, packet(99)) == Err(PostFull)
        && ports.read(port).is_none()
        && shows(ports, port, Some(TO_THREE))
}

/// Whether a port shows this request, or an empty output.
fn shows(ports: &Ports, port: u8, desc: Option<Descriptor>) -> bool
    requires { port < 8 }
{
    ports.column().entry(port) == shown(desc)
}

#[test]
fn outputs_hold_as_many_as_the_table_says(rt: HostRuntime) -> Result<(), Fail> {
    let table = four_elements()?;
    let me = Ne::at(1);
    let mut ports = Ports::new(rt.alloc(), me, &table)?;
    assert!(rt; ports.me() == me);
    for (port, room) in [(0, 1), (1, 1), (7, 16)] {
        assert!(rt; holds(&mut ports, port, room), "{port}");
    }
    assert!(rt; shows(&ports, 6, None));
    ports.reset(&table);
    assert!(rt; shows(&ports, 7, None));
    Ok(())
}

/// Takes the head that was served. Its caller goes on with the limits of the table.
fn serve(ports: &mut Ports, table: &Table, decision: &Decision)
    requires { HasLimits table.now ports.old }
    ensures { HasLimits table.now ports.new }
{
    ports.serve(table, decision);
}

/// What an element does in an exchange of group 2: whether it has a member that sends, whether that is admitted, and whether
/// it has a member that receives.
#[derive(Clone, Copy)]
struct Part {
    number: u8,
    is_member: bool,
    is_admitted: bool,
    receives: bool,
}

/// Whether a member sends its packet for its request and no other, and loses it exactly if it is admitted.
fn sends(ports: &mut Ports, table: &Table, part: &Part) -> bool
    requires { HasLimits table.now ports.old }
    ensures { HasLimits table.now ports.new }
{
    let other = Descriptor {
        class: 2,
        ..TO_THREE
    };
    let had_none = ports.member_row(table, 2, &other).is_none();
    serve(ports, table, &exchange(other));
    let row = ports.member_row(table, 2, &TO_THREE);
    serve(ports, table, &exchange(TO_THREE));
    had_none && row == part.is_member.then_some(packet(65).bytes)
}

/// What becomes of a packet of this byte, or of no packet, in a cycle.
fn handed(ports: &mut Ports, table: &Table, cycle: u32, byte: u8) -> Option<(Proc, Handed)>
    requires { HasLimits table.now ports.old }
    ensures { HasLimits table.now ports.new }
{
    let entry = packet(byte);
    ports.deliver(table, cycle, &exchange(TO_THREE), Some(&entry))
}

/// Whether a member takes two packets, none where there is none, and not a third.
fn receives(ports: &mut Ports, table: &Table, part: &Part) -> bool
    requires { HasLimits table.now ports.old }
{
    let proc = Proc {
        ne: part.number,
        port: 2,
    };
    let stored = part.receives.then_some((proc, Handed::Stored));
    let overrun = part.receives.then_some((proc, Handed::Overrun));
    let first = handed(ports, table, 7, 7);
    let none = ports.deliver(table, 8, &exchange(TO_THREE), None);
    let second = handed(ports, table, 9, 9);
    let third = handed(ports, table, 10, 10);
    first == stored && none.is_none() && second == stored && third == overrun
}

/// Whether the packets are read that a member took.
fn reads(ports: &mut Ports, part: &Part) -> bool {
    let first = ports.read(2);
    let second = ports.read(2);
    let third = ports.read(2);
    first == part.receives.then_some(delivered(7, 7))
        && second == part.receives.then_some(delivered(9, 9))
        && third.is_none()
}

/// Admitted members send and lose their head; live members of group 3 receive.
#[test]
fn exchanges_go_by_the_members(rt: HostRuntime) -> Result<(), Fail> {
    let table = four_elements()?;
    for (number, is_member, is_admitted, is_receiver) in [
        (0, true, true, false),
        (1, true, true, true),
        (2, true, false, true),
        (3, false, false, false),
    ] {
        let part = Part {
            number,
            is_member,
            is_admitted,
            receives: is_receiver,
        };
        let me = Ne::new(number, 4).ok_or("element")?;
        let mut ports = Ports::new(rt.alloc(), me, &table)?;
        assert!(rt; ports.post(1, TO_THREE, packet(65)).is_ok());
        assert!(rt; sends(&mut ports, &table, &part), "row of {number}");
        let left = (!part.is_admitted).then_some(TO_THREE);
        assert!(rt; shows(&ports, 1, left), "head of {number}");
        assert!(rt;
            receives(&mut ports, &table, &part),
            "deliveries of {number}"
        );
        assert!(rt; reads(&mut ports, &part), "reads of {number}");
    }
    Ok(())
}
