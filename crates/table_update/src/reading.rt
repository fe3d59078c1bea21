//! Reads the update that a packet spells: one function for each form.

ghost use Rattle.std.specs.Prelude.{◌≡◌, ◌+◌, ◌≤◌, Some, slice_index, slice_range, drop};
ghost use Rattle.packet_format.specs.Numbers.{number_from};
ghost use Rattle.table_update.specs.declared.Update.TheVariants.{Mask, Admit, Timeouts, Dissolve, Form};
ghost use Rattle.table_update.specs.Updates.{read_update, update_from, if_spelled, members_from, all_zero};

use crate::Update;
use byteorder::{BigEndian, ByteOrder};
use ftpp_base::{Proc, Row};
use packet_format::Packet;

/// The most members of a group.
const MOST_MEMBERS: u8 = 4;

/// The update that a packet spells; None exactly where it spells none: where byte 0 is not 1 to 5, where a member index or
/// a size is out of range, and where a byte that the form does not name is not 0.
#[tactic(auto, unfolding(crate::specs::Updates::update_from))]
pub fn read_update(packet: &Packet) -> Option<Update>
    ensures { result ≡ read_update packet.now }
{
    let bytes = &packet.bytes;
    match bytes[0] {
        1 => read_mask(bytes),
        2 => read_admit(bytes),
        3 => read_timeouts(bytes),
        4 => read_dissolve(bytes),
        5 => read_form(bytes),
        _ => None,
    }
}

/// The group, and the index of a member.
fn read_mask(bytes: &[u8; 64]) -> Option<Update>
    requires { slice_index bytes.now 0 ≡ 1 }
    ensures { result ≡ if_spelled bytes.now (Some (Mask (slice_index bytes.now 1) (slice_index bytes.now 2))) }
{
    if bytes[2] >= MOST_MEMBERS {
        return None;
    }
    if !is_zero_from(bytes, 3) {
        return None;
    }
    Some(Update::Mask {
        vid: bytes[1],
        member: bytes[2],
    })
}

/// The group, and the index of a member.
fn read_admit(bytes: &[u8; 64]) -> Option<Update>
    requires { slice_index bytes.now 0 ≡ 2 }
    ensures { result ≡ if_spelled bytes.now (Some (Admit (slice_index bytes.now 1) (slice_index bytes.now 2))) }
{
    if bytes[2] >= MOST_MEMBERS {
        return None;
    }
    if !is_zero_from(bytes, 3) {
        return None;
    }
    Some(Update::Admit {
        vid: bytes[1],
        member: bytes[2],
    })
}

/// The group and its two timeouts.
fn read_timeouts(bytes: &[u8; 64]) -> Option<Update>
    requires { slice_index bytes.now 0 ≡ 3 }
    ensures { result ≡ if_spelled bytes.now (Some (Timeouts (slice_index bytes.now 1) (number_from (slice_range bytes.now 2 4)) (number_from (slice_range bytes.now 4 6)))) }
{
    if !is_zero_from(bytes, 6) {
        return None;
    }
    Some(Update::Timeouts {
        vid: bytes[1],
        ts: number_at(bytes, 2),
        tr: number_at(bytes, 4),
    })
}

/// The group.
fn read_dissolve(bytes: &[u8; 64]) -> Option<Update>
    requires { slice_index bytes.now 0 ≡ 4 }
    ensures { result ≡ if_spelled bytes.now (Some (Dissolve (slice_index bytes.now 1))) }
{
    if !is_zero_from(bytes, 2) {
        return None;
    }
    Some(Update::Dissolve { vid: bytes[1] })
}

/// The group, its size, its timeouts, and four pairs of element and port.
fn read_form(bytes: &[u8; 64]) -> Option<Update>
    requires { slice_index bytes.now 0 ≡ 5 }
    ensures { result ≡ if_spelled bytes.now (Some (Form (slice_index bytes.now 1) (record { items = members_from bytes.now }) (number_from (slice_range bytes.now 3 5)) (number_from (slice_range bytes.now 5 7)))) }
{
    if bytes[2] > MOST_MEMBERS {
        return None;
    }
    let named = 7 + 2 * usize::from(bytes[2]);
    if !is_zero_from(bytes, named) {
        return None;
    }
    Some(Update::Form {
        vid: bytes[1],
        members: read_members(bytes),
        ts: number_at(bytes, 3),
        tr: number_at(bytes, 5),
    })
}

/// The processors of the pairs from byte 7 on, as many as byte 2 says.
fn read_members(bytes: &[u8; 64]) -> Row<Proc, 4>
    requires { slice_index bytes.now 2 ≤ 4 }
    ensures { result.items ≡ members_from bytes.now }
{
    let mut members = Row::new();
    for i in 0..usize::from(bytes[2]) {
        members.push(Proc {
            ne: bytes[7 + 2 * i],
            port: bytes[8 + 2 * i],
        });
    }
    members
}

/// The number that two bytes are, the higher one first.
fn number_at(bytes: &[u8; 64], at: usize) -> u16
    requires { at + 2 ≤ 64 }
    ensures { result ≡ number_from (slice_range bytes.now at (at + 2)) }
{
    BigEndian::read_u16(&bytes[at..at + 2])
}

/// Whether all bytes from a place on are 0.
fn is_zero_from(bytes: &[u8; 64], start: usize) -> bool
    ensures { result ≡ all_zero (drop start bytes.now) }
{
    bytes.iter().skip(start).all(|byte| *byte == 0)
}
