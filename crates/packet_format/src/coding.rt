//! A delivered packet as 71 bytes: cycle, sending group, class, destination group, packet.

ghost use Rattle.std.specs.Prelude.{◌≡◌, ◌≤◌, ◌↔◌, IsTrue, IsSome, IfSome, Some};
ghost use Rattle.packet_format.specs.declared.Delivered.{Delivered};
ghost use Rattle.packet_format.specs.Packets.{IsInRange, IsInGrammar, IsDelivered, delivered_bytes};

use crate::{Delivered, Packet};
use byteorder::{BigEndian, ByteOrder};

/// The 71 bytes of a delivered packet whose groups are 1 to 254 and whose class is 1 or 2.
pub fn encode_delivered(d: &Delivered) -> [u8; 71]
    requires { IsInRange d.now }
    ensures { result ≡ delivered_bytes d.now }
{
    let mut out = [0; 71];
    BigEndian::write_u32(&mut out, d.cycle);
    out[4] = d.from;
    out[5] = d.class;
    out[6] = d.dest;
    out[7..].copy_from_slice(&d.packet.bytes);
    out
}

/// Whether a group can have the number.
fn is_group(vid: u8) -> bool
    ensures { IsTrue result ↔ (1 ≤ vid) × (vid ≤ 254) }
{
    (1..=254).contains(&vid)
}

/// The delivered packet that the bytes spell. None where they are not 71 bytes, or where a group is
/// not 1 to 254 or the class not 1 or 2.
pub fn decode_delivered(bytes: &[u8]) -> Option<Delivered>
    ensures grammar { IsSome result ↔ IsInGrammar bytes.now }
    ensures found { IfSome result (IsDelivered bytes.now) }
    ensures only { (d : Delivered) → IsDelivered bytes.now d → result ≡ Some d }
{
    if bytes.len() != 71 {
        return None;
    }
    let cycle = BigEndian::read_u32(bytes);
    let (from, class, dest) = (bytes[4], bytes[5], bytes[6]);
    if !is_group(from) || !(1..=2).contains(&class) || !is_group(dest) {
        return None;
    }
    let mut packet = Packet { bytes: [0; 64] };
    packet.bytes.copy_from_slice(&bytes[7..]);
    Some(Delivered {
        cycle,
        from,
        class,
        dest,
        packet,
    })
}
