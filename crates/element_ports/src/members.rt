//! The live member of a group that stands at one element.

ghost use Rattle.std.specs.Prelude.{◌≡◌, ◌<◌, ◌≤◌, length, All, IfSome};
ghost use Rattle.config_table.specs.Members.{admitted_members, live_in, member_at, receivers, senders};

use config_table::{Service, Table};
use ftpp_base::{Ne, Proc, Set8};

/// The first of a group's members that stands at the element and is not masked.
fn live_at(masked: &Set8, members: &[Proc], ne: u8) -> Option<Proc>
    requires few { length members.now ≤ 4 }
    requires ports { All (λ proc. proc.port < 8) members.now }
    ensures member { result ≡ member_at (live_in masked.now members.now) ne }
    ensures there { IfSome result (λ proc. (proc.ne ≡ ne) × (proc.port < 8)) }
{
    for (i, proc) in members.iter().enumerate() {
        let is_masked = masked.has(i as u8);
        if !is_masked && proc.ne == ne {
            return Some(*proc);
        }
    }
    None
}

/// The live member of a group at an element.
pub(crate) fn sender_at(table: &Table, vid: u8, ne: Ne) -> Option<Proc>
    ensures member { result ≡ member_at (senders table.now vid) ne }
    ensures there { IfSome result (λ proc. (proc.ne ≡ ne) × (proc.port < 8)) }
{
    match table.group(vid) {
        Some(group) => live_at(&group.masked, group.members.as_slice(), ne.byte()),
        None => None,
    }
}

/// The same, if it is admitted.
pub(crate) fn admitted_at(table: &Table, vid: u8, admitted: Set8, ne: Ne) -> Option<Proc>
    ensures member { result ≡ member_at (admitted_members table.now vid admitted) ne }
    ensures there { IfSome result (λ proc. (proc.ne ≡ ne) × (proc.port < 8)) }
{
    if admitted.has(ne.byte()) {
        sender_at(table, vid, ne)
    } else {
        None
    }
}

/// The processor at an element that an exchange delivers to.
pub(crate) fn receiver_at(table: &Table, service: &Service, ne: Ne) -> Option<Proc>
    ensures member { result ≡ member_at (receivers table.now service.now) ne }
    ensures there { IfSome result (λ proc. (proc.ne ≡ ne) × (proc.port < 8)) }
{
    match service.desc.class {
        1 | 2 => sender_at(table, service.desc.dest, ne),
        _ => None,
    }
}
