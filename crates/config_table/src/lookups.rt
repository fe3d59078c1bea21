//! Members and groups, looked up in the order of the table.

ghost use Rattle.std.specs.Prelude.{◌≡◌, ◌≤◌, ◌<◌, not, ◌==◌, length, find, filter, option_copied, IfSome};
ghost use Rattle.std.specs.List.{list_any, enumerate_from};
ghost use Rattle.ftpp_base.specs.Sets.{has};
ghost use Rattle.config_table.specs.Groups.{index_from, same_proc, is_member};
ghost use Rattle.config_table.specs.Table.{seat_with, is_named};

use crate::Group;
use ftpp_base::{Proc, Set8};

/// How many members are not masked.
pub(crate) fn unmasked(masked: &Set8, members: &[Proc]) -> u8
    requires { length members.now ≤ 4 }
    ensures count { result ≡ length (filter (λ seat. not (has masked.now seat.0)) (enumerate_from 0 members.now)) }
    ensures few { result ≤ 4 }
{
    let mut count = 0;
    for (i, _p) in members.iter().enumerate() {
        let is_masked = masked.has(i as u8);
        if !is_masked {
            count += 1;
        }
    }
    count
}

/// Whether a member stands at the element.
pub(crate) fn stands_at(members: &[Proc], ne: u8) -> bool
    ensures { result ≡ list_any (λ p. p.ne == ne) members.now }
{
    members.iter().any(|p| p.ne == ne)
}

/// Whether the processor is one of the members.
fn is_among(members: &[Proc], proc: Proc) -> bool
    ensures { result ≡ list_any (same_proc proc) members.now }
{
    members
        .iter()
        .any(|p| proc.ne == p.ne && proc.port == p.port)
}

/// Whether the processor is a member of one of the groups.
pub(crate) fn is_taken(groups: &[Group], proc: Proc) -> bool
    ensures { result ≡ list_any (λ h. is_member h proc) groups.now }
{
    groups.iter().any(|g| is_among(g.members.as_slice(), proc))
}

/// The group of that number.
pub(crate) fn named(groups: &[Group], vid: u8) -> Option<&Group>
    ensures { option_copied result ≡ find (is_named vid) groups.now }
{
    groups.iter().find(|g| g.vid == vid)
}

/// The group of a processor.
pub(crate) fn with_member(groups: &[Group], proc: Proc) -> Option<&Group>
    ensures { option_copied result ≡ find (λ g. is_member g proc) groups.now }
{
    groups.iter().find(|g| is_among(g.members.as_slice(), proc))
}

/// The index of a processor among the members.
fn index_of(members: &[Proc], proc: Proc) -> Option<u8>
    requires { length members.now ≤ 4 }
    ensures index { result ≡ index_from proc 0 members.now }
    ensures below { IfSome result (λ i. i < length members.now) }
{
    for (i, p) in members.iter().enumerate() {
        if proc.ne == p.ne && proc.port == p.port {
            return Some(i as u8);
        }
    }
    None
}

/// The number of the group of a processor, and its index there.
pub(crate) fn seat_of(groups: &[Group], proc: Proc) -> Option<(u8, u8)>
    ensures seat { result ≡ seat_with groups.now proc }
    ensures below { IfSome result (λ s. s.1 < 4) }
{
    for g in groups {
        match index_of(g.members.as_slice(), proc) {
            Some(index) => return Some((g.vid, index)),
            None => {}
        }
    }
    None
}
