//! What is done with the chosen request.

ghost use Rattle.std.specs.Prelude.{◌≡◌, ◌≤◌, ◌+◌, All, true, map, option_map, unwrap_or, slice_get};
ghost use Rattle.config_table.specs.Bounds.{InRange, IsBounded};
ghost use Rattle.scoreboard.specs.Choice.{kind_of, discard_reason, done_with, decided, request_in};
ghost use Rattle.scoreboard.specs.Steps.{request_from, request_named, taken, ascend};
ghost use Rattle.scoreboard.specs.Times.{AreBefore, line_number};

use crate::choice::{is_expired, reason};
use crate::lookups::{group_near, place_of, request_near};
use crate::marks::Waiting;
use crate::votes::CycleFlags;
use config_table::{Decision, Group, GroupFlags, Kind, Service, StateRow, Table};
use ftpp_base::{MOST_ELEMENTS, Ne, Proc};
use packet_format::Descriptor;

/// The element of the member of that index, and element 0 where there is none.
fn element_of(members: &[Proc], index: u8) -> Ne
    requires { All (InRange 5) members.now }
    ensures { result ≡ unwrap_or (option_map (λ proc. proc.ne) (slice_get members.now index)) 0 }
{
    let number = match members.get(usize::from(index)) {
        Some(member) => member.ne,
        None => 0,
    };
    Ne::new(number, MOST_ELEMENTS).unwrap()
}

/// How a lawful request is carried.
#[tactic(auto, unfolding(crate::specs::Choice::kind_of))]
fn kind_of(sender: &Group, desc: &Descriptor) -> Kind
    requires { IsBounded 5 sender.now }
    ensures { result ≡ kind_of sender.now desc.now }
{
    if desc.class == 1 && sender.live_count() >= 3 {
        Kind::Voted
    } else if desc.class == 2 {
        Kind::Source(element_of(sender.members.as_slice(), desc.source))
    } else {
        Kind::Every
    }
}

/// Why a request is discarded, 1 to 6: it is unlawful, or else expired.
fn discard_reason(table: &Table, sender: &Group, waiting: &Waiting) -> Option<u8>
    ensures { (one : _) → result ≡ discard_reason table.now (request_from sender.now one waiting.now) }
{
    let (desc, _, starved) = waiting;
    let place = place_of(table, desc.dest);
    match reason(table, sender, desc, place) {
        Some(number) => Some(number),
        None if is_expired(table, desc, *starved, place) => Some(6),
        None => None,
    }
}

/// What is done with a chosen request.
fn done_with(
    table: &Table,
    now: u32,
    sender: &Group,
    one: &GroupFlags,
    waiting: &Waiting,
) -> Decision
    requires bounded { IsBounded 5 sender.now }
    requires since { waiting.now.1 ≤ now }
    ensures { let r = request_from sender.now one.now waiting.now in result ≡ done_with now r (discard_reason table.now r) }
{
    match discard_reason(table, sender, waiting) {
        Some(reason) => Decision::Discard {
            vid: sender.vid,
            desc: waiting.0,
            reason,
            admitted: one.holds,
            waited: now - waiting.1,
        },
        None => Decision::Exchange(Service {
            vid: sender.vid,
            desc: waiting.0,
            kind: kind_of(sender, &waiting.0),
            admitted: one.holds,
            waited: now - waiting.1,
        }),
    }
}

/// What is done with the request of a group, and nothing without one.
fn decided_for(
    table: &Table,
    flags: &CycleFlags<'_>,
    now: u32,
    lines: &[StateRow],
    place: usize,
    sender: &Group,
) -> Decision
    requires bounded { IsBounded 5 sender.now }
    requires earlier { AreBefore (now + 1) lines.now }
    requires order { ascend 0 (map line_number lines.now) ≡ true }
    ensures { result ≡ decided table.now now (request_in flags.now lines.now sender.now) }
{
    match (
        flags.near(place, sender.vid),
        request_near(lines, place, sender.vid),
    ) {
        (Some(one), Some(waiting)) => done_with(table, now, sender, one, &waiting),
        _ => Decision::Idle,
    }
}

/// What is done with the request of the group of that number.
pub(crate) fn decided(
    table: &Table,
    flags: &CycleFlags<'_>,
    now: u32,
    lines: &[StateRow],
    vid: u8,
) -> Decision
    requires earlier { AreBefore (now + 1) lines.now }
    requires order { ascend 0 (map line_number lines.now) ≡ true }
    ensures { result ≡ decided table.now now (request_named table.now flags.now lines.now vid) }
{
    let place = place_of(table, vid);
    match group_near(table, place, vid) {
        Some(sender) => decided_for(table, flags, now, lines, place, sender),
        None => Decision::Idle,
    }
}

/// The group whose request the decision takes.
pub(crate) fn taken(decision: &Decision) -> Option<u8>
    ensures { result ≡ taken decision.now }
{
    match decision {
        Decision::Idle => None,
        Decision::Discard { vid, .. } => Some(*vid),
        Decision::Exchange(service) => Some(service.vid),
    }
}
