//! Which requests may be chosen.

ghost use Rattle.std.specs.Prelude.{◌≡◌, ◌≤◌, ◌<◌, ◌+◌, ℕ, true, false, map, Some, is_some, is_none, IfSome};
ghost use Rattle.ftpp_base.specs.Vids.{has_vid};
ghost use Rattle.sender_choice.specs.Sinces.{nothing_held};
ghost use Rattle.sender_choice.specs.Pairs.{sinces_of};
ghost use Rattle.config_table.specs.Bounds.{IsBounded};
ghost use Rattle.config_table.specs.Table.{IsValid, group_named};
ghost use Rattle.scoreboard.specs.Board.{line_of};
ghost use Rattle.scoreboard.specs.Choice.{where_true, reason, takes_at, all_take, is_granted, is_ready};
ghost use Rattle.scoreboard.specs.Steps.{request_from, is_late, can_end, may_be_chosen, is_choosable, sinces_in, ascend};
ghost use Rattle.scoreboard.specs.Times.{AreBefore, line_number};

use crate::lookups::{blank_line, group_near, groups_in, line_near, place_of, request_near};
use crate::marks::Waiting;
use crate::votes::CycleFlags;
use config_table::{Group, GroupFlags, StateRow, Table};
use ftpp_base::{Proc, VidSet};
use packet_format::Descriptor;
use sender_choice::{Chooser, IndexChooser};

/// Why a request is unlawful, 1 to 5, the first reason that holds. Its destination should stand at that place.
#[tactic(auto, unfolding(crate::specs::Choice::reason))]
pub(crate) fn reason(table: &Table, sender: &Group, desc: &Descriptor, place: usize) -> Option<u8>
    ensures { result ≡ reason table.now sender.now desc.now }
{
    match desc.class {
        1 => no_group(table, desc, place),
        2 => match no_group(table, desc, place) {
            Some(number) => Some(number),
            None if !sender.is_live(desc.source) => Some(3),
            None => None,
        },
        3 if sender.vid != table.manager() => Some(4),
        3 if desc.dest != 0 => Some(5),
        3 => None,
        _ => Some(1),
    }
}

/// The reason of a request to a number that names no group.
fn no_group(table: &Table, desc: &Descriptor, place: usize) -> Option<u8>
    ensures { result ≡ where_true (is_none (group_named table.now desc.now.dest)) 2 }
{
    match group_near(table, place, desc.dest) {
        Some(_) => None,
        None => Some(2),
    }
}

/// Whether a live member says not full or lags by more than its group's timeout. The line is that of the group.
fn takes_at(group: &Group, one: &GroupFlags, line: &StateRow, index: u8, member: &Proc) -> bool
    requires place { index < 4 }
    requires ne { member.now.ne < 8 }
    ensures { result ≡ takes_at group.now one.now line.now (index, member.now) }
{
    one.space.has(member.ne) || line.lags[usize::from(index)] > u32::from(group.tr)
}

/// Whether each live member of a group, whose line this is, says not full or lags by more than the timeout.
fn all_take(group: &Group, one: &GroupFlags, line: &StateRow) -> bool
    requires { IsBounded 5 group.now }
    ensures { result ≡ all_take group.now one.now line.now }
{
    let members = group.members.as_slice();
    for (seat, member) in members.iter().enumerate() {
        let index = seat as u8;
        if group.is_live(index) && !takes_at(group, one, line, index, member) {
            return false;
        }
    }
    true
}

/// The same of a group whose line, that of number `vid`, should stand at that place.
fn all_take_near(group: &Group, one: &GroupFlags, lines: &[StateRow], place: usize, vid: u8) -> bool
    requires bounded { IsBounded 5 group.now }
    requires order { ascend 0 (map line_number lines.now) ≡ true }
    ensures { result ≡ all_take group.now one.now (line_of lines.now vid) }
{
    match line_near(lines, place, vid) {
        Some(line) => all_take(group, one, line),
        None => all_take(group, one, &blank_line(vid)),
    }
}

/// Whether the group of that number, which should stand at that place, takes a packet now.
fn is_granted(
    table: &Table,
    flags: &CycleFlags<'_>,
    lines: &[StateRow],
    place: usize,
    vid: u8,
) -> bool
    requires { ascend 0 (map line_number lines.now) ≡ true }
    ensures { result ≡ is_granted table.now flags.now lines.now vid }
{
    match (group_near(table, place, vid), flags.near(place, vid)) {
        (Some(group), Some(one)) => one.most_space && all_take_near(group, one, lines, place, vid),
        _ => false,
    }
}

/// Whether a request has waited too long for a group that has no most space. The group should stand at that place.
pub(crate) fn is_expired(table: &Table, desc: &Descriptor, starved: u32, place: usize) -> bool
    ensures { result ≡ is_late (group_named table.now desc.now.dest) starved }
{
    match group_near(table, place, desc.dest) {
        Some(group) => group.tx > 0 && starved > u32::from(group.tx),
        None => false,
    }
}

/// Whether all live members hold the request, or the timeout of the sender has passed.
fn is_ready(now: u32, sender: &Group, one: &GroupFlags, waiting: &Waiting) -> bool
    requires { waiting.now.1 ≤ now }
    ensures { result ≡ is_ready now (request_from sender.now one.now waiting.now) }
{
    one.unanimous || now - waiting.1 >= u32::from(sender.ts)
}

/// Whether a ready request can be served or discarded.
fn can_end(
    table: &Table,
    flags: &CycleFlags<'_>,
    lines: &[StateRow],
    sender: &Group,
    waiting: &Waiting,
) -> bool
    requires { ascend 0 (map line_number lines.now) ≡ true }
    ensures { (one : _) → result ≡ can_end table.now flags.now lines.now (request_from sender.now one waiting.now) }
{
    let (desc, _, starved) = waiting;
    let place = place_of(table, desc.dest);
    reason(table, sender, desc, place).is_some()
        || desc.class == 3
        || is_granted(table, flags, lines, place, desc.dest)
        || is_expired(table, desc, *starved, place)
}

/// Since when the request of a group waits, if it may be chosen.
#[tactic(auto, unfolding(crate::specs::Choice::is_eligible))]
fn choosable_since(
    table: &Table,
    flags: &CycleFlags<'_>,
    now: u32,
    lines: &[StateRow],
    place: usize,
    group: &Group,
) -> Option<u32>
    requires earlier { AreBefore (now + 1) lines.now }
    requires order { ascend 0 (map line_number lines.now) ≡ true }
    ensures chosen { is_some result ≡ may_be_chosen table.now flags.now now lines.now group.now }
    ensures since { IfSome result (λ since. sinces_in lines.now group.now.vid ≡ Some since) }
{
    let waiting = request_near(lines, place, group.vid)?;
    let one = flags.near(place, group.vid)?;
    if is_ready(now, group, one, &waiting) && can_end(table, flags, lines, group, &waiting) {
        Some(waiting.1)
    } else {
        None
    }
}

/// Puts the groups whose requests may be chosen into the set, and since when these wait into the chooser.
pub(crate) fn put_choosable(
    table: &Table,
    flags: &CycleFlags<'_>,
    now: u32,
    lines: &[StateRow],
    eligible: &mut VidSet,
    chooser: &mut IndexChooser,
)
    requires earlier { AreBefore (now + 1) lines.now }
    requires order { ascend 0 (map line_number lines.now) ≡ true }
    requires none { (vid : ℕ) → has_vid eligible.old vid ≡ false }
    requires empty { sinces_of chooser.old ≡ nothing_held }
    ensures eligible { (vid : ℕ) → has_vid eligible.new vid ≡ is_choosable table.now flags.now now lines.now vid }
    ensures held { (vid : ℕ) → has_vid eligible.new vid ≡ true → sinces_of chooser.new vid ≡ sinces_in lines.now vid }
    ensures valid { IsValid table.now }
{
    for (place, group) in groups_in(table).iter().enumerate() {
        match choosable_since(table, flags, now, lines, place, group) {
            Some(since) => {
                eligible.put(group.vid);
                chooser.set(group.vid, since);
            }
            None => {}
        }
    }
}
