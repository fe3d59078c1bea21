//! The lines after the pattern of one cycle, before a request is chosen.

ghost use Rattle.std.specs.Prelude.{◌≡◌, ◌<◌, ◌≤◌, ◌+◌, ◌&&◌, ◌||◌, ℕ, Some, map, true, option_copied, slice_index, if◌then◌else◌};
ghost use Rattle.config_table.specs.Bounds.{IsBounded};
ghost use Rattle.scoreboard.specs.Board.{Waiting, line_of, lacks_space, waiting_since, request_after, says_full, lags_after, line_after, marked};
ghost use Rattle.scoreboard.specs.Steps.{ascend};
ghost use Rattle.scoreboard.specs.Times.{IsBefore, AreBefore, line_number};

use crate::lookups::{blank_line, groups_in, lags_near, request_near};
use crate::votes::CycleFlags;
use config_table::{Group, GroupFlags, StateRow, Table};
use ftpp_base::{MOST_CYCLES, MOST_GROUPS, Row};
use packet_format::Descriptor;

/// A request with its since and starved.
pub(crate) type Waiting = (Descriptor, u32, u32);

/// Whether the request is of class 1 or 2 to a group that has no most space.
fn lacks_space(flags: &CycleFlags<'_>, desc: &Descriptor) -> bool
    ensures { result ≡ lacks_space flags.now desc.now }
{
    if desc.class == 1 || desc.class == 2 {
        match flags.named(desc.dest) {
            Some(one) => !one.most_space,
            None => false,
        }
    } else {
        false
    }
}

/// A voted request as it waits from now on. It goes on waiting where it is the one that waited.
fn waiting_since(starves: bool, now: u32, desc: &Descriptor, before: Option<Waiting>) -> Waiting
    requires { (w : Waiting) → before ≡ Some w → w.2 < MOST_CYCLES }
    ensures { result ≡ waiting_since starves now desc.now before }
{
    match before {
        Some((old, since, starved)) if old == *desc => {
            (*desc, since, if starves { starved + 1 } else { 0 })
        }
        _ => (*desc, now, if starves { 1 } else { 0 }),
    }
}

/// The request of a group after one pattern: gone without a voted request. Its line should stand at that place.
fn request_after(
    flags: &CycleFlags<'_>,
    now: u32,
    lines: &[StateRow],
    place: usize,
    vid: u8,
    desc: Option<Descriptor>,
) -> Option<Waiting>
    requires small { (w : Waiting) → (line_of lines.now vid).request ≡ Some w → w.2 < MOST_CYCLES }
    requires order { ascend 0 (map line_number lines.now) ≡ true }
    ensures { result ≡ request_after flags.now now (line_of lines.now vid).request desc }
{
    match desc {
        Some(desc) => {
            let starves = lacks_space(flags, &desc);
            let before = request_near(lines, place, vid);
            Some(waiting_since(starves, now, &desc, before))
        }
        None => None,
    }
}

/// Whether the member of that index is live and says full.
fn says_full(group: &Group, one: &GroupFlags, index: u8) -> bool
    requires { IsBounded 5 group.now }
    ensures { result ≡ says_full group.now one.now index }
{
    if group.is_live(index) {
        match group.members.as_slice().get(usize::from(index)) {
            Some(member) => !one.space.has(member.ne),
            None => false,
        }
    } else {
        false
    }
}

/// Whether a group has most space while some member is live and says full.
fn some_lag(group: &Group, one: &GroupFlags) -> bool
    requires { IsBounded 5 group.now }
    ensures { result ≡ (one.now.most_space && (says_full group.now one.now 0 || says_full group.now one.now 1 || says_full group.now one.now 2 || says_full group.now one.now 3)) }
{
    one.most_space
        && (says_full(group, one, 0)
            || says_full(group, one, 1)
            || says_full(group, one, 2)
            || says_full(group, one, 3))
}

/// The lag of a member after one pattern: it rises where the member says full while its group has most space.
fn lag_after(group: &Group, one: &GroupFlags, lag: u32, index: u8) -> u32
    requires bounded { IsBounded 5 group.now }
    requires small { lag < MOST_CYCLES }
    ensures { result ≡ (if one.now.most_space && says_full group.now one.now index then lag + 1 else 0) }
{
    if one.most_space && says_full(group, one, index) {
        lag + 1
    } else {
        0
    }
}

/// The lags of a group's members after one pattern. Its line should stand at that place.
fn lags_after(group: &Group, one: &GroupFlags, lines: &[StateRow], place: usize) -> [u32; 4]
    requires bounded { IsBounded 5 group.now }
    requires small { (index : ℕ) → slice_index (line_of lines.now group.now.vid).lags index < MOST_CYCLES }
    requires order { ascend 0 (map line_number lines.now) ≡ true }
    ensures { result ≡ lags_after group.now one.now (line_of lines.now group.now.vid).lags }
{
    if some_lag(group, one) {
        let lags = lags_near(lines, place, group.vid);
        [
            lag_after(group, one, lags[0], 0),
            lag_after(group, one, lags[1], 1),
            lag_after(group, one, lags[2], 2),
            lag_after(group, one, lags[3], 3),
        ]
    } else {
        [0; 4]
    }
}

/// A group's line after one pattern. Its line before should stand at that place.
fn line_after(
    flags: &CycleFlags<'_>,
    now: u32,
    group: &Group,
    lines: &[StateRow],
    place: usize,
    one: Option<&GroupFlags>,
) -> StateRow
    requires cycle { now < MOST_CYCLES }
    requires bounded { IsBounded 5 group.now }
    requires earlier { IsBefore now (line_of lines.now group.now.vid) }
    requires order { ascend 0 (map line_number lines.now) ≡ true }
    ensures { result ≡ line_after flags.now now group.now (line_of lines.now group.now.vid) (option_copied one.entry) }
{
    match one {
        Some(one) => StateRow {
            vid: group.vid,
            request: request_after(flags, now, lines, place, group.vid, one.desc),
            lags: lags_after(group, one, lines, place),
        },
        None => blank_line(group.vid),
    }
}

/// Writes the lines of a table's groups after one pattern.
#[tactic(auto, unfolding(crate::specs::Board::marked))]
pub(crate) fn mark_all(
    table: &Table,
    flags: &CycleFlags<'_>,
    now: u32,
    lines: &[StateRow],
    after: &mut Row<StateRow, MOST_GROUPS>,
)
    requires cycle { now < MOST_CYCLES }
    requires earlier { AreBefore now lines.now }
    requires order { ascend 0 (map line_number lines.now) ≡ true }
    ensures lines { after.new.items ≡ marked table.now flags.now now lines.now }
    ensures order { ascend 0 (map line_number after.new.items) ≡ true }
{
    after.clear();
    for (place, group) in groups_in(table).iter().enumerate() {
        let one = flags.near(place, group.vid);
        after.push(line_after(flags, now, group, lines, place, one));
    }
}
