//! The line of a group, the flags of a group, and a group itself. Where it is known at what place one should stand,
//! that place is looked at first.

ghost use Rattle.std.specs.Prelude.{◌≡◌, ◌≤◌, ◌<◌, length, find, map, take_while, true, All, IfSome, option_copied};
ghost use Rattle.config_table.specs.Bounds.{IsBounded};
ghost use Rattle.config_table.specs.Table.{IsValid, group_named};
ghost use Rattle.scoreboard.specs.Board.{blank_line, is_line_of, line_of};
ghost use Rattle.scoreboard.specs.Steps.{ascend, is_other_group};
ghost use Rattle.scoreboard.specs.Times.{line_number};

use crate::marks::Waiting;
use config_table::{Group, StateRow, Table};
use ftpp_base::MOST_GROUPS;

/// The line of a group without a request.
pub(crate) fn blank_line(vid: u8) -> StateRow
    ensures { result ≡ blank_line vid }
{
    StateRow {
        vid,
        request: None,
        lags: [0; 4],
    }
}

/// The line of that number, if there is one.
fn line_named(lines: &[StateRow], vid: u8) -> Option<&StateRow>
    ensures { option_copied result ≡ find (is_line_of vid) lines.now }
{
    lines.iter().find(|line| line.vid == vid)
}

/// The line of a group, blank where it has none.
pub(crate) fn line_of(lines: &[StateRow], vid: u8) -> StateRow
    ensures { result ≡ line_of lines.now vid }
{
    match line_named(lines, vid) {
        Some(line) => *line,
        None => blank_line(vid),
    }
}

/// The line of that number, in lines whose numbers ascend. It should stand at that place.
pub(crate) fn line_near(lines: &[StateRow], place: usize, vid: u8) -> Option<&StateRow>
    requires { ascend 0 (map line_number lines.now) ≡ true }
    ensures { option_copied result ≡ find (is_line_of vid) lines.now }
{
    match lines.get(place) {
        Some(line) if line.vid == vid => Some(line),
        _ => line_far(lines, vid),
    }
}

/// The same, where it stands elsewhere.
#[cold]
#[inline(never)]
fn line_far(lines: &[StateRow], vid: u8) -> Option<&StateRow>
    ensures { option_copied result ≡ find (is_line_of vid) lines.now }
{
    line_named(lines, vid)
}

/// The request of a group, whose line should stand at that place.
pub(crate) fn request_near(lines: &[StateRow], place: usize, vid: u8) -> Option<Waiting>
    requires { ascend 0 (map line_number lines.now) ≡ true }
    ensures { result ≡ (line_of lines.now vid).request }
{
    match line_near(lines, place, vid) {
        Some(line) => line.request,
        None => None,
    }
}

/// The lags of a group, whose line should stand at that place.
pub(crate) fn lags_near(lines: &[StateRow], place: usize, vid: u8) -> [u32; 4]
    requires { ascend 0 (map line_number lines.now) ≡ true }
    ensures { result ≡ (line_of lines.now vid).lags }
{
    match line_near(lines, place, vid) {
        Some(line) => line.lags,
        None => [0; 4],
    }
}

/// The groups of a table, with members at five elements at most.
pub(crate) fn groups_in(table: &Table) -> &[Group]
    ensures groups { result.now ≡ table.now.groups }
    ensures bounded { All (IsBounded 5) result.now }
    ensures few { length result.now ≤ MOST_GROUPS }
    ensures valid { IsValid table.now }
{
    table.groups()
}

/// The group of that number, with members at five elements at most. It is searched for, which `group_near` seldom needs.
#[cold]
#[inline(never)]
fn group_in(table: &Table, vid: u8) -> Option<&Group>
    ensures group { option_copied result ≡ group_named table.now vid }
    ensures bounded { IfSome result (λ group. IsBounded 5 group.now) }
{
    table.group(vid)
}

/// The same, which should stand at that place.
pub(crate) fn group_near(table: &Table, place: usize, vid: u8) -> Option<&Group>
    ensures group { option_copied result ≡ group_named table.now vid }
    ensures bounded { IfSome result (λ group. IsBounded 5 group.now) }
{
    match groups_in(table).get(place) {
        Some(group) if group.vid == vid => Some(group),
        _ => group_in(table, vid),
    }
}

/// The place of the group of that number in the table, past its end where there is none.
pub(crate) fn place_of(table: &Table, vid: u8) -> usize
    ensures { result ≡ length (take_while (is_other_group vid) table.now.groups) }
{
    groups_in(table)
        .iter()
        .take_while(|group| group.vid != vid)
        .count()
}
