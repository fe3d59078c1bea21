//! The groups of a table after an update: one of them is changed, gone or new.

ghost use Rattle.std.specs.Prelude.{◌≡◌, ◌+◌, ◌<◌, ◌≤◌, ◌++◌, length, insert, true, ◌==◌, if◌then◌else◌};
ghost use Rattle.arrayvec.specs.ArrayVec.{array_vec_len};
ghost use Rattle.ftpp_base.specs.Sets.{without_number};
ghost use Rattle.config_table.specs.declared.groups.Group.{Group};
ghost use Rattle.table_update.specs.Updates.{change_of, has_index, with_changed, without_group, with_formed};

use crate::Update;
use config_table::Group;
use ftpp_base::{MOST_GROUPS, Row, Set8};

/// Room for the 40 groups that a table can have, and for one more: a table with that one is refused.
pub(crate) const ROOM_FOR_GROUPS: usize = 41;

/// The groups of a table that is not checked yet.
pub(crate) type Groups = Row<Group, ROOM_FOR_GROUPS>;

/// The groups, the one of this number as the update changes it.
pub(crate) fn changed(groups: &[Group], vid: u8, update: &Update) -> Groups
    requires few { length groups.now ≤ MOST_GROUPS }
    requires index { has_index update.now ≡ true }
    ensures { result.items ≡ with_changed (change_of update.now) vid groups.now }
{
    let mut row = Groups::new();
    for group in groups {
        row.push(changed_if_named(group, vid, update));
    }
    row
}

/// A copy of a group, changed if it has this number.
fn changed_if_named(group: &Group, vid: u8, update: &Update) -> Group
    requires { has_index update.now ≡ true }
    ensures { result ≡ (if group.now.vid == vid then change_of update.now group.now else group.now) }
{
    if group.vid == vid {
        changed_group(group, update)
    } else {
        group.copy()
    }
}

/// A copy of a group with the change that the update names.
fn changed_group(group: &Group, update: &Update) -> Group
    requires { has_index update.now ≡ true }
    ensures { result ≡ change_of update.now group.now }
{
    let mut changed = group.copy();
    match update {
        Update::Mask { member, .. } => changed.masked = group.masked.with(*member),
        Update::Admit { member, .. } => changed.masked = without_bit(group.masked.bits, *member),
        Update::Timeouts { ts, tr, .. } => {
            changed.ts = *ts;
            changed.tr = *tr;
        }
        Update::Dissolve { .. } | Update::Form { .. } => {}
    }
    changed
}

/// The set of a byte without a number.
fn without_bit(bits: u8, i: u8) -> Set8
    requires { i < 8 }
    ensures { result ≡ without_number (record { bits = bits }) i }
{
    Set8 {
        bits: bits & !(1 << i),
    }
}

/// The groups without the one of this number.
pub(crate) fn without(groups: &[Group], vid: u8) -> Groups
    requires { length groups.now ≤ MOST_GROUPS }
    ensures { result.items ≡ without_group vid groups.now }
{
    let mut row = Groups::new();
    for group in groups {
        if group.vid != vid {
            row.push(group.copy());
        }
    }
    row
}

/// The groups with a new one before the first that has a greater number.
pub(crate) fn with_formed(groups: &[Group], new: Group) -> Groups
    requires { length groups.now ≤ MOST_GROUPS }
    ensures { result.items ≡ with_formed new groups.now }
{
    let (before, after) = groups.split_at(place_of(groups, &new));
    let mut row = Groups::new();
    push_copies(&mut row, before);
    row.push(new);
    push_copies(&mut row, after);
    row
}

/// How many groups come before a new one.
fn place_of(groups: &[Group], new: &Group) -> usize
    ensures within { result ≤ length groups.now }
    ensures place { with_formed new.now groups.now ≡ insert groups.now result new.now }
{
    for (i, group) in groups.iter().enumerate() {
        if new.vid < group.vid {
            return i;
        }
    }
    groups.len()
}

/// Appends copies of the groups.
fn push_copies(row: &mut Groups, groups: &[Group])
    requires { array_vec_len row.old + length groups.now ≤ ROOM_FOR_GROUPS }
    ensures { row.new.items ≡ row.old.items ++ groups.now }
{
    for group in groups {
        row.push(group.copy());
    }
}
