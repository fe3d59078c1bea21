//! Applies an update to a table.

ghost use Rattle.std.specs.Prelude.{◌≡◌, ◌<◌, ◌≤◌, length, true, None, Some, MatchOption};
ghost use Rattle.config_table.specs.Table.{IsValid, group_named};
ghost use Rattle.table_update.specs.Updates.{formed, has_member, all_members, member_of_index, ports_to_clear, updated, applied, table_after};

use crate::changes::{Groups, changed, with_formed, without};
use crate::{Applied, Update};
use config_table::{Group, Table};
use ftpp_base::{Proc, Row, Set8};

/// Applies an update to a table. Absent exactly where the update names a group that is not there or a member that its
/// group does not have; Refused exactly where the table would break a clause, with the first one: then the table is as
/// before. Done has the ports to clear: for Admit the member's, for Dissolve and Form those of all members.
pub fn apply(table: &mut Table, update: &Update) -> Applied
    ensures answer { result ≡ applied table.old update.now }
    ensures table { table.new ≡ table_after table.old update.now }
    ensures valid { IsValid table.old }
{
    let (n, manager) = (table.n(), table.manager());
    let Some(groups) = updated_groups(table, update) else {
        return Applied::Absent;
    };
    match Table::new(n, manager, groups.as_slice()) {
        Err(error) => Applied::Refused(error),
        Ok(new) => {
            let ports = ports_to_clear(table, update);
            *table = new;
            Applied::Done(ports)
        }
    }
}

/// The groups that an update gives, and None where what it names is not there.
#[tactic(auto, unfolding(crate::specs::Updates::updated))]
fn updated_groups(table: &Table, update: &Update) -> Option<Groups>
    ensures { MatchOption result (updated table.now update.now ≡ None) (λ groups. updated table.now update.now ≡ Some (record table.now { groups = groups.items })) }
{
    let groups = table.groups();
    match update {
        Update::Mask { vid, member } | Update::Admit { vid, member } => {
            if has_member(table, *vid, *member) {
                Some(changed(groups, *vid, update))
            } else {
                None
            }
        }
        Update::Timeouts { vid, .. } => {
            if table.group(*vid).is_some() {
                Some(changed(groups, *vid, update))
            } else {
                None
            }
        }
        Update::Dissolve { vid } => {
            if table.group(*vid).is_some() {
                Some(without(groups, *vid))
            } else {
                None
            }
        }
        Update::Form {
            vid,
            members,
            ts,
            tr,
        } => Some(with_formed(groups, formed(*vid, members.as_slice(), *ts, *tr))),
    }
}

/// Whether the group is there and has a member of that index.
fn has_member(table: &Table, vid: u8, member: u8) -> bool
    ensures has { result ≡ has_member member (group_named table.now vid) }
    ensures index { result ≡ true → member < 4 }
{
    match table.group(vid) {
        Some(group) => usize::from(member) < group.members.len(),
        None => false,
    }
}

/// A group as it is formed: no member masked, no expiry, usual limits.
fn formed(vid: u8, members: &[Proc], ts: u16, tr: u16) -> Group
    requires { length members.now ≤ 4 }
    ensures { result ≡ formed vid (record { items = members.now }) ts tr }
{
    Group {
        vid,
        members: row_of(members),
        masked: Set8 { bits: 0 },
        ts,
        tr,
        tx: 0,
        outs: 16,
        ins: 32,
    }
}

/// The ports that an update clears.
fn ports_to_clear(table: &Table, update: &Update) -> Row<Proc, 4>
    ensures { result.items ≡ ports_to_clear table.now update.now }
{
    match update {
        Update::Mask { .. } | Update::Timeouts { .. } => Row::new(),
        Update::Admit { vid, member } => row_of(member_at(members_of(table, *vid), *member)),
        Update::Dissolve { vid } => row_of(members_of(table, *vid)),
        Update::Form { members, .. } => row_of(members.as_slice()),
    }
}

/// The members of a group, and none where it is not there.
fn members_of(table: &Table, vid: u8) -> &[Proc]
    ensures members { result.now ≡ all_members (group_named table.now vid) }
    ensures few { length result.now ≤ 4 }
{
    match table.group(vid) {
        Some(group) => group.members.as_slice(),
        None => &[],
    }
}

/// The member of an index, if there is one.
fn member_at(members: &[Proc], index: u8) -> &[Proc]
    ensures member { result.now ≡ member_of_index index members.now }
    ensures few { length result.now ≤ 1 }
{
    let index = usize::from(index);
    if index < members.len() {
        &members[index..index + 1]
    } else {
        &[]
    }
}

/// Some processors as a row.
fn row_of(procs: &[Proc]) -> Row<Proc, 4>
    requires { length procs.now ≤ 4 }
    ensures { result.items ≡ procs.now }
{
    let mut row = Row::new();
    row.try_extend_from_slice(procs).unwrap();
    row
}
