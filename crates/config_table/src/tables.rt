//! Tables of groups.

ghost use Rattle.std.specs.Prelude.{◌≡◌, ◌≤◌, ◌<◌, ◌⊎◌, ◌↔◌, length, All, Some, None, MatchResult, IfOk, IfSome, IsTrue, option_copied};
ghost use Rattle.config_table.specs.Bounds.{IsBounded};
ghost use Rattle.config_table.specs.Table.{table_error, IsValid, group_named, group_with, in_limit, out_limit, seat_with};

use crate::{ConfigError, Group, MOST_SLOTS, USUAL_INS, USUAL_OUTS, checks, lookups};
use ftpp_base::{MOST_GROUPS, Proc, Row};
use std::marker::Model;

/// A valid table: the number of elements, the group that may update the table, and the groups by ascending number.
#[derive(Drop)]
pub struct Table {
    n: u8,
    manager: u8,
    groups: Row<Group, MOST_GROUPS>,
}

impl Model for Table {
    ghost use Rattle.config_table.specs.Table.{TableValue, IsValid};

    ghost Value = { TableValue };

    ghost view = { λ t. record { n = t.n; manager = t.manager; groups = t.groups.items } };

    ghost invariant = { λ t. IsValid (record { n = t.n; manager = t.manager; groups = t.groups.items }) };
}

impl Table {
    /// The table of these parts, or the first clause of a valid table that they break.
    pub fn new(n: u8, manager: u8, groups: &[Group]) -> Result<Table, ConfigError>
        ensures table { IfOk result (λ t. t ≡ record { n = n; manager = manager; groups = groups.now }) }
        ensures error { MatchResult result (λ _. table_error (record { n = n; manager = manager; groups = groups.now }) ≡ None) (λ e. table_error (record { n = n; manager = manager; groups = groups.now }) ≡ Some e) }
    {
        match checks::table_error(n, manager, groups) {
            Some(error) => Err(error),
            None => Ok(Table {
                n,
                manager,
                groups: copied(groups),
            }),
        }
    }

    /// The same table again.
    pub fn copy(&self) -> Table
        ensures same { result ≡ self.now }
        ensures valid { IsValid self.now }
    {
        Table {
            n: self.n,
            manager: self.manager,
            groups: copied(self.groups.as_slice()),
        }
    }

    /// The number of elements.
    pub fn n(&self) -> u8
        ensures n { result ≡ self.now.n }
        ensures size { (result ≡ 4) ⊎ (result ≡ 5) }
        ensures valid { IsValid self.now }
    {
        self.n
    }

    /// The number of the group that may update the table.
    pub fn manager(&self) -> u8
        ensures { result ≡ self.now.manager }
    {
        self.manager
    }

    /// The groups by ascending number.
    pub fn groups(&self) -> &[Group]
        ensures groups { result.now ≡ self.now.groups }
        ensures some { 1 ≤ length result.now }
        ensures few { length result.now ≤ MOST_GROUPS }
        ensures bounded { All (IsBounded self.now.n) result.now }
        ensures valid { IsValid self.now }
    {
        self.groups.as_slice()
    }

    /// The group of that number.
    pub fn group(&self, vid: u8) -> Option<&Group>
        ensures group { option_copied result ≡ group_named self.now vid }
        ensures bounded { IfSome result (λ g. IsBounded self.now.n g.now) }
        ensures valid { IsValid self.now }
    {
        lookups::named(self.groups.as_slice(), vid)
    }

    /// The number of the group of a processor, and its index there.
    pub fn group_of(&self, proc: Proc) -> Option<(u8, u8)>
        ensures seat { result ≡ seat_with self.now.groups proc }
        ensures below { IfSome result (λ seat. seat.1 < 4) }
        ensures valid { IsValid self.now }
    {
        lookups::seat_of(self.groups.as_slice(), proc)
    }

    /// How many packets the output and the input of a processor hold: the limits of its group, and the usual ones where it
    /// is in none.
    pub fn limits(&self, proc: Proc) -> (u8, u8)
        ensures limits { result ≡ (out_limit self.now proc, in_limit self.now proc) }
        ensures low { (1 ≤ result.0) × (1 ≤ result.1) }
        ensures high { (result.0 ≤ MOST_SLOTS) × (result.1 ≤ MOST_SLOTS) }
    {
        match self.group_with(proc) {
            Some(group) => (group.outs, group.ins),
            None => (USUAL_OUTS, USUAL_INS),
        }
    }

    /// The group of a processor.
    fn group_with(&self, proc: Proc) -> Option<&Group>
        ensures group { option_copied result ≡ group_with self.now proc }
        ensures bounded { IfSome result (λ g. IsBounded self.now.n g.now) }
    {
        lookups::with_member(self.groups.as_slice(), proc)
    }

    /// Whether the tables are equal.
    pub fn same_table(&self, other: &Table) -> bool
        ensures { IsTrue result ↔ (self.now ≡ other.now) }
    {
        self.n == other.n && self.manager == other.manager && self.groups == other.groups
    }
}

/// The groups as a row.
fn copied(groups: &[Group]) -> Row<Group, MOST_GROUPS>
    requires { length groups.now ≤ MOST_GROUPS }
    ensures { result.items ≡ groups.now }
{
    let mut row: Row<Group, MOST_GROUPS> = Row::new();
    for g in groups {
        row.push(g.copy());
    }
    row
}
