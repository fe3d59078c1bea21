//! The entry that an element makes of an exchange.

ghost use Rattle.std.specs.Prelude.{◌≡◌, ◌<◌, ◌≤◌, ℕ, length, map, All};
ghost use Rattle.ftpp_base.specs.Lists.{cell_at};
ghost use Rattle.bit_vote.specs.Vote.{Cell};
ghost use Rattle.two_round.specs.Echoes.{result_for};
ghost use Rattle.config_table.specs.Bounds.{InRange};
ghost use Rattle.config_table.specs.Table.{IsValid, TableValue};
ghost use Rattle.data_exchange.specs.Entries.{contribution, member_counts_as, members_vote, entry_by, packet_in, live_in, IsSourceAmong, IsSourceBelow, CountsAlike};

use crate::kinds::is_contributor;
use bit_vote::{Cells, vote_lanes};
use config_table::{Kind, Service, Table};
use ftpp_base::{Ne, Proc, Row, Set8};
use packet_format::Packet;
use two_round::TwoRound;

/// A row as a packet.
fn packet_in(cell: Option<[u8; 64]>) -> Option<Packet>
    ensures { result ≡ packet_in cell }
{
    match cell {
        Some(bytes) => Some(Packet { bytes }),
        None => None,
    }
}

/// What an element counts as: its value where it contributes, and none otherwise.
fn contribution<const N: usize>(
    service: &Service,
    ne: u8,
    values: &Cells<N, 64>,
) -> Option<[u8; 64]>
    requires among { ne < N }
    requires few { N ≤ 5 }
    ensures { result ≡ contribution service.now (cell_at values.now) ne }
{
    if is_contributor(service, ne) {
        values.get(usize::from(ne))
    } else {
        None
    }
}

/// What the live ones of a group's members count as, in the order of the table.
fn live_cells<const N: usize>(
    service: &Service,
    masked: &Set8,
    members: &[Proc],
    values: &Cells<N, 64>,
) -> Row<Option<[u8; 64]>, 4>
    requires few { N ≤ 5 }
    requires size { length members.now ≤ 4 }
    requires among { All (InRange N) members.now }
    ensures cells { result.items ≡ map (member_counts_as service.now (cell_at values.now)) (live_in masked.now members.now) }
    ensures few { length result.items ≤ 4 }
{
    let mut cells: Row<Option<[u8; 64]>, 4> = Row::new();
    for (i, proc) in members.iter().enumerate() {
        let is_masked = masked.has(i as u8);
        if !is_masked {
            cells.push(contribution(service, proc.ne, values));
        }
    }
    cells
}

/// The vote over the live members of the group that is served.
fn members_vote<const N: usize>(
    table: &Table,
    service: &Service,
    values: &Cells<N, 64>,
) -> Option<Packet>
    requires few { N ≤ 5 }
    requires elements { table.now.n ≡ N }
    ensures vote { result ≡ packet_in (members_vote table.now service.now (cell_at values.now)) }
    ensures valid { IsValid table.now }
{
    match table.group(service.vid) {
        Some(group) => {
            let cells = live_cells(service, &group.masked, group.members.as_slice(), values);
            packet_in(vote_lanes(cells.as_slice()))
        }
        None => None,
    }
}

/// The vote over the two-round results of the live members of the group that is served. Results of
/// elements that do not contribute do not count. It is what an update is taken from, whatever the
/// kind, and none exactly where at most half of these contribute a result that is present.
pub fn members_result<const N: usize>(
    table: &Table,
    service: &Service,
    results: &Cells<N, 64>,
) -> Option<Packet>
    requires few { N ≤ 5 }
    requires elements { table.now.n ≡ N }
    ensures { (value : ℕ → Cell) → CountsAlike N service.now value (cell_at results.now) → result ≡ packet_in (members_vote table.now service.now value) }
{
    members_vote(table, service, results)
}

/// The entry of an exchange, by its kind: over the copies, or over the two-round results. Results of
/// elements that do not contribute do not count.
pub fn entry<const N: usize>(
    table: &Table,
    service: &Service,
    copies: &Cells<N, 64>,
    results: &Cells<N, 64>,
) -> Option<Packet>
    requires few { N ≤ 5 }
    requires elements { table.now.n ≡ N }
    requires source { IsSourceAmong N service.now.kind }
    ensures { (value : ℕ → Cell) → CountsAlike N service.now value (cell_at results.now) → result ≡ packet_in (entry_by service.now.kind table.now service.now (cell_at copies.now) value) }
{
    match &service.kind {
        Kind::Voted => members_vote(table, service, copies),
        Kind::Source(source) => source_value(service, *source, results),
        Kind::Every => members_result(table, service, results),
    }
}

/// The result of one source, or none where it does not contribute.
fn source_value<const N: usize>(
    service: &Service,
    source: Ne,
    results: &Cells<N, 64>,
) -> Option<Packet>
    requires among { source < N }
    requires few { N ≤ 5 }
    ensures { result ≡ packet_in (contribution service.now (cell_at results.now) source) }
{
    packet_in(contribution(service, source.byte(), results))
}

/// The entry of an exchange of one round: the vote over the copies of the live members. It is none
/// exactly where at most half of these contribute a copy that is present.
pub fn one_round<const N: usize>(
    table: &Table,
    service: &Service,
    copies: &Cells<N, 64>,
) -> Option<Packet>
    requires few { N ≤ 5 }
    requires elements { table.now.n ≡ N }
    requires kind { service.now.kind ≡ Kind.Voted }
    ensures { (results : ℕ → Cell) → result ≡ packet_in (entry_by service.now.kind table.now service.now (cell_at copies.now) results) }
{
    members_vote(table, service, copies)
}

/// The entry of an exchange of one source: its two-round result, or none where it does not contribute.
pub fn source_result<const N: usize>(service: &Service, x: &TwoRound<N, 64>) -> Option<Packet>
    requires { IsSourceBelow N service.now.kind }
    ensures { (table : TableValue) (copies : ℕ → Cell) → result ≡ packet_in (entry_by service.now.kind table service.now copies (result_for x.now)) }
{
    match &service.kind {
        Kind::Source(source) => {
            let only = Set8::default().with(source.byte());
            source_value(service, *source, &x.results_of(only))
        }
        _ => None,
    }
}

/// The entry of an exchange of every member: the vote over the two-round results of the live members.
/// It is none exactly where at most half of these contribute one that is present.
pub fn every_member_result<const N: usize>(
    table: &Table,
    service: &Service,
    x: &TwoRound<N, 64>,
) -> Option<Packet>
    requires few { N ≤ 5 }
    requires elements { table.now.n ≡ N }
    requires kind { service.now.kind ≡ Kind.Every }
    ensures { (copies : ℕ → Cell) → result ≡ packet_in (entry_by service.now.kind table.now service.now copies (result_for x.now)) }
{
    members_result(table, service, &x.results_of(service.admitted))
}
