ghost use Rattle.std.specs.Prelude.{◌≡◌, IfSome};

use bit_vote::Cells;
use config_table::{Group, Kind, Service, Table};
use data_exchange::*;
use ftpp_base::{Ne, Set8};
use packet_format::{Descriptor, Packet};
use std::test::Fail;
use two_round::TwoRound;

/// In place of the first byte of a row that is absent.
const NONE: u8 = 0xee;

/// The group with some members masked.
fn with_masked(mut group: Group, bits: u8) -> Group {
    group.masked = Set8 { bits };
    group
}

/// Four elements: a group of four and two of three, where the last member of group 2 is masked.
fn groups() -> [Group; 3] {
    [
        Group::usual(1, &[(0, 0), (1, 0), (2, 0), (3, 0)]),
        with_masked(Group::usual(2, &[(0, 1), (1, 1), (2, 1)]), 4),
        Group::usual(3, &[(1, 2), (2, 2), (3, 2)]),
    ]
}

fn table() -> Option<Table>
    ensures { IfSome result (λ t. t.n ≡ 4) }
{
    let table = Table::new(4, 1, &groups()).ok()?;
    if table.n() == 4 { Some(table) } else { None }
}

fn service(vid: u8, class: u8, kind: Kind, admitted: u8) -> Service
    ensures { result.kind ≡ kind }
{
    Service {
        vid,
        desc: Descriptor {
            dest: 0,
            class,
            source: 0,
        },
        kind,
        admitted: Set8 { bits: admitted },
        waited: 0,
    }
}

fn row(first: u8) -> Option<[u8; 64]> {
    let mut bytes = [0; 64];
    bytes[0] = first;
    Some(bytes)
}

fn packet(first: u8) -> Option<Packet> {
    row(first).map(|bytes| Packet { bytes })
}

/// The rows that begin with these bytes, by sender; none where it is `NONE`.
fn cells(firsts: [u8; 4]) -> Cells<4, 64> {
    let mut cells = Cells::absent();
    for sender in 0..4 {
        let first = firsts[sender];
        if first != NONE {
            cells.set(sender, row(first));
        }
    }
    cells
}

/// What a vote of copies of group 3 comes to; an update of the same exchange is taken from the results.
fn voted(
    table: &Table,
    admitted: u8,
    copies: [u8; 4],
    results: [u8; 4],
) -> (Option<Packet>, Option<Packet>, Option<Packet>)
    requires { table.now.n ≡ 4 }
{
    let three = service(3, 1, Kind::Voted, admitted);
    let copies = cells(copies);
    let results = cells(results);
    (
        one_round::<4>(table, &three, &copies),
        entry::<4>(table, &three, &copies, &results),
        members_result::<4>(table, &three, &results),
    )
}

#[test]
fn copies_of_three_members_are_voted(rt: HostRuntime) -> Result<(), Fail> {
    let table = table().ok_or("table")?;
    let none = [NONE; 4];
    let results = [NONE, 0x17, 0x17, NONE];
    for (admitted, copies, results, wanted) in [
        (
            0b1110,
            [NONE, 0xff, 0, 0xff],
            results,
            (packet(0xff), packet(0xff), packet(0x17)),
        ),
        (0b1110, [NONE, 0xff, NONE, NONE], none, (None, None, None)),
        (0, [NONE, 0xff, 0xff, NONE], none, (None, None, None)),
    ] {
        assert!(rt;
            voted(&table, admitted, copies, results) == wanted,
            "{admitted}"
        );
    }
    Ok(())
}

/// What element 0 holds, where the elements 0 and 1 send a row and every other element relays it.
fn heard(first: Option<[u8; 64]>, second: Option<[u8; 64]>) -> TwoRound<4, 64> {
    let mut x = TwoRound::new(Ne::at(0));
    x.first(first);
    let mut cells = Cells::absent();
    cells.set(0, first);
    cells.set(1, second);
    for k in 1..4 {
        let from = Ne::at(k);
        if from != x.me() {
            x.take_echo(from, cells);
        }
    }
    let one = Ne::at(1);
    if one != x.me() {
        x.take_first(one, second);
    }
    x
}

/// What an exchange of group 2 in two rounds comes to.
fn every(table: &Table, x: &TwoRound<4, 64>) -> (Option<Packet>, Option<Packet>, Option<Packet>)
    requires { table.now.n ≡ 4 }
{
    let two = service(2, 3, Kind::Every, 0b0011);
    let results = x.results();
    (
        every_member_result(table, &two, x),
        entry::<4>(table, &two, &Cells::absent(), &results),
        members_result::<4>(table, &two, &results),
    )
}

#[test]
fn results_of_two_members_are_voted(rt: HostRuntime) -> Result<(), Fail> {
    let table = table().ok_or("table")?;
    for (second, wanted) in [(row(0x55), packet(0x55)), (None, None)] {
        let x = heard(row(0x55), second);
        assert!(rt; every(&table, &x) == (wanted, wanted, wanted));
    }
    Ok(())
}

/// Whether a source contributes, and what its exchange comes to.
fn of_source(
    table: &Table,
    admitted: u8,
    x: &TwoRound<4, 64>,
) -> (bool, Option<Packet>, Option<Packet>)
    requires { table.now.n ≡ 4 }
{
    let one = Ne::at(1);
    let four = service(4, 2, Kind::Source(one), admitted);
    (
        contributes(&four, one),
        source_result(&four, x),
        entry::<4>(table, &four, &Cells::absent(), &x.results()),
    )
}

#[test]
fn result_of_a_source_is_its_own(rt: HostRuntime) -> Result<(), Fail> {
    let table = table().ok_or("table")?;
    let x = heard(row(0x0f), row(0x17));
    let wanted = (true, packet(0x17), packet(0x17));
    assert!(rt; of_source(&table, 0b0010, &x) == wanted);
    assert!(rt; of_source(&table, 0b0001, &x) == (false, None, None));
    Ok(())
}
