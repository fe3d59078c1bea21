ghost use Rattle.std.specs.Prelude.{◌≡◌, ◌≢◌, ℕ, ◌<◌, ◌≤◌, ◌^◌, IfSome};
ghost use Rattle.ftpp_base.specs.Lists.{cell_at};
ghost use Rattle.two_round.specs.Echoes.{result_for};

use bit_vote::Cells;
use config_table::{Decision, Group, Kind, Service, Table};
use element_notes::*;
use ftpp_base::{Ne, Row, Set8};
use local_pattern::{Entry, LocalPattern, SystemPattern};
use packet_format::{Descriptor, Packet};
use std::test::Fail;
use syndrome_log::{Syndrome, SyndromeKind};
use two_round::TwoRound;

/// In place of the first byte of a row that is absent.
const NONE: u8 = 0xee;

/// No row is there.
const NO_ROWS: [[u8; 4]; 4] = [[NONE; 4]; 4];

/// Everyone's pattern begins with 02, and all hold and relay it.
const ALIKE: [[u8; 4]; 4] = [[2; 4]; 4];

/// A port that is empty and has room.
const ROOM: Entry = Entry {
    not_empty: false,
    not_full: true,
    desc: Descriptor {
        dest: 0,
        class: 0,
        source: 0,
    },
};

/// A cycle as one of four elements sees it, and what it notes. Rows are given by their first byte,
/// by the element that holds and relays them, and by sender.
#[derive(Drop)]
struct Case {
    name: &'static str,
    me: u8,
    patterns: [[u8; 4]; 4],
    /// The elements of which all inputs are full.
    full: u8,
    decision: Decision,
    packets: [[u8; 4]; 4],
    /// The first byte of what came of the exchange of packets.
    entry: u8,
    notes: &'static [(SyndromeKind, u8, u8)],
}

/// The group with some members masked.
fn with_masked(mut group: Group, bits: u8) -> Group {
    group.masked = Set8 { bits };
    group
}

/// A quad, two triplex and two simplex groups, and a triplex group whose last member is masked.
fn table() -> Option<Table>
    ensures { IfSome result (λ t. t.n ≡ 4) }
{
    let groups = [
        Group::usual(1, &[(0, 0), (1, 0), (2, 0), (3, 0)]),
        Group::usual(2, &[(0, 1), (1, 1), (2, 1)]),
        Group::usual(3, &[(1, 2), (2, 2), (3, 2)]),
        Group::usual(4, &[(3, 1)]),
        Group::usual(5, &[(0, 3)]),
        with_masked(Group::usual(6, &[(0, 4), (1, 4), (2, 4)]), 4),
    ];
    let table = Table::new(4, 1, &groups).ok()?;
    if table.n() == 4 { Some(table) } else { None }
}

fn request(dest: u8, class: u8) -> Descriptor {
    Descriptor {
        dest,
        class,
        source: 0,
    }
}

fn served(vid: u8, desc: Descriptor, kind: Kind, admitted: u8) -> Decision {
    Decision::Exchange(Service {
        vid,
        desc,
        kind,
        admitted: Set8 { bits: admitted },
        waited: 0,
    })
}

/// The pattern where all ports have room, but for those of some elements.
fn pattern(full: u8) -> SystemPattern<4> {
    let mut room = LocalPattern::quiet();
    for port in 0..8 {
        room.set(port, ROOM);
    }
    let mut pattern = SystemPattern::quiet();
    for k in 0..4 {
        let is_full = (Set8 { bits: full }).has(k);
        if !is_full {
            pattern.set_column(Ne::at(usize::from(k)), room);
        }
    }
    pattern
}

fn row<const B: usize>(first: u8) -> Option<[u8; B]>
    requires { 0 < B }
{
    if first == NONE {
        return None;
    }
    let mut bytes = [0; B];
    bytes[0] = first;
    Some(bytes)
}

/// Takes what another element sent in both rounds.
fn hear<const B: usize>(x: &mut TwoRound<4, B>, from: Ne, own: u8, relayed: &[u8; 4])
    requires some { 0 < B }
    requires small { B < 2 ^ 32 }
    requires among { from < 4 }
    requires other { from ≢ x.old.me }
    ensures { x.new.me ≡ x.old.me }
{
    let mut cells = Cells::absent();
    for k in 0..4 {
        cells.set(k, row(relayed[k]));
    }
    x.take_first(from, row(own));
    x.take_echo(from, cells);
}

/// What element `me` heard, where these are the rows that each element holds.
fn exchange<const B: usize>(me: Ne, rows: &[[u8; 4]; 4]) -> TwoRound<4, B>
    requires some { 0 < B }
    requires small { B < 2 ^ 32 }
    requires among { me < 4 }
    ensures { result.me ≡ me }
{
    let held = rows[me.index()];
    let mut x = TwoRound::new(me);
    x.first(row(held[me.index()]));
    for k in 0..4 {
        let from = Ne::at(k);
        if from != me {
            hear(&mut x, from, held[k], &rows[k]);
        }
    }
    x
}

/// The results for all elements.
#[tactic(auto, using(two_round::proofs::Agreement::at_place))]
fn results<const B: usize>(x: &TwoRound<4, B>) -> Cells<4, B>
    ensures { (s : ℕ) → s < 4 → cell_at result s ≡ result_for x.now s }
{
    x.results()
}

/// What the element notes.
fn notes(table: &Table, case: &Case) -> Option<Row<Syndrome, 64>>
    requires { table.now.n ≡ 4 }
{
    let me = Ne::new(case.me, 4)?;
    let patterns = exchange::<32>(me, &case.patterns);
    let packets = exchange::<64>(me, &case.packets);
    let packet_results = results(&packets);
    let decision = case.decision;
    let packet = row(case.entry).map(|bytes| Packet { bytes });
    let entry = packet.as_ref();
    let seen = Seen {
        me,
        cycle: 7,
        table,
        pattern: &pattern(case.full),
        decision: &decision,
        patterns: &patterns,
        pattern_results: &results(&patterns),
        packets: &packets,
        packet_results: &packet_results,
        entry,
    };
    let mut out = Row::new();
    note(&seen, &mut out);
    Some(out)
}

/// The entries of a case.
fn wanted(case: &Case) -> Option<Row<Syndrome, 64>> {
    let mut row = Row::new();
    for &(kind, accused, other) in case.notes {
        let _ = row.try_push(Syndrome {
            cycle: 7,
            kind,
            accused: Ne::new(accused, 4)?,
            other: Ne::new(other, 4)?,
        });
    }
    Some(row)
}

#[test]
fn each_kind_is_noted_by_its_rule(rt: HostRuntime) -> Result<(), Fail> {
    let table = table().ok_or("table")?;
    let three = Ne::new(3, 4).ok_or("3")?;
    let voted = |admitted: u8| served(2, request(3, 1), Kind::Voted, admitted);
    let posts = [[0x41, 0x41, 0x41, NONE], [NONE; 4], [NONE; 4], [NONE; 4]];
    let cases = [
        Case {
            name: "no fault",
            me: 0,
            patterns: ALIKE,
            full: 0,
            decision: voted(0b0111),
            packets: posts,
            entry: 0x41,
            notes: &[],
        },
        Case {
            name: "a false echo",
            me: 1,
            patterns: [[2; 4], [2; 4], [2; 4], [3, 2, 2, 2]],
            full: 0,
            decision: Decision::Idle,
            packets: NO_ROWS,
            entry: NONE,
            notes: &[(SyndromeKind::P2, 3, 0)],
        },
        Case {
            name: "a two-faced pattern",
            me: 0,
            patterns: [[2, 2, 2, 3], [2, 2, 2, 0], [2; 4], [2; 4]],
            full: 0,
            decision: Decision::Idle,
            packets: NO_ROWS,
            entry: NONE,
            notes: &[(SyndromeKind::P1, 3, 3), (SyndromeKind::P2, 1, 3)],
        },
        Case {
            name: "a member that is not admitted",
            me: 0,
            patterns: ALIKE,
            full: 0,
            decision: voted(0b0011),
            packets: [[0x41, 0x41, NONE, NONE], [NONE; 4], [NONE; 4], [NONE; 4]],
            entry: 0x41,
            notes: &[(SyndromeKind::R, 2, 2)],
        },
        Case {
            name: "a discarded request",
            me: 2,
            patterns: ALIKE,
            full: 0b1111,
            decision: Decision::Discard {
                vid: 2,
                desc: request(0, 3),
                reason: 4,
                admitted: Set8 { bits: 0b0110 },
                waited: 0,
            },
            packets: NO_ROWS,
            entry: NONE,
            notes: &[(SyndromeKind::R, 0, 0)],
        },
        Case {
            name: "a full receiver",
            me: 0,
            patterns: ALIKE,
            full: 0b1000,
            decision: voted(0b0111),
            packets: posts,
            entry: 0x41,
            notes: &[(SyndromeKind::O, 3, 3)],
        },
        Case {
            name: "a two-faced source",
            me: 0,
            patterns: ALIKE,
            full: 0,
            decision: served(4, request(3, 2), Kind::Source(three), 0b1000),
            packets: [
                [NONE, NONE, NONE, 0x0f],
                [NONE, NONE, NONE, 0x33],
                [NONE, NONE, NONE, 0x55],
                [NONE, NONE, NONE, 0x0f],
            ],
            entry: 0x17,
            notes: &[
                (SyndromeKind::D1, 3, 3),
                (SyndromeKind::D2, 1, 3),
                (SyndromeKind::D2, 2, 3),
            ],
        },
        Case {
            name: "split votes",
            me: 0,
            patterns: ALIKE,
            full: 0,
            decision: served(3, request(2, 1), Kind::Voted, 0b1110),
            packets: [[NONE, 0xff, 0, 0xff], [NONE; 4], [NONE; 4], [NONE; 4]],
            entry: 0xff,
            notes: &[(SyndromeKind::V, 2, 2)],
        },
        Case {
            name: "a two-faced update",
            me: 1,
            patterns: ALIKE,
            full: 0b1111,
            decision: served(1, request(0, 3), Kind::Every, 0b1111),
            packets: [[0, 0, 1, 1], [0, 0, 1, 0], [0, 0, 1, 0], [0, 0, 1, 1]],
            entry: 0,
            notes: &[(SyndromeKind::D2, 0, 3), (SyndromeKind::V, 2, 2)],
        },
        Case {
            name: "two live members that differ",
            me: 3,
            patterns: ALIKE,
            full: 0,
            decision: served(6, request(3, 1), Kind::Every, 0b0011),
            packets: [[0x55, 0x54, NONE, NONE]; 4],
            entry: 0x54,
            notes: &[],
        },
    ];
    for case in &cases {
        let noted = notes(&table, case).ok_or("notes")?;
        let wanted = wanted(case).ok_or("wanted")?;
        assert_eq!(rt; noted.as_slice(), wanted.as_slice(), "{}", case.name);
    }
    Ok(())
}
