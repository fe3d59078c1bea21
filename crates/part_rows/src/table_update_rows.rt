use config_table::{ConfigError, Group, Table};
use ftpp_base::{Proc, Set8};
use packet_format::Packet;
use std::test::Fail;
use table_update::*;

/// A packet of these bytes and zeros behind them.
fn packet(start: &[u8]) -> Packet {
    let mut bytes = [0; 64];
    for (byte, given) in bytes.iter_mut().zip(start) {
        *byte = *given;
    }
    Packet { bytes }
}

/// The built-in table of four elements.
fn four_elements() -> Result<Table, ConfigError> {
    Table::new(
        4,
        1,
        &[
            Group::usual(1, &[(0, 0), (1, 0), (2, 0), (3, 0)]),
            Group::usual(2, &[(0, 1), (1, 1), (2, 1)]),
            Group::usual(3, &[(1, 2), (2, 2), (3, 2)]),
            Group::usual(4, &[(3, 1)]),
            Group::usual(5, &[(0, 3)]),
        ],
    )
}

/// The code of a refusal; 0 for done, and 255 for absent.
fn outcome(applied: &Applied) -> u8 {
    match applied {
        Applied::Done(_) => 0,
        Applied::Refused(error) => error.code(),
        Applied::Absent => 255,
    }
}

/// Updates, one after another on the first table, what the last one gives, and the ports to clear.
type Case = (&'static [&'static [u8]], u8, &'static [(u8, u8)]);

/// The ports of group 2.
const OF_TWO: &[(u8, u8)] = &[(0, 1), (1, 1), (2, 1)];

/// Updates of masks, timeouts and groups that are there.
const CHANGES: [Case; 16] = [
    (&[&[1, 2, 0]], 0, &[]),
    (&[&[1, 2, 0], &[1, 2, 0]], 0, &[]),
    (&[&[1, 2, 3]], 255, &[]),
    (&[&[1, 9, 0]], 255, &[]),
    (&[&[1, 4, 0]], 9, &[]),
    (&[&[1, 1, 3]], 0, &[]),
    (&[&[1, 1, 3], &[1, 1, 0]], 12, &[]),
    (&[&[1, 2, 0], &[2, 2, 0]], 0, &[(0, 1)]),
    (&[&[2, 2, 1]], 0, &[(1, 1)]),
    (&[&[2, 4, 1]], 255, &[]),
    (&[&[3, 2, 3, 232, 0, 1]], 0, &[]),
    (&[&[3, 2, 0, 0, 3, 233]], 10, &[]),
    (&[&[3, 9, 0, 1, 0, 1]], 255, &[]),
    (&[&[4, 2]], 0, OF_TWO),
    (&[&[4, 1]], 11, &[]),
    (&[&[4, 2], &[4, 2]], 255, &[]),
];

/// Updates that form groups.
const FORMS: [Case; 8] = [
    (&[&[5, 6, 1, 0, 3, 0, 2, 2, 7]], 0, &[(2, 7)]),
    (
        &[&[4, 2], &[5, 2, 3, 0, 3, 0, 2, 0, 1, 1, 1, 2, 1]],
        0,
        OF_TWO,
    ),
    (&[&[5, 2, 1, 0, 3, 0, 2, 2, 7]], 4, &[]),
    (&[&[5, 6, 2, 0, 3, 0, 2, 1, 7, 2, 7]], 5, &[]),
    (&[&[5, 6, 1, 0, 3, 0, 2, 4, 7]], 6, &[]),
    (&[&[5, 6, 3, 0, 3, 0, 2, 1, 7, 2, 7, 1, 6]], 7, &[]),
    (&[&[5, 6, 1, 0, 3, 0, 2, 3, 2]], 8, &[]),
    (&[&[5, 0, 0]], 3, &[]),
];

/// What comes of the update that a packet of these bytes is.
fn updated(table: &mut Table, bytes: &[u8]) -> Option<Applied> {
    let update = read_update(&packet(bytes))?;
    Some(apply(table, &update))
}

/// Whether the ports to clear are these.
fn clears(cleared: &[Proc], ports: &[(u8, u8)]) -> bool {
    let mut alike = cleared.len() == ports.len();
    for (proc, (ne, port)) in cleared.iter().zip(ports) {
        alike = alike && proc.ne == *ne && proc.port == *port;
    }
    alike
}

/// Whether the last of these updates on the first table gives this, and clears these ports or leaves the table as it was.
fn comes_of(case: &Case) -> Option<bool> {
    let (packets, code, ports) = *case;
    let mut table = four_elements().ok()?;
    let mut before = table.copy();
    let mut last = Applied::Absent;
    for bytes in packets {
        before = table.copy();
        last = updated(&mut table, bytes)?;
    }
    let is_right = match &last {
        Applied::Done(cleared) => clears(cleared.as_slice(), ports),
        _ => table.same_table(&before),
    };
    Some(outcome(&last) == code && is_right)
}

#[test]
fn applies_or_refuses(rt: HostRuntime) {
    for (place, case) in CHANGES.iter().enumerate() {
        assert!(rt; comes_of(case) == Some(true), "change {place}");
    }
    for (place, case) in FORMS.iter().enumerate() {
        assert!(rt; comes_of(case) == Some(true), "form {place}");
    }
}

/// The table of four elements with a masked member, other timeouts, and group 4 at another port.
fn changed() -> Option<Table> {
    let mut third = Group::usual(3, &[(1, 2), (2, 2), (3, 2)]);
    third.masked = Set8 { bits: 4 };
    third.ts = 1000;
    third.tr = 1;
    let mut fourth = Group::usual(4, &[(3, 5)]);
    fourth.ts = 7;
    fourth.tr = 8;
    let groups = [
        Group::usual(1, &[(0, 0), (1, 0), (2, 0), (3, 0)]),
        Group::usual(2, &[(0, 1), (1, 1), (2, 1)]),
        third,
        fourth,
        Group::usual(5, &[(0, 3)]),
    ];
    Table::new(4, 1, &groups).ok()
}

#[test]
fn changes_what_is_named(rt: HostRuntime) -> Result<(), Fail> {
    let updates: [&[u8]; 6] = [
        &[1, 3, 2],
        &[1, 2, 1],
        &[2, 2, 1],
        &[3, 3, 3, 232, 0, 1],
        &[4, 4],
        &[5, 4, 1, 0, 7, 0, 8, 3, 5],
    ];
    let mut table = four_elements()?;
    for bytes in updates {
        let applied = updated(&mut table, bytes).ok_or("an update")?;
        assert!(rt; outcome(&applied) == 0);
    }
    assert!(rt; table.same_table(&changed().ok_or("table")?));
    Ok(())
}

/// Whether packets of these bytes are read as updates; with another last byte they never are.
fn reads(start: &[u8]) -> (bool, bool) {
    let mut packet = packet(start);
    let is_read = read_update(&packet).is_some();
    packet.bytes[63] = 1;
    (is_read, read_update(&packet).is_some())
}

#[test]
fn reads_no_other_packet(rt: HostRuntime) {
    let cases: [(&[u8], bool); 15] = [
        (&[1, 0, 3], true),
        (&[1, 0, 4], false),
        (&[2, 255, 3], true),
        (&[2, 1, 4], false),
        (&[2, 1, 0, 1], false),
        (&[3, 1, 255, 255, 255, 255], true),
        (&[3, 1, 0, 1, 0, 1, 1], false),
        (&[4, 7], true),
        (&[4, 7, 1], false),
        (&[5, 1, 4, 0, 1, 0, 1, 9, 9, 9, 9, 9, 9, 255, 255], true),
        (&[5, 1, 4, 0, 1, 0, 1, 0, 0, 0, 0, 0, 0, 0, 0, 1], false),
        (&[5, 1, 1, 0, 1, 0, 1, 9, 9, 1], false),
        (&[5, 1, 5], false),
        (&[0, 1], false),
        (&[6, 1], false),
    ];
    for (place, (start, is_update)) in cases.iter().enumerate() {
        assert!(rt; reads(start) == (*is_update, false), "case {place}");
    }
}
