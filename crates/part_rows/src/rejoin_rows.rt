use config_table::{Group, StateRow};
use ftpp_base::{Proc, Set8};
use packet_format::Descriptor;
use rejoin::{AgreedState, STATE_BYTES, decode_state, encode_state};
use std::test::Fail;

/// The first bytes of four elements and five groups at cycle 0. An independent writer gave them, and those below.
static FIRST_CYCLE: [u8; 242] = [
    0, 0, 0, 0, 4, 1, 5, 1, 4, 0, 0, 1, 0, 2, 0, 3, 0, 0, 0, 3, 0, 2, 0, 0, 0x10, 0x20, 0, 0, 0, 0,
    0, 0, 0, 0, 0, 0, 0, 0, 0, 0, 0, 0, 0, 0, 0, 0, 0, 0, 0, 0, 0, 0, 0, 0, 2, 3, 0, 1, 1, 1, 2, 1,
    0, 0, 0, 0, 3, 0, 2, 0, 0, 0x10, 0x20, 0, 0, 0, 0, 0, 0, 0, 0, 0, 0, 0, 0, 0, 0, 0, 0, 0, 0, 0,
    0, 0, 0, 0, 0, 0, 0, 0, 0, 3, 3, 1, 2, 2, 2, 3, 2, 0, 0, 0, 0, 3, 0, 2, 0, 0, 0x10, 0x20, 0, 0,
    0, 0, 0, 0, 0, 0, 0, 0, 0, 0, 0, 0, 0, 0, 0, 0, 0, 0, 0, 0, 0, 0, 0, 0, 0, 0, 4, 1, 3, 1, 0, 0,
    0, 0, 0, 0, 0, 0, 3, 0, 2, 0, 0, 0x10, 0x20, 0, 0, 0, 0, 0, 0, 0, 0, 0, 0, 0, 0, 0, 0, 0, 0, 0,
    0, 0, 0, 0, 0, 0, 0, 0, 0, 0, 0, 5, 1, 0, 3, 0, 0, 0, 0, 0, 0, 0, 0, 3, 0, 2, 0, 0, 0x10, 0x20,
    0, 0, 0, 0, 0, 0, 0, 0, 0, 0, 0, 0, 0, 0, 0, 0, 0, 0, 0, 0, 0, 0, 0, 0, 0, 0, 0, 0,
];

/// The first bytes of five elements and three groups at cycle 100,000, with a masked member, requests and lags.
static LAST_CYCLE: [u8; 148] = [
    0, 1, 0x86, 0xa0, 5, 1, 3, 1, 4, 0, 0, 1, 0, 2, 0, 3, 0, 8, 3, 0xe8, 0, 1, 3, 0xe8, 0x40, 1, 1,
    7, 1, 0, 0, 1, 0x86, 0x9f, 0, 1, 0x86, 0xa0, 0, 1, 0x86, 0xa0, 0, 0, 0, 0, 0, 1, 2, 3, 0, 0, 0,
    0, 7, 3, 1, 7, 4, 6, 2, 5, 0, 0, 0, 0, 2, 2, 1, 0, 0, 0x10, 0x20, 0, 0, 0, 0, 0, 0, 0, 0, 0, 0,
    0, 0, 0, 0, 0, 0, 0, 0, 0, 5, 0, 0, 0, 0, 0, 0, 0, 0, 0xfe, 1, 4, 0, 0, 0, 0, 0, 0, 0, 0, 0, 3,
    0, 2, 0, 0, 0x10, 0x20, 1, 0xff, 0, 9, 0, 0, 1, 2, 0, 0, 0, 0, 0, 0, 0, 0, 0, 0, 0, 0, 0, 0, 0,
    0, 0, 0, 0, 0,
];

/// Bytes of the last cycle that are no state: a place, and what stands there instead.
static CHANGES: [(usize, u8); 29] = [
    (3, 0xa1),
    (4, 4),
    (4, 6),
    (5, 2),
    (6, 0),
    (6, 2),
    (6, 4),
    (6, 0x29),
    (7, 0),
    (7, 8),
    (8, 2),
    (8, 3),
    (8, 5),
    (55, 4),
    (62, 1),
    (17, 0x10),
    (22, 4),
    (24, 0x41),
    (25, 0),
    (26, 2),
    (26, 0),
    (74, 1),
    (33, 0xa0),
    (37, 0xa1),
    (41, 0xa1),
    (100, 1),
    (139, 1),
    (148, 1),
    (1886, 1),
];

/// The bytes of a state, the first of which are given.
fn filled(front: &[u8]) -> [u8; STATE_BYTES] {
    let mut bytes = [0; STATE_BYTES];
    for (byte, given) in bytes.iter_mut().zip(front) {
        *byte = *given;
    }
    bytes
}

/// Whether a state has this cycle, and a table of so many elements and groups with manager 1.
fn is_of(state: &AgreedState, cycle: u32, n: u8, groups: usize) -> bool {
    state.cycle == cycle
        && state.table.n() == n
        && state.table.manager() == 1
        && state.table.groups().len() == groups
        && state.rows.len() == groups
}

#[test]
fn the_first_cycle_goes_both_ways(rt: HostRuntime) -> Result<(), Fail> {
    let bytes = filled(&FIRST_CYCLE);
    let state = decode_state(&bytes).ok_or("no state")?;
    assert!(rt; is_of(&state, 0, 4, 5));
    assert!(rt; state.rows.iter().all(|row| row.request.is_none()));
    assert!(rt; encode_state(&state) == bytes);
    Ok(())
}

/// Whether a group of the last cycle has its members and numbers.
fn is_seventh(group: &Group) -> bool {
    let members = [
        Proc { ne: 1, port: 7 },
        Proc { ne: 4, port: 6 },
        Proc { ne: 2, port: 5 },
    ];
    group.members.as_slice() == members.as_slice()
        && group.masked == (Set8 { bits: 0 })
        && (group.ts, group.tr, group.tx) == (2, 513, 0)
        && (group.outs, group.ins) == (16, 32)
}

/// Whether a row of the last cycle has its request and lags.
fn is_first(row: &StateRow) -> bool {
    let desc = Descriptor {
        dest: 7,
        class: 1,
        source: 0,
    };
    row.request == Some((desc, 99_999, 100_000)) && row.lags == [100_000, 0, 66_051, 0]
}

#[test]
fn the_last_cycle_goes_both_ways(rt: HostRuntime) -> Result<(), Fail> {
    let bytes = filled(&LAST_CYCLE);
    let state = decode_state(&bytes).ok_or("no state")?;
    assert!(rt; is_of(&state, 100_000, 5, 3));
    assert!(rt; state.table.group(7).is_some_and(|group| is_seventh(group)));
    assert!(rt; state.rows.first().is_some_and(|row| is_first(row)));
    assert!(rt; encode_state(&state) == bytes);
    Ok(())
}

/// Whether the bytes of the last cycle are a state where one is another.
fn is_state(place: usize, byte: u8) -> bool {
    let mut bytes = filled(&LAST_CYCLE);
    if let Some(changed) = bytes.get_mut(place) {
        *changed = byte;
    }
    decode_state(&bytes).is_some()
}

#[test]
fn other_bytes_are_no_state(rt: HostRuntime) {
    for (place, byte) in CHANGES.iter() {
        assert!(rt; !is_state(*place, *byte), "{byte} at {place}");
    }
}
