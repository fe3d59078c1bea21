//! Reads a state.
//!
//! Bytes can be one state at most. It is read from their places; the bytes are a state where it is written as these bytes.

ghost use Rattle.std.specs.Prelude.{◌≡◌, ◌+◌, ◌*◌, ◌<◌, ◌≤◌, ◌↔◌, length, min, map, slice_index, All, Some, IsSome, IfSome, IsTrue};
ghost use Rattle.std.specs.List.{zip};
ghost use Rattle.ftpp_base.specs.Lists.{each_below};
ghost use Rattle.config_table.specs.Table.{IsValid};
ghost use Rattle.rejoin.specs.declared.AgreedState.{AgreedState};
ghost use Rattle.rejoin.specs.State.{RequestFits, RowFits, IsInRange, IsState};
ghost use Rattle.rejoin.specs.Reading.{number_at, member_from, group_from, request_from, row_from, group_at, row_at, count_from, groups_from, rows_from, table_from};

use crate::writing::written;
use crate::{AgreedState, LAST_CYCLE, STATE_BYTES};
use byteorder::{BigEndian, ByteOrder};
use config_table::{Group, StateRow, Table};
use ftpp_base::{MOST_GROUPS, Proc, Row, Set8};
use packet_format::Descriptor;

/// The number in two bytes from a place on.
fn short(bytes: &[u8], at: usize) -> u16
    requires { at + 2 ≤ length bytes.now }
    ensures { result ≡ number_at bytes.now at (at + 2) }
{
    BigEndian::read_u16(&bytes[at..at + 2])
}

/// The number in four bytes from a place on.
fn long(bytes: &[u8], at: usize) -> u32
    requires { at + 4 ≤ length bytes.now }
    ensures { result ≡ number_at bytes.now at (at + 4) }
{
    BigEndian::read_u32(&bytes[at..at + 4])
}

/// The members in the bytes of a group: as many as the size byte says, and at most four.
fn members_in(bytes: &[u8]) -> Row<Proc, 4>
    requires { length bytes.now ≡ 19 }
    ensures { result.items ≡ each_below (min (slice_index bytes.now 1) 4) (member_from bytes.now) }
{
    let mut members = Row::new();
    for i in 0..usize::from(bytes[1]).min(4) {
        members.push(Proc {
            ne: bytes[2 + 2 * i],
            port: bytes[3 + 2 * i],
        });
    }
    members
}

/// The group in its 19 bytes.
#[tactic(auto, unfolding(crate::specs::Reading::group_from))]
fn group_in(bytes: &[u8]) -> Group
    requires { length bytes.now ≡ 19 }
    ensures { result ≡ group_from bytes.now }
{
    Group {
        vid: bytes[0],
        members: members_in(bytes),
        masked: Set8 { bits: bytes[10] },
        ts: short(bytes, 11),
        tr: short(bytes, 13),
        tx: short(bytes, 15),
        outs: bytes[17],
        ins: bytes[18],
    }
}

/// The request in the 28 bytes of a row, if there is one.
#[tactic(auto, unfolding(crate::specs::Reading::request_from))]
fn request_in(bytes: &[u8]) -> Option<(Descriptor, u32, u32)>
    requires { length bytes.now ≡ 28 }
    ensures { result ≡ request_from bytes.now }
{
    if bytes[0] == 0 {
        return None;
    }
    let desc = Descriptor {
        dest: bytes[1],
        class: bytes[2],
        source: bytes[3],
    };
    Some((desc, long(bytes, 4), long(bytes, 8)))
}

/// The row of a group in its 28 bytes.
#[tactic(auto, unfolding(crate::specs::Reading::row_from))]
fn row_in(vid: u8, bytes: &[u8]) -> StateRow
    requires { length bytes.now ≡ 28 }
    ensures { result ≡ row_from vid bytes.now }
{
    StateRow {
        vid,
        request: request_in(bytes),
        lags: [
            long(bytes, 12),
            long(bytes, 16),
            long(bytes, 20),
            long(bytes, 24),
        ],
    }
}

/// The group of an index.
fn group_at(bytes: &[u8; STATE_BYTES], i: usize) -> Group
    requires { i < MOST_GROUPS }
    ensures { result ≡ group_at bytes.now i }
{
    group_in(&bytes[7 + 47 * i..26 + 47 * i])
}

/// The row of the group of an index.
fn row_at(bytes: &[u8; STATE_BYTES], i: usize) -> StateRow
    requires { i < MOST_GROUPS }
    ensures { result ≡ row_at bytes.now i }
{
    row_in(bytes[7 + 47 * i], &bytes[26 + 47 * i..54 + 47 * i])
}

/// How many groups there are: as many as byte 6 says, and at most 40.
fn count_in(bytes: &[u8; STATE_BYTES]) -> usize
    ensures count { result ≡ count_from bytes.now }
    ensures few { result ≤ MOST_GROUPS }
{
    usize::from(bytes[6]).min(MOST_GROUPS)
}

/// The groups, in order.
fn groups_in(bytes: &[u8; STATE_BYTES]) -> Row<Group, MOST_GROUPS>
    ensures { result.items ≡ groups_from bytes.now }
{
    let mut groups = Row::new();
    for i in 0..count_in(bytes) {
        groups.push(group_at(bytes, i));
    }
    groups
}

/// The rows of the groups, in order.
fn rows_in(bytes: &[u8; STATE_BYTES]) -> Row<StateRow, MOST_GROUPS>
    ensures { result.items ≡ rows_from bytes.now }
{
    let mut rows = Row::new();
    for i in 0..count_in(bytes) {
        rows.push(row_at(bytes, i));
    }
    rows
}

/// The only state that the bytes can be; None where its table is not valid.
fn only_state(bytes: &[u8; STATE_BYTES]) -> Option<AgreedState>
    ensures found { IfSome result (λ s. (s.cycle ≡ number_at bytes.now 0 4) × (s.table ≡ table_from bytes.now) × (s.rows.items ≡ rows_from bytes.now)) }
    ensures valid { IsValid (table_from bytes.now) → IsSome result }
    ensures table { IfSome result (λ s. IsValid s.table) }
{
    let groups = groups_in(bytes);
    match Table::new(bytes[4], bytes[5], groups.as_slice()) {
        Err(_) => None,
        Ok(table) => Some(AgreedState {
            cycle: long(bytes, 0),
            table,
            rows: rows_in(bytes),
        }),
    }
}

/// Whether a request was first made in an earlier cycle and lacked space in no more cycles than there were.
fn request_fits(cycle: u32, request: &Option<(Descriptor, u32, u32)>) -> bool
    ensures { IsTrue result ↔ RequestFits cycle request.now }
{
    match request {
        None => true,
        Some((_, since, starved)) => *since < cycle && *starved <= cycle,
    }
}

/// Whether a row is one of its group at the beginning of a cycle.
fn row_fits(cycle: u32, g: &Group, row: &StateRow) -> bool
    ensures { IsTrue result ↔ RowFits cycle (g.now, row.now) }
{
    row.vid == g.vid
        && request_fits(cycle, &row.request)
        && row.lags.iter().all(|lag| *lag <= cycle)
        && row.lags[g.members.len()..].iter().all(|lag| *lag == 0)
}

/// Whether each row fits its group.
fn rows_fit(cycle: u32, table: &Table, rows: &[StateRow]) -> bool
    requires { length rows.now ≡ length table.now.groups }
    ensures { IsTrue result ↔ All (RowFits cycle) (zip table.now.groups rows.now) }
{
    let groups = table.groups();
    for i in 0..groups.len() {
        if !row_fits(cycle, &groups[i], &rows[i]) {
            return false;
        }
    }
    true
}

/// Whether all numbers of a state are in their ranges.
fn is_in_range(s: &AgreedState) -> bool
    requires one_each { length s.now.rows.items ≡ length s.now.table.groups }
    requires valid { IsValid s.now.table }
    ensures { IsTrue result ↔ IsInRange s.now.cycle s.now.table s.now.rows.items }
{
    s.cycle <= LAST_CYCLE && rows_fit(s.cycle, &s.table, s.rows.as_slice())
}

/// The state that the bytes are; None exactly for bytes that are no state: where their table is not valid, a number
/// is out of its range, or a byte that no field uses is not 0. It takes no memory.
pub fn decode_state(bytes: &[u8; STATE_BYTES]) -> Option<AgreedState>
    ensures found { IfSome result (λ s. IsState bytes.now s.cycle s.table s.rows.items) }
    ensures only { (s : AgreedState) → IsState bytes.now s.cycle s.table s.rows.items → result ≡ Some s }
{
    let state = only_state(bytes)?;
    if !is_in_range(&state) {
        return None;
    }
    if written(&state) != *bytes {
        return None;
    }
    Some(state)
}
