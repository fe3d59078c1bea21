//! Writes a state.

ghost use Rattle.std.specs.Prelude.{◌≡◌, ◌+◌, ◌*◌, ◌≤◌, ◌∷◌, [], ◌++◌, length, drop};
ghost use Rattle.std.specs.List.{flat_map};
ghost use Rattle.packet_format.specs.Numbers.{two_bytes, four_bytes};
ghost use Rattle.packet_format.specs.Packets.{filled_up};
ghost use Rattle.rejoin.specs.State.{IsInRange, member_bytes, group_bytes, request_bytes, row_bytes, slot_bytes, slots_bytes, state_bytes};

use crate::{AgreedState, STATE_BYTES};
use byteorder::{BigEndian, ByteOrder};
use config_table::{Group, StateRow, Table};
use ftpp_base::{Proc, Row};
use packet_format::Descriptor;

/// The bytes so far.
type StateBuf = Row<u8, STATE_BYTES>;

/// A number as two bytes.
fn two(n: u16) -> [u8; 2]
    ensures { result ≡ two_bytes n }
{
    let mut bytes = [0; 2];
    BigEndian::write_u16(&mut bytes, n);
    bytes
}

/// A number as four bytes.
fn four(n: u32) -> [u8; 4]
    ensures { result ≡ four_bytes n }
{
    let mut bytes = [0; 4];
    BigEndian::write_u32(&mut bytes, n);
    bytes
}

/// Appends bytes.
fn append(out: &mut StateBuf, bytes: &[u8])
    requires { length out.old.items + length bytes.now ≤ STATE_BYTES }
    ensures items { out.new.items ≡ out.old.items ++ bytes.now }
    ensures len { length out.new.items ≡ length out.old.items + length bytes.now }
{
    out.try_extend_from_slice(bytes).unwrap();
}

/// Appends a pair of element and port for each member, and zeros up to four pairs.
fn put_members(out: &mut StateBuf, members: &[Proc])
    requires few { length members.now ≤ 4 }
    requires room { length out.old.items + 8 ≤ STATE_BYTES }
    ensures items { out.new.items ≡ out.old.items ++ filled_up 8 (flat_map member_bytes members.now) }
    ensures len { length out.new.items ≡ length out.old.items + 8 }
{
    for member in members {
        append(out, &[member.ne, member.port]);
    }
    let missing = 8 - 2 * members.len();
    append(out, &[0; 8][..missing]);
}

/// Appends a group.
#[tactic(auto, using(crate::proofs::Pieces::group_pieces))]
fn put_group(out: &mut StateBuf, g: &Group)
    requires few { length g.now.members.items ≤ 4 }
    requires room { length out.old.items + 19 ≤ STATE_BYTES }
    ensures items { out.new.items ≡ out.old.items ++ group_bytes g.now }
    ensures len { length out.new.items ≡ length out.old.items + 19 }
{
    append(out, &[g.vid, g.members.len() as u8]);
    put_members(out, g.members.as_slice());
    append(out, &[g.masked.bits]);
    append(out, &two(g.ts));
    append(out, &two(g.tr));
    append(out, &two(g.tx));
    append(out, &[g.outs, g.ins]);
}

/// Appends a request, or zeros where there is none.
#[tactic(auto, using(crate::proofs::Pieces::request_pieces))]
fn put_request(out: &mut StateBuf, request: &Option<(Descriptor, u32, u32)>)
    requires { length out.old.items + 12 ≤ STATE_BYTES }
    ensures items { out.new.items ≡ out.old.items ++ request_bytes request.now }
    ensures len { length out.new.items ≡ length out.old.items + 12 }
{
    match request {
        None => append(out, &[0; 12]),
        Some((desc, since, starved)) => {
            append(out, &[1, desc.dest, desc.class, desc.source]);
            append(out, &four(*since));
            append(out, &four(*starved));
        }
    }
}

/// Appends a row: its request and its lags.
#[tactic(auto, using(crate::proofs::Pieces::row_pieces))]
fn put_row(out: &mut StateBuf, row: &StateRow)
    requires { length out.old.items + 28 ≤ STATE_BYTES }
    ensures items { out.new.items ≡ out.old.items ++ row_bytes row.now }
    ensures len { length out.new.items ≡ length out.old.items + 28 }
{
    put_request(out, &row.request);
    for lag in &row.lags {
        append(out, &four(*lag));
    }
}

/// Appends a group and its row.
#[tactic(auto, using(crate::proofs::Pieces::slot_pieces))]
fn put_slot(out: &mut StateBuf, g: &Group, row: &StateRow)
    requires few { length g.now.members.items ≤ 4 }
    requires room { length out.old.items + 47 ≤ STATE_BYTES }
    ensures items { out.new.items ≡ out.old.items ++ slot_bytes (g.now, row.now) }
    ensures len { length out.new.items ≡ length out.old.items + 47 }
{
    put_group(out, g);
    put_row(out, row);
}

/// Appends all groups, each with its row.
fn put_slots(out: &mut StateBuf, table: &Table, rows: &[StateRow])
    requires one_each { length rows.now ≡ length table.now.groups }
    requires head { length out.old.items ≡ 7 }
    ensures items { out.new.items ≡ out.old.items ++ slots_bytes table.now.groups rows.now }
    ensures len { length out.new.items ≤ STATE_BYTES }
{
    let groups = table.groups();
    for i in 0..groups.len() {
        put_slot(out, &groups[i], &rows[i]);
    }
}

/// Puts a text at the front of a buffer.
fn put_front(bytes: &mut [u8; STATE_BYTES], text: &[u8])
    requires { length text.now ≤ STATE_BYTES }
    ensures { bytes.new ≡ text.now ++ drop (length text.now) bytes.old }
{
    bytes[..text.len()].copy_from_slice(text);
}

/// The bytes so far, and zeros behind them.
fn whole(out: &StateBuf) -> [u8; STATE_BYTES]
    ensures { result ≡ filled_up STATE_BYTES out.now.items }
{
    let mut bytes = [0; STATE_BYTES];
    put_front(&mut bytes, out.as_slice());
    bytes
}

/// The bytes of a state, whatever its numbers are.
#[tactic(auto, unfolding(crate::specs::State::state_bytes))]
pub(crate) fn written(s: &AgreedState) -> [u8; STATE_BYTES]
    requires { length s.now.rows.items ≡ length s.now.table.groups }
    ensures { result ≡ state_bytes s.now.cycle s.now.table s.now.rows.items }
{
    let mut out: StateBuf = Row::new();
    append(&mut out, &four(s.cycle));
    append(
        &mut out,
        &[s.table.n(), s.table.manager(), s.table.groups().len() as u8],
    );
    put_slots(&mut out, &s.table, s.rows.as_slice());
    whole(&out)
}

/// The bytes of a state: the cycle, the table, and for each group what the scoreboard keeps of it. A request is of an
/// earlier cycle, and the other numbers of cycles are at most the cycle. It takes no memory.
pub fn encode_state(s: &AgreedState) -> [u8; STATE_BYTES]
    requires { IsInRange s.now.cycle s.now.table s.now.rows.items }
    ensures { result ≡ state_bytes s.now.cycle s.now.table s.now.rows.items }
{
    written(s)
}
