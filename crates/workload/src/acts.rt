//! What processors do in a cycle.

ghost use Rattle.std.specs.Prelude.{◌≡◌, ◌<◌, ◌++◌, OnOk};
ghost use Rattle.workload.specs.Acts.{members, packet_of, posts, reads, acts_at};

use crate::draws::Draws;
use byteorder::{BigEndian, ByteOrder};
use config_table::Table;
use ftpp_base::{MOST_CYCLES, Proc};
use packet_format::{Act, Descriptor, Packet};
use std::alloc::AllocError;

/// The members of a group, in the order of the table.
fn members(table: &Table, vid: u8) -> &[Proc]
    ensures { result.now ≡ members table.now vid }
{
    match table.group(vid) {
        Some(group) => group.members.as_slice(),
        None => &[],
    }
}

/// The cycle in four bytes, a byte, and zeros.
fn packet(cycle: u32, byte: u8) -> Packet
    ensures { result ≡ packet_of cycle byte }
{
    let mut packet = Packet { bytes: [0; 64] };
    BigEndian::write_u32(&mut packet.bytes, cycle);
    packet.bytes[4] = byte;
    packet
}

/// All members of the group that was drawn post alike, unless 0 was drawn.
#[tactic(auto, using(crate::proofs::Steps::map_more), unfolding(crate::specs::Acts::posts))]
fn push_posts(
    table: &Table,
    cycle: u32,
    draws: &Draws,
    acts: &mut Vec<(u32, Act)>,
) -> Result<(), AllocError>
    ensures { OnOk result (acts.new.items ≡ acts.old.items ++ posts table.now cycle draws.now) }
{
    if draws.kind == 0 {
        return Ok(());
    }
    let desc = Descriptor {
        dest: draws.dest,
        class: if draws.kind == 1 { 2 } else { 1 },
        source: 0,
    };
    let packet = packet(cycle, draws.byte);
    let posting = members(table, draws.group);
    for proc in posting {
        let proc = *proc;
        acts.push((cycle, Act::Post { proc, desc, packet }))?;
    }
    Ok(())
}

/// All members of a group read once.
#[tactic(auto, using(crate::proofs::Steps::map_more), unfolding(crate::specs::Acts::reads))]
fn push_reads(
    table: &Table,
    cycle: u32,
    vid: u8,
    acts: &mut Vec<(u32, Act)>,
) -> Result<(), AllocError>
    ensures { OnOk result (acts.new.items ≡ acts.old.items ++ reads table.now cycle vid) }
{
    let reading = members(table, vid);
    for proc in reading {
        acts.push((cycle, Act::Read(*proc)))?;
    }
    Ok(())
}

/// The acts of a cycle: the posts that were drawn, and the reads of two groups, which go round with the cycle.
#[tactic(auto, unfolding(crate::specs::Acts::acts_at))]
pub(crate) fn push_acts(
    table: &Table,
    cycle: u32,
    draws: &Draws,
    acts: &mut Vec<(u32, Act)>,
) -> Result<(), AllocError>
    requires { cycle < MOST_CYCLES }
    ensures { OnOk result (acts.new.items ≡ acts.old.items ++ acts_at table.now cycle draws.now) }
{
    push_posts(table, cycle, draws, acts)?;
    push_reads(table, cycle, 1 + (cycle % 6) as u8, acts)?;
    push_reads(table, cycle, 1 + ((cycle + 3) % 6) as u8, acts)
}
