//! Four elements of a table, what their processors post, and cycles of them.

ghost use Rattle.std.specs.Prelude.{◌≡◌, ◌<◌, IfSome, IsTrue, None};
ghost use Rattle.std.specs.List.{AllByRecursion};
ghost use Rattle.cluster.specs.Follows.{IsActAmong};

use super::cases::Posts;
use super::outside::Tester;
use cluster::Cluster;
use config_table::{Group, Table};
use element_core::CycleReport;
use ftpp_base::{Gate, Ne, Proc, Row, Set8};
use link_fabric::{Liar, Mesh};
use packet_format::{Act, HostActs, Packet};
use std::alloc::Global;
use std::thread::Threads;

/// A quad group that may update the table, two triplex and two simplex groups; an input of group 3 holds 4 packets, and requests to
/// it expire after so many cycles.
fn table(expiry: u16) -> Option<Table>
    ensures { IfSome result (λ t. t.n ≡ 4) }
{
    let mut three = Group::usual(3, &[(1, 2), (2, 2), (3, 2)]);
    three.tx = expiry;
    three.ins = 4;
    let groups = [
        Group::usual(1, &[(0, 0), (1, 0), (2, 0), (3, 0)]),
        Group::usual(2, &[(0, 1), (1, 1), (2, 1)]),
        three,
        Group::usual(4, &[(3, 1)]),
        Group::usual(5, &[(0, 3)]),
    ];
    let table = Table::new(4, 1, &groups).ok()?;
    if table.n() == 4 { Some(table) } else { None }
}

/// The element of that number among four, or none.
fn faulty_of(number: Option<u8>) -> Option<Ne>
    ensures { IfSome result (λ ne. ne < 4) }
{
    Ne::new(number?, 4)
}

/// The elements of that table, one of them faulty or none, before so many cycles and acts.
pub(super) fn new_cluster(
    alloc: Global,
    expiry: u16,
    faulty: Option<u8>,
    cycles: u32,
    acts: usize,
) -> Option<Cluster<4>> {
    if cycles < 1 || cycles > 100_000 || acts > 8_000_000 {
        return None;
    }
    let table = table(expiry)?;
    Cluster::new(alloc, &table, faulty_of(faulty), cycles, acts).ok()
}

/// A packet with these first bytes.
fn packet(first: &[u8; 3]) -> Packet {
    let mut bytes = [0; 64];
    bytes[..3].copy_from_slice(first);
    Packet { bytes }
}

/// What the processors post in a cycle, element by element.
pub(super) fn acts_of(posts: &[Posts], cycle: u32) -> HostActs {
    let mut host = Row::new();
    for &((from, upto), port, elements, desc, first) in posts {
        for ne in 0..4 {
            if from <= cycle && cycle <= upto && (Set8 { bits: elements }).has(ne) {
                let _ = host.try_push(Act::Post {
                    proc: Proc { ne, port },
                    desc,
                    packet: packet(&first),
                });
            }
        }
    }
    host
}

/// How many acts there are in so many cycles.
pub(super) fn acts_in(posts: &[Posts], cycles: u32) -> usize {
    let mut count: usize = 0;
    for at in 0..cycles {
        count = count.wrapping_add(acts_of(posts, at).len());
    }
    count
}

fn is_among(act: &Act) -> bool
    ensures { IsTrue result → IsActAmong 4 act.now }
{
    match act {
        Act::Post { proc, .. } => proc.ne < 4 && proc.port < 8,
        Act::Read(proc) => proc.ne < 4 && proc.port < 8,
    }
}

/// Whether all acts are of processors that there are.
fn are_among(acts: &[Act]) -> bool
    ensures { IsTrue result → AllByRecursion (IsActAmong 4) acts.now }
{
    for act in acts {
        if !is_among(act) {
            return false;
        }
    }
    true
}

/// One cycle by one thread, where one is left.
pub(super) fn cycle(
    cluster: &mut Cluster<4>,
    host: &HostActs,
    fabric: &mut Liar,
    faulty: &mut Tester,
) -> Option<CycleReport<4>>
    ensures { IfSome result (λ _. cluster.new.rejoined ≡ None) }
{
    if cluster.remaining() == 0 || host.len() > cluster.acts_left() || !are_among(host.as_slice()) {
        return None;
    }
    Some(cluster.cycle(host, fabric, faulty))
}

/// One cycle by several threads over an honest fabric, where one is left.
pub(super) fn cycle_split<R: Threads + Sync, G: Gate>(
    rt: &R,
    cluster: &mut Cluster<4>,
    host: &HostActs,
    faulty: &mut Tester,
    gate: &G,
) -> Option<CycleReport<4>> {
    if cluster.remaining() == 0 || host.len() > cluster.acts_left() || !are_among(host.as_slice()) {
        return None;
    }
    Some(cluster.cycle_split(rt, host, &mut Mesh, faulty, gate))
}
