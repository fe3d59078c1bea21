//! What the journal keeps, and elements that were faulty and rejoin.

use super::bench::{acts_of, cycle, new_cluster};
use super::cases::{DISSOLVED, Done, MASKED, Posts, TWO_FACED_SOURCE};
use super::outside::Tester;
use super::{done, honest};
use cluster::Cluster;
use element_core::Rejoined;
use ftpp_base::{Ne, Round};
use link_fabric::Liar;
use std::alloc::Global;
use std::test::Fail;

/// The first bytes of what the faulty element's pattern and packet of the first cycle read as at another element.
fn told_to(cluster: &Cluster<4>, to: u8) -> Option<(u8, u8)> {
    let to = Ne::new(to, 4)?;
    let journal = cluster.journal();
    if journal.len() == 0 || journal.faulty(0)? == to {
        return None;
    }
    Some((journal.pattern_to(0, to)?[0], journal.packet_to(0, to)?[0]))
}

/// A cluster after the cycle of a two-faced source, with room for one cycle more and no acts.
fn two_faced(alloc: Global) -> Option<Cluster<4>> {
    let case = &TWO_FACED_SOURCE;
    let mut cluster = new_cluster(alloc, 0, case.faulty, 2, 1)?;
    if !cluster.carried(Round::A1, Ne::at(3), Ne::at(1)).is_empty() {
        return None;
    }
    let mut tester = Tester::new(alloc, case.edits);
    let host = acts_of(case.posts, 0);
    cycle(&mut cluster, &host, &mut honest(alloc), &mut tester)?;
    Some(cluster)
}

/// The elements of the first table, the faulty elements of a cluster and of the first cycle of its journal, what is left of cycles and
/// acts, the cycles of the journal, and whether an element rejoined before the first and its acts are those of a case.
type Noted = (u8, Option<u8>, Option<u8>, u32, usize, u32, bool, bool);

fn noted(cluster: &Cluster<4>, posts: &[Posts]) -> Option<Noted> {
    let journal = cluster.journal();
    if journal.len() == 0 {
        return None;
    }
    Some((
        cluster.first_table().n(),
        cluster.faulty().map(|ne| ne.byte()),
        journal.faulty(0).map(|ne| ne.byte()),
        cluster.remaining(),
        cluster.acts_left(),
        journal.len(),
        journal.rejoined(0),
        journal.acts(0) == acts_of(posts, 0).as_slice(),
    ))
}

/// What a cluster notes of its first cycle, and the length and the eighth byte of the frame of B1 from element 3 to element 1.
fn noted_and_carried(alloc: Global) -> Option<(Noted, [(u8, u8); 3], (usize, Option<u8>))> {
    let cluster = two_faced(alloc)?;
    let told = [
        told_to(&cluster, 0)?,
        told_to(&cluster, 1)?,
        told_to(&cluster, 2)?,
    ];
    let frame = cluster.carried(Round::B1, Ne::at(3), Ne::at(1));
    let seen = (frame.len(), frame.as_slice().get(7).copied());
    Some((noted(&cluster, TWO_FACED_SOURCE.posts)?, told, seen))
}

#[test]
fn the_journal_keeps_what_came_from_outside(rt: HostRuntime) -> Result<(), Fail> {
    let (noted, told, seen) = noted_and_carried(rt.alloc()).ok_or("cycle")?;
    assert_eq!(rt; noted, (4, Some(3), Some(3), 1, 0, 1, false, true));
    assert_eq!(rt; told, [(2, 0x0f), (2, 0x33), (2, 0x55)]);
    assert_eq!(rt; seen, (71, Some(0x33)));
    Ok(())
}

/// One cycle of what is posted, after which the faulty element rejoins and another one is faulty, or none.
fn cycle_and_rejoin(
    cluster: &mut Cluster<4>,
    posts: &[Posts],
    fabric: &mut Liar,
    tester: &mut Tester,
    next: Option<u8>,
) -> Option<Rejoined> {
    let host = acts_of(posts, cluster.journal().len());
    cycle(cluster, &host, fabric, tester)?;
    if cluster.remaining() == 0 || cluster.faulty().is_none() {
        return None;
    }
    let Some(number) = next else {
        return Some(cluster.rejoin(None));
    };
    let ne = Ne::new(number, 4)?;
    Some(cluster.rejoin(Some(ne)))
}

/// In which cycle an element is, and whether it told of the last one.
fn stands(cluster: &Cluster<4>, number: u8) -> Option<(u32, bool)> {
    let element = cluster.element(Ne::new(number, 4)?);
    Some((element.cycle(), element.last().is_some()))
}

/// What an element decided in the last cycle, and the first byte of the entry.
fn decided(cluster: &Cluster<4>, number: u8) -> Option<(Done, Option<u8>)> {
    let record = cluster.element(Ne::new(number, 4)?).last()?;
    Some((done(&record.decision), record.packet.map(|p| p.bytes[0])))
}

/// Whether the first member of group 2 is live on an element's table.
fn is_live(cluster: &Cluster<4>, number: u8) -> Option<bool> {
    let table = cluster.element(Ne::new(number, 4)?).table();
    table.group(2).map(|g| g.is_live(0))
}

/// The faulty element of a cycle of the journal, and whether one rejoined before it.
type Mark = (Option<u8>, bool);

/// The marks of a journal of three cycles.
fn marked(cluster: &Cluster<4>) -> Option<[Mark; 3]> {
    let journal = cluster.journal();
    if journal.len() != 3 {
        return None;
    }
    let mut marks = [(None, false); 3];
    for at in 0..3u32 {
        marks[at as usize] = (journal.faulty(at).map(|ne| ne.byte()), journal.rejoined(at));
    }
    Some(marks)
}

/// What element 3 is after it rejoined: in which cycle, whether it told of the last one, and whether that member is live.
type Stood = (u32, bool, bool);

/// Elements 3 and 2 rejoin one after the other, and a cycle without a faulty element follows. What element 3 is after it rejoined, and
/// what it decides in the next cycle, and the marks of the journal.
fn rejoin_twice(alloc: Global) -> Option<(Stood, (Done, Option<u8>), [Mark; 3])> {
    let mut cluster = new_cluster(alloc, 0, Some(3), 3, 6)?;
    let mut fabric = honest(alloc);
    let mut tester = Tester::new(alloc, &[]);
    let first = cycle_and_rejoin(&mut cluster, MASKED, &mut fabric, &mut tester, Some(2))?;
    if first != Rejoined::Taken || cluster.faulty() != Some(Ne::at(2)) {
        return None;
    }
    let (at, has_told) = stands(&cluster, 3)?;
    let stood = (at, has_told, is_live(&cluster, 3)?);
    let second = cycle_and_rejoin(&mut cluster, MASKED, &mut fabric, &mut tester, None)?;
    if second != Rejoined::Taken {
        return None;
    }
    let decided = decided(&cluster, 3)?;
    cycle(&mut cluster, &acts_of(MASKED, 2), &mut fabric, &mut tester)?;
    Some((stood, decided, marked(&cluster)?))
}

#[test]
fn two_elements_rejoin_one_after_the_other(rt: HostRuntime) -> Result<(), Fail> {
    let (stood, decided, marked) = rejoin_twice(rt.alloc()).ok_or("rejoins")?;
    assert_eq!(rt; stood, (1, false, false));
    assert_eq!(rt; decided, (Some(("every", 2, 0b0110, 0)), Some(0x55)));
    assert_eq!(rt; marked, [(Some(3), false), (Some(2), true), (None, true)]);
    Ok(())
}

/// The calls of the last rounds of two cycles in which an element takes frames: element 1 in the first, elements 0 and 1 in the second.
const LOST: [u64; 9] = [37, 44, 47, 85, 88, 91, 92, 94, 95];

/// After two cycles of those calls a rejoin is refused, and one cycle more follows. In which cycle element 3 is after it, whether it told
/// of the last one, how many groups its table has, and the marks of the journal.
fn rejoin_in_vain(alloc: Global) -> Option<((u32, bool), usize, [Mark; 3])> {
    let mut cluster = new_cluster(alloc, 0, Some(3), 3, 8)?;
    let mut liar = Liar::new(Vec::from_array(alloc, LOST).ok()?);
    let mut tester = Tester::new(alloc, &[]);
    cycle(&mut cluster, &acts_of(DISSOLVED, 0), &mut liar, &mut tester)?;
    let refused = cycle_and_rejoin(&mut cluster, DISSOLVED, &mut liar, &mut tester, Some(2))?;
    if refused != Rejoined::Refused || cluster.faulty() != Some(Ne::at(3)) {
        return None;
    }
    let stood = stands(&cluster, 3)?;
    let groups = cluster.element(Ne::at(3)).table().groups().len();
    cycle(&mut cluster, &acts_of(DISSOLVED, 2), &mut liar, &mut tester)?;
    Some((stood, groups, marked(&cluster)?))
}

#[test]
fn without_an_agreed_state_nothing_changes(rt: HostRuntime) -> Result<(), Fail> {
    let (stood, groups, marked) = rejoin_in_vain(rt.alloc()).ok_or("rejoin")?;
    assert_eq!(rt; (stood, groups), ((2, true), 3));
    assert_eq!(rt; marked, [(Some(3), false); 3]);
    Ok(())
}
