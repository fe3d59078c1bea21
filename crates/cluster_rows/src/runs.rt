mod bench;
mod cases;
mod outside;
mod rejoins;

use bench::{acts_in, acts_of, cycle, cycle_split, new_cluster};
use cases::{CASES, Case, Done, RANDOM, ROUNDS};
use cluster::Cluster;
use config_table::{Decision, Kind};
use element_core::{CycleRecord, CycleReport, Outcome3};
use ftpp_base::{Ne, OpenGate, Proc, Row, Set8};
use link_fabric::Liar;
use outside::{Ask, Meeting, Tester};
use processor_buffers::Handed;
use std::alloc::Global;
use std::sync::atomic::{AtomicU64, Ordering};
use std::test::Fail;
use std::thread::Threads;
use syndrome_log::Syndrome;

/// What a decision is, in short.
fn done(decision: &Decision) -> Done {
    match decision {
        Decision::Idle => None,
        Decision::Discard {
            vid,
            reason,
            admitted,
            waited,
            ..
        } => {
            let kind = if *reason == 6 { "expired" } else { "unlawful" };
            Some((kind, *vid, admitted.bits, *waited))
        }
        Decision::Exchange(service) => {
            let kind = match service.kind {
                Kind::Voted => "voted",
                Kind::Source(_) => "source",
                Kind::Every => "every",
            };
            Some((kind, service.vid, service.admitted.bits, service.waited))
        }
    }
}

/// The place of a decision among the counts of a case: it serves, it discards, or nothing is done.
fn place_of(report: &CycleReport<4>) -> usize {
    let first = report.rows.first().map(|record| record.decision);
    match first {
        Some(Decision::Exchange(_)) => 0,
        Some(Decision::Discard { .. }) => 1,
        _ => 2,
    }
}

/// A fabric that delivers all frames as they were sent.
fn honest(alloc: Global) -> Liar {
    Liar::new(Vec::new(alloc))
}

/// Plays a case by one thread and by several, and counts what is done. Returns the last report, if the reports of each cycle are equal
/// and room is left for no more acts.
fn play<R: Threads + Sync>(
    rt: &R,
    alloc: Global,
    case: &Case,
    counts: &mut [u32; 3],
) -> Option<CycleReport<4>> {
    let acts = acts_in(case.posts, case.cycles);
    let mut one = new_cluster(alloc, case.expiry, case.faulty, case.cycles, acts)?;
    let mut many = new_cluster(alloc, case.expiry, case.faulty, case.cycles, acts)?;
    let mut to_one = Tester::new(alloc, case.edits);
    let mut to_many = Tester::new(alloc, case.edits);
    let mut fabric = honest(alloc);
    let mut last = None;
    for at in 0..case.cycles {
        let host = acts_of(case.posts, at);
        let report = cycle(&mut one, &host, &mut fabric, &mut to_one)?;
        let split = cycle_split(rt, &mut many, &host, &mut to_many, &OpenGate)?;
        if report != split || to_one.asks != to_many.asks {
            return None;
        }
        let count = counts.get_mut(place_of(&report))?;
        *count = count.wrapping_add(1);
        last = Some(report);
    }
    if one.acts_left() == 0 && many.acts_left() == 0 {
        last
    } else {
        None
    }
}

/// What an element tells of a cycle, but for the pattern.
#[derive(Debug, PartialEq, Eq, Drop)]
struct Told {
    done: Done,
    /// The first byte of the entry.
    entry: Option<u8>,
    handed: Option<(Proc, Handed)>,
    update: Option<Outcome3>,
    notes: Row<Syndrome, 64>,
}

fn tells(record: &CycleRecord<4>) -> Told {
    let mut notes = Row::new();
    let _ = notes.try_extend_from_slice(record.syndromes.as_slice());
    Told {
        done: done(&record.decision),
        entry: record.packet.map(|p| p.bytes[0]),
        handed: record.handed,
        update: record.update,
        notes,
    }
}

/// Whether an element is in a set.
fn is_in(bits: u8, me: u8) -> bool {
    me < 8 && (Set8 { bits }).has(me)
}

/// What an element notes in the last cycle of a case.
fn notes_at(case: &Case, me: u8) -> Option<Row<Syndrome, 64>> {
    let mut notes = Row::new();
    for &(at, kind, accused, other) in case.notes {
        if is_in(at, me) {
            let _ = notes.try_push(Syndrome {
                cycle: case.cycles.checked_sub(1)?,
                kind,
                accused: Ne::new(accused, 4)?,
                other: Ne::new(other, 4)?,
            });
        }
    }
    Some(notes)
}

/// What an element is to tell of the last cycle of a case.
fn wanted(case: &Case, me: u8) -> Option<Told> {
    let (port, elements) = case.stored;
    let stored = (Proc { ne: me, port }, Handed::Stored);
    Some(Told {
        done: case.done,
        entry: case.entry,
        handed: is_in(elements, me).then_some(stored),
        update: case.update,
        notes: notes_at(case, me)?,
    })
}

/// Whether each fault-free element tells of the last cycle what it is to tell.
fn is_told(case: &Case, report: &CycleReport<4>) -> bool {
    let mut me = 0;
    for record in &report.rows {
        if case.faulty != Some(me) && wanted(case, me) != Some(tells(record)) {
            return false;
        }
        me = me.wrapping_add(1);
    }
    me == 4
}

/// How many cycles of a case serve, discard and do nothing, and whether the last one is told as it is to be.
fn ends<R: Threads + Sync>(rt: &R, alloc: Global, case: &Case) -> Option<([u32; 3], bool)> {
    let mut counts = [0; 3];
    let report = play(rt, alloc, case, &mut counts)?;
    Some((counts, is_told(case, &report)))
}

#[test]
fn cycles_end_by_the_rules_by_one_thread_or_many(rt: HostRuntime) -> Result<(), Fail> {
    for case in CASES {
        let ended = ends(&rt, rt.alloc(), case);
        assert_eq!(rt; ended, Some((case.counts, true)), "{}", case.name);
    }
    Ok(())
}

/// What is asked for in two cycles, in the order of a trace; nothing where no element is faulty.
fn wanted_asks(alloc: Global, faulty: Option<u8>) -> Option<Vec<Ask>> {
    let mut asks = Vec::with_capacity(alloc, 24).ok()?;
    let Some(sender) = faulty else {
        return Some(asks);
    };
    for cycle in 0..2 {
        for &round in ROUNDS {
            for to in 0..4 {
                if to != sender {
                    asks.push((cycle, round, to, sender)).ok()?;
                }
            }
        }
    }
    Some(asks)
}

/// What is asked for in two cycles without acts.
fn asks(alloc: Global, faulty: Option<u8>) -> Option<Vec<Ask>> {
    let mut cluster = new_cluster(alloc, 0, faulty, 2, 0)?;
    let mut tester = Tester::new(alloc, &[]);
    let mut fabric = honest(alloc);
    for _ in 0..2 {
        cycle(&mut cluster, &Row::new(), &mut fabric, &mut tester)?;
    }
    Some(tester.asks)
}

#[test]
fn each_frame_is_asked_for_once(rt: HostRuntime) -> Result<(), Fail> {
    for faulty in [None, Some(0), Some(1), Some(2), Some(3)] {
        let asked = asks(rt.alloc(), faulty).ok_or("cycles")?;
        let wanted = wanted_asks(rt.alloc(), faulty).ok_or("asks")?;
        assert_eq!(rt; asked, wanted, "of {faulty:?}");
    }
    Ok(())
}

/// How many steps of a cycle entered a gate at which two have to meet, and whether a first one gave up.
fn met<R: Threads + Sync>(rt: &R, alloc: Global) -> Option<(u64, u64)> {
    let mut cluster = new_cluster(alloc, 0, None, 1, 0)?;
    let mut tester = Tester::new(alloc, &[]);
    let gate = Meeting {
        entered: AtomicU64::new(0),
        gave_up: AtomicU64::new(0),
    };
    cycle_split(rt, &mut cluster, &Row::new(), &mut tester, &gate)?;
    let entered = gate.entered.load(Ordering::SeqCst);
    Some((entered, gate.gave_up.load(Ordering::SeqCst)))
}

#[test]
fn two_steps_run_at_one_time(rt: HostRuntime) -> Result<(), Fail> {
    // eight steps of each of four elements
    assert_eq!(rt; met(&rt, rt.alloc()), Some((32, 0)));
    Ok(())
}

/// Every seventh call of those of 200 cycles, each with 48 frames.
fn lies(alloc: Global) -> Option<Vec<u64>> {
    let mut calls = Vec::with_capacity(alloc, 1372).ok()?;
    for call in 0..9600 {
        if call % 7 == 3 {
            calls.push(call).ok()?;
        }
    }
    Some(calls)
}

/// Whether a report is of that cycle, with a record of each element, so many answers, and at most 52 notes of each.
fn is_whole(report: &CycleReport<4>, at: u32, answers: usize) -> bool {
    for record in &report.rows {
        if record.syndromes.len() > 52 {
            return false;
        }
    }
    (report.cycle, report.rows.len(), report.answers.len()) == (at, 4, answers)
}

/// 200 cycles over a fabric that lies, if each report is whole; three acts in each fifth cycle.
fn lied_to(alloc: Global) -> Option<Cluster<4>> {
    let case = CASES.first()?;
    let mut cluster = new_cluster(alloc, 0, Some(3), 200, 124)?;
    let mut liar = Liar::new(lies(alloc)?);
    let mut tester = Tester::new(alloc, RANDOM);
    for at in 0..200 {
        let host = acts_of(case.posts, at % 5);
        let report = cycle(&mut cluster, &host, &mut liar, &mut tester)?;
        let answers = if at % 5 == 0 { 3 } else { 0 };
        if !is_whole(&report, at, answers) {
            return None;
        }
    }
    Some(cluster)
}

/// How many cycles and acts are left of a cluster, how many cycles its journal has, and in which cycle each element is.
fn counts_of(cluster: &Cluster<4>) -> (u32, usize, u32, [u32; 4]) {
    let mut cycles = [0; 4];
    for number in 0..4u8 {
        if let Some(ne) = Ne::new(number, 4) {
            cycles[usize::from(number)] = cluster.element(ne).cycle();
        }
    }
    (
        cluster.remaining(),
        cluster.acts_left(),
        cluster.journal().len(),
        cycles,
    )
}

#[test]
fn nothing_stops_over_a_fabric_that_lies(rt: HostRuntime) -> Result<(), Fail> {
    let ended = lied_to(rt.alloc()).map(|cluster| counts_of(&cluster));
    assert_eq!(rt; ended, Some((0, 4, 200, [200; 4])));
    Ok(())
}
