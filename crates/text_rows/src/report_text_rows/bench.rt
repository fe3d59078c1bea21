//! Reports of cycles, made by hand.

ghost use Rattle.std.specs.Prelude.{◌≡◌, ◌<◌, ◌⊎◌, IsTrue};
ghost use Rattle.report_text.specs.Sums.{IsBounded};

use super::cases::{Asked, Case, Decided, FrameCase, Run, Way};
use config_table::{Decision, Kind, Service};
use element_core::{CycleRecord, CycleReport, Rejoined};
use frame_format::FrameBuf;
use ftpp_base::{MOST_CYCLES, Ne, Proc, Row, Set8};
use local_pattern::{Entry, LocalPattern, SystemPattern};
use packet_format::{Act, ActAnswer, Delivered, Descriptor, HostActs, Packet};
use processor_buffers::Handed;
use report_text::{TextBuf, Totals, cycle_text, end_text, trace_text};
use syndrome_log::{Syndrome, SyndromeKind};

fn packet(first: [u8; 3]) -> Packet {
    let mut bytes = [0; 64];
    bytes[..3].copy_from_slice(&first);
    Packet { bytes }
}

/// The request that waits at a port of an element.
fn request_at(case: &Case, ne: u8, port: u8) -> Option<Descriptor>
    requires { ne < 4 }
{
    for &(at, waits_at, desc) in case.waiting {
        if waits_at == port && (Set8 { bits: at }).has(ne) {
            return Some(desc);
        }
    }
    None
}

fn has_space(case: &Case, ne: u8, port: u8) -> bool
    requires { ne < 4 }
{
    for &(at, full_at) in case.full {
        if full_at == port && (Set8 { bits: at }).has(ne) {
            return false;
        }
    }
    true
}

/// What one element shows of its ports.
fn column(case: &Case, ne: u8) -> LocalPattern
    requires { ne < 4 }
{
    let mut column = LocalPattern::quiet();
    if (Set8 { bits: case.silent }).has(ne) {
        return column;
    }
    for port in 0..8u8 {
        let request = request_at(case, ne, port);
        column.set(
            port,
            Entry {
                not_empty: request.is_some(),
                not_full: has_space(case, ne, port),
                desc: request.unwrap_or_default(),
            },
        );
    }
    column
}

fn pattern(case: &Case) -> Option<SystemPattern<4>> {
    let mut pattern = SystemPattern::quiet();
    for ne in 0..4u8 {
        pattern.set_column(Ne::new(ne, 4)?, column(case, ne));
    }
    Some(pattern)
}

fn kind(way: Way) -> Option<Kind> {
    match way {
        Way::Voted => Some(Kind::Voted),
        Way::Source(ne) => Some(Kind::Source(Ne::new(ne, 4)?)),
        Way::Every => Some(Kind::Every),
    }
}

fn decision(decided: Decided) -> Option<Decision> {
    match decided {
        Decided::Idle => Some(Decision::Idle),
        Decided::Discards(vid, desc, reason, waited, admitted) => Some(Decision::Discard {
            vid,
            desc,
            reason,
            admitted: Set8 { bits: admitted },
            waited,
        }),
        Decided::Serves(vid, desc, way, waited, admitted) => Some(Decision::Exchange(Service {
            vid,
            desc,
            kind: kind(way)?,
            admitted: Set8 { bits: admitted },
            waited,
        })),
    }
}

/// What is handed to the processor at an element.
fn handed_at(handed: &[(u8, u8, Handed)], ne: u8) -> Option<(Proc, Handed)>
    requires { ne < 4 }
{
    for &(at, port, what) in handed {
        if (Set8 { bits: at }).has(ne) {
            return Some((Proc { ne, port }, what));
        }
    }
    None
}

fn notes(case: &Case, ne: u8) -> Option<Row<Syndrome, 64>>
    requires { ne < 4 }
{
    let mut row = Row::new();
    for &(at, kind, accused, other) in case.notes {
        if (Set8 { bits: at }).has(ne) {
            let _ = row.try_push(Syndrome {
                cycle: case.cycle,
                kind,
                accused: Ne::new(accused, 4)?,
                other: Ne::new(other, 4)?,
            });
        }
    }
    Some(row)
}

fn record(case: &Case, ne: u8) -> Option<CycleRecord<4>>
    requires { ne < 4 }
{
    Some(CycleRecord {
        cycle: case.cycle,
        pattern: pattern(case)?,
        decision: decision(case.decided)?,
        packet: case.results.get(ne as usize)?.map(packet),
        handed: handed_at(case.handed, ne),
        update: case.update,
        syndromes: notes(case, ne)?,
    })
}

fn answered(proc: Proc, asked: Asked) -> (Act, ActAnswer) {
    let post = Act::Post {
        proc,
        desc: Descriptor::default(),
        packet: Packet::default(),
    };
    match asked {
        Asked::Posted => (post, ActAnswer::Posted),
        Asked::PostFull => (post, ActAnswer::PostFull),
        Asked::Nothing => (Act::Read(proc), ActAnswer::Nothing),
        Asked::Got(cycle, byte) => {
            let got = Delivered {
                cycle,
                from: 5,
                class: 2,
                dest: 3,
                packet: packet([byte, 0, 0]),
            };
            (Act::Read(proc), ActAnswer::Got(got))
        }
    }
}

/// What the processors ask for in a cycle, and its report.
fn report_of(case: &Case) -> Option<(HostActs, CycleReport<4>)> {
    let faulty = match case.faulty {
        None => None,
        Some(ne) => Some(Ne::new(ne, 4)?),
    };
    let mut acts = HostActs::new();
    let mut answers = Row::new();
    for &(times, ne, port, asked) in case.acts {
        let (act, answer) = answered(Proc { ne, port }, asked);
        for _ in 0..times {
            let _ = acts.try_push(act);
            let _ = answers.try_push(answer);
        }
    }
    let mut rows = Row::new();
    for ne in 0..4 {
        let _ = rows.try_push(record(case, ne)?);
    }
    let report = CycleReport {
        cycle: case.cycle,
        faulty,
        answers,
        rows,
    };
    Some((acts, report))
}

/// The request that is longest in a text.
const LONGEST: Descriptor = Descriptor {
    dest: 254,
    class: 2,
    source: 255,
};

/// Five elements that all show a request at each port.
fn full_pattern() -> Option<SystemPattern<5>> {
    let mut column = LocalPattern::quiet();
    for port in 0..8u8 {
        column.set(
            port,
            Entry {
                not_empty: true,
                not_full: true,
                desc: LONGEST,
            },
        );
    }
    let mut pattern = SystemPattern::quiet();
    for ne in 0..5u8 {
        pattern.set_column(Ne::new(ne, 5)?, column);
    }
    Some(pattern)
}

/// All that an element notes at most in a cycle.
fn most_notes() -> Option<Row<Syndrome, 64>> {
    let mut row = Row::new();
    for (kind, times) in [
        (SyndromeKind::P1, 4),
        (SyndromeKind::P2, 16),
        (SyndromeKind::R, 4),
        (SyndromeKind::O, 4),
        (SyndromeKind::D1, 4),
        (SyndromeKind::D2, 16),
        (SyndromeKind::V, 4),
    ] {
        for _ in 0..times {
            let _ = row.try_push(Syndrome {
                cycle: 99_999,
                kind,
                accused: Ne::new(3, 5)?,
                other: Ne::new(0, 5)?,
            });
        }
    }
    Some(row)
}

fn fullest_record(ne: u8) -> Option<CycleRecord<5>> {
    let service = Service {
        vid: 254,
        desc: LONGEST,
        kind: Kind::Source(Ne::new(4, 5)?),
        admitted: Set8 { bits: 0b1_1111 },
        waited: 99_999,
    };
    Some(CycleRecord {
        cycle: 99_999,
        pattern: full_pattern()?,
        decision: Decision::Exchange(service),
        packet: Some(Packet { bytes: [0xff; 64] }),
        handed: Some((Proc { ne, port: 7 }, Handed::Overrun)),
        update: None,
        syndromes: most_notes()?,
    })
}

/// A cycle in which all processors act, and all elements note all that they can.
fn fullest() -> Option<(HostActs, CycleReport<5>)> {
    let got = Delivered {
        cycle: 99_998,
        from: 254,
        class: 2,
        dest: 254,
        packet: Packet { bytes: [0xff; 64] },
    };
    let mut acts = HostActs::new();
    let mut answers = Row::new();
    for place in 0..80u8 {
        let proc = Proc {
            ne: place % 5,
            port: place / 5 % 8,
        };
        let _ = acts.try_push(Act::Read(proc));
        let _ = answers.try_push(ActAnswer::Got(got));
    }
    let mut rows = Row::new();
    for ne in 0..5 {
        let _ = rows.try_push(fullest_record(ne)?);
    }
    let report = CycleReport {
        cycle: 99_999,
        faulty: None,
        answers,
        rows,
    };
    Some((acts, report))
}

/// Whether the totals are of fewer cycles than a run has, and no total is above what they can show.
fn may_grow(totals: &Totals) -> bool
    ensures cycles { IsTrue result → totals.now.cycles < MOST_CYCLES }
    ensures bounded { IsTrue result → IsBounded totals.now }
{
    if totals.cycles >= 100_000 {
        return false;
    }
    let most = 260 * totals.cycles;
    totals.served <= most
        && totals.discarded <= most
        && totals.idle <= most
        && totals.stored <= most
        && totals.overrun <= most
        && totals.syndromes <= most
}

/// Adds a cycle to the totals as often as it comes, where it has a row for each element.
fn is_added<const N: usize>(times: u32, report: &CycleReport<N>, totals: &mut Totals) -> bool
    requires { (N ≡ 4) ⊎ (N ≡ 5) }
{
    for _ in 0..times {
        if report.rows.len() != N || !may_grow(totals) {
            return false;
        }
        totals.add(report);
    }
    true
}

/// Writes the text of a cycle in place of another, where it has a row for each element and an answer for each act.
fn is_written<const N: usize>(
    rejoin: Option<(u8, Rejoined)>,
    acts: &HostActs,
    report: &CycleReport<N>,
    out: &mut TextBuf,
) -> Option<()>
    requires { (N ≡ 4) ⊎ (N ≡ 5) }
{
    let rejoin = match rejoin {
        None => None,
        Some((ne, rejoined)) => Some((Ne::new(ne, 5)?, rejoined)),
    };
    if report.rows.len() != N || acts.len() != report.answers.len() {
        return None;
    }
    out.clear();
    cycle_text(rejoin, acts, report, out);
    Some(())
}

/// Whether a cycle's text is the wanted one. It is added to the totals as often as it comes.
fn is_shown(case: &Case, totals: &mut Totals, out: &mut TextBuf) -> Option<bool> {
    let (acts, report) = report_of(case)?;
    is_written(case.rejoin, &acts, &report, out)?;
    Some(is_added(case.times, &report, totals) && out.bytes() == case.text.as_bytes())
}

/// What is wanted at the first place where the text of a run is another.
pub(super) fn first_other(run: &Run, out: &mut TextBuf) -> Option<&'static str> {
    let mut totals = Totals::zero();
    for case in run.cycles {
        if is_shown(case, &mut totals, out) != Some(true) {
            return Some(case.text);
        }
    }
    out.clear();
    end_text(&totals, out);
    (out.bytes() != run.end.as_bytes()).then_some(run.end)
}

/// Writes the fullest cycle, and gives how many bytes that are and how many notes are counted.
pub(super) fn fullest_shown(out: &mut TextBuf) -> Option<(usize, u64)> {
    let (acts, report) = fullest()?;
    let mut totals = Totals::zero();
    is_written(Some((4, Rejoined::Refused)), &acts, &report, out)?;
    is_added(1, &report, &mut totals).then_some((out.bytes().len(), totals.syndromes))
}

/// Whether the line of a frame is the wanted one.
pub(super) fn is_traced(case: &FrameCase, out: &mut TextBuf) -> Option<bool> {
    let from = Ne::new(case.from, 5)?;
    let to = Ne::new(case.to, 5)?;
    let mut frame = FrameBuf::new();
    frame.try_extend_from_slice(case.frame).ok()?;
    out.clear();
    trace_text::<5>(case.cycle, &frame, case.round, from, to, out);
    Some(out.bytes() == case.text.as_bytes())
}
