//! The end of a cycle.

ghost use Rattle.std.specs.Prelude.{◌≡◌, ◌≤◌, Some, length, option_copied, option_map};
ghost use Rattle.element_notes.specs.AtHand.{AreResults, HasDiffering};
ghost use Rattle.element_core.specs.Sent.{is_relayed};
ghost use Rattle.element_core.specs.Element.{own_entry, own_update, made};
ghost use Rattle.element_core.specs.Noted.{noted_by};
ghost use Rattle.element_core.specs.ElementValue.{ended_with, decision_now, packets_now};
ghost use Rattle.element_core.specs.Frames.{FitsTable};
ghost use Rattle.element_core.specs.Told.{told_of};
ghost use Rattle.element_core.specs.Ended.{told_in};

use crate::pending::Pending;
use crate::{CycleRecord, Due, Element, Outcome3};
use bit_vote::Cells;
use config_table::{Decision, Table};
use data_exchange::{entry, members_result};
use element_notes::{Differing, Seen, note_differing, relayed};
use ftpp_base::{Proc, Round, Row, Set8};
use packet_format::Packet;
use processor_buffers::Handed;
use syndrome_log::Syndrome;
use two_round::TwoRound;

impl<const N: usize> Element<N> {
    /// Makes of all four rounds what the cycle gives, and goes over to the next one.
    pub(crate) fn end_cycle(&mut self)
        requires { self.old.due ≡ Due.Absorb Round.B2 }
        ensures { self.new ≡ ended_with self.old self.old.heard }
    {
        // room that `settle` writes over
        let mut results = self.packets.echo();
        let sent = relayed(&self.pending.decision);
        let differing = self.packets.settle(sent, &mut results);
        let packet = entry_of(
            self.kept.table(),
            &self.pending.decision,
            &self.packets,
            &results,
        );
        let asked = update_of(
            self.kept.table(),
            &self.pending.decision,
            &self.packets,
            &results,
        );
        let mut syndromes = Row::new();
        self.note(&results, differing, packet.as_ref(), &mut syndromes);
        self.log.extend_from_slice(syndromes.as_slice());
        let cycle = self.kept.cycle();
        let handed = self.kept.serve(
            &self.pending.decision,
            packet.as_ref(),
            &mut self.pending.after,
        );
        let update = self.kept.update(&asked);
        let ended = Ended {
            cycle,
            packet,
            handed,
            update,
        };
        tell(&mut self.last, &self.pending, &ended, syndromes.as_slice());
        self.patterns.restart();
        self.packets.restart();
        self.due = Due::Emit(Round::A1);
    }

    /// What it notes of the others at the end of the cycle.
    fn note(
        &self,
        results: &Cells<N, 64>,
        packets: Set8,
        entry: Option<&Packet>,
        out: &mut Row<Syndrome, 64>,
    )
        requires due { self.now.due ≡ Due.Absorb Round.B2 }
        requires results { AreResults N (packets_now self.now) (is_relayed (decision_now self.now)) results.now }
        requires differing { HasDiffering N (packets_now self.now) (is_relayed (decision_now self.now)) packets }
        requires entry { option_copied entry ≡ own_entry self.now.kept.table (decision_now self.now) (packets_now self.now) }
        ensures { out.new.items ≡ noted_by self.now.kept (made self.now.kept self.now.heard) }
    {
        let seen = Seen {
            me: self.kept.me(),
            cycle: self.kept.cycle(),
            table: self.kept.table(),
            pattern: &self.pending.pattern,
            decision: &self.pending.decision,
            patterns: &self.patterns,
            pattern_results: &self.pending.results,
            packets: &self.packets,
            packet_results: results,
            entry,
        };
        let differing = Differing {
            patterns: self.pending.differing,
            packets,
        };
        note_differing(&seen, &differing, out);
    }
}

/// What came of a cycle, beside its pattern, its decision and its notes.
#[derive(Drop)]
struct Ended {
    cycle: u32,
    packet: Option<Packet>,
    handed: Option<(Proc, Handed)>,
    update: Option<Outcome3>,
}

/// Writes the record of a cycle in place of that of the last one.
fn tell<const N: usize>(
    last: &mut Option<CycleRecord<N>>,
    pending: &Pending<N>,
    ended: &Ended,
    notes: &[Syndrome],
)
    requires { length notes.now ≤ 64 }
    ensures { option_map told_of last.new ≡ Some (told_in pending.now ended.now notes.now) }
{
    match last {
        Some(told) => retell(told, pending, ended, notes),
        None => {
            let mut told = CycleRecord::default();
            retell(&mut told, pending, ended, notes);
            *last = Some(told);
        }
    }
}

/// Writes the record of a cycle over another one.
fn retell<const N: usize>(
    told: &mut CycleRecord<N>,
    pending: &Pending<N>,
    ended: &Ended,
    notes: &[Syndrome],
)
    requires { length notes.now ≤ 64 }
    ensures { told_of told.new ≡ told_in pending.now ended.now notes.now }
{
    told.cycle = ended.cycle;
    told.pattern = pending.pattern;
    told.decision = pending.decision;
    told.packet = ended.packet;
    told.handed = ended.handed;
    told.update = ended.update;
    told.syndromes.clear();
    let _ = told.syndromes.try_extend_from_slice(notes);
}

/// The entry of a cycle: the packet of an exchange, if there is one and it has a result.
fn entry_of<const N: usize>(
    table: &Table,
    decision: &Decision,
    packets: &TwoRound<N, 64>,
    results: &Cells<N, 64>,
) -> Option<Packet>
    requires few { N ≤ 5 }
    requires elements { table.now.n ≡ N }
    requires fits { FitsTable N decision.now }
    requires results { AreResults N packets.now (is_relayed decision.now) results.now }
    ensures { result ≡ own_entry table.now decision.now packets.now }
{
    match decision {
        Decision::Exchange(service) => entry(table, service, packets.copies(), results),
        _ => None,
    }
}

/// What an exchange of class 3 asks for, and None where there is none.
fn update_of<const N: usize>(
    table: &Table,
    decision: &Decision,
    packets: &TwoRound<N, 64>,
    results: &Cells<N, 64>,
) -> Option<Option<Packet>>
    requires few { N ≤ 5 }
    requires elements { table.now.n ≡ N }
    requires fits { FitsTable N decision.now }
    requires results { AreResults N packets.now (is_relayed decision.now) results.now }
    ensures { result ≡ own_update table.now decision.now packets.now }
{
    match decision {
        Decision::Exchange(service) if service.desc.class == 3 => {
            Some(members_result(table, service, results))
        }
        _ => None,
    }
}
