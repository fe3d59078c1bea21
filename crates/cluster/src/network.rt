//! All elements with their links, and the frames that were delivered in the last cycle.

ghost use Rattle.std.specs.Prelude.{◌≡◌, ℕ, ◌<◌, ◌≤◌, ◌⊎◌, [], length, replicate, IfOk, IsTrue, Some, None};
ghost use Rattle.std.specs.List.{AllByRecursion};
ghost use Rattle.ftpp_base.specs.Lists.{each_below};
ghost use Rattle.link_fabric.specs.Rows.{rows_of};
ghost use Rattle.element_core.specs.Alone.{IsAct};
ghost use Rattle.element_core.specs.ElementValue.{fresh};
ghost use Rattle.cluster.specs.ClusterValue.{all_acted, all_answers, nothing_delivered};
ghost use Rattle.cluster.specs.Delivered.{frame_at};
ghost use Rattle.cluster.specs.Follows.{IsActAmong};
ghost use Rattle.cluster.specs.Stations.{AllPlaced, AllReady, AllRest, elements_of};
ghost use Rattle.cluster.specs.Carrying.{AreTables, TellsMore, bytes_in, cycle_entries};
ghost use Rattle.cluster.specs.Rounds.{PlaysCycleOf, RunsCycle, SendsCycle};
ghost use Rattle.cluster.specs.Rejoins.{AllTellStates, RejoinsAmong};

use crate::acts::{act_all, are_acts};
use crate::journal::Journal;
use crate::rejoining::rejoin_at;
use crate::rounds::{rounds_in_turn, rounds_split};
use crate::stations::Station;
use crate::telling::{cells_told, frame_of};
use bit_vote::Cells;
use config_table::Table;
use element_core::{Due, Rejoined};
use fault_script::Adversary;
use frame_format::FrameBuf;
use ftpp_base::{Gate, Ne, NoMemory, Round, Row, Slot};
use link_fabric::Fabric;
use packet_format::{Act, ActAnswer, MOST_ACTS};
use std::alloc::Global;
use std::thread::Threads;

/// All elements with their links, and of each round the frames that were delivered, by sender and receiver.
#[derive(Drop)]
pub(crate) struct Network<const N: usize> {
    pub(crate) stations: Vec<Station<N>>,
    pub(crate) a1: Vec<Vec<FrameBuf>>,
    pub(crate) a2: Vec<Vec<FrameBuf>>,
    pub(crate) b1: Vec<Vec<FrameBuf>>,
    pub(crate) b2: Vec<Vec<FrameBuf>>,
}

/// A frame of no bytes for each of so many receivers.
fn silent_row(alloc: Global, n: usize) -> Result<Vec<FrameBuf>, NoMemory>
    ensures { IfOk result (λ row. rows_of row.items ≡ replicate n []) }
{
    let Ok(mut row) = Vec::with_capacity(alloc, n) else {
        return Err(NoMemory);
    };
    for _ in 0..n {
        row.push_reserved(FrameBuf::new());
    }
    Ok(row)
}

/// The same for each of so many senders.
fn silent_table(alloc: Global, n: usize) -> Result<Vec<Vec<FrameBuf>>, NoMemory>
    ensures { IfOk result (λ rows. bytes_in rows.items ≡ replicate n (replicate n [])) }
{
    let Ok(mut rows) = Vec::with_capacity(alloc, n) else {
        return Err(NoMemory);
    };
    for _ in 0..n {
        let row = silent_row(alloc, n)?;
        rows.push_reserved(row);
    }
    Ok(rows)
}

/// The elements of a table before their first cycle.
fn new_stations<const N: usize>(alloc: Global, table: &Table) -> Result<Vec<Station<N>>, NoMemory>
    requires size { (N ≡ 4) ⊎ (N ≡ 5) }
    requires elements { table.now.n ≡ N }
    ensures elements { IfOk result (λ stations. elements_of stations.items ≡ each_below N (λ k. fresh k table.now)) }
    ensures placed { IfOk result (λ stations. AllPlaced stations.items) }
{
    let Ok(mut stations) = Vec::with_capacity(alloc, N) else {
        return Err(NoMemory);
    };
    for k in 0..N {
        let station = Station::new(alloc, Ne::at(k), table)?;
        stations.push_reserved(station);
    }
    Ok(stations)
}

impl<const N: usize> Network<N> {
    ghost use Rattle.cluster.specs.Clusters.{delivered_on};
    ghost use Rattle.cluster.specs.Journals.{with_cycle};

    /// The elements of a table before their first cycle, and no frames.
    pub(crate) fn new(alloc: Global, table: &Table) -> Result<Network<N>, NoMemory>
        requires size { (N ≡ 4) ⊎ (N ≡ 5) }
        requires elements { table.now.n ≡ N }
        ensures elements { IfOk result (λ f. elements_of f.stations.items ≡ each_below N (λ k. fresh k table.now)) }
        ensures placed { IfOk result (λ f. AllPlaced f.stations.items) }
        ensures delivered { IfOk result (λ f. delivered_on f ≡ nothing_delivered (replicate N (replicate N []))) }
    {
        Ok(Network {
            stations: new_stations(alloc, table)?,
            a1: silent_table(alloc, N)?,
            a2: silent_table(alloc, N)?,
            b1: silent_table(alloc, N)?,
            b2: silent_table(alloc, N)?,
        })
    }

    /// The acts of the processors, in order; the answers to them are written over those that stood there.
    pub(crate) fn act(&mut self, acts: &[Act], cycle: u32, answers: &mut Row<ActAnswer, MOST_ACTS>)
        requires size { (N ≡ 4) ⊎ (N ≡ 5) }
        requires count { length self.old.stations.items ≡ N }
        requires few { length acts.now ≤ MOST_ACTS }
        requires rest { AllRest cycle self.old.stations.items }
        requires among { AllByRecursion (IsActAmong N) acts.now }
        ensures elements { elements_of self.new.stations.items ≡ all_acted (elements_of self.old.stations.items) acts.now }
        ensures answers { answers.new.items ≡ all_answers (elements_of self.old.stations.items) acts.now }
        ensures rest { AllRest cycle self.new.stations.items }
        ensures count { length self.new.stations.items ≡ N }
        ensures delivered { delivered_on self.new ≡ delivered_on self.old }
        ensures whole { AllByRecursion IsAct acts.now }
    {
        are_acts(acts);
        act_all(self.stations.as_mut_slice(), acts, cycle, answers);
    }

    /// An element rejoins with the agreed state of the others. Refused, and nothing changes, exactly where they have none.
    pub(crate) fn rejoin(&mut self, ne: Ne) -> Rejoined
        requires size { (N ≡ 4) ⊎ (N ≡ 5) }
        requires count { length self.old.stations.items ≡ N }
        requires placed { AllPlaced self.old.stations.items }
        requires ready { AllReady (Due.Emit Round.A1) self.old.stations.items }
        requires below { ne < N }
        ensures rejoins { RejoinsAmong N ne (elements_of self.old.stations.items) result (elements_of self.new.stations.items) }
        ensures placed { AllPlaced self.new.stations.items }
        ensures states { AllTellStates self.old.stations.items }
        ensures delivered { delivered_on self.new ≡ delivered_on self.old }
    {
        rejoin_at(self.stations.as_mut_slice(), ne)
    }

    /// The four rounds of a cycle, by one thread.
    pub(crate) fn run<F: Fabric, A: Adversary>(
        &mut self,
        fabric: &mut F,
        adversary: &mut A,
        faulty: &Option<Ne>,
        cycle: u32,
    )
        requires size { (N ≡ 4) ⊎ (N ≡ 5) }
        requires count { length self.old.stations.items ≡ N }
        requires tables { AreTables N (delivered_on self.old) }
        requires placed { AllPlaced self.old.stations.items }
        requires ready { AllReady (Due.Emit Round.A1) self.old.stations.items }
        requires below { (ne : ℕ) → faulty.now ≡ Some ne → ne < N }
        ensures runs { RunsCycle self.old.stations.items self.new.stations.items (delivered_on self.new) }
        ensures count { length self.new.stations.items ≡ N }
        ensures tables { AreTables N (delivered_on self.new) }
        ensures sends { IsTrue (F.honest fabric.old) → SendsCycle faulty.now self.old.stations.items (delivered_on self.new) }
        ensures plays { IsTrue (F.honest fabric.old) → PlaysCycleOf N cycle faulty.now self.old.stations.items (delivered_on self.new) (A.told adversary.old) (A.told adversary.new) }
        ensures silent { faulty.now ≡ None → A.told adversary.new ≡ A.told adversary.old }
        ensures honest { IsTrue (F.honest fabric.old) → IsTrue (F.honest fabric.new) }
        ensures told { TellsMore (F.told fabric.old) (cycle_entries N cycle (delivered_on self.new)) (F.told fabric.new) }
    {
        rounds_in_turn(
            self.stations.as_mut_slice(),
            self.a1.as_mut_slice(),
            self.a2.as_mut_slice(),
            self.b1.as_mut_slice(),
            self.b2.as_mut_slice(),
            fabric,
            adversary,
            faulty,
            cycle,
        );
    }

    /// The four rounds of a cycle, with the steps of the elements in threads of their own.
    pub(crate) fn run_split<R: Threads + Sync, F: Fabric, A: Adversary, G: Gate>(
        &mut self,
        rt: &R,
        fabric: &mut F,
        adversary: &mut A,
        faulty: &Option<Ne>,
        cycle: u32,
        gate: &G,
    )
        requires size { (N ≡ 4) ⊎ (N ≡ 5) }
        requires count { length self.old.stations.items ≡ N }
        requires tables { AreTables N (delivered_on self.old) }
        requires placed { AllPlaced self.old.stations.items }
        requires ready { AllReady (Due.Emit Round.A1) self.old.stations.items }
        requires below { (ne : ℕ) → faulty.now ≡ Some ne → ne < N }
        ensures runs { RunsCycle self.old.stations.items self.new.stations.items (delivered_on self.new) }
        ensures count { length self.new.stations.items ≡ N }
        ensures tables { AreTables N (delivered_on self.new) }
        ensures sends { IsTrue (F.honest fabric.old) → SendsCycle faulty.now self.old.stations.items (delivered_on self.new) }
        ensures plays { IsTrue (F.honest fabric.old) → PlaysCycleOf N cycle faulty.now self.old.stations.items (delivered_on self.new) (A.told adversary.old) (A.told adversary.new) }
        ensures silent { faulty.now ≡ None → A.told adversary.new ≡ A.told adversary.old }
        ensures honest { IsTrue (F.honest fabric.old) → IsTrue (F.honest fabric.new) }
        ensures told { TellsMore (F.told fabric.old) (cycle_entries N cycle (delivered_on self.new)) (F.told fabric.new) }
    {
        rounds_split(
            rt,
            self.stations.as_mut_slice(),
            self.a1.as_mut_slice(),
            self.a2.as_mut_slice(),
            self.b1.as_mut_slice(),
            self.b2.as_mut_slice(),
            fabric,
            adversary,
            faulty,
            cycle,
            gate,
        );
    }

    /// Adds the cycle to the journal: the acts, and what the faulty element's frames of A1 and of B1 read as, by receiver.
    pub(crate) fn note(
        &self,
        journal: &mut Journal<N>,
        rejoined: &Option<Ne>,
        faulty: &Option<Ne>,
        acts: &[Act],
    )
        requires size { (N ≡ 4) ⊎ (N ≡ 5) }
        requires tables { AreTables N (delivered_on self.now) }
        requires below { (ne : ℕ) → faulty.now ≡ Some ne → ne < N }
        requires cycles { 1 ≤ journal.old.remaining }
        requires acts { length acts.now ≤ journal.old.acts_left }
        ensures { journal.new ≡ with_cycle N rejoined.now faulty.now acts.now (delivered_on self.now) journal.old }
    {
        let cycle = journal.len();
        let patterns = cells_told(
            self.a1.as_slice(),
            Slot {
                cycle,
                round: Round::A1,
            },
            faulty,
        );
        let packets = cells_told(
            self.b1.as_slice(),
            Slot {
                cycle,
                round: Round::B1,
            },
            faulty,
        );
        journal.add(rejoined, faulty, acts, patterns, packets);
    }

    /// The frame that was delivered in a round of the last cycle.
    pub(crate) fn frame(&self, round: Round, from: Ne, to: Ne) -> &FrameBuf
        requires tables { AreTables N (delivered_on self.now) }
        requires from { from < N }
        requires to { to < N }
        ensures { result.now.items ≡ frame_at (delivered_on self.now) round from to }
    {
        match round {
            Round::A1 => frame_of::<N>(self.a1.as_slice(), from, to),
            Round::A2 => frame_of::<N>(self.a2.as_slice(), from, to),
            Round::B1 => frame_of::<N>(self.b1.as_slice(), from, to),
            Round::B2 => frame_of::<N>(self.b2.as_slice(), from, to),
        }
    }
}
