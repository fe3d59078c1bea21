//! A script that is played on a cluster, cycle by cycle. What is done with each cycle is up to the caller.

ghost use Rattle.std.specs.Prelude.{◌≡◌, ℕ, ◌+◌, ◌<◌, ◌≤◌, ◌⊎◌, length, IfOk, IsTrue, Some, None, ◌∷◌};
ghost use Rattle.fault_script.specs.Edited.{never_fall};
ghost use Rattle.script_text.specs.Reading.{plan_of};
ghost use Rattle.script_text.specs.Playable.{IsPlayable};
ghost use Rattle.config_table.specs.Table.{TableValue};
ghost use Rattle.std.specs.List.{AllByRecursion};
ghost use Rattle.cluster.specs.Carrying.{TellsMore, cycle_entries};
ghost use Rattle.cluster.specs.ClusterValue.{after_frames};
ghost use Rattle.cluster.specs.Clusters.{PlaysOf};
ghost use Rattle.cluster.specs.Follows.{Follows, IsActAmong, IsStepOfRun};
ghost use Rattle.cluster.specs.Reports.{Reports};
ghost use Rattle.cluster.specs.Delivered.{frame_at};
ghost use Rattle.report_text.specs.Trace.{cycle_frames};
ghost use Rattle.ftpp_top.specs.FollowsScript.{StandsAt};
ghost use Rattle.ftpp_top.specs.Playing.{IsReady, IsBegun, IsTaken, IsShown, IsRejoinOf, IsCycleOf, told_by};

use crate::due::due_acts;
use cluster::{Cluster, empty_report};
use config_table::Table;
use element_core::{CycleReport, Rejoined};
use fault_script::Player;
use ftpp_base::{Gate, MOST_CYCLES, Ne, NoMemory, Row};
use link_fabric::Fabric;
use packet_format::{Act, HostActs};
use script_text::Script;
use std::alloc::Global;
use std::thread::Threads;

/// A cluster, the script that is played on it, and what is left of the script.
#[derive(Drop)]
pub struct Playing<'a, const N: usize> {
    pub script: &'a Script,
    pub cluster: Cluster<N>,
    pub player: Player<'a>,
    pub acts: &'a [(u32, Act)],
    pub rejoins: &'a [(u32, Option<Ne>)],
    /// The acts of the last cycle.
    pub host: HostActs,
    /// The report of the last cycle. One is kept for all cycles, since it is large.
    pub report: CycleReport<N>,
}

/// A copy, since an option of an element is moved where it is passed.
fn same_element(ne: &Option<Ne>) -> Option<Ne>
    ensures { result ≡ ne.now }
{
    match ne {
        None => None,
        Some(ne) => Some(*ne),
    }
}

/// A cycle with a player, by one thread.
fn step<const N: usize, F: Fabric>(
    cluster: &mut Cluster<N>,
    acts: &HostActs,
    fabric: &mut F,
    player: &mut Player<'_>,
    report: &mut CycleReport<N>,
)
    requires cycles { 1 ≤ cluster.old.remaining }
    requires acts { length acts.now.items ≤ cluster.old.acts_left }
    requires among { AllByRecursion (IsActAmong N) acts.now.items }
    ensures next { cluster.new ≡ after_frames cluster.old acts.now.items cluster.new.delivered }
    ensures report { Reports cluster.old acts.now.items cluster.new report.new }
    ensures step { IsTrue (F.honest fabric.old) → Follows cluster.old → IsStepOfRun cluster.old acts.now.items cluster.new }
    ensures plays { IsTrue (F.honest fabric.old) → PlaysOf cluster.old acts.now.items cluster.new (Some (told_by player.old)) (Some (told_by player.new)) }
    ensures silent { cluster.old.faulty ≡ None → Some (told_by player.new) ≡ Some (told_by player.old) }
    ensures honest { IsTrue (F.honest fabric.old) → IsTrue (F.honest fabric.new) }
    ensures told { TellsMore (F.told fabric.old) (cycle_entries cluster.old.first.n (length cluster.old.journal) cluster.new.delivered) (F.told fabric.new) }
{
    cluster.cycle_into(acts, fabric, player, report);
}

/// The same, with the steps of the elements in threads of their own, where they can be had.
fn step_split<const N: usize, R: Threads + Sync, F: Fabric, G: Gate>(
    rt: &R,
    cluster: &mut Cluster<N>,
    acts: &HostActs,
    fabric: &mut F,
    player: &mut Player<'_>,
    gate: &G,
    report: &mut CycleReport<N>,
)
    requires cycles { 1 ≤ cluster.old.remaining }
    requires acts { length acts.now.items ≤ cluster.old.acts_left }
    requires among { AllByRecursion (IsActAmong N) acts.now.items }
    ensures next { cluster.new ≡ after_frames cluster.old acts.now.items cluster.new.delivered }
    ensures report { Reports cluster.old acts.now.items cluster.new report.new }
    ensures step { IsTrue (F.honest fabric.old) → Follows cluster.old → IsStepOfRun cluster.old acts.now.items cluster.new }
    ensures plays { IsTrue (F.honest fabric.old) → PlaysOf cluster.old acts.now.items cluster.new (Some (told_by player.old)) (Some (told_by player.new)) }
    ensures silent { cluster.old.faulty ≡ None → Some (told_by player.new) ≡ Some (told_by player.old) }
    ensures honest { IsTrue (F.honest fabric.old) → IsTrue (F.honest fabric.new) }
    ensures told { TellsMore (F.told fabric.old) (cycle_entries cluster.old.first.n (length cluster.old.journal) cluster.new.delivered) (F.told fabric.new) }
{
    cluster.cycle_split_into(rt, acts, fabric, player, gate, report);
}

/// What a script that can be played asks of a cluster: each clause follows from the first, and nothing is done.
fn asks<const N: usize>(script: &Script)
    requires { IsPlayable N (plan_of script.now) }
    ensures below { (ne : ℕ) → script.now.faulty ≡ Some ne → ne < N }
    ensures some { 1 ≤ script.now.cycles }
    ensures cycles { script.now.cycles ≤ MOST_CYCLES }
    ensures acts { length script.now.acts.items ≤ 8000000 }
{
    let _script = script;
}

impl<'a, const N: usize> Playing<'a, N> {
    /// Before the first cycle. It takes all memory that the cycles need.
    pub(crate) fn new(
        alloc: Global,
        table: &Table,
        script: &'a Script,
    ) -> Result<Playing<'a, N>, NoMemory>
        requires size { (N ≡ 4) ⊎ (N ≡ 5) }
        requires elements { table.now.n ≡ N }
        requires playable { IsPlayable N (plan_of script.now) }
        requires edits { IsTrue (never_fall 0 script.now.edits.items) }
        ensures script { IfOk result (λ p. p.script.now ≡ script.now) }
        ensures first { IfOk result (λ p. p.cluster.first ≡ table.now) }
        ensures start { IfOk result (λ p. length p.cluster.journal ≡ 0) }
        ensures ready { IfOk result (λ p. IsReady N (plan_of script.now) p.cluster p.acts.now p.rejoins.now) }
        ensures stands { IfOk result (λ p. StandsAt table.now (plan_of script.now) 0 p.cluster (told_by p.player)) }
    {
        // a table is valid, which a call of it tells
        let _elements = table.n();
        asks::<N>(script);
        let faulty = same_element(&script.faulty);
        let cluster = Cluster::new(alloc, table, faulty, script.cycles, script.acts.len())?;
        Ok(Playing {
            script,
            cluster,
            player: Player::new(script.edits.as_slice()),
            acts: script.acts.as_slice(),
            rejoins: script.rejoins.as_slice(),
            host: Row::new(),
            report: empty_report(),
        })
    }

    /// The rejoin that the script has just before the coming cycle, if there is one there.
    fn rejoin(&mut self) -> Option<(Ne, Rejoined)>
        requires ready { IsReady N (plan_of self.old.script.now) self.old.cluster self.old.acts.now self.old.rejoins.now }
        requires more { 1 ≤ self.old.cluster.remaining }
        ensures script { self.new.script ≡ self.old.script }
        ensures player { self.new.player ≡ self.old.player }
        ensures acts { self.new.acts ≡ self.old.acts }
        ensures first { self.new.cluster.first ≡ self.old.cluster.first }
        ensures journal { self.new.cluster.journal ≡ self.old.cluster.journal }
        ensures begun { IsBegun N (plan_of self.old.script.now) self.new.cluster self.new.acts.now self.new.rejoins.now }
        ensures run { (table : TableValue) → IsRejoinOf table (plan_of self.old.script.now) self.old.cluster (told_by self.old.player) result self.new.cluster }
    {
        match self.rejoins.split_first() {
            None => None,
            Some((entry, later)) => self.rejoin_if_due(entry, later),
        }
    }

    /// The same, where this is the next rejoin of the script, and these are those behind it.
    fn rejoin_if_due(
        &mut self,
        entry: &(u32, Option<Ne>),
        later: &'a [(u32, Option<Ne>)],
    ) -> Option<(Ne, Rejoined)>
        requires ready { IsReady N (plan_of self.old.script.now) self.old.cluster self.old.acts.now (entry.now ∷ later.now) }
        requires rejoins { self.old.rejoins.now ≡ entry.now ∷ later.now }
        requires more { 1 ≤ self.old.cluster.remaining }
        ensures script { self.new.script ≡ self.old.script }
        ensures player { self.new.player ≡ self.old.player }
        ensures acts { self.new.acts ≡ self.old.acts }
        ensures first { self.new.cluster.first ≡ self.old.cluster.first }
        ensures journal { self.new.cluster.journal ≡ self.old.cluster.journal }
        ensures begun { IsBegun N (plan_of self.old.script.now) self.new.cluster self.new.acts.now self.new.rejoins.now }
        ensures run { (table : TableValue) → IsRejoinOf table (plan_of self.old.script.now) self.old.cluster (told_by self.old.player) result self.new.cluster }
    {
        if entry.0 != self.cluster.journal().len() {
            return None;
        }
        let Some(ne) = self.cluster.faulty() else {
            return None;
        };
        self.rejoins = later;
        Some((ne, self.cluster.rejoin(same_element(&entry.1))))
    }

    /// Takes the acts of the coming cycle.
    fn take_acts(&mut self)
        requires { IsBegun N (plan_of self.old.script.now) self.old.cluster self.old.acts.now self.old.rejoins.now }
        ensures script { self.new.script ≡ self.old.script }
        ensures player { self.new.player ≡ self.old.player }
        ensures cluster { self.new.cluster ≡ self.old.cluster }
        ensures rejoins { self.new.rejoins ≡ self.old.rejoins }
        ensures taken { IsTaken (length self.old.cluster.journal) self.old.acts.now self.new.host.items self.new.acts.now }
        ensures more { 1 ≤ self.new.cluster.remaining }
        ensures fits { length self.new.host.items ≤ self.new.cluster.acts_left }
        ensures among { AllByRecursion (IsActAmong N) self.new.host.items }
    {
        let cycle = self.cluster.journal().len();
        self.acts = due_acts(self.acts, cycle, &mut self.host);
    }

    /// The next cycle, by one thread. It gives the element that was asked to rejoin just before it, with the answer.
    pub(crate) fn next<F: Fabric>(&mut self, fabric: &mut F) -> Option<(Ne, Rejoined)>
        requires size { (N ≡ 4) ⊎ (N ≡ 5) }
        requires ready { IsReady N (plan_of self.old.script.now) self.old.cluster self.old.acts.now self.old.rejoins.now }
        requires more { 1 ≤ self.old.cluster.remaining }
        ensures script { self.new.script ≡ self.old.script }
        ensures first { self.new.cluster.first ≡ self.old.cluster.first }
        ensures cycle { length self.new.cluster.journal ≡ length self.old.cluster.journal + 1 }
        ensures ready { IsReady N (plan_of self.new.script.now) self.new.cluster self.new.acts.now self.new.rejoins.now }
        ensures shown { IsShown self.new.host.items self.new.report }
        ensures run { IsTrue (F.honest fabric.old) → (table : TableValue) → IsCycleOf table (plan_of self.old.script.now) self.old.cluster (told_by self.old.player) result self.new.host.items self.new.cluster self.new.report (told_by self.new.player) }
        ensures honest { IsTrue (F.honest fabric.old) → IsTrue (F.honest fabric.new) }
        ensures told { TellsMore (F.told fabric.old) (cycle_frames N (length self.old.cluster.journal) (frame_at self.new.cluster.delivered)) (F.told fabric.new) }
    {
        let rejoin = self.rejoin();
        self.take_acts();
        step(
            &mut self.cluster,
            &self.host,
            fabric,
            &mut self.player,
            &mut self.report,
        );
        rejoin
    }

    /// The next cycle, with the steps of the elements in threads of their own, where they can be had.
    pub(crate) fn next_split<R: Threads + Sync, F: Fabric, G: Gate>(
        &mut self,
        rt: &R,
        fabric: &mut F,
        gate: &G,
    ) -> Option<(Ne, Rejoined)>
        requires size { (N ≡ 4) ⊎ (N ≡ 5) }
        requires ready { IsReady N (plan_of self.old.script.now) self.old.cluster self.old.acts.now self.old.rejoins.now }
        requires more { 1 ≤ self.old.cluster.remaining }
        ensures script { self.new.script ≡ self.old.script }
        ensures first { self.new.cluster.first ≡ self.old.cluster.first }
        ensures cycle { length self.new.cluster.journal ≡ length self.old.cluster.journal + 1 }
        ensures ready { IsReady N (plan_of self.new.script.now) self.new.cluster self.new.acts.now self.new.rejoins.now }
        ensures shown { IsShown self.new.host.items self.new.report }
        ensures run { IsTrue (F.honest fabric.old) → (table : TableValue) → IsCycleOf table (plan_of self.old.script.now) self.old.cluster (told_by self.old.player) result self.new.host.items self.new.cluster self.new.report (told_by self.new.player) }
        ensures honest { IsTrue (F.honest fabric.old) → IsTrue (F.honest fabric.new) }
        ensures told { TellsMore (F.told fabric.old) (cycle_frames N (length self.old.cluster.journal) (frame_at self.new.cluster.delivered)) (F.told fabric.new) }
    {
        let rejoin = self.rejoin();
        self.take_acts();
        step_split(
            rt,
            &mut self.cluster,
            &self.host,
            fabric,
            &mut self.player,
            gate,
            &mut self.report,
        );
        rejoin
    }
}
