//! Soaks: the workload of a number, played for its totals.

ghost use Rattle.std.specs.Prelude.{◌≡◌, suc, ◌+◌, ◌≤◌, ◌⊎◌, List, Option, length, IfOk, IsTrue};
ghost use Rattle.ftpp_base.specs.declared.limits.TheConstants.{MOST_CYCLES};
ghost use Rattle.link_fabric.specs.declared.fabrics.Carried.{Carried};
ghost use Rattle.report_text.specs.Sums.{IsBounded};
ghost use Rattle.ftpp_top.specs.Loops.{IsSumming};
ghost use Rattle.ftpp_top.specs.Commands.{in_order, of_order};
ghost use Rattle.fault_script.specs.Edited.{never_fall};
ghost use Rattle.script_text.specs.Reading.{plan_of};
ghost use Rattle.script_text.specs.Playable.{IsPlayable};
ghost use Rattle.report_text.specs.PlayedRun.{totals_played};
ghost use Rattle.ftpp_top.specs.FollowsScript.{StandsAt};
ghost use Rattle.ftpp_top.specs.Playing.{IsReady, told_by};
ghost use Rattle.command_steps.specs.Loading.{Run};

use crate::playing::Playing;
use built_in_tables::built_in_5;
use campaign::{Outcome, TOTALS, Trial};
use config_table::Table;
use ftpp_base::NoMemory;
use link_fabric::Fabric;
use report_text::Totals;
use script_text::Script;
use std::alloc::Global;
use std::marker::Sync;
use workload::make_script;

/// Plays the next cycle, and adds what it did.
fn sum_cycle<const N: usize, F: Fabric>(
    playing: &mut Playing<'_, N>,
    totals: &mut Totals,
    fabric: &mut F,
)
    requires size { (N ≡ 4) ⊎ (N ≡ 5) }
    requires ready { IsReady N (plan_of playing.old.script.now) playing.old.cluster playing.old.acts.now playing.old.rejoins.now }
    requires more { 1 ≤ playing.old.cluster.remaining }
    requires count { totals.old.cycles ≡ length playing.old.cluster.journal }
    requires bounded { IsBounded totals.old }
    ensures script { playing.new.script ≡ playing.old.script }
    ensures cycle { length playing.new.cluster.journal ≡ length playing.old.cluster.journal + 1 }
    ensures ready { IsReady N (plan_of playing.new.script.now) playing.new.cluster playing.new.acts.now playing.new.rejoins.now }
    ensures count { totals.new.cycles ≡ length playing.new.cluster.journal }
    ensures bounded { IsBounded totals.new }
    ensures honest { IsTrue (F.honest fabric.old) → IsTrue (F.honest fabric.new) }
    ensures sum { IsTrue (F.honest fabric.old) → (r : Run) (before : Option (List Carried)) → r.plan ≡ plan_of playing.old.script.now
        → IsSumming r (length playing.old.cluster.journal) playing.old.cluster (told_by playing.old.player) totals.old before (F.told fabric.old)
        → IsSumming r (suc (length playing.old.cluster.journal)) playing.new.cluster (told_by playing.new.player) totals.new before (F.told fabric.new) }
{
    let _rejoin = playing.next(fabric);
    totals.add(&playing.report);
}

/// The totals of all cycles, by one thread.
fn sum_up<const N: usize, F: Fabric>(playing: &mut Playing<'_, N>, fabric: &mut F) -> Totals
    requires size { (N ≡ 4) ⊎ (N ≡ 5) }
    requires start { length playing.old.cluster.journal ≡ 0 }
    requires ready { IsReady N (plan_of playing.old.script.now) playing.old.cluster playing.old.acts.now playing.old.rejoins.now }
    ensures { IsTrue (F.honest fabric.old) → (r : Run) → r.plan ≡ plan_of playing.old.script.now → StandsAt r.table r.plan 0 playing.old.cluster (told_by playing.old.player)
        → result ≡ totals_played r.table r.plan }
{
    let mut totals = Totals::zero();
    for _cycle in 0..playing.script.cycles {
        sum_cycle(playing, &mut totals, fabric);
    }
    totals
}

/// Plays a script over a fabric, by one thread, for its totals. Want of memory is the only refusal.
pub fn played_totals<const N: usize, F: Fabric>(
    alloc: Global,
    table: &Table,
    script: &Script,
    fabric: &mut F,
) -> Result<Totals, NoMemory>
    requires size { (N ≡ 4) ⊎ (N ≡ 5) }
    requires elements { table.now.n ≡ N }
    requires playable { IsPlayable N (plan_of script.now) }
    requires edits { IsTrue (never_fall 0 script.now.edits.items) }
    ensures { IfOk result (λ t. IsTrue (F.honest fabric.old) → t ≡ totals_played table.now (plan_of script.now)) }
{
    let mut playing = Playing::<N>::new(alloc, table, script)?;
    Ok(sum_up(&mut playing, fabric))
}

/// Totals in the order of an outcome.
pub(crate) fn in_order(totals: &Totals) -> [u64; TOTALS]
    ensures { result ≡ in_order totals.now }
{
    [
        totals.cycles,
        totals.served,
        totals.discarded,
        totals.idle,
        totals.stored,
        totals.overrun,
        totals.syndromes,
    ]
}

/// The totals of an outcome.
pub(crate) fn totals_of(outcome: &Outcome) -> Totals
    ensures { result ≡ of_order outcome.now.totals }
{
    let [cycles, served, discarded, idle, stored, overrun, syndromes] = outcome.totals;
    Totals {
        cycles,
        served,
        discarded,
        idle,
        stored,
        overrun,
        syndromes,
    }
}

/// A soak of `cycles` cycles (1 to 100,000) as a trial. Each of its runs steps a cluster of five elements over a copy of
/// `fabric`, which is honest.
#[derive(Drop)]
pub struct SoakTrial<F: Fabric + Copy + Sync> {
    pub cycles: u32,
    pub fabric: F,
    ghost some: { 1 ≤ cycles },
    ghost few: { cycles ≤ MOST_CYCLES },
    ghost honest: { IsTrue (F.honest fabric) },
}

impl<F: Fabric + Copy + Sync> Trial for SoakTrial<F> {
    ghost use Rattle.ftpp_top.specs.Commands.{soak_outcome};

    ghost outcome = { λ t start. soak_outcome start t.cycles };

    fn run(&self, alloc: Global, start: u64) -> Result<Outcome, NoMemory> {
        let script = make_script(alloc, start, self.cycles)?;
        let table = built_in_5();
        let mut fabric = self.fabric;
        let totals = played_totals::<5, F>(alloc, &table, &script, &mut fabric)?;
        Ok(Outcome {
            start,
            totals: in_order(&totals),
        })
    }
}
