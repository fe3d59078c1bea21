//! `soak`: the totals of the workload of a number.

ghost use Rattle.std.specs.Prelude.{◌≡◌, suc, ◌+◌, ◌≤◌, ◌⊎◌, List, Option, length, IsTrue};
ghost use Rattle.link_fabric.specs.declared.fabrics.Carried.{Carried};
ghost use Rattle.report_text.specs.Sums.{IsBounded};
ghost use Rattle.ftpp_top.specs.Loops.{IsSumming};
ghost use Rattle.ftpp_outside.specs.Told.{Rose};
ghost use Rattle.script_text.specs.Reading.{plan_of};
ghost use Rattle.command_steps.specs.declared.status.Status.TheVariants.{Write};
ghost use Rattle.command_steps.specs.Ends.{Ends};
ghost use Rattle.command_steps.specs.Migrating.{IsOfOutput};
ghost use Rattle.cluster.specs.Carrying.{TellsMore};
ghost use Rattle.report_text.specs.PlayedRun.{totals_played, frames_played};
ghost use Rattle.command_steps.specs.Loading.{Run};
ghost use Rattle.ftpp_top.specs.FollowsScript.{StandsAt};
ghost use Rattle.ftpp_top.specs.Playing.{IsReady, told_by};
ghost use Rattle.ftpp_top.specs.Carries.{CarriesRun};
ghost use Rattle.ftpp_top.specs.Commands.{soaked, soak_run};
ghost use Rattle.ftpp_top.specs.RunOutputs.{shown};

use crate::playing::Playing;
use crate::soak_line::soak_line;
use built_in_tables::built_in_5;
use command_steps::Status;
use ftpp_base::{Gate, MOST_CYCLES};
use ftpp_outside::{Sink, WriteFault, write_all};
use link_fabric::Fabric;
use report_text::Totals;
use std::alloc::Global;
use std::thread::Threads;
use workload::make_script;

/// Plays the next cycle, with the steps of the elements in threads of their own, and adds what it did.
fn sum_cycle_split<const N: usize, R: Threads + Sync, F: Fabric, G: Gate>(
    rt: &R,
    playing: &mut Playing<'_, N>,
    totals: &mut Totals,
    fabric: &mut F,
    gate: &G,
)
    requires size { (N ≡ 4) ⊎ (N ≡ 5) }
    requires ready { IsReady N (plan_of playing.old.script.now) playing.old.cluster playing.old.acts.now playing.old.rejoins.now }
    requires more { 1 ≤ playing.old.cluster.remaining }
    requires count { totals.old.cycles ≡ length playing.old.cluster.journal }
    requires bounded { IsBounded totals.old }
    ensures script { playing.new.script ≡ playing.old.script }
    ensures cycle { length playing.new.cluster.journal ≡ length playing.old.cluster.journal + 1 }
    ensures ready { IsReady N (plan_of playing.new.script.now) playing.new.cluster playing.new.acts.now playing.new.rejoins.now }
    ensures count { totals.new.cycles ≡ length playing.new.cluster.journal }
    ensures bounded { IsBounded totals.new }
    ensures honest { IsTrue (F.honest fabric.old) → IsTrue (F.honest fabric.new) }
    ensures sum { IsTrue (F.honest fabric.old) → (r : Run) (before : Option (List Carried)) → r.plan ≡ plan_of playing.old.script.now
        → IsSumming r (length playing.old.cluster.journal) playing.old.cluster (told_by playing.old.player) totals.old before (F.told fabric.old)
        → IsSumming r (suc (length playing.old.cluster.journal)) playing.new.cluster (told_by playing.new.player) totals.new before (F.told fabric.new) }
{
    let _rejoin = playing.next_split(rt, fabric, gate);
    totals.add(&playing.report);
}

/// The totals of all cycles, with the steps of the elements in threads of their own, where they can be had.
fn sum_up_split<const N: usize, R: Threads + Sync, F: Fabric, G: Gate>(
    rt: &R,
    playing: &mut Playing<'_, N>,
    fabric: &mut F,
    gate: &G,
) -> Totals
    requires size { (N ≡ 4) ⊎ (N ≡ 5) }
    requires start { length playing.old.cluster.journal ≡ 0 }
    requires ready { IsReady N (plan_of playing.old.script.now) playing.old.cluster playing.old.acts.now playing.old.rejoins.now }
    ensures { IsTrue (F.honest fabric.old) → (r : Run) → r.plan ≡ plan_of playing.old.script.now → StandsAt r.table r.plan 0 playing.old.cluster (told_by playing.old.player)
        → (result ≡ totals_played r.table r.plan) × TellsMore (F.told fabric.old) (frames_played r.table r.plan) (F.told fabric.new) }
{
    let mut totals = Totals::zero();
    for _cycle in 0..playing.script.cycles {
        sum_cycle_split(rt, playing, &mut totals, fabric, gate);
    }
    totals
}

/// Plays the workload of a number on the built-in table of five elements, and writes the line of its totals.
pub(crate) fn soak<R: Threads + Sync, F: Fabric, G: Gate, K: Sink>(
    rt: &R,
    alloc: Global,
    start: u64,
    cycles: u32,
    fabric: &mut F,
    gate: &G,
    out: &mut K,
) -> Status
    requires some { 1 ≤ cycles }
    requires few { cycles ≤ MOST_CYCLES }
    ensures ends { Ends (shown (F.honest fabric.old) (soaked start cycles)) result (K.written out.old) (K.written out.new) }
    ensures carried { IsTrue (F.honest fabric.old) → CarriesRun (soak_run start cycles) result (F.told fabric.old) (F.told fabric.new) }
    ensures only { IsOfOutput result }
    ensures write { result ≡ Write → Rose (K.faults out.old) (K.faults out.new) }
    ensures faults { K.faults out.old ≤ K.faults out.new }
{
    let Ok(script) = make_script(alloc, start, cycles) else {
        return Status::Memory;
    };
    let table = built_in_5();
    let Ok(mut playing) = Playing::<5>::new(alloc, &table, &script) else {
        return Status::Memory;
    };
    let totals = sum_up_split(rt, &mut playing, fabric, gate);
    let line = soak_line(start, &totals);
    match write_all(out, line.as_slice()) {
        Ok(()) => Status::Done,
        Err(WriteFault) => Status::Write,
    }
}
