//! A script's run, and what is written of it.

ghost use Rattle.std.specs.Prelude.{◌≡◌, ℕ, ◌≤◌, ◌⊎◌, length, OnOk, OnErr, IsTrue};
ghost use Rattle.fault_script.specs.Edited.{never_fall};
ghost use Rattle.ftpp_outside.specs.Told.{Rose, Adds};
ghost use Rattle.script_text.specs.Reading.{plan_of};
ghost use Rattle.script_text.specs.Playable.{IsPlayable};
ghost use Rattle.command_steps.specs.declared.status.Status.TheVariants.{Write};
ghost use Rattle.command_steps.specs.Ends.{Ends, AddsPrefix};
ghost use Rattle.command_steps.specs.Migrating.{IsOfOutput};
ghost use Rattle.command_steps.specs.Loading.{Run};
ghost use Rattle.cluster.specs.Carrying.{TellsMore};
ghost use Rattle.report_text.specs.PlayedRun.{frames_played};
ghost use Rattle.ftpp_top.specs.FollowsScript.{StandsAt};
ghost use Rattle.ftpp_top.specs.Playing.{IsReady, told_by};
ghost use Rattle.ftpp_top.specs.Carries.{CarriesRun, CarriesSome};
ghost use Rattle.ftpp_top.specs.RunOutputs.{text_of, writes};

use crate::commands::diagnose::diagnose_cycles;
use crate::commands::run::report_cycles;
use crate::commands::trace::trace_cycles;
use crate::playing::Playing;
use command_steps::Status;
use config_table::Table;
use ftpp_outside::{Sink, WriteFault};
use link_fabric::Fabric;
use report_text::TextBuf;
use script_text::Script;
use std::alloc::Global;

/// What is written of a run.
#[derive(Clone, Copy)]
pub(crate) enum RunOutput {
    Report,
    Trace,
    Diagnosis,
}

/// Plays all cycles, and writes what is asked for.
fn play_cycles<const N: usize, F: Fabric, K: Sink>(
    output: RunOutput,
    playing: &mut Playing<'_, N>,
    fabric: &mut F,
    text: &mut TextBuf,
    out: &mut K,
) -> Result<(), WriteFault>
    requires size { (N ≡ 4) ⊎ (N ≡ 5) }
    requires start { length playing.old.cluster.journal ≡ 0 }
    requires ready { IsReady N (plan_of playing.old.script.now) playing.old.cluster playing.old.acts.now playing.old.rejoins.now }
    ensures ok { IsTrue (F.honest fabric.old) → (r : Run) → r.plan ≡ plan_of playing.old.script.now → StandsAt r.table r.plan 0 playing.old.cluster (told_by playing.old.player)
        → OnOk result (Adds (K.written out.old) (text_of output r) (K.written out.new) × TellsMore (F.told fabric.old) (frames_played r.table r.plan) (F.told fabric.new)) }
    ensures err { IsTrue (F.honest fabric.old) → (r : Run) → r.plan ≡ plan_of playing.old.script.now → StandsAt r.table r.plan 0 playing.old.cluster (told_by playing.old.player)
        → OnErr result (AddsPrefix (K.written out.old) (text_of output r) (K.written out.new) × CarriesSome r (F.told fabric.old) (F.told fabric.new)) }
    ensures fault { OnErr result (Rose (K.faults out.old) (K.faults out.new)) }
    ensures faults { K.faults out.old ≤ K.faults out.new }
{
    match output {
        RunOutput::Report => report_cycles(playing, fabric, text, out),
        RunOutput::Trace => trace_cycles(playing, fabric, text, out),
        RunOutput::Diagnosis => diagnose_cycles(playing, fabric, out),
    }
}

/// Runs a script on a table of `N` elements.
fn play_on<const N: usize, F: Fabric, K: Sink>(
    alloc: Global,
    output: RunOutput,
    table: &Table,
    script: &Script,
    fabric: &mut F,
    out: &mut K,
) -> Status
    requires size { (N ≡ 4) ⊎ (N ≡ 5) }
    requires elements { table.now.n ≡ N }
    requires playable { IsPlayable N (plan_of script.now) }
    requires edits { IsTrue (never_fall 0 script.now.edits.items) }
    ensures ends { Ends (writes output (F.honest fabric.old) (record { table = table.now; plan = plan_of script.now })) result (K.written out.old) (K.written out.new) }
    ensures carried { IsTrue (F.honest fabric.old) → CarriesRun (record { table = table.now; plan = plan_of script.now }) result (F.told fabric.old) (F.told fabric.new) }
    ensures only { IsOfOutput result }
    ensures write { result ≡ Write → Rose (K.faults out.old) (K.faults out.new) }
    ensures faults { K.faults out.old ≤ K.faults out.new }
{
    let Ok(mut playing) = Playing::<N>::new(alloc, table, script) else {
        return Status::Memory;
    };
    let Ok(mut text) = TextBuf::new(alloc) else {
        return Status::Memory;
    };
    match play_cycles(output, &mut playing, fabric, &mut text, out) {
        Ok(()) => Status::Done,
        Err(WriteFault) => Status::Write,
    }
}

/// Runs a script, and writes what is asked for: of the report and the trace one piece a cycle.
pub(crate) fn play<F: Fabric, K: Sink>(
    alloc: Global,
    output: RunOutput,
    table: &Table,
    script: &Script,
    fabric: &mut F,
    out: &mut K,
) -> Status
    requires playable { IsPlayable table.now.n (plan_of script.now) }
    requires edits { IsTrue (never_fall 0 script.now.edits.items) }
    ensures ends { Ends (writes output (F.honest fabric.old) (record { table = table.now; plan = plan_of script.now })) result (K.written out.old) (K.written out.new) }
    ensures carried { IsTrue (F.honest fabric.old) → CarriesRun (record { table = table.now; plan = plan_of script.now }) result (F.told fabric.old) (F.told fabric.new) }
    ensures only { IsOfOutput result }
    ensures write { result ≡ Write → Rose (K.faults out.old) (K.faults out.new) }
    ensures faults { K.faults out.old ≤ K.faults out.new }
{
    if table.n() == 4 {
        play_on::<4, F, K>(alloc, output, table, script, fabric, out)
    } else {
        play_on::<5, F, K>(alloc, output, table, script, fabric, out)
    }
}
