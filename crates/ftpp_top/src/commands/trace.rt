//! `trace`: every frame of a run as it was delivered.

ghost use Rattle.std.specs.Prelude.{◌≡◌, ℕ, suc, ◌+◌, ◌≤◌, ◌⊎◌, List, Option, length, OnOk, OnErr, IsTrue};
ghost use Rattle.link_fabric.specs.declared.fabrics.Carried.{Carried};
ghost use Rattle.ftpp_top.specs.Loops.{trace_at, IsAlong};
ghost use Rattle.ftpp_outside.specs.Told.{Rose, Adds};
ghost use Rattle.script_text.specs.Reading.{plan_of};
ghost use Rattle.command_steps.specs.Ends.{AddsPrefix};
ghost use Rattle.cluster.specs.Carrying.{TellsMore};
ghost use Rattle.report_text.specs.PlayedRun.{trace_text, frames_played};
ghost use Rattle.command_steps.specs.Loading.{Run};
ghost use Rattle.ftpp_top.specs.FollowsScript.{StandsAt};
ghost use Rattle.ftpp_top.specs.Playing.{IsReady, told_by};
ghost use Rattle.ftpp_top.specs.Carries.{CarriesSome};

use crate::frame_lines::cycle_lines;
use crate::playing::Playing;
use ftpp_outside::{Sink, WriteFault, write_all};
use link_fabric::Fabric;
use report_text::TextBuf;

/// Plays the next cycle, and writes its frames.
fn trace_cycle<const N: usize, F: Fabric, K: Sink>(
    playing: &mut Playing<'_, N>,
    fabric: &mut F,
    text: &mut TextBuf,
    out: &mut K,
) -> Result<(), WriteFault>
    requires size { (N ≡ 4) ⊎ (N ≡ 5) }
    requires ready { IsReady N (plan_of playing.old.script.now) playing.old.cluster playing.old.acts.now playing.old.rejoins.now }
    requires more { 1 ≤ playing.old.cluster.remaining }
    ensures script { playing.new.script ≡ playing.old.script }
    ensures cycle { length playing.new.cluster.journal ≡ length playing.old.cluster.journal + 1 }
    ensures ready { IsReady N (plan_of playing.new.script.now) playing.new.cluster playing.new.acts.now playing.new.rejoins.now }
    ensures honest { IsTrue (F.honest fabric.old) → IsTrue (F.honest fabric.new) }
    ensures ok { IsTrue (F.honest fabric.old) → (r : Run) (first : Option (List ℕ)) (before : Option (List Carried)) → r.plan ≡ plan_of playing.old.script.now
        → IsAlong r (trace_at r) (length playing.old.cluster.journal) playing.old.cluster (told_by playing.old.player) first (K.written out.old) before (F.told fabric.old)
        → OnOk result (IsAlong r (trace_at r) (suc (length playing.old.cluster.journal)) playing.new.cluster (told_by playing.new.player) first (K.written out.new) before (F.told fabric.new)) }
    ensures err { IsTrue (F.honest fabric.old) → (r : Run) (first : Option (List ℕ)) (before : Option (List Carried)) → r.plan ≡ plan_of playing.old.script.now
        → IsAlong r (trace_at r) (length playing.old.cluster.journal) playing.old.cluster (told_by playing.old.player) first (K.written out.old) before (F.told fabric.old)
        → OnErr result (AddsPrefix first (trace_text r.table r.plan) (K.written out.new) × CarriesSome r before (F.told fabric.new)) }
    ensures fault { OnErr result (Rose (K.faults out.old) (K.faults out.new)) }
    ensures faults { K.faults out.old ≤ K.faults out.new }
{
    let cycle = playing.cluster.journal().len();
    let _rejoin = playing.next(fabric);
    text.clear();
    cycle_lines(&playing.cluster, cycle, text);
    write_all(out, text.bytes())
}

/// Plays all cycles, and writes the frames of each.
pub(crate) fn trace_cycles<const N: usize, F: Fabric, K: Sink>(
    playing: &mut Playing<'_, N>,
    fabric: &mut F,
    text: &mut TextBuf,
    out: &mut K,
) -> Result<(), WriteFault>
    requires size { (N ≡ 4) ⊎ (N ≡ 5) }
    requires start { length playing.old.cluster.journal ≡ 0 }
    requires ready { IsReady N (plan_of playing.old.script.now) playing.old.cluster playing.old.acts.now playing.old.rejoins.now }
    ensures ok { IsTrue (F.honest fabric.old) → (r : Run) → r.plan ≡ plan_of playing.old.script.now → StandsAt r.table r.plan 0 playing.old.cluster (told_by playing.old.player)
        → OnOk result (Adds (K.written out.old) (trace_text r.table r.plan) (K.written out.new) × TellsMore (F.told fabric.old) (frames_played r.table r.plan) (F.told fabric.new)) }
    ensures err { IsTrue (F.honest fabric.old) → (r : Run) → r.plan ≡ plan_of playing.old.script.now → StandsAt r.table r.plan 0 playing.old.cluster (told_by playing.old.player)
        → OnErr result (AddsPrefix (K.written out.old) (trace_text r.table r.plan) (K.written out.new) × CarriesSome r (F.told fabric.old) (F.told fabric.new)) }
    ensures fault { OnErr result (Rose (K.faults out.old) (K.faults out.new)) }
    ensures faults { K.faults out.old ≤ K.faults out.new }
{
    for _cycle in 0..playing.script.cycles {
        trace_cycle(playing, fabric, text, out)?;
    }
    Ok(())
}
