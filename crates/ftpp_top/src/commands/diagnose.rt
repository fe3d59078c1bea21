//! `diagnose`: who can be the faulty element of a script's run, and which members to mask.

ghost use Rattle.std.specs.Prelude.{◌≡◌, ℕ, suc, ◌+◌, ◌<◌, ◌≤◌, ◌⊎◌, [], List, Option, filter, length, map, slice_index_or, OnOk, OnErr, IsTrue};
ghost use Rattle.link_fabric.specs.declared.fabrics.Carried.{Carried};
ghost use Rattle.ftpp_base.specs.Lists.{each_below, others};
ghost use Rattle.ftpp_outside.specs.Told.{Rose, Adds};
ghost use Rattle.element_core.specs.Told.{told_of};
ghost use Rattle.script_text.specs.Reading.{plan_of};
ghost use Rattle.diagnosis.specs.Suspects.{is_suspect};
ghost use Rattle.diagnosis.specs.Lines.{diagnosis_lines, least};
ghost use Rattle.report_text.specs.Report.{nothing_told};
ghost use Rattle.report_text.specs.PlayedRun.{frames_played};
ghost use Rattle.cluster.specs.Carrying.{TellsMore};
ghost use Rattle.cluster.specs.ClusterValue.{element_at};
ghost use Rattle.command_steps.specs.Ends.{AddsPrefix};
ghost use Rattle.command_steps.specs.Loading.{Run};
ghost use Rattle.ftpp_top.specs.FollowsScript.{StandsAt};
ghost use Rattle.ftpp_top.specs.Playing.{IsReady, told_by};
ghost use Rattle.ftpp_top.specs.Carries.{CarriesSome};
ghost use Rattle.ftpp_top.specs.Diagnosing.{anew_at, diagnosis_text, IsDiagnosing};

use crate::playing::Playing;
use cluster::Cluster;
use diagnosis::{DiagnosisText, Suspects, diagnosis_text, least};
use element_core::{CycleRecord, Rejoined};
use ftpp_base::{Ne, Row};
use ftpp_outside::{Sink, WriteFault, write_all};
use link_fabric::Fabric;

/// The suspects of each element, by element.
type AllSuspects = Row<Suspects, 5>;

/// Each of `N` elements suspects all others.
fn all_others<const N: usize>() -> AllSuspects
    requires { (N ≡ 4) ⊎ (N ≡ 5) }
    ensures { result.items ≡ each_below N (others N) }
{
    let mut suspects = Row::new();
    for place in 0..N {
        suspects.push(Suspects::all(N as u8, Ne::at(place)));
    }
    suspects
}

/// Where a rejoin is taken, all suspects begin anew.
fn begin_anew<const N: usize>(suspects: &mut AllSuspects, rejoin: &Option<(Ne, Rejoined)>)
    requires { (N ≡ 4) ⊎ (N ≡ 5) }
    ensures { suspects.new.items ≡ anew_at N rejoin.now suspects.old.items }
{
    if let Some((_, Rejoined::Taken)) = rejoin {
        *suspects = all_others::<N>();
    }
}

/// Each element notes what it noted in a cycle.
fn note_cycle<const N: usize>(suspects: &mut [Suspects], rows: &[CycleRecord<N>])
    requires { length suspects.old ≡ length rows.now }
    ensures { (me : ℕ) → me < length suspects.old
        → slice_index_or suspects.new me [] ≡ filter (is_suspect (slice_index_or (map told_of rows.now) me nothing_told).syndromes) (slice_index_or suspects.old me []) }
{
    for (place, row) in rows.iter().enumerate() {
        suspects[place].note_all(row.syndromes.as_slice());
    }
}

/// Plays the next cycle, and notes what its elements noted.
fn suspect_cycle<const N: usize, F: Fabric>(
    playing: &mut Playing<'_, N>,
    suspects: &mut AllSuspects,
    fabric: &mut F,
)
    requires size { (N ≡ 4) ⊎ (N ≡ 5) }
    requires ready { IsReady N (plan_of playing.old.script.now) playing.old.cluster playing.old.acts.now playing.old.rejoins.now }
    requires more { 1 ≤ playing.old.cluster.remaining }
    requires count { length suspects.old.items ≡ N }
    ensures script { playing.new.script ≡ playing.old.script }
    ensures cycle { length playing.new.cluster.journal ≡ length playing.old.cluster.journal + 1 }
    ensures ready { IsReady N (plan_of playing.new.script.now) playing.new.cluster playing.new.acts.now playing.new.rejoins.now }
    ensures count { length suspects.new.items ≡ N }
    ensures honest { IsTrue (F.honest fabric.old) → IsTrue (F.honest fabric.new) }
    ensures suspects { IsTrue (F.honest fabric.old) → (r : Run) (before : Option (List Carried)) → r.plan ≡ plan_of playing.old.script.now
        → IsDiagnosing r (length playing.old.cluster.journal) playing.old.cluster (told_by playing.old.player) suspects.old.items before (F.told fabric.old)
        → IsDiagnosing r (suc (length playing.old.cluster.journal)) playing.new.cluster (told_by playing.new.player) suspects.new.items before (F.told fabric.new) }
{
    let rejoin = playing.next(fabric);
    begin_anew::<N>(suspects, &rejoin);
    note_cycle(suspects.as_mut_slice(), playing.report.rows.as_slice());
}

/// The suspects after all cycles.
fn suspects_of_run<const N: usize, F: Fabric>(
    playing: &mut Playing<'_, N>,
    fabric: &mut F,
) -> AllSuspects
    requires size { (N ≡ 4) ⊎ (N ≡ 5) }
    requires start { length playing.old.cluster.journal ≡ 0 }
    requires ready { IsReady N (plan_of playing.old.script.now) playing.old.cluster playing.old.acts.now playing.old.rejoins.now }
    ensures count { length result.items ≡ N }
    ensures suspects { IsTrue (F.honest fabric.old) → (r : Run) → r.plan ≡ plan_of playing.old.script.now → StandsAt r.table r.plan 0 playing.old.cluster (told_by playing.old.player)
        → IsDiagnosing r r.plan.cycles playing.new.cluster (told_by playing.new.player) result.items (F.told fabric.old) (F.told fabric.new) }
{
    let mut suspects = all_others::<N>();
    for _cycle in 0..playing.script.cycles {
        suspect_cycle(playing, &mut suspects, fabric);
    }
    suspects
}

/// The lines on a cluster after its last cycle, by the table of the least element that is not faulty.
fn lines_after<const N: usize>(cluster: &Cluster<N>, suspects: &[Suspects]) -> DiagnosisText
    requires size { (N ≡ 4) ⊎ (N ≡ 5) }
    requires count { length suspects.now ≡ N }
    ensures { result.items ≡ diagnosis_lines (element_at cluster.now (least cluster.now.faulty)).kept.table cluster.now.faulty suspects.now }
{
    let faulty = cluster.faulty();
    let element = cluster.element(least(&faulty));
    diagnosis_text(element.table(), faulty, suspects)
}

/// Plays all cycles, and then writes who can be the faulty element and which members to mask.
pub(crate) fn diagnose_cycles<const N: usize, F: Fabric, K: Sink>(
    playing: &mut Playing<'_, N>,
    fabric: &mut F,
    out: &mut K,
) -> Result<(), WriteFault>
    requires size { (N ≡ 4) ⊎ (N ≡ 5) }
    requires start { length playing.old.cluster.journal ≡ 0 }
    requires ready { IsReady N (plan_of playing.old.script.now) playing.old.cluster playing.old.acts.now playing.old.rejoins.now }
    ensures ok { IsTrue (F.honest fabric.old) → (r : Run) → r.plan ≡ plan_of playing.old.script.now → StandsAt r.table r.plan 0 playing.old.cluster (told_by playing.old.player)
        → OnOk result (Adds (K.written out.old) (diagnosis_text r) (K.written out.new) × TellsMore (F.told fabric.old) (frames_played r.table r.plan) (F.told fabric.new)) }
    ensures err { IsTrue (F.honest fabric.old) → (r : Run) → r.plan ≡ plan_of playing.old.script.now → StandsAt r.table r.plan 0 playing.old.cluster (told_by playing.old.player)
        → OnErr result (AddsPrefix (K.written out.old) (diagnosis_text r) (K.written out.new) × CarriesSome r (F.told fabric.old) (F.told fabric.new)) }
    ensures fault { OnErr result (Rose (K.faults out.old) (K.faults out.new)) }
    ensures faults { K.faults out.old ≤ K.faults out.new }
{
    let suspects = suspects_of_run(playing, fabric);
    let lines = lines_after(&playing.cluster, suspects.as_slice());
    write_all(out, lines.as_slice())
}
