//! `sweep`: the totals of the workloads of consecutive numbers.

ghost use Rattle.std.specs.Prelude.{◌≡◌, ◌+◌, ◌^◌, ◌≤◌, map, OnOk, OnErr, IsTrue};
ghost use Rattle.std.specs.List.{flat_map, range_with_len};
ghost use Rattle.ftpp_outside.specs.Told.{Rose, Adds};
ghost use Rattle.command_steps.specs.declared.status.Status.TheVariants.{Write};
ghost use Rattle.command_steps.specs.Ends.{Ends, AddsPrefix};
ghost use Rattle.command_steps.specs.Migrating.{IsOfOutput};
ghost use Rattle.ftpp_top.specs.Commands.{swept, line_of};

use crate::soak_line::soak_line;
use crate::trials::{SoakTrial, totals_of};
use campaign::{Outcome, sweep as sweep_trials};
use command_steps::Status;
use ftpp_base::{Gate, MOST_CYCLES};
use ftpp_outside::{Sink, WriteFault, write_all};
use link_fabric::Mesh;
use std::alloc::Global;
use std::thread::Threads;

/// Writes the line of each outcome.
fn write_lines<K: Sink>(outcomes: &[Outcome], out: &mut K) -> Result<(), WriteFault>
    ensures ok { OnOk result (Adds (K.written out.old) (flat_map line_of outcomes.now) (K.written out.new)) }
    ensures prefix { OnErr result (AddsPrefix (K.written out.old) (flat_map line_of outcomes.now) (K.written out.new)) }
    ensures fault { OnErr result (Rose (K.faults out.old) (K.faults out.new)) }
    ensures faults { K.faults out.old ≤ K.faults out.new }
{
    for outcome in outcomes {
        let line = soak_line(outcome.start, &totals_of(outcome));
        write_all(out, line.as_slice())?;
    }
    Ok(())
}

/// Soaks from `count` consecutive numbers side by side, and writes their lines, the starts ascending.
pub(crate) fn sweep<R: Threads + Sync, G: Gate, K: Sink>(
    rt: &R,
    alloc: Global,
    start: u64,
    count: u32,
    cycles: u32,
    gate: &G,
    out: &mut K,
) -> Status
    requires starts { start + count ≤ 2 ^ 64 }
    requires count { (1 ≤ count) × (count ≤ 64) }
    requires some { 1 ≤ cycles }
    requires few { cycles ≤ MOST_CYCLES }
    ensures ends { Ends (swept start count cycles) result (K.written out.old) (K.written out.new) }
    ensures only { IsOfOutput result }
    ensures write { result ≡ Write → Rose (K.faults out.old) (K.faults out.new) }
    ensures faults { K.faults out.old ≤ K.faults out.new }
{
    let trial = SoakTrial {
        cycles,
        fabric: Mesh,
    };
    let Ok(outcomes) = sweep_trials(rt, alloc, &trial, gate, start, count) else {
        return Status::Memory;
    };
    match write_lines(outcomes.as_slice(), out) {
        Ok(()) => Status::Done,
        Err(WriteFault) => Status::Write,
    }
}
