//! The script, cycle by cycle.

ghost use Rattle.std.specs.Prelude.{◌≡◌, ◌≤◌, ◌*◌, length, IfOk, IsTrue};
ghost use Rattle.script_text.specs.Reading.{plan_of};
ghost use Rattle.script_text.specs.Printing.{IsScript};
ghost use Rattle.script_text.specs.Playable.{IsPlayable};
ghost use Rattle.fault_script.specs.Edited.{never_fall};
ghost use Rattle.workload.specs.Workload.{workload};

use crate::acts::push_acts;
use crate::draws::Stream;
use crate::edits::push_edit;
use built_in_tables::built_in_5;
use ftpp_base::{MOST_CYCLES, Ne, NoMemory};
use script_text::Script;
use std::alloc::{AllocError, Global};

/// The script of the number, if there is memory.
fn generate(alloc: Global, start: u64, cycles: u32) -> Result<Script, AllocError>
    requires { cycles ≤ MOST_CYCLES }
    ensures { IfOk result (λ s. plan_of s ≡ workload start cycles) }
{
    let table = built_in_5();
    let mut stream = Stream { state: start };
    let faulty = Ne::at(usize::from(stream.pick(5)));
    let mut acts = Vec::new(alloc);
    let mut edits = Vec::new(alloc);
    for cycle in 0..cycles {
        let draws = stream.draws();
        push_acts(&table, cycle, &draws, &mut acts)?;
        push_edit(cycle, faulty, &draws, &mut edits)?;
    }
    Ok(Script {
        cycles,
        faulty: Some(faulty),
        acts,
        edits,
        rejoins: Vec::new(alloc),
    })
}

/// The workload of a number for the built-in table of five elements: a script of 1 to 100,000 cycles, which is
/// always the same for the same number. It takes memory for its acts, at most 12 a cycle, and its edits, at most
/// one a cycle; want of memory is the only refusal.
pub fn make_script(alloc: Global, start: u64, cycles: u32) -> Result<Script, NoMemory>
    requires some { 1 ≤ cycles }
    requires few { cycles ≤ MOST_CYCLES }
    // The workload as it is defined, field by field.
    ensures script { IfOk result (λ s. plan_of s ≡ workload start cycles) }
    // It can be played by five elements, and printed and read again.
    ensures playable { IfOk result (λ s. IsPlayable 5 (plan_of s)) }
    ensures printable { IfOk result (λ s. IsScript 5 (plan_of s)) }
    // The cycles of its edits do not fall.
    ensures edits { IfOk result (λ s. IsTrue (never_fall 0 s.edits.items)) }
    // Its length, and how many acts there are, as a cluster wants to know.
    ensures cycles { IfOk result (λ s. s.cycles ≡ cycles) }
    ensures acts { IfOk result (λ s. length s.acts.items ≤ 12 * cycles) }
{
    match generate(alloc, start, cycles) {
        Ok(script) => Ok(script),
        Err(_) => Err(NoMemory),
    }
}
