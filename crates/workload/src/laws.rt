//! What is proved of workloads.

ghost use Rattle.std.specs.Prelude.{ℕ, ◌≤◌, ◌*◌, length, count_by};
ghost use Rattle.script_text.specs.Printing.{IsScript, is_act_at};
ghost use Rattle.script_text.specs.Playable.{IsPlayable};
ghost use Rattle.workload.specs.Workload.{workload};

use ftpp_base::MOST_CYCLES;

/// A workload of 1 to 100,000 cycles can be played by five elements: all that it names is there, and cycles
/// never fall.
pub fn workloads_can_be_played()
    ensures { (start cycles : ℕ) → 1 ≤ cycles → cycles ≤ MOST_CYCLES → IsPlayable 5 (workload start cycles) }
{}

/// It is a script: it can be printed and read again.
pub fn workloads_are_scripts()
    ensures { (start cycles : ℕ) → 1 ≤ cycles → cycles ≤ MOST_CYCLES → IsScript 5 (workload start cycles) }
{}

/// A cycle has at most 12 acts, and so all cycles together at most 12 times their number.
pub fn cycles_have_few_acts()
    ensures each { (start cycles c : ℕ) → count_by (is_act_at c) (workload start cycles).acts ≤ 12 }
    ensures all { (start cycles : ℕ) → length (workload start cycles).acts ≤ 12 * cycles }
{}
