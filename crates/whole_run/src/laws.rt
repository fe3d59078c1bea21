//! What holds of each cycle and of whole runs: each function here stands for a law, which its clause states, and does nothing.

ghost use Rattle.element_core.specs.Claims.{NoLossWithinSkew, RunsServeInTime};
ghost use Rattle.whole_run.specs.LogOrder.{EachRunHandsLogInOrder, ReadsInOrder};
ghost use Rattle.whole_run.specs.Laws.{AgreedStateKept, AlwaysAccurate, AlwaysAccurateAlike, AlwaysEqualEntries, AlwaysSourced, AlwaysUnchanged, CyclesAreCounted, EachCycleLawful, NeverSplit, OverrunsOnlyFull};

// ---- Each cycle.

/// An exchange that is held alike, and is not of one source, has the common packet as its entry at each element.
pub fn always_unchanged()
    ensures { AlwaysUnchanged }
{}

/// An exchange of one source that is fault-free and admitted has that source's head as its entry at each element.
pub fn always_sourced()
    ensures { AlwaysSourced }
{}

/// The entries of an exchange that is not split are equal at all fault-free elements.
pub fn always_equal_entries()
    ensures { AlwaysEqualEntries }
{}

/// An exchange of class 2 or 3, or of fewer than three live members, is never split, and has one entry everywhere.
pub fn never_split()
    ensures { NeverSplit }
{}

/// Each entry on copies that a fault-free element notes names the faulty one.
pub fn always_accurate()
    ensures { AlwaysAccurate }
{}

/// Where the request that is taken is held alike, an entry on a member accuses the faulty element.
pub fn always_accurate_alike()
    ensures { AlwaysAccurateAlike }
{}

/// An overrun at a fault-free element comes only where the input was full, and the member lags by more than its timeout.
pub fn overruns_only_full()
    ensures { OverrunsOnlyFull }
{}

/// In each cycle of a run the notes on copies are accurate, the entries are equal where they are not split and unchanged where they are held alike, and overruns come only of full inputs.
pub fn each_cycle_lawful()
    ensures { EachCycleLawful }
{}

// ---- Whole runs.

/// The number of a cycle is the number of cycles so far.
pub fn cycles_are_counted()
    ensures { CyclesAreCounted }
{}

/// With an honest fabric among them, each element has the agreed state of the run: its number, table and scoreboard.
pub fn agreed_state_is_kept()
    ensures { AgreedStateKept }
{}

/// **Service bound.** A lawful request that is held alike is served within its longest wait, while its receiver keeps space.
pub fn runs_serve_in_time()
    ensures { RunsServeInTime }
{}

/// **No loss within the skew.** The requests of a group whose members post alike are taken in the order of its posts, each once.
pub fn no_loss_within_skew()
    ensures { NoLossWithinSkew }
{}

// ---- The log in order.

/// **The log in order.** What a processor is handed in a run is the log's packets for it, in order, but for overruns. Two
/// fault-free live members of a group are handed the same, but for split entries and overruns. What waits at a processor is
/// the end of what it was handed.
pub fn each_run_hands_log_in_order()
    ensures { EachRunHandsLogInOrder }
{}

/// A processor reads in order what waits at it and what it is handed, until a rejoin or an update empties its queues.
pub fn reads_in_order()
    ensures { ReadsInOrder }
{}
