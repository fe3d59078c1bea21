//! What holds of the texts and of played runs: each function here stands for a law, which its clause states, and does nothing.

ghost use Rattle.report_text.specs.Trace.{CycleFits};
ghost use Rattle.report_text.specs.Laws.{StatesOfJournal, ShowsOfJournal, PrintsAlike, AddsAlike, PlaysFirst, PlaysOn, PlaysAsScript, ReportsAsScript, CarriesAlike};

/// The lines of all frames of one cycle fit a text with no bytes, whatever is in the frames.
pub fn cycle_fits()
    ensures { CycleFits }
{}

/// A played run is the run of its journal.
pub fn runs_the_journal()
    ensures states { StatesOfJournal }
    ensures shows { ShowsOfJournal }
{}

/// Two reports that say the same of all but the faulty element have one text, and add the same to the totals.
pub fn faulty_row_is_not_read()
    ensures prints { PrintsAlike }
    ensures adds { AddsAlike }
{}

/// An adversary with a script's edits plays the script from its first cycle on.
pub fn plays_on()
    ensures first { PlaysFirst }
    ensures next { PlaysOn }
{}

/// A cycle in which the acts and the rejoin are the script's, the fault-free elements send what they make, and such an adversary
/// makes the frames of the faulty one, is the cycle of the played run.
pub fn plays_as_script()
    ensures { PlaysAsScript }
{}

/// So its report says what that of the played run says, and its frames in the order of the trace are the same.
pub fn reports_as_script()
    ensures report { ReportsAsScript }
    ensures frames { CarriesAlike }
{}
