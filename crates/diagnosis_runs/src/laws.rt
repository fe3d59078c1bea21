//! Laws of the suspects in runs: the body of each function is empty, and its clause is the law.

ghost use Rattle.diagnosis_runs.specs.Laws.{AllLeftWithoutFault, FaultyIsSuspect, OnlyOneIsFaulty};
ghost use Rattle.diagnosis_runs.specs.Played.{DiagnosesRight, PlaysJournal};

/// In every run the element that was faulty in the last cycle is a suspect of each other element.
pub fn faulty_is_suspect()
    ensures { FaultyIsSuspect }
{}

/// So where an element has exactly one suspect, and there is a faulty one, it is that.
pub fn only_one_is_faulty()
    ensures { OnlyOneIsFaulty }
{}

/// Where no element was faulty in the last cycle, all others are left.
pub fn all_left_without_fault()
    ensures { AllLeftWithoutFault }
{}

/// A played run has a journal of which these laws speak.
pub fn plays_journal()
    ensures { PlaysJournal }
{}

/// **What `diagnose` writes is right**: the faulty element is among the suspects of each other element, and each mask is done.
pub fn diagnoses_right()
    ensures { DiagnosesRight }
{}
