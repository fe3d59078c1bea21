//! Laws of suspects and of proposals: the body of each function is empty, and its clause is the law.

ghost use Rattle.diagnosis.specs.Laws.{EachProposalDone, NotedInTurn, OnlyNeededLeft};

/// Entries may be noted in several turns: the suspects are those that all of them leave.
pub fn noted_in_turn()
    ensures { NotedInTurn }
{}

/// Each proposal, applied in order, is done.
pub fn each_proposal_done()
    ensures { EachProposalDone }
{}

/// After the proposals for an element no group has a live member there but one whose mask would break the clause of the masked
/// set or that of the manager's live members.
pub fn only_needed_left()
    ensures { OnlyNeededLeft }
{}
