//! Laws of every vote. Each function states its law as its clause, and does nothing.

ghost use Rattle.bit_vote.specs.Vote.{MajorityIsVoted, VoteIsCell};

/// Where more than half of the cells are equal, their vote is that cell. All have one width.
pub fn majority_is_voted()
    ensures { MajorityIsVoted }
{}

/// A vote over cells of one width is a cell of that width.
pub fn vote_is_cell()
    ensures { VoteIsCell }
{}
