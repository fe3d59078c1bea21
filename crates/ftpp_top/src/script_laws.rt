//! A cluster that runs a script shows the played run: each function here stands for a law, which its clause states, and does nothing.

ghost use Rattle.ftpp_top.specs.FollowsScript.{StandsFirst, FollowsAsItStands, FollowsRejoined, CyclesOfScript};

/// A new cluster stands where the played run of a script begins.
pub fn stands_first()
    ensures first { StandsFirst }
    ensures calm { FollowsAsItStands }
    ensures rejoined { FollowsRejoined }
{}

/// **A cycle of a cluster that follows a script is the cycle of the played run**: its report's text and totals, and its frames.
pub fn cycles_of_script()
    ensures { CyclesOfScript }
{}
