//! What an element makes of the patterns of a cycle.

ghost use Rattle.std.specs.Prelude.{◌≡◌, ◌+◌, ◌<◌, ◌≤◌, true};
ghost use Rattle.ftpp_base.specs.Lists.{each_below};
ghost use Rattle.two_round.specs.Echoes.{result_for};
ghost use Rattle.pattern_exchange.specs.Settled.{settled};
ghost use Rattle.flag_vote.specs.Flags.{voted_flags};
ghost use Rattle.scoreboard.specs.Choice.{scoreboard_decision, scoreboard_after};
ghost use Rattle.scoreboard.specs.Times.{AreLinesOf, AreBefore};
ghost use Rattle.element_notes.specs.AtHand.{HasDiffering};
ghost use Rattle.element_core.specs.Quiet.{is_quiet};

use crate::kept_state::KeptState;
use bit_vote::Cells;
use config_table::{Decision, Kind};
use ftpp_base::{MOST_CYCLES, Set8};
use local_pattern::SystemPattern;
use pattern_exchange::pattern_into;
use scoreboard::Scoreboard;
use two_round::TwoRound;

/// What an element made of both rounds of patterns, kept until the cycle ends.
#[derive(Drop)]
pub(crate) struct Pending<const N: usize> {
    /// The result for each element.
    pub(crate) results: Cells<N, 32>,
    /// The elements about which some word is not the own copy.
    pub(crate) differing: Set8,
    pub(crate) pattern: SystemPattern<N>,
    pub(crate) decision: Decision,
    /// The scoreboard after the decision.
    pub(crate) after: Box<Scoreboard>,
}

impl<const N: usize> Pending<N> {
    /// Makes of both rounds of patterns what is agreed, and decides.
    pub(crate) fn decide(&mut self, kept: &KeptState, patterns: &TwoRound<N, 32>)
        requires { kept.now.cycle < MOST_CYCLES }
        ensures results { self.new.results ≡ each_below N (result_for patterns.now) }
        ensures differing { HasDiffering N patterns.now (λ s. true) self.new.differing }
        ensures pattern { self.new.pattern ≡ settled N patterns.now }
        ensures decision { self.new.decision ≡ scoreboard_decision kept.now.table kept.now.cycle (voted_flags kept.now.table (settled N patterns.now)) kept.now.scoreboard }
        ensures after { self.new.after.value ≡ scoreboard_after kept.now.table kept.now.cycle (voted_flags kept.now.table (settled N patterns.now)) kept.now.scoreboard }
        ensures lines { AreLinesOf kept.now.table self.new.after.value }
        ensures earlier { AreBefore (kept.now.cycle + 1) self.new.after.value }
    {
        self.differing = patterns.settle_all(&mut self.results);
        pattern_into(&self.results, &mut self.pattern);
        self.decision = kept.decide(&self.pattern, &mut self.after);
    }
}

/// Whether what is relayed in the second round of packets makes no difference: there is no exchange of two rounds, and none
/// of class 3.
pub(crate) fn is_quiet(decision: &Decision) -> bool
    ensures { result ≡ is_quiet decision.now }
{
    match decision {
        Decision::Exchange(service) => service.kind == Kind::Voted && service.desc.class != 3,
        _ => true,
    }
}
