//! The scoreboard.

ghost use Rattle.std.specs.Prelude.{◌≡◌, ◌+◌, ◌<◌, ℕ, [], map, true};
ghost use Rattle.config_table.specs.Table.{IsValid};
ghost use Rattle.scoreboard.specs.Board.{empty_scoreboard, line_of, marked, without_request, after_update, request_of, starved_of, lag_of};
ghost use Rattle.scoreboard.specs.Choice.{decision_of, after_decision, scoreboard_decision, scoreboard_after};
ghost use Rattle.scoreboard.specs.Steps.{line_but, lines_but};
ghost use Rattle.scoreboard.specs.Times.{AreBefore, AreOthersHeldBy, AreLinesOf, OnlyMembersLag, OnlyOthersLag, lines_for};

use crate::choice::put_choosable;
use crate::decision::{decided, taken};
use crate::lookups::{blank_line, groups_in, line_of};
use crate::marks::mark_all;
use crate::votes::CycleFlags;
use config_table::{Decision, StateRow, Table, VotedFlags};
use ftpp_base::{MOST_CYCLES, MOST_GROUPS, Row, VidSet};
use packet_format::Descriptor;
use sender_choice::{Chooser, IndexChooser};
use std::marker::Model;

/// Which request waits since when, and which member lags: one line for each group, in the order of the table.
#[derive(Drop)]
pub struct Scoreboard {
    lines: Row<StateRow, MOST_GROUPS>,
}

impl Model for Scoreboard {
    ghost use Rattle.std.specs.Prelude.{◌≡◌, List, map, true};
    ghost use Rattle.config_table.specs.declared.decisions.StateRow.{StateRow};
    ghost use Rattle.scoreboard.specs.Steps.{ascend};
    ghost use Rattle.scoreboard.specs.Times.{line_number};

    ghost Value = { List StateRow };

    ghost view = { λ s. s.lines.items };

    ghost invariant = { λ s. ascend 0 (map line_number s.lines.items) ≡ true };
}

impl Scoreboard {
    /// No requests, and all lags 0.
    pub fn new(table: &Table) -> Scoreboard
        ensures empty { result ≡ empty_scoreboard table.now }
        ensures lines { AreLinesOf table.now result }
        ensures earlier { AreBefore 0 result }
        ensures members { OnlyMembersLag table.now result }
    {
        Scoreboard {
            lines: lines_in(table, &[], None),
        }
    }

    /// Takes the votes of cycle `now` and decides what is done in it. `now` is below 100,000 and later than
    /// the cycle of each step so far, and after `restore` it is at least `next`.
    pub fn step(&mut self, table: &Table, now: u32, flags: &VotedFlags) -> Decision
        requires cycle { now < MOST_CYCLES }
        requires earlier { AreBefore now self.old }
        ensures decision { result ≡ scoreboard_decision table.now now flags.now.items self.old }
        ensures after { self.new ≡ scoreboard_after table.now now flags.now.items self.old }
        ensures lines { AreLinesOf table.now self.new }
        ensures earlier { AreBefore (now + 1) self.new }
        ensures members { OnlyMembersLag table.now self.new }
    {
        let mut after = Scoreboard::blank();
        let decision = self.step_into(table, now, flags, &mut after);
        *self = after;
        decision
    }

    /// Like `step`, but writes the new scoreboard to `after`.
    pub fn step_into(
        &self,
        table: &Table,
        now: u32,
        flags: &VotedFlags,
        after: &mut Scoreboard,
    ) -> Decision
        requires cycle { now < MOST_CYCLES }
        requires earlier { AreBefore now self.now }
        ensures decision { result ≡ scoreboard_decision table.now now flags.now.items self.now }
        ensures after { after.new ≡ scoreboard_after table.now now flags.now.items self.now }
        ensures lines { AreLinesOf table.now after.new }
        ensures earlier { AreBefore (now + 1) after.new }
        ensures members { OnlyMembersLag table.now after.new }
    {
        let flags = CycleFlags::new(flags.as_slice());
        self.mark_into(table, now, &flags, after);
        let decision = after.decide(table, now, &flags);
        after.end(&decision);
        decision
    }

    /// An empty scoreboard, without lines.
    fn blank() -> Scoreboard
        ensures { result ≡ [] }
    {
        Scoreboard { lines: Row::new() }
    }

    /// Writes the scoreboard after the votes of a cycle to `after`, before anything is decided.
    fn mark_into(&self, table: &Table, now: u32, flags: &CycleFlags<'_>, after: &mut Scoreboard)
        requires cycle { now < MOST_CYCLES }
        requires earlier { AreBefore now self.now }
        ensures after { after.new ≡ marked table.now flags.now now self.now }
        ensures earlier { AreBefore (now + 1) after.new }
    {
        mark_all(table, flags, now, self.lines.as_slice(), &mut after.lines);
    }

    /// Decides what is done in the cycle.
    #[tactic(auto, unfolding(crate::specs::Choice::decision_of))]
    fn decide(&self, table: &Table, now: u32, flags: &CycleFlags<'_>) -> Decision
        requires { AreBefore (now + 1) self.now }
        ensures { result ≡ decision_of table.now flags.now now self.now }
    {
        let lines = self.lines.as_slice();
        let mut eligible = VidSet::new();
        let mut chooser = IndexChooser::new();
        put_choosable(table, flags, now, lines, &mut eligible, &mut chooser);
        match chooser.oldest(&eligible) {
            Some((vid, _)) => decided(table, flags, now, lines, vid),
            None => Decision::Idle,
        }
    }

    /// Ends the request that the decision takes.
    fn end(&mut self, decision: &Decision)
        ensures { self.new ≡ after_decision decision.now self.old }
    {
        match taken(decision) {
            Some(vid) => end_request(self.lines.as_mut_slice(), vid),
            None => {}
        }
    }

    /// Goes over to `table`, which an update of group `vid` gave. That group has no request and no lags from now on.
    pub fn after_update(&mut self, table: &Table, vid: u8)
        requires { AreOthersHeldBy table.now vid self.old }
        ensures after { self.new ≡ after_update table.now vid self.old }
        ensures lines { AreLinesOf table.now self.new }
        ensures earlier { (now : ℕ) → AreBefore now self.old → AreBefore now self.new }
        ensures members { OnlyOthersLag table.now vid self.old → OnlyMembersLag table.now self.new }
    {
        let lines = lines_in(table, self.lines.as_slice(), Some(vid));
        self.lines = lines;
    }

    /// The request of a group and the cycle since which it waits. None exactly where the group has no request.
    pub fn request(&self, vid: u8) -> Option<(Descriptor, u32)>
        ensures { result ≡ request_of self.now vid }
    {
        match line_of(self.lines.as_slice(), vid).request {
            Some((desc, since, _)) => Some((desc, since)),
            None => None,
        }
    }

    /// For how many cycles in a row the destination of a group's request was without most space. None exactly
    /// where the group has no request.
    pub fn starved(&self, vid: u8) -> Option<u32>
        ensures { result ≡ starved_of self.now vid }
    {
        match line_of(self.lines.as_slice(), vid).request {
            Some((_, _, starved)) => Some(starved),
            None => None,
        }
    }

    /// For how many cycles in a row a member said full while its group had most space, and 0 where there is no
    /// such member. `index` is below 4.
    pub fn lag(&self, vid: u8, index: u8) -> u32
        requires { index < 4 }
        ensures { result ≡ lag_of self.now vid index }
    {
        line_of(self.lines.as_slice(), vid).lags[usize::from(index)]
    }

    /// The lines of the table's groups, in their order.
    pub fn snapshot(&self, table: &Table) -> Row<StateRow, MOST_GROUPS>
        ensures lines { result.items ≡ lines_for table.now self.now }
        ensures same { AreLinesOf table.now self.now → result.items ≡ self.now }
    {
        lines_in(table, self.lines.as_slice(), None)
    }

    /// Takes over the lines of the table's groups, as they stand before cycle `next`: one for each group, in
    /// order, and past the size of a group its lags are 0.
    pub fn restore(&mut self, table: &Table, rows: &Row<StateRow, MOST_GROUPS>, next: u32)
        requires lines { AreLinesOf table.now rows.now.items }
        requires earlier { AreBefore next rows.now.items }
        requires members { OnlyMembersLag table.now rows.now.items }
        ensures lines { self.new ≡ rows.now.items }
        ensures members { OnlyMembersLag table.now self.new }
    {
        let mut lines: Row<StateRow, MOST_GROUPS> = Row::new();
        lines.try_extend_from_slice(rows.as_slice()).unwrap();
        // the order of the lines follows from a valid table, which only a call tells of
        let _valid = groups_in(table);
        self.lines = lines;
    }
}

/// The line of a group, blank for the group that was updated.
fn line_in(lines: &[StateRow], updated: Option<u8>, vid: u8) -> StateRow
    ensures { result ≡ line_but lines.now updated vid }
{
    match updated {
        Some(named) if vid == named => blank_line(named),
        _ => line_of(lines, vid),
    }
}

/// The lines of a table's groups, in order, blank for the group that was updated.
fn lines_in(table: &Table, lines: &[StateRow], updated: Option<u8>) -> Row<StateRow, MOST_GROUPS>
    ensures lines { result.items ≡ lines_but table.now lines.now updated }
    ensures valid { IsValid table.now }
{
    let mut rows: Row<StateRow, MOST_GROUPS> = Row::new();
    for group in groups_in(table) {
        rows.push(line_in(lines, updated, group.vid));
    }
    rows
}

/// Ends the request of a group.
fn end_request(lines: &mut [StateRow], vid: u8)
    ensures { lines.new ≡ without_request vid lines.old }
{
    for line in lines.iter_mut() {
        if line.vid == vid {
            line.request = None;
        }
    }
}
