//! What is known at the beginning of a cycle, and what becomes of it.

ghost use Rattle.std.specs.Prelude.{◌≡◌, ◌+◌, ◌<◌, ◌≤◌, ◌⊎◌};
ghost use Rattle.config_table.specs.Table.{IsValid};
ghost use Rattle.flag_vote.specs.Flags.{voted_flags};
ghost use Rattle.scoreboard.specs.Choice.{scoreboard_decision, scoreboard_after};
ghost use Rattle.scoreboard.specs.Times.{AreLinesOf, AreBefore};
ghost use Rattle.table_update.specs.Updates.{applied, named_group, read_update};
ghost use Rattle.element_core.specs.Cycle.{update_in};
ghost use Rattle.trace_audit.specs.Known.{known_first, known_by, known_with, popped, still_standing};

use crate::shown::{popped, still_standing};
use config_table::{Decision, Table};
use flag_vote::voted;
use ftpp_base::{MOST_CYCLES, Round, Slot};
use local_pattern::SystemPattern;
use packet_format::Packet;
use scoreboard::Scoreboard;
use std::marker::Model;
use table_update::{Applied, Update, apply, read_update};

/// What is known at the beginning of a cycle.
#[derive(Drop)]
pub(crate) struct Watched<const N: usize> {
    cycle: u32,
    table: Table,
    scoreboard: Scoreboard,
    standing: SystemPattern<N>,
}

impl<const N: usize> Model for Watched<N> {
    ghost use Rattle.std.specs.Prelude.{◌≡◌};
    ghost use Rattle.trace_audit.specs.Known.{Known};
    ghost use Rattle.trace_audit.specs.Watched.{known_of, IsWatched};

    ghost Value = { Known };

    ghost view = { λ s. known_of s.cycle s.table s.scoreboard s.standing };

    ghost invariant = { λ s. IsWatched N (known_of s.cycle s.table s.scoreboard s.standing) };
}

impl<const N: usize> Watched<N> {
    /// Before the first cycle: no requests, and nothing was shown.
    pub(crate) fn new(table: &Table) -> Watched<N>
        requires { table.now.n ≡ N }
        ensures { result ≡ known_first table.now }
    {
        Watched {
            cycle: 0,
            table: table.copy(),
            scoreboard: Scoreboard::new(table),
            standing: SystemPattern::quiet(),
        }
    }

    /// A round of the cycle.
    pub(crate) fn slot(&self, round: Round) -> Slot
        ensures { result ≡ record { cycle = self.now.cycle; round = round } }
    {
        Slot {
            cycle: self.cycle,
            round,
        }
    }

    /// The table of the cycle.
    pub(crate) fn table(&self) -> &Table
        ensures table { result.now ≡ self.now.table }
        ensures size { result.now.n ≡ N }
        ensures valid { IsValid result.now }
    {
        // by its type
        let _valid = self.table.n();
        &self.table
    }

    /// What was shown in the cycle before, where it still stands.
    pub(crate) fn standing(&self) -> &SystemPattern<N>
        ensures { result.now ≡ self.now.standing }
    {
        &self.standing
    }

    /// What is decided in the cycle with this agreed pattern, and the scoreboard after it.
    pub(crate) fn decide(&self, pattern: &SystemPattern<N>, after: &mut Scoreboard) -> Decision
        requires { self.now.cycle < MOST_CYCLES }
        ensures decision { result ≡ scoreboard_decision self.now.table self.now.cycle (voted_flags self.now.table pattern.now) self.now.scoreboard }
        ensures after { after.new ≡ scoreboard_after self.now.table self.now.cycle (voted_flags self.now.table pattern.now) self.now.scoreboard }
        ensures lines { AreLinesOf self.now.table after.new }
        ensures earlier { AreBefore (self.now.cycle + 1) after.new }
    {
        let flags = voted(&self.table, pattern);
        self.scoreboard
            .step_into(&self.table, self.cycle, &flags, after)
    }

    /// Ends the cycle: the heads of the admitted members are popped, and the scoreboard after the decision takes the place
    /// of the one before.
    pub(crate) fn serve(
        &mut self,
        pattern: &SystemPattern<N>,
        decision: &Decision,
        after: &mut Scoreboard,
    )
        requires few { N ≤ 5 }
        requires cycle { self.old.cycle < MOST_CYCLES }
        requires lines { AreLinesOf self.old.table after.old }
        requires earlier { AreBefore (self.old.cycle + 1) after.old }
        ensures { self.new ≡ record {
          cycle = self.old.cycle + 1;
          table = self.old.table;
          scoreboard = after.old;
          standing = still_standing N pattern.now (popped self.old.table decision.now);
        } }
    {
        let gone = popped(&self.table, decision);
        self.standing = still_standing(pattern, gone.as_slice());
        std::mem::swap(&mut self.scoreboard, after);
        self.cycle += 1;
    }

    /// Takes the packet of an exchange of class 3, if there was one and it has a result, as an update.
    pub(crate) fn update(&mut self, asked: &Option<Option<Packet>>)
        requires { N ≤ 5 }
        ensures { self.new ≡ known_with (update_in asked.now) self.old }
    {
        match asked {
            Some(Some(packet)) => self.take_update(packet),
            _ => {}
        }
    }

    /// Takes the packet of an exchange of class 3.
    fn take_update(&mut self, packet: &Packet)
        requires { N ≤ 5 }
        ensures { self.new ≡ known_with (read_update packet.now) self.old }
    {
        match read_update(packet) {
            Some(update) => self.apply(&update),
            None => {}
        }
    }

    /// Applies an update; where it is done, the line of its group is blank, and the heads of its ports are gone.
    fn apply(&mut self, update: &Update)
        requires { N ≤ 5 }
        ensures { self.new ≡ known_by (applied self.old.table update.now) update.now self.old }
    {
        // a table is valid by its type
        let _valid = self.table.n();
        match apply(&mut self.table, update) {
            Applied::Done(cleared) => {
                self.scoreboard.after_update(&self.table, update.group());
                self.standing = still_standing(&self.standing, cleared.as_slice());
            }
            Applied::Refused(_) | Applied::Absent => {}
        }
    }
}
