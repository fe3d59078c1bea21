//! The end of a cycle: heads that go, the delivery, and the update.

ghost use Rattle.std.specs.Prelude.{◌≡◌, ◌+◌, ◌<◌, Some, None, option_copied};
ghost use Rattle.scoreboard.specs.Times.{AreLinesOf, AreBefore, OnlyMembersLag};
ghost use Rattle.table_update.specs.Updates.{applied, named_group, read_update};
ghost use Rattle.element_core.specs.Cycle.{outcome_of, read_outcome, update_in, update_outcome};
ghost use Rattle.element_core.specs.Element.{own_service, own_delivery, own_handed, kept_by, kept_with};

use crate::Outcome3;
use crate::kept_state::KeptState;
use config_table::Decision;
use ftpp_base::{MOST_CYCLES, Proc};
use packet_format::Packet;
use processor_buffers::Handed;
use scoreboard::Scoreboard;
use table_update::{Applied, Update, apply, read_update};

impl KeptState {
    /// Serves a cycle's decision: the head of the admitted member here goes, and the entry is delivered, if the decision
    /// asks for it. The scoreboard after the decision takes the place of the one before, and the next cycle comes.
    pub(crate) fn serve(
        &mut self,
        decision: &Decision,
        entry: Option<&Packet>,
        after: &mut Box<Scoreboard>,
    ) -> Option<(Proc, Handed)>
        requires cycle { self.old.cycle < MOST_CYCLES }
        requires lines { AreLinesOf self.old.table after.old.value }
        requires earlier { AreBefore (self.old.cycle + 1) after.old.value }
        requires members { OnlyMembersLag self.old.table after.old.value }
        ensures kept { self.new ≡ record {
          me = self.old.me;
          cycle = self.old.cycle + 1;
          table = self.old.table;
          scoreboard = after.old.value;
          ports = own_delivery self.old decision.now (option_copied entry.entry) (own_service self.old decision.now);
        } }
        ensures handed { result ≡ own_handed self.old decision.now (option_copied entry.entry) (own_service self.old decision.now) }
    {
        self.ports.serve(&self.table, decision);
        let handed = self.ports.deliver(&self.table, self.cycle, decision, entry);
        std::mem::swap(&mut self.scoreboard, after);
        self.cycle += 1;
        handed
    }

    /// Takes the packet of an exchange of class 3, if there was one and it has a result, as an update.
    pub(crate) fn update(&mut self, asked: &Option<Option<Packet>>) -> Option<Outcome3>
        ensures kept { self.new ≡ kept_with (update_in asked.now) self.old }
        ensures outcome { result ≡ update_outcome self.old.table asked.now }
    {
        match asked {
            None => None,
            Some(None) => Some(Outcome3::Missing),
            Some(Some(packet)) => Some(self.take_update(packet)),
        }
    }

    /// Takes the packet of an exchange of class 3.
    fn take_update(&mut self, packet: &Packet) -> Outcome3
        ensures kept { self.new ≡ kept_with (read_update packet.now) self.old }
        ensures outcome { result ≡ read_outcome self.old.table (read_update packet.now) }
    {
        match read_update(packet) {
            Some(update) => self.apply(&update),
            None => Outcome3::Unread,
        }
    }

    /// Applies an update to the table; where it is done, the line of its group is blank, and its ports are cleared.
    fn apply(&mut self, update: &Update) -> Outcome3
        ensures kept { self.new ≡ kept_by (applied self.old.table update.now) update.now self.old }
        ensures outcome { result ≡ outcome_of (applied self.old.table update.now) }
    {
        match apply(&mut self.table, update) {
            Applied::Done(cleared) => {
                self.scoreboard.after_update(&self.table, update.group());
                self.ports.update(&self.table, cleared.as_slice());
                Outcome3::Done
            }
            Applied::Refused(error) => Outcome3::Refused(error.code()),
            Applied::Absent => Outcome3::Absent,
        }
    }
}
