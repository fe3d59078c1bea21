//! What an element keeps from cycle to cycle.

ghost use Rattle.std.specs.Prelude.{◌≡◌, ◌+◌, ◌<◌, ◌≤◌, ◌↔◌, Some, IfOk, IsErr, is_ok, length, if◌then◌else◌};
ghost use Rattle.packet_format.specs.declared.acts.Act.TheVariants.{Post, Read};
ghost use Rattle.packet_format.specs.declared.acts.ActAnswer.TheVariants.{Posted as Accepted, PostFull as Full};
ghost use Rattle.config_table.specs.Table.{IsValid, out_limit};
ghost use Rattle.flag_vote.specs.Flags.{voted_flags};
ghost use Rattle.scoreboard.specs.Board.{empty_scoreboard};
ghost use Rattle.scoreboard.specs.Choice.{scoreboard_decision, scoreboard_after};
ghost use Rattle.scoreboard.specs.Times.{AreLinesOf, AreBefore};
ghost use Rattle.rejoin.specs.State.{IsInRange, IsState};
ghost use Rattle.processor_buffers.specs.Queues.{head_of};
ghost use Rattle.data_exchange.specs.Entries.{own_row};
ghost use Rattle.element_ports.specs.PortQueues.{empty_ports, own_act, own_answer, port_queues, read_answer};
ghost use Rattle.element_core.specs.Element.{own_packet};
ghost use Rattle.element_core.specs.Noted.{own_pattern};

use config_table::{Decision, Service, Table, VotedFlags};
use data_exchange::contributes;
use element_ports::Ports;
use flag_vote::voted_into;
use ftpp_base::{MOST_CYCLES, Ne, NoMemory, Round, Slot};
use local_pattern::SystemPattern;
use packet_format::{Delivered, Descriptor, Packet};
use processor_buffers::PostFull;
use rejoin::{AgreedState, encode_state};
use scoreboard::Scoreboard;
use std::alloc::Global;
use std::marker::Model;

/// What an element keeps from cycle to cycle: the cycle that comes next, the agreed table and scoreboard, and its ports.
#[derive(Drop)]
pub(crate) struct KeptState {
    pub(crate) cycle: u32,
    pub(crate) table: Table,
    /// In memory of its own, so that the one after a decision takes its place without a copy.
    pub(crate) scoreboard: Box<Scoreboard>,
    pub(crate) ports: Ports,
}

/// A scoreboard in memory of its own.
pub(crate) fn boxed(alloc: Global, scoreboard: Scoreboard) -> Result<Box<Scoreboard>, NoMemory>
    ensures { IfOk result (λ b. b.value ≡ scoreboard) }
{
    match Box::new(alloc, scoreboard) {
        Ok(boxed) => Ok(boxed),
        Err(_) => Err(NoMemory),
    }
}

impl Model for KeptState {
    ghost use Rattle.std.specs.Prelude.{◌≡◌};
    ghost use Rattle.element_ports.specs.Ports.{HasLimits};
    ghost use Rattle.element_core.specs.Element.{Kept};
    ghost use Rattle.element_core.specs.KeptState.{kept_at, IsKeptState};

    ghost Value = { Kept };

    ghost view = { λ s. kept_at s.cycle s.table s.scoreboard.value s.ports };

    ghost invariant = { λ s. IsKeptState (kept_at s.cycle s.table s.scoreboard.value s.ports) × HasLimits s.table s.ports };
}

impl KeptState {
    /// Before the first cycle of a table: no requests, and empty ports.
    pub(crate) fn new(alloc: Global, me: Ne, table: &Table) -> Result<KeptState, NoMemory>
        requires { me < table.now.n }
        ensures { IfOk result (λ s. s ≡ record { me = me; cycle = 0; table = table.now; scoreboard = empty_scoreboard table.now; ports = empty_ports }) }
    {
        let ports = Ports::new(alloc, me, table)?;
        let scoreboard = boxed(alloc, Scoreboard::new(table))?;
        Ok(KeptState {
            cycle: 0,
            table: table.copy(),
            scoreboard,
            ports,
        })
    }

    /// Begins anew on a table, in the memory that it has: no requests, and empty ports.
    pub(crate) fn reset(&mut self, table: &Table)
        requires { self.old.me < table.now.n }
        ensures { self.new ≡ record { me = self.old.me; cycle = 0; table = table.now; scoreboard = empty_scoreboard table.now; ports = empty_ports } }
    {
        self.cycle = 0;
        self.table = table.copy();
        *self.scoreboard = Scoreboard::new(table);
        self.ports.reset(table);
    }

    /// Goes over to an agreed state, in the memory that it has, with empty ports.
    pub(crate) fn take(&mut self, state: &AgreedState)
        requires me { self.old.me < state.now.table.n }
        requires in_range { IsInRange state.now.cycle state.now.table state.now.rows.items }
        ensures { self.new ≡ record { me = self.old.me; cycle = state.now.cycle; table = state.now.table; scoreboard = state.now.rows.items; ports = empty_ports } }
    {
        self.cycle = state.cycle;
        self.table = state.table.copy();
        self.scoreboard
            .restore(&state.table, &state.rows, state.cycle);
        self.ports.reset(&state.table);
    }

    /// The bytes of its agreed state.
    pub(crate) fn state(&self) -> [u8; 1887]
        ensures { IsState result self.now.cycle self.now.table self.now.scoreboard }
    {
        encode_state(&AgreedState {
            cycle: self.cycle,
            table: self.table.copy(),
            rows: self.scoreboard.snapshot(&self.table),
        })
    }

    /// The element's number.
    pub(crate) fn me(&self) -> Ne
        ensures me { result ≡ self.now.me }
        ensures below { result < self.now.table.n }
    {
        self.ports.me()
    }

    /// The number of the cycle that comes next, or that it is in.
    pub(crate) fn cycle(&self) -> u32
        ensures cycle { result ≡ self.now.cycle }
        ensures most { result ≤ MOST_CYCLES }
    {
        self.cycle
    }

    /// A round of that cycle.
    pub(crate) fn slot(&self, round: Round) -> Slot
        ensures { result ≡ record { cycle = self.now.cycle; round = round } }
    {
        Slot {
            cycle: self.cycle,
            round,
        }
    }

    /// The agreed table.
    pub(crate) fn table(&self) -> &Table
        ensures table { result.now ≡ self.now.table }
        ensures valid { IsValid result.now }
    {
        // a table is valid by its type, which only a call of it tells
        let _valid = self.table.n();
        &self.table
    }

    /// The agreed scoreboard.
    pub(crate) fn scoreboard(&self) -> &Scoreboard
        ensures { result.now ≡ self.now.scoreboard }
    {
        &self.scoreboard
    }

    /// One of its processors posts a packet with its request.
    pub(crate) fn post(
        &mut self,
        port: u8,
        desc: Descriptor,
        packet: Packet,
    ) -> Result<(), PostFull>
        requires { port < 8 }
        ensures kept { self.new ≡ record self.old { ports = own_act self.old.table self.old.ports (Post (record { ne = self.old.me; port = port }) desc packet) } }
        ensures answer { own_answer self.old.table self.old.ports (Post (record { ne = self.old.me; port = port }) desc packet) ≡ (if is_ok result then Accepted else Full) }
        ensures full { IsErr result ↔ (length (port_queues self.old.ports port).output ≡ out_limit self.old.table (record { ne = self.old.me; port = port })) }
    {
        self.ports.post(port, desc, packet)
    }

    /// One of its processors reads the oldest packet that was delivered to it.
    pub(crate) fn read(&mut self, port: u8) -> Option<Delivered>
        requires { port < 8 }
        ensures kept { self.new ≡ record self.old { ports = own_act self.old.table self.old.ports (Read (record { ne = self.old.me; port = port })) } }
        ensures answer { own_answer self.old.table self.old.ports (Read (record { ne = self.old.me; port = port })) ≡ read_answer result }
    {
        self.ports.read(port)
    }

    /// What its ports show, as it sends it in the first round of patterns.
    pub(crate) fn pattern(&self) -> [u8; 32]
        ensures { Some result ≡ own_pattern self.now }
    {
        self.ports.column().encode()
    }

    /// What it sends in the first round of packets.
    pub(crate) fn packet(&self, decision: &Decision) -> Option<[u8; 64]>
        ensures { result ≡ own_packet self.now decision.now }
    {
        match decision {
            Decision::Idle | Decision::Discard { .. } => None,
            Decision::Exchange(service) => self.contribution(service),
        }
    }

    /// The row that it contributes to an exchange: the head of its member, where it is one of the elements that send.
    fn contribution(&self, service: &Service) -> Option<[u8; 64]>
        ensures { result ≡ own_row self.now.table (λ proc. head_of (port_queues self.now.ports proc.port)) service.now self.now.me }
    {
        if contributes(service, self.ports.me()) {
            self.ports
                .member_row(&self.table, service.vid, &service.desc)
        } else {
            None
        }
    }

    /// What is decided in a cycle with this agreed pattern, and the scoreboard after it.
    pub(crate) fn decide<const N: usize>(
        &self,
        pattern: &SystemPattern<N>,
        after: &mut Scoreboard,
    ) -> Decision
        requires { self.now.cycle < MOST_CYCLES }
        ensures decision { result ≡ scoreboard_decision self.now.table self.now.cycle (voted_flags self.now.table pattern.now) self.now.scoreboard }
        ensures after { after.new ≡ scoreboard_after self.now.table self.now.cycle (voted_flags self.now.table pattern.now) self.now.scoreboard }
        ensures lines { AreLinesOf self.now.table after.new }
        ensures earlier { AreBefore (self.now.cycle + 1) after.new }
    {
        let mut flags = VotedFlags::new();
        voted_into(&self.table, pattern, &mut flags);
        self.scoreboard
            .step_into(&self.table, self.cycle, &flags, after)
    }
}
