//! One element.

ghost use Rattle.std.specs.Prelude.{◌≡◌, ◌<◌, ◌≤◌, ◌⊎◌, ◌↔◌, length, option_map, option_copied, Some, IfOk, IsErr, is_ok, if◌then◌else◌};
ghost use Rattle.config_table.specs.Table.{out_limit};
ghost use Rattle.element_ports.specs.PortQueues.{port_queues};
ghost use Rattle.packet_format.specs.declared.acts.Act.TheVariants.{Post, Read};
ghost use Rattle.packet_format.specs.declared.acts.ActAnswer.TheVariants.{Posted as Accepted, PostFull as Full};
ghost use Rattle.two_round.specs.Echoes.{no_echoes};
ghost use Rattle.element_core.specs.Processors.{read_answer};
ghost use Rattle.element_core.specs.AloneRun.{own_answer};
ghost use Rattle.element_core.specs.ElementValue.{fresh, after_own_act};
ghost use Rattle.element_core.specs.Told.{told_of};

use crate::kept_state::{KeptState, boxed};
use crate::pending::Pending;
use crate::{CycleRecord, Due};
use bit_vote::Cells;
use config_table::{Decision, Table};
use frame_format::FrameBuf;
use ftpp_base::{MOST_CYCLES, Ne, NoMemory, Round, Set8};
use local_pattern::SystemPattern;
use packet_format::{Delivered, Descriptor, Packet};
use processor_buffers::PostFull;
use scoreboard::Scoreboard;
use std::alloc::Global;
use std::marker::Model;
use syndrome_log::SyndromeLog;
use two_round::TwoRound;

/// Both exchanges, before anything was heard.
fn unheard<const N: usize>(me: Ne) -> (TwoRound<N, 32>, TwoRound<N, 64>)
    requires size { (N ≡ 4) ⊎ (N ≡ 5) }
    requires below { me < N }
    ensures { (result.0 ≡ no_echoes N me) × (result.1 ≡ no_echoes N me) }
{
    (TwoRound::new(me), TwoRound::new(me))
}

/// One of `N` elements, 4 or 5. In each round it puts one frame for each other element, and then takes one from each.
#[derive(Drop)]
pub struct Element<const N: usize> {
    pub(crate) kept: KeptState,
    pub(crate) patterns: TwoRound<N, 32>,
    pub(crate) packets: TwoRound<N, 64>,
    pub(crate) pending: Pending<N>,
    pub(crate) due: Due,
    pub(crate) last: Option<CycleRecord<N>>,
    pub(crate) log: SyndromeLog,
    /// The frame that is sent or taken.
    pub(crate) frame: FrameBuf,
}

impl<const N: usize> Model for Element<N> {
    ghost use Rattle.std.specs.Prelude.{◌≡◌, option_map};
    ghost use Rattle.element_core.specs.ElementValue.{ElementValue};
    ghost use Rattle.element_core.specs.Told.{told_of};
    ghost use Rattle.element_core.specs.Pending.{element_with, IsElement};

    ghost Value = { ElementValue };

    ghost view = { λ e. element_with e.kept e.patterns e.packets e.due (option_map told_of e.last) e.log };

    ghost invariant = { λ e. IsElement N (element_with e.kept e.patterns e.packets e.due (option_map told_of e.last) e.log) e.pending × (e.patterns.me ≡ e.kept.me) × (e.packets.me ≡ e.kept.me) };
}

impl<const N: usize> Element<N> {
    /// An element before its first cycle: no requests, empty ports with the limits of the table, and nothing noted.
    pub fn new(alloc: Global, me: Ne, table: &Table) -> Result<Element<N>, NoMemory>
        requires elements { table.now.n ≡ N }
        requires below { me < N }
        ensures { IfOk result (λ e. e ≡ fresh me table.now) }
    {
        // a table has four or five elements
        let _elements = table.n();
        let kept = KeptState::new(alloc, me, table)?;
        let log = SyndromeLog::new(alloc)?;
        let after = boxed(alloc, Scoreboard::new(table))?;
        let (patterns, packets) = unheard(me);
        Ok(Element {
            kept,
            patterns,
            packets,
            pending: Pending {
                results: Cells::absent(),
                differing: Set8::EMPTY,
                pattern: SystemPattern::quiet(),
                decision: Decision::Idle,
                after,
            },
            due: Due::Emit(Round::A1),
            last: None,
            log,
            frame: FrameBuf::new(),
        })
    }

    /// Its number.
    pub fn me(&self) -> Ne
        ensures me { result ≡ self.now.kept.me }
        ensures below { result < N }
    {
        self.kept.me()
    }

    /// The step that it takes next.
    pub fn due(&self) -> Due
        ensures { result ≡ self.now.due }
    {
        self.due
    }

    /// The number of the cycle that comes next, or that it is in.
    pub fn cycle(&self) -> u32
        ensures cycle { result ≡ self.now.kept.cycle }
        ensures most { result ≤ MOST_CYCLES }
    {
        self.kept.cycle()
    }

    /// What it made of the last cycle. None exactly before the end of the first cycle since it was made, reset or rejoined.
    pub fn last(&self) -> Option<&CycleRecord<N>>
        ensures { option_map told_of (option_copied result) ≡ self.now.last }
    {
        self.last.as_ref()
    }

    /// The agreed table.
    pub fn table(&self) -> &Table
        ensures table { result.now ≡ self.now.kept.table }
        ensures elements { result.now.n ≡ N }
    {
        self.kept.table()
    }

    /// The agreed scoreboard, as it stood when the cycle began.
    pub fn scoreboard(&self) -> &Scoreboard
        ensures { result.now ≡ self.now.kept.scoreboard }
    {
        self.kept.scoreboard()
    }

    /// What it noted of the others.
    pub fn syndromes(&self) -> &SyndromeLog
        ensures { result.now ≡ self.now.log }
    {
        &self.log
    }

    /// The processor at a port, below 8, posts a packet with its request. PostFull exactly where its output
    /// holds as many packets as its limit; then nothing changes.
    pub fn host_post(&mut self, port: u8, desc: Descriptor, packet: Packet) -> Result<(), PostFull>
        requires due { self.old.due ≡ Due.Emit Round.A1 }
        requires port { port < 8 }
        ensures element { self.new ≡ after_own_act (Post (record { ne = self.old.kept.me; port = port }) desc packet) self.old }
        ensures answer { own_answer self.old.kept.table self.old.kept.ports (Post (record { ne = self.old.kept.me; port = port }) desc packet) ≡ (if is_ok result then Accepted else Full) }
        ensures full { IsErr result ↔ (length (port_queues self.old.kept.ports port).output ≡ out_limit self.old.kept.table (record { ne = self.old.kept.me; port = port })) }
    {
        self.kept.post(port, desc, packet)
    }

    /// The processor at a port, below 8, reads the oldest packet that was delivered to it. None exactly where there is none.
    pub fn host_read(&mut self, port: u8) -> Option<Delivered>
        requires due { self.old.due ≡ Due.Emit Round.A1 }
        requires port { port < 8 }
        ensures element { self.new ≡ after_own_act (Read (record { ne = self.old.kept.me; port = port })) self.old }
        ensures answer { own_answer self.old.kept.table self.old.kept.ports (Read (record { ne = self.old.kept.me; port = port })) ≡ read_answer result }
    {
        self.kept.read(port)
    }
}
