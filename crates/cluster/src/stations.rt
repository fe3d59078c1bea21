//! An element with the end of its link.

ghost use Rattle.std.specs.Prelude.{◌≡◌, ◌≢◌, ℕ, ◌<◌, ◌⊎◌, IfOk, is_ok, length, if◌then◌else◌};
ghost use Rattle.element_core.specs.Processors.{read_answer};
ghost use Rattle.element_core.specs.AloneRun.{actor, own_answer};
ghost use Rattle.element_core.specs.ElementValue.{after_own_act, fresh};
ghost use Rattle.cluster.specs.Carrying.{HasShape, bytes_in};
ghost use Rattle.cluster.specs.Delivered.{frame_in};

use crate::table_link::TableLink;
use crate::telling::frame_of;
use config_table::Table;
use element_core::{Due, Element};
use frame_format::FrameBuf;
use ftpp_base::{MOST_CYCLES, Ne, NoMemory, Proc, Round};
use link_fabric::LinkEnd;
use packet_format::{Act, ActAnswer, Delivered, Descriptor, Packet};
use processor_buffers::PostFull;
use std::alloc::Global;

/// An element with the end of its link.
#[derive(Drop)]
pub(crate) struct Station<const N: usize> {
    pub(crate) element: Element<N>,
    pub(crate) link: LinkEnd<N>,
}

impl<const N: usize> Station<N> {
    ghost use Rattle.cluster.specs.Stations.{Receives, Steps, Takes, came_at};

    /// An element before its first cycle, to which no frame came.
    pub(crate) fn new(alloc: Global, me: Ne, table: &Table) -> Result<Station<N>, NoMemory>
        requires elements { table.now.n ≡ N }
        requires below { me < N }
        ensures element { IfOk result (λ s. s.element ≡ fresh me table.now) }
        ensures owner { IfOk result (λ s. s.link.owner ≡ me) }
    {
        Ok(Station {
            element: Element::new(alloc, me, table)?,
            link: LinkEnd::new(me),
        })
    }

    /// The element takes a step over its link.
    pub(crate) fn step(&mut self, due: Due)
        requires due { self.old.element.due ≡ due }
        requires owner { self.old.link.owner ≡ self.old.element.kept.me }
        requires cycle { self.old.element.kept.cycle < MOST_CYCLES }
        ensures { Steps due self.old self.new }
    {
        match due {
            Due::Emit(round) => self.element.emit(round, &mut self.link),
            Due::Absorb(round) => self.element.absorb(round, &mut self.link),
        }
    }

    /// The element takes the frames of a round where they were delivered.
    pub(crate) fn take(&mut self, round: Round, rows: &[Vec<FrameBuf>])
        requires due { self.old.element.due ≡ Due.Absorb round }
        requires owner { self.old.link.owner ≡ self.old.element.kept.me }
        requires below { self.old.link.owner < N }
        requires count { length rows.now ≡ N }
        requires shape { HasShape N (bytes_in rows.now) }
        ensures { Takes round (bytes_in rows.now) self.old self.new }
    {
        let mut link = TableLink::new(self.link.owner, rows);
        self.element.absorb(round, &mut link);
    }

    /// The frame that was delivered to it from an element comes to its link; none comes from itself.
    fn receive_one(&mut self, from: Ne, rows: &[Vec<FrameBuf>])
        requires from { from < N }
        requires below { self.old.link.owner < N }
        requires count { length rows.now ≡ N }
        requires shape { HasShape N (bytes_in rows.now) }
        ensures element { self.new.element ≡ self.old.element }
        ensures owner { self.new.link.owner ≡ self.old.link.owner }
        ensures others { (j : ℕ) → j ≢ from → came_at self.new j ≡ came_at self.old j }
        ensures came { from ≢ self.old.link.owner → came_at self.new from ≡ frame_in (bytes_in rows.now) from self.old.link.owner }
    {
        let me = self.link.owner;
        if from != me {
            self.link.arrive(from, frame_of::<N>(rows, from, me));
        }
    }

    /// The frames that were delivered to it come to its link.
    pub(crate) fn receive(&mut self, rows: &[Vec<FrameBuf>])
        requires size { (N ≡ 4) ⊎ (N ≡ 5) }
        requires below { self.old.link.owner < N }
        requires count { length rows.now ≡ N }
        requires shape { HasShape N (bytes_in rows.now) }
        ensures { Receives (bytes_in rows.now) self.old self.new }
    {
        for k in 0..N {
            self.receive_one(Ne::at(k), rows);
        }
    }

    /// One of its processors posts a packet with its request.
    fn post(&mut self, proc: &Proc, desc: &Descriptor, packet: &Packet) -> ActAnswer
        requires due { self.old.element.due ≡ Due.Emit Round.A1 }
        requires me { proc.now.ne ≡ self.old.element.kept.me }
        requires port { proc.now.port < 8 }
        ensures element { self.new.element ≡ after_own_act (Act.Post proc.now desc.now packet.now) self.old.element }
        ensures answer { result ≡ own_answer self.old.element.kept.table self.old.element.kept.ports (Act.Post proc.now desc.now packet.now) }
        ensures owner { self.new.link.owner ≡ self.old.link.owner }
    {
        let posted = self.element.host_post(proc.port, *desc, *packet);
        posted_answer(&posted)
    }

    /// One of its processors reads.
    fn read(&mut self, proc: &Proc) -> ActAnswer
        requires due { self.old.element.due ≡ Due.Emit Round.A1 }
        requires me { proc.now.ne ≡ self.old.element.kept.me }
        requires port { proc.now.port < 8 }
        ensures element { self.new.element ≡ after_own_act (Act.Read proc.now) self.old.element }
        ensures answer { result ≡ own_answer self.old.element.kept.table self.old.element.kept.ports (Act.Read proc.now) }
        ensures owner { self.new.link.owner ≡ self.old.link.owner }
    {
        read_answer(self.element.host_read(proc.port))
    }

    /// One of its processors acts.
    pub(crate) fn act(&mut self, act: &Act) -> ActAnswer
        requires due { self.old.element.due ≡ Due.Emit Round.A1 }
        requires me { (actor act.now).ne ≡ self.old.element.kept.me }
        requires port { (actor act.now).port < 8 }
        ensures element { self.new.element ≡ after_own_act act.now self.old.element }
        ensures answer { result ≡ own_answer self.old.element.kept.table self.old.element.kept.ports act.now }
        ensures owner { self.new.link.owner ≡ self.old.link.owner }
    {
        match act {
            Act::Post { proc, desc, packet } => self.post(proc, desc, packet),
            Act::Read(proc) => self.read(proc),
        }
    }
}

fn posted_answer(posted: &Result<(), PostFull>) -> ActAnswer
    ensures { result ≡ (if is_ok posted.now then ActAnswer.Posted else ActAnswer.PostFull) }
{
    match posted {
        Ok(()) => ActAnswer::Posted,
        Err(_) => ActAnswer::PostFull,
    }
}

fn read_answer(read: Option<Delivered>) -> ActAnswer
    ensures { result ≡ read_answer read }
{
    match read {
        Some(delivered) => ActAnswer::Got(delivered),
        None => ActAnswer::Nothing,
    }
}
