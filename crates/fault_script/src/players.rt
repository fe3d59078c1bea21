//! Edits played on the frames of the faulty element.

ghost use Rattle.std.specs.Prelude.{◌≡◌, ◌≢◌, ◌+◌, ◌<◌, ◌≤◌, List, [], Some, length, filter, take, IsTrue, slice_get, ◌==◌, nat_lt};
ghost use Rattle.std.specs.List.{fold, list_all};
ghost use Rattle.ftpp_base.specs.declared.element.Round.{Round};
ghost use Rattle.fault_script.specs.Edited.{same_round, names_round, names_receiver, is_of, edited_by, edited_more, edited_frame, never_fall, all_before};

use crate::adversaries::Adversary;
use crate::kept::KeptByRound;
use crate::{Edit, EditKind};
use frame_format::{FRAME_BYTES, FrameBuf, copy_frame};
use ftpp_base::{Ne, Round, Slot};

/// Plays the edits of a script, in order. Over a run it goes through them once: it starts each cycle at the first edit
/// that is not of an earlier cycle, and looks from the first edit on only where a frame of an earlier cycle is asked for.
#[derive(Drop)]
pub struct Player<'a> {
    edits: &'a [Edit],
    /// The place of the first edit that is not of a cycle before `cycle`.
    first: usize,
    cycle: u32,
    kept: KeptByRound,
    ghost in_order: { IsTrue (never_fall 0 edits.now) },
    ghost behind: { IsTrue (all_before cycle (take first edits.now)) },
    ghost place: { first ≤ length edits.now },
}

impl<'a> Player<'a> {
    ghost use Rattle.fault_script.specs.Players.{edits_of, kept_of};

    /// Borrows the edits, whose cycles do not fall. No frames are kept yet.
    pub fn new(edits: &'a [Edit]) -> Player<'a>
        requires { IsTrue (never_fall 0 edits.now) }
        ensures edits { edits_of result ≡ edits.now }
        ensures kept { (round : Round) → kept_of result round ≡ record { now = None; before = None } }
    {
        Player {
            edits,
            first: 0,
            cycle: 0,
            kept: KeptByRound::none(),
        }
    }

    /// Where to look for the first edit of a cycle: for a cycle before the present one from the first edit on.
    #[tactic(auto, using(crate::proofs::Walked::before_later))]
    fn start(&self, cycle: u32) -> usize
        ensures behind { IsTrue (all_before cycle (take result (edits_of self.now))) }
        ensures place { result ≤ length (edits_of self.now) }
    {
        if cycle < self.cycle { 0 } else { self.first }
    }

    /// Goes to the first edit that is not of a cycle before this one.
    fn seek(&mut self, cycle: u32)
        ensures edits { self.new.edits ≡ self.old.edits }
        ensures kept { self.new.kept ≡ self.old.kept }
        ensures cycle { self.new.cycle ≡ cycle }
    {
        let first = first_from(self.edits, self.start(cycle), cycle);
        self.cycle = cycle;
        self.first = first;
    }
}

impl<'a> Adversary for Player<'a> {
    ghost use Rattle.fault_script.specs.Players.{edits_of, kept_of};

    ghost told = { λ p. Some (record { edits = edits_of p; kept = kept_of p }) };

    fn frame(&mut self, at: Slot, to: Ne, own: &FrameBuf, got: &mut FrameBuf) {
        copy_frame(own, got);
        if self.edits.is_empty() {
            return;
        }
        self.kept.keep(at.round, at.cycle, own);
        self.seek(at.cycle);
        let earlier = self.kept.repeated(at.round, at.cycle, own);
        play(&self.edits[self.first..], at, &to, earlier, got);
    }
}

/// The place of the first edit that is not of a cycle before this one, looked for from a place on.
#[tactic(auto, using(crate::proofs::Walked::before_more))]
fn first_from(edits: &[Edit], start: usize, cycle: u32) -> usize
    requires behind { IsTrue (all_before cycle (take start edits.now)) }
    requires place { start ≤ length edits.now }
    ensures behind { IsTrue (all_before cycle (take result edits.now)) }
    ensures place { result ≤ length edits.now }
{
    let mut at = start;
    while at < edits.len() && edits[at].cycle < cycle {
        at += 1;
    }
    at
}

/// Whether two rounds are the same.
fn is_same_round(one: Round, other: Round) -> bool
    ensures { result ≡ same_round one other }
{
    matches!(
        (one, other),
        (Round::A1, Round::A1)
            | (Round::A2, Round::A2)
            | (Round::B1, Round::B1)
            | (Round::B2, Round::B2)
    )
}

impl Edit {
    /// Whether it is of this round, or of any.
    fn names_round(&self, round: Round) -> bool
        ensures { result ≡ names_round self.now.round round }
    {
        match self.round {
            None => true,
            Some(one) => is_same_round(one, round),
        }
    }

    /// Whether it is of the frame to this element, or to all.
    fn names_receiver(&self, to: &Ne) -> bool
        ensures { result ≡ names_receiver self.now.to to.now }
    {
        match &self.to {
            None => true,
            Some(one) => one.index() == to.index(),
        }
    }

    /// Whether it changes the frame that is sent to an element in a slot.
    #[tactic(auto, unfolding(crate::specs::Edited::is_of))]
    fn is_of(&self, at: Slot, to: &Ne) -> bool
        ensures { result ≡ is_of at to.now self.now }
    {
        self.cycle == at.cycle && self.names_round(at.round) && self.names_receiver(to)
    }
}

impl EditKind {
    /// Edits a frame; `earlier` is what a repeat sends.
    #[tactic(auto, using(crate::proofs::Walked::set_past))]
    fn edit(&self, earlier: &[u8], frame: &mut FrameBuf)
        requires { length earlier.now ≤ FRAME_BYTES }
        ensures { frame.new.items ≡ edited_by self.now earlier.now frame.old.items }
    {
        match self {
            EditKind::Drop => frame.clear(),
            EditKind::Flip { offset, bits } => {
                let at = usize::from(*offset);
                if at < frame.len() {
                    frame[at] ^= *bits;
                }
            }
            EditKind::Send(bytes) => copy_frame(bytes, frame),
            EditKind::Repeat => {
                frame.clear();
                let _ = frame.try_extend_from_slice(earlier);
            }
        }
    }
}

/// Plays the edits of a frame, in order, up to the first one of a later cycle.
#[tactic(auto, using(crate::proofs::Walked::edited_on, crate::proofs::Walked::rest_later), unfolding(crate::specs::Edited::edited_frame))]
fn play(edits: &[Edit], at: Slot, to: &Ne, earlier: &[u8], frame: &mut FrameBuf)
    requires in_order { IsTrue (never_fall 0 edits.now) }
    requires short { length earlier.now ≤ FRAME_BYTES }
    ensures { frame.new.items ≡ edited_frame edits.now at to.now earlier.now frame.old.items }
{
    for edit in edits {
        if edit.cycle > at.cycle {
            return;
        }
        if edit.is_of(at, to) {
            edit.what.edit(earlier, frame);
        }
    }
}
