//! What carries frames from link to link.

ghost use Rattle.std.specs.Prelude.{◌≡◌, ◌+◌, ◌-◌, ◌^◌, ◌<◌, ◌≤◌, ◌++◌, ◌∷◌, List, [], Option, Some, None, Bool, true, false, IsTrue, length, min, nat_eq, MatchOption, IfSome, IfOk, vec_capacity, if◌then◌else◌};
ghost use Rattle.std.specs.List.{list_any};
ghost use Rattle.link_fabric.specs.declared.fabrics.Carried.{Carried};
ghost use Rattle.link_fabric.specs.Carrying.{AddsTold};

use frame_format::{FrameBuf, copy_frame};
use ftpp_base::{Ne, NoMemory, Slot};
use std::alloc::Global;

/// One frame as it was delivered.
#[derive(Drop)]
pub struct Carried {
    pub at: Slot,
    pub from: Ne,
    pub to: Ne,
    pub frame: FrameBuf,
}

/// What carries frames between elements. A call cannot fail, but a fabric that is not honest may deliver other bytes.
pub trait Fabric {
    /// Whether it delivers each frame as it was sent.
    ghost honest: { Self → Bool };

    /// All frames that were delivered, in order, or `None` where it does not tell.
    ghost told: { Self → Option (List Carried) };

    /// Carries a frame from an element to another.
    fn carry(&mut self, at: Slot, from: Ne, to: Ne, sent: &FrameBuf, got: &mut FrameBuf)
        ensures honest { IsTrue (honest self.old) → got.new ≡ sent.now }
        ensures stays_honest { IsTrue (honest self.old) → IsTrue (honest self.new) }
        ensures told { AddsTold (told self.old) (record { at = at; from = from; to = to; frame = got.new }) (told self.new) };
}

/// Delivers each frame as it was sent, and keeps nothing. A frame costs one copy.
#[derive(Clone, Copy, Debug)]
pub struct Mesh;

impl Fabric for Mesh {
    ghost honest = { λ _. true };

    ghost told = { λ _. None };

    fn carry(&mut self, _at: Slot, _from: Ne, _to: Ne, sent: &FrameBuf, got: &mut FrameBuf) {
        copy_frame(sent, got);
    }
}

/// Delivers each frame as it was sent, and keeps a copy of each, until more came than there is room for.
#[derive(Drop)]
pub struct Recorder {
    kept: Vec<Carried>,
    frames: usize,
    over: bool,
    ghost room: { frames ≤ vec_capacity kept },
    ghost within: { length kept.items ≤ frames },
}

impl Recorder {
    ghost use Rattle.link_fabric.specs.Recorded.{told_of, room_of};

    /// A recorder with room for this many frames. Fails only where there is no memory for them.
    pub fn new(alloc: Global, frames: usize) -> Result<Recorder, NoMemory>
        ensures told { IfOk result (λ r. told_of r ≡ Some []) }
        ensures room { IfOk result (λ r. room_of r ≡ frames) }
    {
        match Vec::with_capacity(alloc, frames) {
            Ok(kept) => Ok(Recorder {
                kept,
                frames,
                over: false,
            }),
            Err(_) => Err(NoMemory),
        }
    }

    /// The frames that were delivered, in order; None once more were carried than there is room for.
    pub fn list(&self) -> Option<&[Carried]>
        ensures { MatchOption result (told_of self.now ≡ None) (λ frames. told_of self.now ≡ Some frames.now) }
    {
        if self.over {
            return None;
        }
        Some(self.kept.as_slice())
    }
}

impl Fabric for Recorder {
    ghost use Rattle.link_fabric.specs.Recorded.{told_of, room_of, recorded};

    ghost honest = { λ _. true };

    ghost told = { told_of };

    fn carry(&mut self, at: Slot, from: Ne, to: Ne, sent: &FrameBuf, got: &mut FrameBuf)
        ensures honest { got.new ≡ sent.now }
        ensures stays_honest { IsTrue true }
        ensures told { AddsTold (told_of self.old) (record { at = at; from = from; to = to; frame = got.new }) (told_of self.new) }
        // It tells as long as there is room.
        ensures tells { told_of self.new ≡ recorded (room_of self.old) (told_of self.old) (record { at = at; from = from; to = to; frame = sent.now }) }
        ensures room { room_of self.new ≡ room_of self.old }
    {
        copy_frame(sent, got);
        if self.over || self.kept.len() >= self.frames {
            self.over = true;
            return;
        }
        let mut frame = FrameBuf::new();
        copy_frame(sent, &mut frame);
        self.kept.push_reserved(Carried {
            at,
            from,
            to,
            frame,
        });
    }
}

/// Delivers no bytes at some of its calls. It is for tests.
#[derive(Drop)]
pub struct Liar {
    failing: Vec<u64>,
    calls: u64,
}

impl Liar {
    ghost use Rattle.link_fabric.specs.Lies.{failing_of, calls_of};

    /// The calls, counted from 1, at which it delivers no bytes.
    pub fn new(failing: Vec<u64>) -> Liar
        ensures failing { failing_of result ≡ failing.items }
        ensures calls { calls_of result ≡ 0 }
    {
        Liar { failing, calls: 0 }
    }
}

impl Fabric for Liar {
    ghost use Rattle.link_fabric.specs.Lies.{failing_of, calls_of};

    ghost honest = { λ _. false };

    ghost told = { λ _. None };

    fn carry(&mut self, _at: Slot, _from: Ne, _to: Ne, sent: &FrameBuf, got: &mut FrameBuf)
        ensures frame { got.new.items ≡ (if list_any (λ k. nat_eq k (calls_of self.new)) (failing_of self.old) then [] else sent.now.items) }
        ensures calls { calls_of self.new ≡ min (calls_of self.old + 1) (2 ^ 64 - 1) }
        ensures failing { failing_of self.new ≡ failing_of self.old }
    {
        self.calls = self.calls.saturating_add(1);
        if self.failing.contains(&self.calls) {
            got.clear();
        } else {
            copy_frame(sent, got);
        }
    }
}
