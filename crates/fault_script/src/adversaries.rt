//! What the faulty element sends in place of the frames that its core makes.

ghost use Rattle.std.specs.Prelude.{◌≡◌, [], Option, Some, None};
ghost use Rattle.fault_script.specs.Kept.{KeptFrames};
ghost use Rattle.fault_script.specs.Plays.{Told, Plays};

use frame_format::{FrameBuf, copy_frame};
use ftpp_base::{Ne, Slot};

/// What changes the frames of the faulty element: it is asked for each of them before the fabric carries it, and may give
/// any bytes.
pub trait Adversary {
    /// Its edits and the frames that it keeps of each round, or `None` where it does not tell.
    ghost told: { Self → Option Told };

    /// The frame that is sent to an element in a slot, in place of the element's own.
    fn frame(&mut self, at: Slot, to: Ne, own: &FrameBuf, got: &mut FrameBuf)
        ensures { Plays (told self.old) at to own.now.items got.new.items (told self.new) };
}

/// Sends each frame as it is. It has no edits and keeps no frames.
#[derive(Clone, Copy, Debug)]
pub struct NoFault;

impl Adversary for NoFault {
    ghost told = { λ _. Some (record { edits = []; kept = λ _. record { now = None; before = None } }) };

    #[tactic(auto, unfolding(crate::specs::Edited::edited_frame))]
    fn frame(&mut self, _at: Slot, _to: Ne, own: &FrameBuf, got: &mut FrameBuf) {
        copy_frame(own, got);
    }
}
