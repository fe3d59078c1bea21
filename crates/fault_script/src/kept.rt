//! The frames that are kept so that they can be repeated.

ghost use Rattle.std.specs.Prelude.{◌≡◌, ◌≢◌, ◌≤◌, [], Some, None, length, slice_get};
ghost use Rattle.ftpp_base.specs.declared.element.Round.{Round};
ghost use Rattle.fault_script.specs.Kept.{same_sender, kept_with, repeated};
ghost use Rattle.fault_script.specs.Held.{kept_frame, kept_frames, kept_by_round};

use frame_format::{FRAME_BYTES, FrameBuf, copy_frame};
use ftpp_base::Round;

/// A frame before it was edited, with its cycle; there is none before one is kept.
#[derive(Drop)]
pub(crate) struct OwnFrame {
    held: bool,
    cycle: u32,
    frame: FrameBuf,
}

impl OwnFrame {
    /// No frame.
    fn none() -> OwnFrame
        ensures { kept_frame result ≡ None }
    {
        OwnFrame {
            held: false,
            cycle: 0,
            frame: FrameBuf::new(),
        }
    }
}

/// Of one round: the frame of the cycle now running, and that of the cycle before.
#[derive(Drop)]
pub(crate) struct RoundFrames {
    current: OwnFrame,
    earlier: OwnFrame,
}

impl RoundFrames {
    /// No frames.
    fn none() -> RoundFrames
        ensures { kept_frames result ≡ record { now = None; before = None } }
    {
        RoundFrames {
            current: OwnFrame::none(),
            earlier: OwnFrame::none(),
        }
    }

    /// Keeps the frame of a cycle. It takes the place of one of the same cycle; one of another cycle is now the earlier one.
    fn keep(&mut self, cycle: u32, own: &FrameBuf)
        ensures { kept_frames self.new ≡ kept_with (kept_frames self.old) cycle own.now.items }
    {
        if self.current.held && self.current.cycle != cycle {
            std::mem::swap(&mut self.current, &mut self.earlier);
        }
        self.current.held = true;
        self.current.cycle = cycle;
        copy_frame(own, &mut self.current.frame);
    }

    /// The bytes that a repeat sends in a cycle.
    fn repeated(&self, cycle: u32, own: &FrameBuf) -> &[u8]
        ensures bytes { result.now ≡ repeated (kept_frames self.now) cycle own.now.items }
        ensures short { length result.now ≤ FRAME_BYTES }
    {
        let earlier = &self.earlier;
        let bytes = earlier.frame.as_slice();
        if earlier.held
            && cycle > 0
            && earlier.cycle == cycle - 1
            && is_same_sender(bytes, own.as_slice())
        {
            return bytes;
        }
        &bytes[..0]
    }
}

/// Whether both frames are long enough to name a sender, and name the same one.
fn is_same_sender(one: &[u8], other: &[u8]) -> bool
    ensures { result ≡ same_sender one.now other.now }
{
    one.len() > 5 && other.len() > 5 && one[5] == other[5]
}

/// The kept frames of the four rounds.
#[derive(Drop)]
pub(crate) struct KeptByRound {
    a1: RoundFrames,
    a2: RoundFrames,
    b1: RoundFrames,
    b2: RoundFrames,
}

impl KeptByRound {
    /// No frames of any round.
    pub(crate) fn none() -> KeptByRound
        ensures { (round : Round) → kept_by_round result round ≡ record { now = None; before = None } }
    {
        KeptByRound {
            a1: RoundFrames::none(),
            a2: RoundFrames::none(),
            b1: RoundFrames::none(),
            b2: RoundFrames::none(),
        }
    }

    /// Keeps the frame of a round of a cycle.
    pub(crate) fn keep(&mut self, round: Round, cycle: u32, own: &FrameBuf)
        ensures kept { kept_by_round self.new round ≡ kept_with (kept_by_round self.old round) cycle own.now.items }
        ensures others { (other : Round) → other ≢ round → kept_by_round self.new other ≡ kept_by_round self.old other }
    {
        match round {
            Round::A1 => self.a1.keep(cycle, own),
            Round::A2 => self.a2.keep(cycle, own),
            Round::B1 => self.b1.keep(cycle, own),
            Round::B2 => self.b2.keep(cycle, own),
        }
    }

    /// The bytes that a repeat sends in a round of a cycle.
    pub(crate) fn repeated(&self, round: Round, cycle: u32, own: &FrameBuf) -> &[u8]
        ensures bytes { result.now ≡ repeated (kept_by_round self.now round) cycle own.now.items }
        ensures short { length result.now ≤ FRAME_BYTES }
    {
        match round {
            Round::A1 => self.a1.repeated(cycle, own),
            Round::A2 => self.a2.repeated(cycle, own),
            Round::B1 => self.b1.repeated(cycle, own),
            Round::B2 => self.b2.repeated(cycle, own),
        }
    }
}
