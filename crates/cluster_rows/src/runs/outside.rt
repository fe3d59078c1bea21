//! What a test hands in: a faulty element that notes each ask, and a gate that two steps have to pass at one time.

use super::cases::{Change, Edit};
use fault_script::Adversary;
use frame_format::{FrameBuf, copy_frame};
use ftpp_base::{Gate, Ne, Round, Set8, Slot};
use std::alloc::Global;
use std::sync::atomic::{AtomicU64, Ordering};

/// What it was asked for: the cycle, the round, the receiver, and the sender by the frame.
pub(super) type Ask = (u32, Round, u8, u8);

/// Changes the frames that its edits name, and notes each ask.
#[derive(Drop)]
pub(super) struct Tester {
    pub(super) asks: Vec<Ask>,
    edits: &'static [Edit],
    random: u32,
}

impl Tester {
    pub(super) fn new(alloc: Global, edits: &'static [Edit]) -> Tester {
        Tester {
            asks: Vec::new(alloc),
            edits,
            random: 7,
        }
    }

    fn byte(&mut self) -> u8 {
        self.random = self
            .random
            .wrapping_mul(1_664_525)
            .wrapping_add(1_013_904_223);
        (self.random >> 24) as u8
    }

    /// Bytes at random: in half of the cases behind the frame's own head, and else of any length.
    fn garble(&mut self, frame: &mut FrameBuf) {
        let (kept, length) = if self.byte() < 128 {
            (6, frame.len())
        } else {
            (0, usize::from(self.byte()) + usize::from(self.byte() % 77))
        };
        let mut sent = FrameBuf::new();
        for place in 0..length {
            let own = if place < kept { frame.get(place) } else { None };
            let byte = own.copied();
            let _ = sent.try_push(byte.unwrap_or(self.byte()));
        }
        copy_frame(&sent, frame);
    }

    fn spoil(&mut self, frame: &mut FrameBuf, change: Change) {
        match change {
            Change::Drop => frame.clear(),
            Change::Flip(at, bits) => {
                if let Some(byte) = frame.as_mut_slice().get_mut(at) {
                    *byte ^= bits;
                }
            }
            Change::Random => self.garble(frame),
        }
    }
}

impl Adversary for Tester {
    ghost use Rattle.std.specs.Prelude.{None};

    ghost told = { λ _. None };

    fn frame(&mut self, at: Slot, to: Ne, own: &FrameBuf, got: &mut FrameBuf) {
        let sender = own.as_slice().get(5).copied().unwrap_or(99);
        let _ = self.asks.push((at.cycle, at.round, to.byte(), sender));
        copy_frame(own, got);
        for &((first, last), rounds, receivers, change) in self.edits {
            let is_to = (Set8 { bits: receivers }).has(to.byte());
            if is_to && first <= at.cycle && at.cycle <= last && rounds.contains(&at.round) {
                self.spoil(got, change);
            }
        }
    }
}

/// The first caller waits until a second has entered, and gives up after many looks.
#[derive(Drop)]
pub(super) struct Meeting {
    pub(super) entered: AtomicU64,
    /// 1 if no second caller came.
    pub(super) gave_up: AtomicU64,
}

impl Gate for Meeting {
    fn enter(&self, _place: u32) {
        if self.entered.fetch_add(1, Ordering::SeqCst) > 0 {
            return;
        }
        for _ in 0..1_000_000_000u64 {
            if self.entered.load(Ordering::SeqCst) > 1 {
                return;
            }
        }
        self.gave_up.store(1, Ordering::SeqCst);
    }
}
