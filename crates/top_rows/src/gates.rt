//! That elements and trials run side by side, and that trials carry frames.

use campaign::sweep;
use frame_format::{FrameBuf, copy_frame};
use ftpp_base::{Gate, Ne, OpenGate, Slot};
use ftpp_outside::{MemShelf, MemSink, MemSource};
use ftpp_top::{SoakTrial, Status, top};
use link_fabric::{Fabric, Mesh};
use std::sync::atomic::{AtomicU64, Ordering};
use std::test::Fail;

/// How often the first caller of a meeting looks whether a second has come.
const MOST_LOOKS: u64 = 1_000_000_000;

/// A gate whose first caller waits until a second has entered, for a limited number of looks.
#[derive(Drop)]
struct Meeting {
    entered: AtomicU64,
    /// 1 if no second caller came.
    gave_up: AtomicU64,
}

impl Gate for Meeting {
    fn enter(&self, _place: u32) {
        if self.entered.fetch_add(1, Ordering::SeqCst) != 0 {
            return;
        }
        for _ in 0..MOST_LOOKS {
            if self.entered.load(Ordering::SeqCst) > 1 {
                return;
            }
        }
        self.gave_up.store(1, Ordering::SeqCst);
    }
}

/// An honest fabric that counts the frames that it carries.
#[derive(Clone, Copy)]
struct Counting<'a> {
    frames: &'a AtomicU64,
}

impl<'a> Fabric for Counting<'a> {
    ghost use Rattle.std.specs.Prelude.{true, None};

    ghost honest = { λ _. true };

    ghost told = { λ _. None };

    fn carry(&mut self, _at: Slot, _from: Ne, _to: Ne, sent: &FrameBuf, got: &mut FrameBuf) {
        self.frames.fetch_add(1, Ordering::SeqCst);
        copy_frame(sent, got);
    }
}

#[test]
fn steps_side_by_side(rt: HostRuntime) -> Result<(), Fail> {
    let alloc = rt.alloc();
    for words in [["soak", "7", "1", ""], ["sweep", "7", "4", "50"]] {
        let gate = Meeting {
            entered: AtomicU64::new(0),
            gave_up: AtomicU64::new(0),
        };
        let mut given = Vec::new(alloc);
        for word in words {
            if !word.is_empty() {
                given.push(String::from_str(alloc, word)?)?;
            }
        }
        let mut input = MemSource::new(Vec::new(alloc), 1, Vec::new(alloc));
        let mut shelf = MemShelf::new(Vec::new(alloc), Vec::new(alloc));
        let mut out = MemSink::new(alloc, 1000, 1000, Vec::new(alloc))?;
        let status = top(
            &rt,
            alloc,
            given.as_slice(),
            &mut input,
            &mut shelf,
            &mut Mesh,
            &gate,
            &mut out,
        );
        assert_eq!(rt; status, Status::Done);
        assert_eq!(rt; gate.gave_up.load(Ordering::SeqCst), 0, "{}", words[0]);
    }
    Ok(())
}

#[test]
fn trials_carry_frames(rt: HostRuntime) -> Result<(), Fail> {
    let frames = AtomicU64::new(0);
    let counted = SoakTrial {
        cycles: 50,
        fabric: Counting { frames: &frames },
    };
    let plain = SoakTrial {
        cycles: 50,
        fabric: Mesh,
    };
    let some = sweep(&rt, rt.alloc(), &counted, &OpenGate, 7, 2)?;
    let same = sweep(&rt, rt.alloc(), &plain, &OpenGate, 7, 2)?;
    assert_eq!(rt; frames.load(Ordering::SeqCst), 8000);
    assert_eq!(rt; some.as_slice(), same.as_slice());
    Ok(())
}
