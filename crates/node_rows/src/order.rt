//! That a node reads no byte before it wrote all that is due before it.

ghost use Rattle.std.specs.Prelude.{◌<◌, ◌^◌};

use built_in_tables::built_in_4;
use element_node::{NodeEnd, serve_node};
use ftpp_base::Ne;
use ftpp_outside::{ReadFault, Sink, Source, WriteFault};
use std::sync::atomic::{AtomicU64, Ordering};
use std::test::Fail;

/// How many bytes a silent node of four elements reads in a cycle.
const READ: u64 = 25;

/// How many it writes.
const WRITTEN: u64 = 522;

/// How many bytes of a cycle's input may be read once so many of its output were written: that of the acts, and the
/// lengths of three frames in each round.
const DUE: [(u64, u64); 5] = [(0, 1), (41, 7), (181, 13), (254, 19), (522, 25)];

/// How many bytes of the input of all cycles may be read once so many were written.
fn due(written: u64) -> u64 {
    let mut due = 0;
    for (after, bytes) in DUE {
        if written % WRITTEN >= after {
            due = bytes;
        }
    }
    (written / WRITTEN).saturating_mul(READ).saturating_add(due)
}

/// A source of zeros that fails where the next one is not due yet.
#[derive(Clone, Copy)]
struct DueZeros<'a> {
    written: &'a AtomicU64,
    /// How many were read, and how many there are.
    read: u64,
    all: u64,
    faults: u64,
    ghost faults_fit: { faults < 2 ^ 64 },
    ghost read_fits: { read < 2 ^ 64 },
}

impl<'a> Source for DueZeros<'a> {
    ghost use Rattle.std.specs.Prelude.{None};

    ghost left = { λ _. None };

    ghost taken = { λ s. s.read };

    ghost faults = { λ s. s.faults };

    fn read(&mut self, into: &mut [u8]) -> Result<usize, ReadFault> {
        let due = due(self.written.load(Ordering::SeqCst));
        if self.read < self.all && self.read >= due {
            self.faults = self.faults.saturating_add(1);
            return Err(ReadFault);
        }
        let left = due.min(self.all).saturating_sub(self.read);
        let count = into.len().min(left as usize);
        into[..count].fill(0);
        self.read = self.read.saturating_add(count as u64);
        Ok(count)
    }
}

/// A sink that counts what is written.
#[derive(Clone, Copy)]
struct Counted<'a> {
    written: &'a AtomicU64,
}

impl<'a> Sink for Counted<'a> {
    ghost use Rattle.std.specs.Prelude.{None};

    ghost written = { λ _. None };

    ghost faults = { λ _. 0 };

    fn write(&mut self, piece: &[u8]) -> Result<usize, WriteFault> {
        self.written.fetch_add(piece.len() as u64, Ordering::SeqCst);
        Ok(piece.len())
    }
}

#[test]
fn reads_what_is_due(rt: HostRuntime) -> Result<(), Fail> {
    let table = built_in_4();
    let me = Ne::new(0, 4).ok_or("0")?;
    let written = AtomicU64::new(0);
    let mut input = DueZeros {
        written: &written,
        read: 0,
        all: 2 * READ,
        faults: 0,
    };
    let mut out = Counted { written: &written };
    let end = serve_node::<4, DueZeros<'_>, Counted<'_>>(
        rt.alloc(),
        me,
        &table,
        2,
        &mut input,
        &mut out,
    );
    assert_eq!(rt; end, NodeEnd::Done);
    assert_eq!(rt; input.read, 2 * READ);
    assert_eq!(rt; written.load(Ordering::SeqCst), 2 * WRITTEN);
    Ok(())
}
