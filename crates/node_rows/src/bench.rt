//! A node of four elements over the forms in memory.

use built_in_tables::built_in_4;
use element_node::{NodeEnd, serve_node};
use ftpp_base::Ne;
use ftpp_outside::{MemSink, MemSource};
use std::alloc::Global;
use std::test::Fail;

/// Bytes between zeros.
#[derive(Clone, Copy)]
pub(crate) struct Bytes {
    pub(crate) zeros: usize,
    pub(crate) then: &'static [u8],
    pub(crate) zeros_behind: usize,
}

impl Bytes {
    /// All of them in a list.
    pub(crate) fn list(&self, alloc: Global) -> Result<Vec<u8>, Fail> {
        let mut all = Vec::new(alloc);
        all.resize(self.zeros.min(5000), 0)?;
        all.extend_from_slice(self.then)?;
        let count = all.len().saturating_add(self.zeros_behind.min(5000));
        all.resize(count, 0)?;
        Ok(all)
    }
}

/// What lies around a node: the most bytes of a read and of a write, the call of each that fails (0 for none), and the
/// room of the sink.
#[derive(Clone, Copy)]
pub(crate) struct Around {
    pub(crate) read_piece: usize,
    pub(crate) write_piece: usize,
    pub(crate) bad_read: u64,
    pub(crate) bad_write: u64,
    pub(crate) room: usize,
}

/// All is taken and given whole, and nothing fails.
pub(crate) const AMPLE: Around = Around {
    read_piece: 1000,
    write_piece: 1000,
    bad_read: 0,
    bad_write: 0,
    room: 10_000,
};

/// How element 0 ends that reads these bytes for some cycles, and what it wrote.
pub(crate) fn served(
    alloc: Global,
    input: Vec<u8>,
    cycles: u32,
    around: &Around,
) -> Result<(NodeEnd, Vec<u8>), Fail> {
    let table = built_in_4();
    let me = Ne::new(0, 4).ok_or("0")?;
    let bad_read = Vec::from_array(alloc, [around.bad_read])?;
    let bad_write = Vec::from_array(alloc, [around.bad_write])?;
    let mut source = MemSource::new(input, around.read_piece.max(1), bad_read);
    let mut sink = MemSink::new(alloc, around.room, around.write_piece.max(1), bad_write)?;
    let end = serve_node::<4, MemSource, MemSink>(
        alloc,
        me,
        &table,
        cycles.clamp(1, 100_000),
        &mut source,
        &mut sink,
    );
    let written = Vec::from_slice(alloc, sink.bytes())?;
    Ok((end, written))
}
