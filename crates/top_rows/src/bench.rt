//! A call over the forms in memory.

use ftpp_base::OpenGate;
use ftpp_outside::{MemShelf, MemSink, MemSource};
use ftpp_top::{Status, top};
use link_fabric::{Fabric, Mesh};
use std::marker::Sync;
use std::test::Fail;
use std::thread::Threads;

/// What lies around a call: the source's bytes and pieces, the bytes of the file `a`, the sink's room and pieces, and
/// the call of each that fails (0 for none).
#[derive(Clone, Copy)]
pub(crate) struct Around<'a> {
    pub(crate) input: &'a [u8],
    pub(crate) read_piece: usize,
    pub(crate) bad_read: u64,
    pub(crate) file: &'a [u8],
    pub(crate) bad_load: u64,
    pub(crate) room: usize,
    pub(crate) write_piece: usize,
    pub(crate) bad_write: u64,
}

/// A source with these bytes, and no failing call.
pub(crate) fn source(input: &[u8]) -> Around<'_> {
    Around {
        input,
        read_piece: 100_000,
        bad_read: 0,
        file: b"",
        bad_load: 0,
        room: 1_000_000,
        write_piece: 100_000,
        bad_write: 0,
    }
}

/// What a call answered and wrote.
#[derive(Debug, Drop)]
pub(crate) struct Answer {
    pub(crate) status: Status,
    pub(crate) text: String,
}

/// The same, where what was written is no text.
#[derive(Debug, Drop)]
pub(crate) struct RawAnswer {
    pub(crate) status: Status,
    pub(crate) bytes: Vec<u8>,
}

/// Calls `top` with words that are parted by one space, over a fabric, and gives the bytes that it wrote.
fn call_raw_over<R: Threads + Sync + AllocGlobal, F: Fabric>(
    rt: &R,
    words: &str,
    around: &Around<'_>,
    fabric: &mut F,
) -> Result<RawAnswer, Fail> {
    let alloc = rt.alloc();
    let mut given = Vec::new(alloc);
    for word in words.split(' ') {
        if !word.is_empty() {
            given.push(String::from_str(alloc, word)?)?;
        }
    }
    let bad_read = Vec::from_array(alloc, [around.bad_read])?;
    let bad_load = Vec::from_array(alloc, [around.bad_load])?;
    let bad_write = Vec::from_array(alloc, [around.bad_write])?;
    let bytes = Vec::from_slice(alloc, around.input)?;
    let mut input = MemSource::new(bytes, around.read_piece.max(1), bad_read);
    let mut files = Vec::new(alloc);
    files.push((
        String::from_str(alloc, "a")?,
        Vec::from_slice(alloc, around.file)?,
    ))?;
    let mut shelf = MemShelf::new(files, bad_load);
    let mut out = MemSink::new(alloc, around.room, around.write_piece.max(1), bad_write)?;
    let status = top(
        rt,
        alloc,
        given.as_slice(),
        &mut input,
        &mut shelf,
        fabric,
        &OpenGate,
        &mut out,
    );
    let bytes = Vec::from_slice(alloc, out.bytes())?;
    Ok(RawAnswer { status, bytes })
}

/// The same over a mesh.
pub(crate) fn call_raw<R: Threads + Sync + AllocGlobal>(
    rt: &R,
    words: &str,
    around: &Around<'_>,
) -> Result<RawAnswer, Fail> {
    call_raw_over(rt, words, around, &mut Mesh)
}

/// Calls `top` over a fabric, and gives the text that it wrote.
pub(crate) fn call_over<R: Threads + Sync + AllocGlobal, F: Fabric>(
    rt: &R,
    words: &str,
    around: &Around<'_>,
    fabric: &mut F,
) -> Result<Answer, Fail> {
    let raw = call_raw_over(rt, words, around, fabric)?;
    Ok(Answer {
        status: raw.status,
        text: String::from_utf8(raw.bytes)?,
    })
}

/// The same over a mesh.
pub(crate) fn call<R: Threads + Sync + AllocGlobal>(
    rt: &R,
    words: &str,
    around: &Around<'_>,
) -> Result<Answer, Fail> {
    call_over(rt, words, around, &mut Mesh)
}

/// Whether a text has these parts, each behind the one before it.
pub(crate) fn has_parts(text: &str, parts: &[&str]) -> bool {
    let mut rest = text;
    for part in parts {
        let Some((_, behind)) = rest.split_once(*part) else {
            return false;
        };
        rest = behind;
    }
    true
}
