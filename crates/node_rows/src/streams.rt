//! What a node writes, and where its input breaks.

use crate::bench::{AMPLE, Around, Bytes, served};
use element_node::NodeEnd;
use std::alloc::Global;
use std::test::Fail;

/// The pattern of eight ports that are empty and have room.
const QUIET: &[u8] =
    b"\x02\0\0\0\x02\0\0\0\x02\0\0\0\x02\0\0\0\x02\0\0\0\x02\0\0\0\x02\0\0\0\x02\0\0\0";

/// The frames that silent element 0 sends in cycle 0, in the order of the rounds: length, kind, cycle and sender; the own
/// pattern if it is told; and how many bytes there are in all, the others zeros.
const SILENT: [(&[u8], bool, usize); 4] = [
    (b"\x00\x27\xa1\0\0\0\0\0\x01", true, 41),
    (b"\x00\x8a\xa2\0\0\0\0\0\x01", true, 140),
    (b"\x00\x47\xb1\0\0\0\0\0", false, 73),
    (b"\x01\x0a\xb2\0\0\0\0\0", false, 268),
];

/// How many bytes a silent element writes in a cycle.
const WRITTEN: usize = 522;

/// Where the frame of A2 begins.
const A2_AT: usize = 41;

/// Where the low byte of the cycle stands in each frame with its length, and where the pattern of A1.
const CYCLE_AT: usize = 6;

const PATTERN_AT: usize = 9;

/// Puts bytes at a place of a text that has them.
fn put(text: &mut Vec<u8>, at: usize, bytes: &[u8]) {
    for (byte, given) in text.as_mut_slice().iter_mut().skip(at).zip(bytes) {
        *byte = *given;
    }
}

/// Puts what silent element 0 writes in a cycle behind a text.
fn push_silent(text: &mut Vec<u8>, cycle: u8) -> Result<(), Fail> {
    for (front, has_pattern, count) in SILENT {
        let start = text.len();
        text.extend_from_slice(front)?;
        if has_pattern {
            text.extend_from_slice(QUIET)?;
        }
        text.resize(start.saturating_add(count), 0)?;
        put(text, start.saturating_add(CYCLE_AT), &[cycle]);
    }
    Ok(())
}

/// What silent element 0 writes in ten cycles.
fn ten_silent(alloc: Global) -> Result<Vec<u8>, Fail> {
    let mut text = Vec::new(alloc);
    for cycle in 0..10u8 {
        push_silent(&mut text, cycle)?;
    }
    Ok(text)
}

/// Whether element 0 ends so, and wrote that many of the bytes of ten silent cycles.
fn ends(
    alloc: Global,
    input: Vec<u8>,
    cycles: u32,
    around: &Around,
    want: (NodeEnd, usize),
) -> Result<bool, Fail> {
    let (end, written) = served(alloc, input, cycles, around)?;
    let silent = ten_silent(alloc)?;
    Ok(end == want.0 && written.len() == want.1 && silent.starts_with(written.as_slice()))
}

fn stream(cycle: u32, code: u8) -> NodeEnd {
    NodeEnd::Stream { cycle, code }
}

fn zeros(count: usize) -> Bytes {
    between(count, b"", 0)
}

/// Bytes behind zeros.
fn behind(zeros: usize, then: &'static [u8]) -> Bytes {
    between(zeros, then, 0)
}

fn between(zeros: usize, then: &'static [u8], zeros_behind: usize) -> Bytes {
    Bytes {
        zeros,
        then,
        zeros_behind,
    }
}

fn in_pieces(piece: usize) -> Around {
    Around {
        read_piece: piece,
        write_piece: piece,
        ..AMPLE
    }
}

fn with_room(room: usize) -> Around {
    Around { room, ..AMPLE }
}

/// A read and a write that fail, by the numbers of their calls.
fn failing(bad_read: u64, bad_write: u64) -> Around {
    Around {
        bad_read,
        bad_write,
        ..AMPLE
    }
}

#[test]
fn ends_with_its_input(rt: HostRuntime) -> Result<(), Fail> {
    for (input, cycles, end, written) in [
        // the silent node, and one with a frame of the greatest length
        (zeros(25), 1, NodeEnd::Done, 522),
        (zeros(50), 2, NodeEnd::Done, 1044),
        (between(1, b"\x01\x4b", 353), 1, NodeEnd::Done, 522),
        // it ends too early
        (zeros(24), 1, stream(0, 1), 522),
        (zeros(0), 1, stream(0, 1), 0),
        (zeros(1), 1, stream(0, 1), 41),
        (zeros(6), 1, stream(0, 1), 41),
        (zeros(7), 1, stream(0, 1), 181),
        (zeros(13), 1, stream(0, 1), 254),
        (zeros(19), 1, stream(0, 1), 522),
        (zeros(25), 2, stream(1, 1), 522),
        (zeros(26), 2, stream(1, 1), 563),
        // a byte follows
        (zeros(26), 1, stream(1, 6), 522),
        (zeros(51), 2, stream(2, 6), 1044),
    ] {
        let bytes = input.list(rt.alloc())?;
        assert!(rt;
            ends(rt.alloc(), bytes, cycles, &AMPLE, (end, written))?,
            "{} {cycles}",
            input.zeros
        );
    }
    Ok(())
}

#[test]
fn breaks_at_a_byte(rt: HostRuntime) -> Result<(), Fail> {
    for (input, cycle, code, written) in [
        (behind(0, b"\x51"), 0, 2, 0),
        (behind(0, b"\xff"), 0, 2, 0),
        (behind(25, b"\x51"), 1, 2, 522),
        (behind(0, b"\x01\x00"), 0, 3, 0),
        (behind(0, b"\x01\x03"), 0, 3, 0),
        (behind(0, b"\x02\x02\x00\xff"), 0, 3, 0),
        (behind(25, b"\x50\x02\x07\x02\x00\x00"), 1, 3, 522),
        (behind(0, b"\x01\x01\x08"), 0, 4, 0),
        (behind(0, b"\x01\x02\x08"), 0, 4, 0),
        (behind(0, b"\x03\x02\x07\x02\xff"), 0, 4, 0),
        (behind(1, b"\x01\x4c"), 0, 5, 41),
        (behind(7, b"\x01\x4c"), 0, 5, 181),
        (behind(13, b"\xff\xff"), 0, 5, 254),
        (behind(23, b"\x01\x4c"), 0, 5, 522),
        (behind(26, b"\x02\x00"), 1, 5, 563),
    ] {
        // what follows the byte counts for nothing, and without it the input ends there
        let mut bytes = input.list(rt.alloc())?;
        let alone = bytes.clone()?;
        bytes.extend_from_slice(b"\x01\x02")?;
        let mut shorter = alone.clone()?;
        let _ = shorter.pop();
        let broken = (stream(cycle, code), written);
        let ended = (stream(cycle, 1), written);
        let name = (input.zeros, code);
        assert!(rt; ends(rt.alloc(), alone, 2, &AMPLE, broken)?, "{name:?}");
        assert!(rt;
            ends(rt.alloc(), bytes, 2, &AMPLE, broken)?,
            "{name:?} and more"
        );
        assert!(rt;
            ends(rt.alloc(), shorter, 2, &AMPLE, ended)?,
            "{name:?} without it"
        );
    }
    Ok(())
}

#[test]
fn meets_pieces_and_room(rt: HostRuntime) -> Result<(), Fail> {
    for (around, end, written) in [
        (in_pieces(1), NodeEnd::Done, WRITTEN),
        (in_pieces(7), NodeEnd::Done, WRITTEN),
        (with_room(0), NodeEnd::Write, 0),
        (with_room(40), NodeEnd::Write, 40),
        (with_room(50), NodeEnd::Write, 50),
        (with_room(521), NodeEnd::Write, 521),
        // the read behind the last cycle, and calls that do not come
        (failing(14, 0), NodeEnd::Read, WRITTEN),
        (failing(15, 0), NodeEnd::Done, WRITTEN),
        (failing(0, 5), NodeEnd::Done, WRITTEN),
    ] {
        let input = zeros(25).list(rt.alloc())?;
        assert!(rt;
            ends(rt.alloc(), input, 1, &around, (end, written))?,
            "{} {} {}",
            around.bad_read,
            around.bad_write,
            around.room
        );
    }
    Ok(())
}

/// How many bytes of a cycle a silent node has written before each of its reads: of the count of acts, and of three lengths
/// in each round.
const BEFORE_READS: [usize; 13] = [0, 41, 41, 41, 181, 181, 181, 254, 254, 254, 522, 522, 522];

/// And before each of its writes, which are those of its frames.
const BEFORE_WRITES: [usize; 4] = [0, 41, 181, 254];

#[test]
fn meets_each_fault(rt: HostRuntime) -> Result<(), Fail> {
    for call in 0..40usize {
        let number = call as u64 + 1;
        let before_read = (call / 13 * WRITTEN).saturating_add(BEFORE_READS[call % 13]);
        let before_write = (call / 4 * WRITTEN).saturating_add(BEFORE_WRITES[call % 4]);
        for (around, end, written) in [
            (failing(number, 0), NodeEnd::Read, before_read),
            (failing(0, number), NodeEnd::Write, before_write),
        ] {
            let input = zeros(250).list(rt.alloc())?;
            assert!(rt;
                ends(rt.alloc(), input, 10, &around, (end, written))?,
                "{end:?} at call {number}"
            );
        }
    }
    Ok(())
}

/// Acts of one kind, what the first of them are answered and what the last one is, and the request that a port shows behind
/// them.
#[derive(Clone, Copy)]
struct Acts {
    front: &'static [u8],
    zeros: usize,
    count: u8,
    answer: u8,
    last: u8,
    port: usize,
    shown: &'static [u8],
}

#[test]
fn acts_are_answered(rt: HostRuntime) -> Result<(), Fail> {
    for acts in [
        Acts {
            front: b"\x02\x00",
            zeros: 0,
            count: 80,
            answer: 2,
            last: 2,
            port: 0,
            shown: b"\x02\0\0\0",
        },
        Acts {
            front: b"\x01\x07\x03\x01\x00",
            zeros: 64,
            count: 17,
            answer: 0,
            last: 1,
            port: 7,
            shown: b"\x03\x03\x01\x00",
        },
        Acts {
            front: b"\x01\x03\xfe\x02\x01",
            zeros: 64,
            count: 16,
            answer: 0,
            last: 0,
            port: 3,
            shown: b"\x03\xfe\x02\x01",
        },
    ] {
        let (input, wanted) = of_acts(rt.alloc(), &acts)?;
        let (end, written) = served(rt.alloc(), input, 1, &AMPLE)?;
        assert_eq!(rt; end, NodeEnd::Done, "{}", acts.count);
        assert!(rt; written == wanted, "{}", acts.count);
    }
    Ok(())
}

/// The input of a cycle of acts and no frames, and what is written.
fn of_acts(alloc: Global, acts: &Acts) -> Result<(Vec<u8>, Vec<u8>), Fail> {
    let mut input = Vec::from_array(alloc, [acts.count])?;
    let mut wanted = Vec::new(alloc);
    for k in 0..acts.count {
        input.extend_from_slice(acts.front)?;
        let count = input.len().saturating_add(acts.zeros);
        input.resize(count, 0)?;
        let is_last = k == acts.count.saturating_sub(1);
        wanted.push(if is_last { acts.last } else { acts.answer })?;
    }
    let count = input.len().saturating_add(24);
    input.resize(count, 0)?;
    let start = wanted.len().saturating_add(PATTERN_AT);
    push_silent(&mut wanted, 0)?;
    for frame in [0, A2_AT] {
        let at = start
            .saturating_add(frame)
            .saturating_add(acts.port.saturating_mul(4));
        put(&mut wanted, at, acts.shown);
    }
    Ok((input, wanted))
}

/// Puts the frames of the other elements in a round behind an input, which differ in their senders alone.
fn push_frames(
    input: &mut Vec<u8>,
    front: &[u8],
    cells: &[&[u8]],
    count: usize,
) -> Result<(), Fail> {
    for sender in 1..4u8 {
        let end = input.len().saturating_add(count);
        input.extend_from_slice(front)?;
        input.push(sender)?;
        for cell in cells {
            input.push(1)?;
            input.extend_from_slice(cell)?;
        }
        input.resize(end, 0)?;
    }
    Ok(())
}

/// Simplex group 5 at 0.3 sends its packet to group 2, whose member at 0.1 reads it in the next cycle.
#[test]
fn a_delivered_packet_is_read(rt: HostRuntime) -> Result<(), Fail> {
    let mut asking = Vec::from_slice(rt.alloc(), QUIET)?;
    put(&mut asking, 12, b"\x03\x02\x02\x00");
    let mut input = Vec::from_slice(rt.alloc(), b"\x01\x01\x03\x02\x02\x00\x41\x42")?;
    input.resize(70, 0)?;
    push_frames(&mut input, b"\x00\x27\xa1\0\0\0\0", &[QUIET], 41)?;
    let patterns = [asking.as_slice(), QUIET, QUIET, QUIET];
    push_frames(&mut input, b"\x00\x8a\xa2\0\0\0\0", &patterns, 140)?;
    push_frames(&mut input, b"\x00\x47\xb1\0\0\0\0", &[], 73)?;
    push_frames(&mut input, b"\x01\x0a\xb2\0\0\0\0", &[b"\x41\x42"], 268)?;
    input.extend_from_slice(b"\x01\x02\x01")?;
    let count = input.len().saturating_add(24);
    input.resize(count, 0)?;

    let (end, written) = served(rt.alloc(), input, 2, &AMPLE)?;
    assert_eq!(rt;
        (end, written.len()),
        (NodeEnd::Done, 1 + WRITTEN + 72 + WRITTEN)
    );
    let mut wanted = Vec::from_slice(rt.alloc(), b"\x03\0\0\0\0\x05\x02\x02\x41\x42")?;
    wanted.resize(72, 0)?;
    let mut answers = written.iter().skip(1 + WRITTEN);
    assert!(rt; wanted.iter().all(|byte| answers.next() == Some(byte)));
    Ok(())
}
