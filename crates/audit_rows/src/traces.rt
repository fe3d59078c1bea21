//! Traces of four elements in which all relay what was sent, and changes of them.

use ftpp_base::Row;
use std::alloc::Global;
use std::test::Fail;

/// The names of the rounds in a trace, and their first bytes in a frame.
pub(crate) const ROUNDS: [(&str, u8); 4] = [("A1", 0xa1), ("A2", 0xa2), ("B1", 0xb1), ("B2", 0xb2)];

/// What the elements show and send in a cycle.
#[derive(Clone, Copy)]
pub(crate) struct Cycle {
    /// A processor whose output waits, with its request: element, port, destination, class and source.
    pub(crate) waits: Option<[u8; 5]>,
    /// An element that sends a packet, and its first byte.
    pub(crate) sends: Option<(u8, u8)>,
}

/// A cycle in which nothing is asked for.
pub(crate) const IDLE: Cycle = Cycle {
    waits: None,
    sends: None,
};

/// Bits that are turned in one frame of each cycle.
#[derive(Debug, Clone, Copy, PartialEq, Eq)]
pub(crate) struct Flip {
    /// The place of the round, 0 to 3.
    pub(crate) round: usize,
    pub(crate) from: u8,
    pub(crate) to: u8,
    pub(crate) at: usize,
    pub(crate) bits: u8,
}

/// The bytes of a frame.
type Bytes = Row<u8, 331>;

fn push_all(bytes: &mut Bytes, more: &[u8]) {
    for byte in more {
        let _ = bytes.try_push(*byte);
    }
}

fn push_zeros(bytes: &mut Bytes, count: usize) {
    for _ in 0..count {
        let _ = bytes.try_push(0);
    }
}

/// The entry of a port of an element, where this output waits.
fn entry(waits: &[u8; 5], ne: u8, port: u8) -> [u8; 4] {
    if waits[0] == ne && waits[1] == port {
        [3, waits[2], waits[3], waits[4]]
    } else {
        [2, 0, 0, 0]
    }
}

/// Puts the cell of an element's pattern behind a frame.
fn push_pattern(bytes: &mut Bytes, cycle: &Cycle, ne: u8) {
    push_all(bytes, &[1]);
    for port in 0..8u8 {
        match &cycle.waits {
            Some(waits) => push_all(bytes, &entry(waits, ne, port)),
            None => push_all(bytes, &[2, 0, 0, 0]),
        }
    }
}

/// Puts the cell of an element's packet behind a frame.
fn push_packet(bytes: &mut Bytes, cycle: &Cycle, ne: u8) {
    match cycle.sends {
        Some((sender, first)) if sender == ne => {
            push_all(bytes, &[1, first]);
            push_zeros(bytes, 63);
        }
        _ => push_zeros(bytes, 65),
    }
}

/// The frame that an element sends in a round.
fn frame(cycle: &Cycle, number: u8, round: usize, from: u8) -> Bytes {
    let mut bytes = Bytes::new();
    let kind = ROUNDS[round.min(3)].1;
    push_all(&mut bytes, &[kind, 0, 0, 0, number, from]);
    for ne in 0..4u8 {
        let is_told = kind == 0xa2 || kind == 0xb2 || ne == from;
        if is_told && kind < 0xb0 {
            push_pattern(&mut bytes, cycle, ne);
        } else if is_told {
            push_packet(&mut bytes, cycle, ne);
        }
    }
    bytes
}

/// Turns bits of a byte, if it is there.
fn turn(bytes: &mut Bytes, at: usize, bits: u8) {
    if let Some(byte) = bytes.as_mut_slice().get_mut(at) {
        *byte ^= bits;
    }
}

/// A hexadecimal digit.
fn digit(value: u8) -> u8 {
    match value {
        0..=9 => b'0' + value,
        _ => b'a' + (value.min(15) - 10),
    }
}

/// Puts the line of a frame behind a text.
fn push_line(
    text: &mut Vec<u8>,
    number: u8,
    round: usize,
    from: u8,
    to: u8,
    bytes: &Bytes,
) -> Result<(), Fail> {
    let name = ROUNDS[round.min(3)].0;
    text.extend_from_slice(b"frame ")?;
    text.extend_from_slice(&[digit(number), b' '])?;
    text.extend_from_slice(name.as_bytes())?;
    text.extend_from_slice(&[b' ', digit(from), b' ', digit(to), b' '])?;
    for byte in bytes.as_slice() {
        text.extend_from_slice(&[digit(*byte / 16), digit(*byte % 16)])?;
    }
    text.extend_from_slice(b"\n")?;
    Ok(())
}

/// Puts the lines of a sender's frames in a round behind a text.
fn push_sender(
    text: &mut Vec<u8>,
    cycle: &Cycle,
    number: u8,
    round: usize,
    from: u8,
    flip: &Option<Flip>,
) -> Result<(), Fail> {
    for to in 0..4u8 {
        let mut bytes = frame(cycle, number, round, from);
        match flip {
            Some(f) if f.round == round && f.from == from && f.to == to => {
                turn(&mut bytes, f.at, f.bits)
            }
            _ => {}
        }
        if to != from {
            push_line(text, number, round, from, to, &bytes)?;
        }
    }
    Ok(())
}

/// The text of a trace of at most ten cycles.
pub(crate) fn trace(alloc: Global, cycles: &[Cycle], flip: &Option<Flip>) -> Result<Vec<u8>, Fail> {
    let mut text = Vec::new(alloc);
    let mut number = 0u8;
    for cycle in cycles {
        for round in 0..4 {
            for from in 0..4u8 {
                push_sender(&mut text, cycle, number, round, from, flip)?;
            }
        }
        number = number.saturating_add(1);
    }
    Ok(text)
}
