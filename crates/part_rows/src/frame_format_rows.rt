use bit_vote::Cells;
use frame_format::*;
use ftpp_base::{Ne, Round, Slot};

/// The frame of element 0 in A1 of cycle 1 with a payload of bytes 41.
fn one_cell() -> [u8; 39] {
    let mut bytes = [0x41; 39];
    bytes[..7].copy_from_slice(&[0xa1, 0, 0, 0, 1, 0, 1]);
    bytes
}

/// A1 of cycle 1.
const SLOT: Slot = Slot {
    cycle: 1,
    round: Round::A1,
};

/// The frame of element 0 with a payload, or none.
fn spelled(payload: Option<[u8; 32]>) -> FrameBuf {
    let mut frame = FrameBuf::new();
    encode_one(SLOT, Ne::at(0), payload, &mut frame);
    frame
}

/// What bytes are read as, if they are a frame of element 0.
fn read(bytes: &[u8]) -> Option<Option<[u8; 32]>> {
    decode_one(SLOT, Ne::at(0), bytes)
}

/// The frame of a payload, where one byte is another.
fn changed(place: usize, byte: u8) -> [u8; 39] {
    let mut bytes = one_cell();
    if let Some(changed) = bytes.get_mut(place) {
        *changed = byte;
    }
    bytes
}

#[test]
fn frames_of_one_cell_go_both_ways(rt: HostRuntime) {
    let payload = Some([0x41; 32]);
    assert!(rt; spelled(payload).as_slice() == one_cell().as_slice());
    assert!(rt; read(&one_cell()) == Some(payload));
    assert!(rt; read(spelled(None).as_slice()) == Some(None));
}

/// What the frame of a payload is read as without its last byte.
fn read_cut() -> Option<Option<[u8; 32]>> {
    let bytes = one_cell();
    match bytes.as_slice().split_last() {
        Some((_, front)) => read(front),
        None => Some(None),
    }
}

#[test]
fn other_bytes_are_no_frame(rt: HostRuntime) {
    // another kind, cycle and sender; a presence that is no bit, and one with a payload behind 0
    for (place, byte) in [(0, 0xa2), (4, 0), (5, 1), (6, 2), (6, 0)] {
        assert!(rt; read(&changed(place, byte)).is_none(), "{byte} at {place}");
    }
    assert!(rt; read_cut().is_none());
    assert!(rt; read(&[]).is_none());
}

#[test]
fn a_frame_is_copied_over_another(rt: HostRuntime) {
    let frame = spelled(Some([0x41; 32]));
    let mut copy = spelled(None);
    // over a frame of the same length, and over none
    copy_frame(&frame, &mut copy);
    assert!(rt; copy.as_slice() == one_cell().as_slice());
    copy_frame(&FrameBuf::new(), &mut copy);
    assert!(rt; copy.is_empty());
}

/// Whether the frame of element 0 is like that of element 2 with another byte.
fn like(place: usize, byte: u8) -> bool {
    let mut other = changed(place, byte);
    if place != 5 {
        other[5] = 2;
    }
    is_like(SLOT, Ne::at(0), &one_cell(), Ne::at(2), &other)
}

#[test]
fn frames_are_like_where_only_the_sender_differs(rt: HostRuntime) {
    for (place, byte, is_wanted) in [
        (5, 2, true),
        (5, 1, false),
        (0, 0xa2, false),
        (4, 2, false),
        (6, 0, false),
        (38, 0, false),
    ] {
        assert!(rt; like(place, byte) == is_wanted, "{byte} at {place}");
    }
    assert!(rt; !is_like(SLOT, Ne::at(0), &one_cell(), Ne::at(2), &[]));
}

/// A2 of the last cycle of a run.
const PATTERNS: Slot = Slot {
    cycle: 99_999,
    round: Round::A2,
};

/// B2 of the last cycle of a run.
const PACKETS: Slot = Slot {
    cycle: 99_999,
    round: Round::B2,
};

/// Four patterns, of which one is there.
fn four() -> Cells<4, 32> {
    let mut four = Cells::absent();
    four.set(1, Some([2; 32]));
    four
}

/// Five packets, of which two are there.
fn five() -> Cells<5, 64> {
    let mut five = Cells::absent();
    five.set(0, Some([0; 64]));
    five.set(4, Some([9; 64]));
    five
}

/// How long the frame of patterns is, and whether it is read as they are among four and as nothing among five.
fn patterns_go_both_ways() -> (usize, bool, bool) {
    let mut frame = FrameBuf::new();
    encode(PATTERNS, Ne::at(3), &four(), &mut frame);
    let among_four = decode(PATTERNS, Ne::at(3), frame.as_slice()) == Some(four());
    let among_five = decode::<5, 32>(PATTERNS, Ne::at(3), frame.as_slice()).is_none();
    (frame.len(), among_four, among_five)
}

/// How long the frame of packets is, and whether it is read as they are.
fn packets_go_both_ways() -> (usize, bool) {
    let mut frame = FrameBuf::new();
    encode(PACKETS, Ne::at(3), &five(), &mut frame);
    let is_read = decode(PACKETS, Ne::at(3), frame.as_slice()) == Some(five());
    (frame.len(), is_read)
}

#[test]
fn frames_of_all_cells_go_both_ways(rt: HostRuntime) {
    assert!(rt; patterns_go_both_ways() == (138, true, true));
    assert!(rt; packets_go_both_ways() == (FRAME_BYTES, true));
}
