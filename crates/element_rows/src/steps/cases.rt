//! Runs of four elements with all kinds of faults.

use element_core::Outcome3;
use ftpp_base::Round;
use packet_format::Descriptor;
use syndrome_log::SyndromeKind;

/// The rounds of a cycle.
pub(super) const ROUNDS: &[Round] = &[Round::A1, Round::A2, Round::B1, Round::B2];

/// In place of the faulty element, where there is none.
const NOBODY: u8 = 9;

/// A request to group 3 of all its members.
const TO_THREE: Descriptor = Descriptor {
    dest: 3,
    class: 1,
    source: 0,
};

/// A request to group 3 of one member.
const OF_ONE: Descriptor = Descriptor {
    dest: 3,
    class: 2,
    source: 0,
};

/// A request to group 2 of all its members.
const TO_TWO: Descriptor = Descriptor {
    dest: 2,
    class: 1,
    source: 0,
};

/// A request for an update of the table.
pub(super) const UPDATE: Descriptor = Descriptor {
    dest: 0,
    class: 3,
    source: 0,
};

/// What the faulty element does to a frame.
#[derive(Clone, Copy)]
pub(super) enum Change {
    Drop,
    Flip(usize, u8),
}

/// In these cycles and rounds the faulty element changes its frames to a set of elements.
pub(super) type Edit = (&'static [u32], &'static [Round], u8, Change);

/// In a cycle the processors at a port of a set of elements post a packet that begins with these bytes.
pub(super) type Posts = (u32, u8, u8, Descriptor, [u8; 3]);

/// What is done: how, for which group, for which elements, after how long.
pub(super) type Done = Option<(&'static str, u8, u8, u32)>;

/// A run of four elements, and what the fault-free ones tell of its last cycle.
#[derive(Drop)]
pub(super) struct Case {
    pub(super) name: &'static str,
    pub(super) cycles: u32,
    pub(super) faulty: u8,
    pub(super) posts: &'static [Posts],
    pub(super) edits: &'static [Edit],
    /// The flags of the first four ports in each agreed column, a hexadecimal digit each.
    pub(super) shown: [u16; 4],
    pub(super) done: Done,
    /// The first bytes of the entry at each element.
    pub(super) entries: [Option<[u8; 3]>; 4],
    /// The port and the elements where it is stored.
    pub(super) stored: (u8, u8),
    pub(super) update: Option<Outcome3>,
    /// What is noted, behind the set of elements that note it.
    pub(super) notes: &'static [(u8, SyndromeKind, u8, u8)],
    /// How many entries each element noted before.
    pub(super) earlier: usize,
}

/// Runs of all kinds of faults.
pub(super) const CASES: &[Case] = &[
    Case {
        name: "voted posts",
        cycles: 1,
        faulty: NOBODY,
        posts: &[(0, 1, 0b0111, TO_THREE, [0x41, 0, 0])],
        edits: &[],
        shown: [0x2322, 0x2322, 0x2322, 0x2222],
        done: Some(("voted", 2, 0b0111, 0)),
        entries: [Some([0x41, 0, 0]); 4],
        stored: (2, 0b1110),
        update: None,
        notes: &[],
        earlier: 0,
    },
    Case {
        name: "a silent element",
        cycles: 4,
        faulty: 2,
        posts: &[(0, 1, 0b0011, TO_THREE, [0x41, 0, 0])],
        edits: &[(&[0, 1, 2, 3], ROUNDS, 0b1111, Change::Drop)],
        shown: [0x2322, 0x2322, 0x0000, 0x2222],
        done: Some(("voted", 2, 0b0011, 3)),
        entries: [Some([0x41, 0, 0]); 4],
        stored: (2, 0b1110),
        update: None,
        notes: &[
            (0b1011, SyndromeKind::P2, 2, 0),
            (0b1011, SyndromeKind::P2, 2, 1),
            (0b1011, SyndromeKind::P2, 2, 3),
            (0b1011, SyndromeKind::R, 2, 2),
            (0b1011, SyndromeKind::O, 2, 2),
        ],
        earlier: 9,
    },
    Case {
        name: "no echoes of patterns from 0",
        cycles: 1,
        faulty: 0,
        posts: &[(0, 1, 0b0111, TO_THREE, [0x41, 0, 0])],
        edits: &[(&[0], &[Round::A2], 0b1111, Change::Drop)],
        shown: [0x2322, 0x2322, 0x2322, 0x2222],
        done: Some(("voted", 2, 0b0111, 0)),
        entries: [Some([0x41, 0, 0]); 4],
        stored: (2, 0b1110),
        update: None,
        notes: &[
            (0b1110, SyndromeKind::P2, 0, 1),
            (0b1110, SyndromeKind::P2, 0, 2),
            (0b1110, SyndromeKind::P2, 0, 3),
        ],
        earlier: 0,
    },
    Case {
        name: "no echoes of patterns from 1",
        cycles: 1,
        faulty: 1,
        posts: &[(0, 1, 0b0111, TO_THREE, [0x41, 0, 0])],
        edits: &[(&[0], &[Round::A2], 0b1111, Change::Drop)],
        shown: [0x2322, 0x2322, 0x2322, 0x2222],
        done: Some(("voted", 2, 0b0111, 0)),
        entries: [Some([0x41, 0, 0]); 4],
        stored: (2, 0b1110),
        update: None,
        notes: &[
            (0b1101, SyndromeKind::P2, 1, 0),
            (0b1101, SyndromeKind::P2, 1, 2),
            (0b1101, SyndromeKind::P2, 1, 3),
        ],
        earlier: 0,
    },
    Case {
        name: "no echoes of patterns from 2",
        cycles: 1,
        faulty: 2,
        posts: &[(0, 1, 0b0111, TO_THREE, [0x41, 0, 0])],
        edits: &[(&[0], &[Round::A2], 0b1111, Change::Drop)],
        shown: [0x2322, 0x2322, 0x2322, 0x2222],
        done: Some(("voted", 2, 0b0111, 0)),
        entries: [Some([0x41, 0, 0]); 4],
        stored: (2, 0b1110),
        update: None,
        notes: &[
            (0b1011, SyndromeKind::P2, 2, 0),
            (0b1011, SyndromeKind::P2, 2, 1),
            (0b1011, SyndromeKind::P2, 2, 3),
        ],
        earlier: 0,
    },
    Case {
        name: "no echoes of patterns from 3",
        cycles: 1,
        faulty: 3,
        posts: &[(0, 1, 0b0111, TO_THREE, [0x41, 0, 0])],
        edits: &[(&[0], &[Round::A2], 0b1111, Change::Drop)],
        shown: [0x2322, 0x2322, 0x2322, 0x2222],
        done: Some(("voted", 2, 0b0111, 0)),
        entries: [Some([0x41, 0, 0]); 4],
        stored: (2, 0b1110),
        update: None,
        notes: &[
            (0b0111, SyndromeKind::P2, 3, 0),
            (0b0111, SyndromeKind::P2, 3, 1),
            (0b0111, SyndromeKind::P2, 3, 2),
        ],
        earlier: 0,
    },
    Case {
        name: "no pattern from 1",
        cycles: 1,
        faulty: 1,
        posts: &[(0, 1, 0b0111, TO_THREE, [0x41, 0, 0])],
        edits: &[(&[0], &[Round::A1], 0b1111, Change::Drop)],
        shown: [0x2322, 0x0000, 0x2322, 0x2222],
        done: None,
        entries: [None; 4],
        stored: (2, 0b0000),
        update: None,
        notes: &[],
        earlier: 0,
    },
    Case {
        name: "no packet from 1",
        cycles: 1,
        faulty: 1,
        posts: &[(0, 1, 0b0111, TO_THREE, [0x41, 0, 0])],
        edits: &[(&[0], &[Round::B1], 0b1111, Change::Drop)],
        shown: [0x2322, 0x2322, 0x2322, 0x2222],
        done: Some(("voted", 2, 0b0111, 0)),
        entries: [Some([0x41, 0, 0]); 4],
        stored: (2, 0b1110),
        update: None,
        notes: &[(0b1101, SyndromeKind::V, 1, 1)],
        earlier: 0,
    },
    Case {
        name: "no echoes of packets from 2",
        cycles: 1,
        faulty: 2,
        posts: &[(0, 1, 0b1000, OF_ONE, [0x41, 0, 0])],
        edits: &[(&[0], &[Round::B2], 0b1111, Change::Drop)],
        shown: [0x2222, 0x2222, 0x2222, 0x2322],
        done: Some(("source", 4, 0b1000, 0)),
        entries: [Some([0x41, 0, 0]); 4],
        stored: (2, 0b1110),
        update: None,
        notes: &[(0b1011, SyndromeKind::D2, 2, 3)],
        earlier: 0,
    },
    Case {
        name: "a false echo",
        cycles: 1,
        faulty: 3,
        posts: &[],
        edits: &[(&[0], &[Round::A2], 0b0010, Change::Flip(7, 1))],
        shown: [0x2222; 4],
        done: None,
        entries: [None; 4],
        stored: (2, 0b0000),
        update: None,
        notes: &[(0b0010, SyndromeKind::P2, 3, 0)],
        earlier: 0,
    },
    Case {
        name: "a two-faced pattern",
        cycles: 1,
        faulty: 3,
        posts: &[],
        edits: &[
            (&[0], &[Round::A1], 0b0001, Change::Flip(7, 1)),
            (&[0], &[Round::A1], 0b0010, Change::Flip(7, 2)),
        ],
        shown: [0x2222; 4],
        done: None,
        entries: [None; 4],
        stored: (2, 0b0000),
        update: None,
        notes: &[
            (0b0011, SyndromeKind::P1, 3, 3),
            (0b0110, SyndromeKind::P2, 0, 3),
            (0b0101, SyndromeKind::P2, 1, 3),
        ],
        earlier: 0,
    },
    Case {
        name: "a two-faced source",
        cycles: 1,
        faulty: 3,
        posts: &[(0, 1, 0b1000, OF_ONE, [0x0f, 0, 0])],
        edits: &[
            (&[0], &[Round::B1], 0b0010, Change::Flip(7, 0x3c)),
            (&[0], &[Round::B1], 0b0100, Change::Flip(7, 0x5a)),
        ],
        shown: [0x2222, 0x2222, 0x2222, 0x2322],
        done: Some(("source", 4, 0b1000, 0)),
        entries: [Some([0x17, 0, 0]); 4],
        stored: (2, 0b1110),
        update: None,
        notes: &[
            (0b0111, SyndromeKind::D1, 3, 3),
            (0b0110, SyndromeKind::D2, 0, 3),
            (0b0101, SyndromeKind::D2, 1, 3),
            (0b0011, SyndromeKind::D2, 2, 3),
        ],
        earlier: 0,
    },
    Case {
        name: "split votes",
        cycles: 1,
        faulty: 3,
        posts: &[
            (0, 2, 0b1010, TO_TWO, [0xff, 0, 0]),
            (0, 2, 0b0100, TO_TWO, [0, 0, 0]),
        ],
        edits: &[(&[0], &[Round::B1], 0b0100, Change::Flip(7, 0xff))],
        shown: [0x2222, 0x2232, 0x2232, 0x2232],
        done: Some(("voted", 3, 0b1110, 0)),
        entries: [
            Some([0xff, 0, 0]),
            Some([0xff, 0, 0]),
            Some([0, 0, 0]),
            None,
        ],
        stored: (1, 0b0111),
        update: None,
        notes: &[
            (0b0100, SyndromeKind::V, 1, 1),
            (0b0011, SyndromeKind::V, 2, 2),
        ],
        earlier: 0,
    },
    Case {
        name: "a two-faced update",
        cycles: 1,
        faulty: 3,
        posts: &[
            (0, 0, 0b0011, UPDATE, [1, 2, 0]),
            (0, 0, 0b1100, UPDATE, [1, 2, 1]),
        ],
        edits: &[(&[0], &[Round::B1], 0b0110, Change::Flip(9, 1))],
        shown: [0x3222; 4],
        done: Some(("every", 1, 0b1111, 0)),
        entries: [Some([1, 2, 0]); 4],
        stored: (0, 0b0000),
        update: Some(Outcome3::Done),
        notes: &[
            (0b0001, SyndromeKind::D1, 3, 3),
            (0b0110, SyndromeKind::D2, 0, 3),
            (0b0111, SyndromeKind::V, 2, 2),
        ],
        earlier: 0,
    },
    Case {
        name: "an update that is missing",
        cycles: 4,
        faulty: 3,
        posts: &[(0, 0, 0b1011, UPDATE, [1, 2, 0])],
        edits: &[(&[3], &[Round::B1], 0b1111, Change::Drop)],
        shown: [0x3222, 0x3222, 0x2222, 0x3222],
        done: Some(("every", 1, 0b1011, 3)),
        entries: [None; 4],
        stored: (0, 0b0000),
        update: Some(Outcome3::Missing),
        notes: &[
            (0b0111, SyndromeKind::R, 2, 2),
            (0b0111, SyndromeKind::V, 0, 0),
            (0b0111, SyndromeKind::V, 1, 1),
        ],
        earlier: 0,
    },
    Case {
        name: "a masked member",
        cycles: 2,
        faulty: NOBODY,
        posts: &[
            (0, 0, 0b1111, UPDATE, [1, 2, 2]),
            (1, 1, 0b0011, TO_THREE, [0x55, 0, 0]),
            (1, 1, 0b0100, TO_THREE, [0x77, 0, 0]),
        ],
        edits: &[],
        shown: [0x2322, 0x2322, 0x2322, 0x2222],
        done: Some(("every", 2, 0b0011, 0)),
        entries: [Some([0x55, 0, 0]); 4],
        stored: (2, 0b1110),
        update: None,
        notes: &[],
        earlier: 0,
    },
    Case {
        name: "no pattern in the second cycle",
        cycles: 2,
        faulty: 2,
        posts: &[],
        edits: &[(&[1], &[Round::A1], 0b1111, Change::Drop)],
        shown: [0x2222, 0x2222, 0x0000, 0x2222],
        done: None,
        entries: [None; 4],
        stored: (2, 0b0000),
        update: None,
        notes: &[],
        earlier: 0,
    },
    Case {
        name: "an update that one element is told otherwise",
        cycles: 2,
        faulty: 3,
        posts: &[
            (0, 0, 0b1011, UPDATE, [1, 2, 1]),
            (0, 0, 0b0100, UPDATE, [1, 2, 0]),
            (1, 1, 0b0111, TO_THREE, [0x55, 0, 0]),
        ],
        edits: &[(&[0], &[Round::B1], 0b0001, Change::Flip(9, 1))],
        shown: [0x2322, 0x2322, 0x2322, 0x2222],
        done: Some(("every", 2, 0b0101, 0)),
        entries: [Some([0x55, 0, 0]); 4],
        stored: (2, 0b1110),
        update: None,
        notes: &[],
        earlier: 2,
    },
    Case {
        name: "a member that is live again",
        cycles: 4,
        faulty: NOBODY,
        posts: &[
            (0, 0, 0b1111, UPDATE, [1, 2, 2]),
            (1, 1, 0b0011, TO_THREE, [0x55, 0, 0]),
            (1, 1, 0b0100, TO_THREE, [0x77, 0, 0]),
            (2, 0, 0b1111, UPDATE, [2, 2, 2]),
        ],
        edits: &[],
        shown: [0x2222; 4],
        done: None,
        entries: [None; 4],
        stored: (2, 0b0000),
        update: None,
        notes: &[],
        earlier: 0,
    },
    Case {
        name: "a refused update",
        cycles: 2,
        faulty: NOBODY,
        posts: &[
            (0, 0, 0b1111, UPDATE, [1, 1, 0]),
            (1, 0, 0b1110, UPDATE, [1, 1, 1]),
        ],
        edits: &[],
        shown: [0x2222, 0x3222, 0x3222, 0x3222],
        done: Some(("every", 1, 0b1110, 0)),
        entries: [Some([1, 1, 1]); 4],
        stored: (0, 0b0000),
        update: Some(Outcome3::Refused(12)),
        notes: &[],
        earlier: 0,
    },
    Case {
        name: "an update of no group",
        cycles: 1,
        faulty: NOBODY,
        posts: &[(0, 0, 0b1111, UPDATE, [1, 9, 0])],
        edits: &[],
        shown: [0x3222; 4],
        done: Some(("every", 1, 0b1111, 0)),
        entries: [Some([1, 9, 0]); 4],
        stored: (0, 0b0000),
        update: Some(Outcome3::Absent),
        notes: &[],
        earlier: 0,
    },
    Case {
        name: "an unread update",
        cycles: 1,
        faulty: NOBODY,
        posts: &[(0, 0, 0b1111, UPDATE, [9, 0, 0])],
        edits: &[],
        shown: [0x3222; 4],
        done: Some(("every", 1, 0b1111, 0)),
        entries: [Some([9, 0, 0]); 4],
        stored: (0, 0b0000),
        update: Some(Outcome3::Unread),
        notes: &[],
        earlier: 0,
    },
    Case {
        name: "an unlawful request",
        cycles: 1,
        faulty: NOBODY,
        posts: &[(0, 1, 0b0111, UPDATE, [0, 0, 0])],
        edits: &[],
        shown: [0x2322, 0x2322, 0x2322, 0x2222],
        done: Some(("discard", 2, 0b0111, 0)),
        entries: [None; 4],
        stored: (0, 0b0000),
        update: None,
        notes: &[],
        earlier: 0,
    },
];
