//! Runs of four elements of which one may be faulty.

use element_core::Outcome3;
use ftpp_base::Round;
use packet_format::Descriptor;
use syndrome_log::SyndromeKind;

/// The rounds of a cycle.
pub(super) const ROUNDS: &[Round] = &[Round::A1, Round::A2, Round::B1, Round::B2];

/// A set of all elements.
const ALL: u8 = 0b1111;

/// A request to group 3 of all its members.
const TO_THREE: Descriptor = Descriptor {
    dest: 3,
    class: 1,
    source: 0,
};

/// A request to group 3 of one member.
const OF_ONE: Descriptor = Descriptor {
    dest: 3,
    class: 2,
    source: 0,
};

/// A request for an update of the table.
const UPDATE: Descriptor = Descriptor {
    dest: 0,
    class: 3,
    source: 0,
};

/// From a cycle to a later one, both counted.
type Cycles = (u32, u32);

/// In these cycles the processors at a port of a set of elements post a packet that begins with these bytes.
pub(super) type Posts = (Cycles, u8, u8, Descriptor, [u8; 3]);

/// What the faulty element does to a frame.
#[derive(Clone, Copy)]
pub(super) enum Change {
    Drop,
    /// These bits of the byte at a place.
    Flip(usize, u8),
    /// Bytes at random, behind the frame's own head or of any length.
    Random,
}

/// In these cycles and rounds the faulty element changes its frames to a set of elements.
pub(super) type Edit = (Cycles, &'static [Round], u8, Change);

/// Frames of all kinds in 200 cycles.
pub(super) const RANDOM: &[Edit] = &[((0, 199), ROUNDS, ALL, Change::Random)];

/// Member 0 of group 2 is masked, and then the others of it post.
pub(super) const MASKED: &[Posts] = &[
    ((0, 0), 0, ALL, UPDATE, [1, 2, 0]),
    ((1, 1), 1, 0b0110, TO_THREE, [0x55, 0, 0]),
];

/// Group 5 is dissolved, and then group 4.
pub(super) const DISSOLVED: &[Posts] = &[
    ((0, 0), 0, ALL, UPDATE, [4, 5, 0]),
    ((1, 1), 0, ALL, UPDATE, [4, 4, 0]),
];

/// What is done: how, for which group, for which elements, after how long.
pub(super) type Done = Option<(&'static str, u8, u8, u32)>;

/// Noted by a set of elements: what, of whom, and about whose packet.
pub(super) type Note = (u8, SyndromeKind, u8, u8);

/// A run of four elements, and what the fault-free ones tell of its last cycle.
#[derive(Drop)]
pub(super) struct Case {
    pub(super) name: &'static str,
    pub(super) cycles: u32,
    /// `tx` of group 3.
    pub(super) expiry: u16,
    pub(super) faulty: Option<u8>,
    pub(super) edits: &'static [Edit],
    pub(super) posts: &'static [Posts],
    /// How many cycles serve, discard and do nothing.
    pub(super) counts: [u32; 3],
    pub(super) done: Done,
    /// The first byte of the entry at each fault-free element.
    pub(super) entry: Option<u8>,
    /// The port and the elements where it is stored.
    pub(super) stored: (u8, u8),
    pub(super) update: Option<Outcome3>,
    pub(super) notes: &'static [Note],
}

/// The run whose journal is read.
pub(super) const TWO_FACED_SOURCE: Case = Case {
    name: "a two-faced source",
    cycles: 1,
    expiry: 0,
    faulty: Some(3),
    edits: &[
        ((0, 0), &[Round::B1], 0b0010, Change::Flip(7, 0x3c)),
        ((0, 0), &[Round::B1], 0b0100, Change::Flip(7, 0x5a)),
    ],
    posts: &[((0, 0), 1, 0b1000, OF_ONE, [0x0f, 0, 0])],
    counts: [1, 0, 0],
    done: Some(("source", 4, 0b1000, 0)),
    entry: Some(0x17),
    stored: (2, 0b0110),
    update: None,
    notes: &[
        (0b0111, SyndromeKind::D1, 3, 3),
        (0b0110, SyndromeKind::D2, 0, 3),
        (0b0101, SyndromeKind::D2, 1, 3),
        (0b0011, SyndromeKind::D2, 2, 3),
    ],
};

/// Runs without a fault, and with one of each kind.
pub(super) const CASES: &[Case] = &[
    Case {
        name: "voted posts",
        cycles: 1,
        expiry: 0,
        faulty: None,
        edits: &[],
        posts: &[((0, 0), 1, 0b0111, TO_THREE, [0x41, 0, 0])],
        counts: [1, 0, 0],
        done: Some(("voted", 2, 0b0111, 0)),
        entry: Some(0x41),
        stored: (2, 0b1110),
        update: None,
        notes: &[],
    },
    TWO_FACED_SOURCE,
    Case {
        name: "a two-faced update",
        cycles: 1,
        expiry: 0,
        faulty: Some(3),
        edits: &[((0, 0), &[Round::B1], 0b0110, Change::Flip(9, 1))],
        posts: &[
            ((0, 0), 0, 0b0011, UPDATE, [1, 2, 0]),
            ((0, 0), 0, 0b1100, UPDATE, [1, 2, 1]),
        ],
        counts: [1, 0, 0],
        done: Some(("every", 1, ALL, 0)),
        entry: Some(1),
        stored: (0, 0),
        update: Some(Outcome3::Done),
        notes: &[
            (0b0001, SyndromeKind::D1, 3, 3),
            (0b0110, SyndromeKind::D2, 0, 3),
            (0b0111, SyndromeKind::V, 2, 2),
        ],
    },
    Case {
        name: "a silent element",
        cycles: 4,
        expiry: 0,
        faulty: Some(2),
        edits: &[((0, 3), ROUNDS, ALL, Change::Drop)],
        posts: &[((0, 0), 1, 0b0011, TO_THREE, [0x41, 0, 0])],
        counts: [1, 0, 3],
        done: Some(("voted", 2, 0b0011, 3)),
        entry: Some(0x41),
        stored: (2, 0b1010),
        update: None,
        notes: &[
            (0b1011, SyndromeKind::P2, 2, 0),
            (0b1011, SyndromeKind::P2, 2, 1),
            (0b1011, SyndromeKind::P2, 2, 3),
            (0b1011, SyndromeKind::R, 2, 2),
            (0b1011, SyndromeKind::O, 2, 2),
        ],
    },
    Case {
        name: "an expired request",
        cycles: 9,
        expiry: 4,
        faulty: None,
        edits: &[],
        posts: &[((0, 4), 3, 0b0001, OF_ONE, [5, 0, 0])],
        counts: [4, 1, 4],
        done: Some(("expired", 5, 0b0001, 4)),
        entry: None,
        stored: (0, 0),
        update: None,
        notes: &[],
    },
    Case {
        name: "an update beside a request that waits",
        cycles: 8,
        expiry: 4,
        faulty: None,
        edits: &[],
        posts: &[
            ((0, 4), 3, 0b0001, OF_ONE, [5, 0, 0]),
            ((7, 7), 0, ALL, UPDATE, [1, 2, 0]),
        ],
        counts: [5, 0, 3],
        done: Some(("every", 1, ALL, 0)),
        entry: Some(1),
        stored: (0, 0),
        update: Some(Outcome3::Done),
        notes: &[],
    },
    Case {
        name: "a request that expires after an update",
        cycles: 9,
        expiry: 4,
        faulty: None,
        edits: &[],
        posts: &[
            ((0, 4), 3, 0b0001, OF_ONE, [5, 0, 0]),
            ((7, 7), 0, ALL, UPDATE, [1, 2, 0]),
        ],
        counts: [5, 1, 3],
        done: Some(("expired", 5, 0b0001, 4)),
        entry: None,
        stored: (0, 0),
        update: None,
        notes: &[],
    },
    Case {
        name: "nobody acts",
        cycles: 2,
        expiry: 0,
        faulty: None,
        edits: &[],
        posts: &[],
        counts: [0, 0, 2],
        done: None,
        entry: None,
        stored: (0, 0),
        update: None,
        notes: &[],
    },
    Case {
        name: "a full receiver with expiry",
        cycles: 3,
        expiry: 1,
        faulty: Some(3),
        edits: &[((0, 2), &[Round::A1], ALL, Change::Flip(15, 2))],
        posts: &[((0, 0), 1, 0b0111, TO_THREE, [0x41, 0, 0])],
        counts: [1, 0, 2],
        done: Some(("voted", 2, 0b0111, 2)),
        entry: Some(0x41),
        stored: (2, 0b0110),
        update: None,
        notes: &[(0b0111, SyndromeKind::O, 3, 3)],
    },
];
