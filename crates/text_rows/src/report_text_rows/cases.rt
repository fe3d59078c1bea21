//! Runs of four elements, cycle by cycle, as a cluster tells of them, and their texts.

mod faults;
mod limits;
mod others;
mod requests;
mod updates;

use element_core::{Outcome3, Rejoined};
pub(super) use faults::FAULTS;
use ftpp_base::Round;
pub(super) use limits::LIMITS;
pub(super) use others::OTHERS;
use packet_format::Descriptor;
use processor_buffers::Handed;
pub(super) use requests::REQUESTS;
use syndrome_log::SyndromeKind;
pub(super) use updates::UPDATES;

/// A request to group 3 of all its members.
const TO_THREE: Descriptor = Descriptor {
    dest: 3,
    class: 1,
    source: 0,
};

/// A request to group 2 of all its members.
const TO_TWO: Descriptor = Descriptor {
    dest: 2,
    class: 1,
    source: 0,
};

/// A request to group 3 of one member.
const OF_ONE: Descriptor = Descriptor {
    dest: 3,
    class: 2,
    source: 0,
};

/// A request for an update of the table.
const UPDATE: Descriptor = Descriptor {
    dest: 0,
    class: 3,
    source: 0,
};

/// What a processor asked for, and what came of it.
#[derive(Clone, Copy)]
pub(super) enum Asked {
    Posted,
    PostFull,
    /// A read of a packet with this first byte that group 5 sent to group 3 in this cycle, of class 2.
    Got(u32, u8),
    Nothing,
}

/// How a request is served.
#[derive(Clone, Copy)]
pub(super) enum Way {
    Voted,
    Source(u8),
    Every,
}

/// What is decided: for which group, on which request, how, after how long, for which elements.
#[derive(Clone, Copy)]
pub(super) enum Decided {
    Idle,
    Discards(u8, Descriptor, u8, u32, u8),
    Serves(u8, Descriptor, Way, u32, u8),
}

/// A run: its cycles, and the line at its end.
#[derive(Drop)]
pub(super) struct Run {
    pub(super) name: &'static str,
    pub(super) cycles: &'static [Case],
    pub(super) end: &'static str,
}

/// What a cycle shows. Sets of elements have a bit for each.
#[derive(Drop)]
pub(super) struct Case {
    pub(super) cycle: u32,
    /// How many cycles show the same, this one first: all but the numbers of cycles, and posts that are accepted.
    pub(super) times: u32,
    pub(super) faulty: Option<u8>,
    pub(super) rejoin: Option<(u8, Rejoined)>,
    /// What the processors at ports of elements do, behind how often.
    pub(super) acts: &'static [(usize, u8, u8, Asked)],
    /// The elements that show no requests and no space.
    pub(super) silent: u8,
    /// The elements and the port at which a request waits.
    pub(super) waiting: &'static [(u8, u8, Descriptor)],
    /// The elements and the port at which there is no space.
    pub(super) full: &'static [(u8, u8)],
    pub(super) decided: Decided,
    /// The first three bytes of the result at each element.
    pub(super) results: [Option<[u8; 3]>; 4],
    /// The elements and the port where the result is handed over, and what becomes of it.
    pub(super) handed: &'static [(u8, u8, Handed)],
    pub(super) update: Option<Outcome3>,
    /// What is noted, behind the elements that note it.
    pub(super) notes: &'static [(u8, SyndromeKind, u8, u8)],
    pub(super) text: &'static str,
}

const NONE: Case = Case {
    cycle: 0,
    times: 1,
    faulty: None,
    rejoin: None,
    acts: &[],
    silent: 0,
    waiting: &[],
    full: &[],
    decided: Decided::Idle,
    results: [None; 4],
    handed: &[],
    update: None,
    notes: &[],
    text: "",
};

/// A frame of a cycle and round, and the line that tells of it.
#[derive(Drop)]
pub(super) struct FrameCase {
    pub(super) cycle: u32,
    pub(super) round: Round,
    pub(super) from: u8,
    pub(super) to: u8,
    pub(super) frame: &'static [u8],
    pub(super) text: &'static str,
}

/// Worked lines of frames, the first one that of a cycle without acts.
pub(super) const FRAMES: &[FrameCase] = &[
    FrameCase {
        cycle: 0,
        round: Round::A1,
        from: 0,
        to: 1,
        frame: &[
            0xa1, 0, 0, 0, 0, 0, 1, 2, 0, 0, 0, 2, 0, 0, 0, 2, 0, 0, 0, 2, 0, 0, 0, 2, 0, 0, 0, 2,
            0, 0, 0, 2, 0, 0, 0, 2, 0, 0, 0,
        ],
        text: "frame 0 A1 0 1 a10000000000010200000002000000020000000200000002000000020000000200000002000000\n",
    },
    FrameCase {
        cycle: 12,
        round: Round::B1,
        from: 2,
        to: 4,
        frame: &[],
        text: "frame 12 B1 2 4 -\n",
    },
    FrameCase {
        cycle: 99_999,
        round: Round::A2,
        from: 4,
        to: 2,
        frame: &[0x0f, 0xa0],
        text: "frame 99999 A2 4 2 0fa0\n",
    },
];
