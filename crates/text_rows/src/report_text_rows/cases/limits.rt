//! Runs in which buffers are full, and in which requests expire.

use super::{Asked, Case, Decided, NONE, OF_ONE, Run, TO_THREE, Way};
use processor_buffers::Handed;
use syndrome_log::SyndromeKind;

/// All members of group 2 post to group 3, and the element of one receiver, which is faulty, stays full.
const STAYS_FULL: &[Case] = &[
    Case {
        times: 2,
        faulty: Some(3),
        acts: &[
            (1, 0, 1, Asked::Posted),
            (1, 1, 1, Asked::Posted),
            (1, 2, 1, Asked::Posted),
        ],
        waiting: &[(0b0111, 1, TO_THREE)],
        full: &[(0b1000, 2)],
        text: "cycle 0\npattern 0 2 3:3:1:0 2 2 2 2 2 2\npattern 1 2 3:3:1:0 2 2 2 2 2 2\npattern 2 2 3:3:1:0 2 2 2 2 2 2\npattern 3 2 2 0 2 2 2 2 2\nidle\n",
        ..NONE
    },
    Case {
        cycle: 2,
        faulty: Some(3),
        waiting: &[(0b0111, 1, TO_THREE)],
        full: &[(0b1000, 2)],
        decided: Decided::Serves(2, TO_THREE, Way::Voted, 2, 0b0111),
        results: [Some([0x41, 0, 0]); 4],
        handed: &[(0b1110, 2, Handed::Stored)],
        notes: &[(0b0111, SyndromeKind::O, 3, 3)],
        text: "cycle 2\npattern 0 2 3:3:1:0 2 2 2 2 2 2\npattern 1 2 3:3:1:0 2 2 2 2 2 2\npattern 2 2 3:3:1:0 2 2 2 2 2 2\npattern 3 2 2 0 2 2 2 2 2\nserve 2 to 3 class 1 kind voted waited 2 admitted 0 1 2\nresult 0 41\nresult 1 41\nresult 2 41\ndeliver 1.2 stored\ndeliver 2.2 stored\nsyndrome 0 O 3 3\nsyndrome 1 O 3 3\nsyndrome 2 O 3 3\n",
        ..NONE
    },
];

/// The last line of that run.
const STAYS_FULL_END: &str =
    "end cycles 3 served 1 discarded 0 idle 2 stored 2 overrun 0 syndromes 3\n";

pub(in super::super) const LIMITS: &[Run] = &[
    Run {
        name: "a full output",
        cycles: &[Case {
            acts: &[(16, 0, 0, Asked::Posted), (1, 0, 0, Asked::PostFull)],
            waiting: &[(0b0001, 0, TO_THREE)],
            text: "cycle 0\npost-full 0.0\npattern 0 3:3:1:0 2 2 2 2 2 2 2\npattern 1 2 2 2 2 2 2 2 2\npattern 2 2 2 2 2 2 2 2 2\npattern 3 2 2 2 2 2 2 2 2\nidle\n",
            ..NONE
        }],
        end: "end cycles 1 served 0 discarded 0 idle 1 stored 0 overrun 0 syndromes 0\n",
    },
    Run {
        name: "a full receiver",
        cycles: &[
            Case {
                times: 2,
                faulty: Some(3),
                acts: &[
                    (1, 0, 1, Asked::Posted),
                    (1, 1, 1, Asked::Posted),
                    (1, 2, 1, Asked::Posted),
                ],
                waiting: &[(0b0111, 1, TO_THREE)],
                full: &[(0b1000, 2)],
                text: "cycle 0\npattern 0 2 3:3:1:0 2 2 2 2 2 2\npattern 1 2 3:3:1:0 2 2 2 2 2 2\npattern 2 2 3:3:1:0 2 2 2 2 2 2\npattern 3 2 2 0 2 2 2 2 2\nidle\n",
                ..NONE
            },
            Case {
                cycle: 2,
                faulty: Some(3),
                waiting: &[(0b0111, 1, TO_THREE)],
                decided: Decided::Serves(2, TO_THREE, Way::Voted, 2, 0b0111),
                results: [Some([0x41, 0, 0]); 4],
                handed: &[(0b1110, 2, Handed::Stored)],
                text: "cycle 2\npattern 0 2 3:3:1:0 2 2 2 2 2 2\npattern 1 2 3:3:1:0 2 2 2 2 2 2\npattern 2 2 3:3:1:0 2 2 2 2 2 2\npattern 3 2 2 2 2 2 2 2 2\nserve 2 to 3 class 1 kind voted waited 2 admitted 0 1 2\nresult 0 41\nresult 1 41\nresult 2 41\ndeliver 1.2 stored\ndeliver 2.2 stored\n",
                ..NONE
            },
        ],
        end: "end cycles 3 served 1 discarded 0 idle 2 stored 2 overrun 0 syndromes 0\n",
    },
    Run {
        name: "a receiver that stays full",
        cycles: STAYS_FULL,
        end: STAYS_FULL_END,
    },
    Run {
        name: "a receiver that stays full, with an expiry",
        cycles: STAYS_FULL,
        end: STAYS_FULL_END,
    },
    Run {
        name: "an overrun at last",
        cycles: &[
            Case {
                acts: &[(1, 0, 3, Asked::Posted)],
                waiting: &[(0b0001, 3, OF_ONE)],
                decided: Decided::Serves(5, OF_ONE, Way::Source(0), 0, 0b0001),
                results: [Some([0x05, 0, 0]); 4],
                handed: &[(0b1110, 2, Handed::Stored)],
                text: "cycle 0\npattern 0 2 2 2 3:3:2:0 2 2 2 2\npattern 1 2 2 2 2 2 2 2 2\npattern 2 2 2 2 2 2 2 2 2\npattern 3 2 2 2 2 2 2 2 2\nserve 5 to 3 class 2 kind source waited 0 admitted 0\nresult 0 05\nresult 1 05\nresult 2 05\nresult 3 05\ndeliver 1.2 stored\ndeliver 2.2 stored\ndeliver 3.2 stored\n",
                ..NONE
            },
            Case {
                cycle: 1,
                times: 31,
                acts: &[
                    (1, 0, 3, Asked::Posted),
                    (1, 2, 2, Asked::Got(0, 0x05)),
                    (1, 3, 2, Asked::Got(0, 0x05)),
                ],
                waiting: &[(0b0001, 3, OF_ONE)],
                decided: Decided::Serves(5, OF_ONE, Way::Source(0), 0, 0b0001),
                results: [Some([0x05, 0, 0]); 4],
                handed: &[(0b1110, 2, Handed::Stored)],
                text: "cycle 1\nread 2.2 0 5 2 3 05\nread 3.2 0 5 2 3 05\npattern 0 2 2 2 3:3:2:0 2 2 2 2\npattern 1 2 2 2 2 2 2 2 2\npattern 2 2 2 2 2 2 2 2 2\npattern 3 2 2 2 2 2 2 2 2\nserve 5 to 3 class 2 kind source waited 0 admitted 0\nresult 0 05\nresult 1 05\nresult 2 05\nresult 3 05\ndeliver 1.2 stored\ndeliver 2.2 stored\ndeliver 3.2 stored\n",
                ..NONE
            },
            Case {
                cycle: 32,
                acts: &[
                    (1, 0, 3, Asked::Posted),
                    (1, 2, 2, Asked::Got(31, 0x05)),
                    (1, 3, 2, Asked::Got(31, 0x05)),
                ],
                waiting: &[(0b0001, 3, OF_ONE)],
                full: &[(0b0010, 2)],
                text: "cycle 32\nread 2.2 31 5 2 3 05\nread 3.2 31 5 2 3 05\npattern 0 2 2 2 3:3:2:0 2 2 2 2\npattern 1 2 2 0 2 2 2 2 2\npattern 2 2 2 2 2 2 2 2 2\npattern 3 2 2 2 2 2 2 2 2\nidle\n",
                ..NONE
            },
            Case {
                cycle: 33,
                waiting: &[(0b0001, 3, OF_ONE)],
                full: &[(0b0010, 2)],
                text: "cycle 33\npattern 0 2 2 2 3:3:2:0 2 2 2 2\npattern 1 2 2 0 2 2 2 2 2\npattern 2 2 2 2 2 2 2 2 2\npattern 3 2 2 2 2 2 2 2 2\nidle\n",
                ..NONE
            },
            Case {
                cycle: 34,
                waiting: &[(0b0001, 3, OF_ONE)],
                full: &[(0b0010, 2)],
                decided: Decided::Serves(5, OF_ONE, Way::Source(0), 2, 0b0001),
                results: [Some([0x05, 0, 0]); 4],
                handed: &[(0b0010, 2, Handed::Overrun), (0b1100, 2, Handed::Stored)],
                notes: &[(0b1111, SyndromeKind::O, 1, 1)],
                text: "cycle 34\npattern 0 2 2 2 3:3:2:0 2 2 2 2\npattern 1 2 2 0 2 2 2 2 2\npattern 2 2 2 2 2 2 2 2 2\npattern 3 2 2 2 2 2 2 2 2\nserve 5 to 3 class 2 kind source waited 2 admitted 0\nresult 0 05\nresult 1 05\nresult 2 05\nresult 3 05\ndeliver 1.2 overrun\ndeliver 2.2 stored\ndeliver 3.2 stored\nsyndrome 0 O 1 1\nsyndrome 1 O 1 1\nsyndrome 2 O 1 1\nsyndrome 3 O 1 1\n",
                ..NONE
            },
        ],
        end: "end cycles 35 served 33 discarded 0 idle 2 stored 98 overrun 1 syndromes 4\n",
    },
    Run {
        name: "an expired request",
        cycles: &[
            Case {
                times: 32,
                acts: &[(1, 0, 3, Asked::Posted)],
                waiting: &[(0b0001, 3, OF_ONE)],
                decided: Decided::Serves(5, OF_ONE, Way::Source(0), 0, 0b0001),
                results: [Some([0x05, 0, 0]); 4],
                handed: &[(0b1110, 2, Handed::Stored)],
                text: "cycle 0\npattern 0 2 2 2 3:3:2:0 2 2 2 2\npattern 1 2 2 2 2 2 2 2 2\npattern 2 2 2 2 2 2 2 2 2\npattern 3 2 2 2 2 2 2 2 2\nserve 5 to 3 class 2 kind source waited 0 admitted 0\nresult 0 05\nresult 1 05\nresult 2 05\nresult 3 05\ndeliver 1.2 stored\ndeliver 2.2 stored\ndeliver 3.2 stored\n",
                ..NONE
            },
            Case {
                cycle: 32,
                times: 4,
                acts: &[(1, 0, 3, Asked::Posted)],
                waiting: &[(0b0001, 3, OF_ONE)],
                full: &[(0b1110, 2)],
                text: "cycle 32\npattern 0 2 2 2 3:3:2:0 2 2 2 2\npattern 1 2 2 0 2 2 2 2 2\npattern 2 2 2 0 2 2 2 2 2\npattern 3 2 2 0 2 2 2 2 2\nidle\n",
                ..NONE
            },
            Case {
                cycle: 36,
                waiting: &[(0b0001, 3, OF_ONE)],
                full: &[(0b1110, 2)],
                decided: Decided::Discards(5, OF_ONE, 6, 4, 0b0001),
                text: "cycle 36\npattern 0 2 2 2 3:3:2:0 2 2 2 2\npattern 1 2 2 0 2 2 2 2 2\npattern 2 2 2 0 2 2 2 2 2\npattern 3 2 2 0 2 2 2 2 2\ndiscard 5 to 3 class 2 reason 6 waited 4 admitted 0\n",
                ..NONE
            },
        ],
        end: "end cycles 37 served 32 discarded 1 idle 4 stored 96 overrun 0 syndromes 0\n",
    },
    Run {
        name: "a request that never expires",
        cycles: &[
            Case {
                times: 32,
                acts: &[(1, 0, 3, Asked::Posted)],
                waiting: &[(0b0001, 3, OF_ONE)],
                decided: Decided::Serves(5, OF_ONE, Way::Source(0), 0, 0b0001),
                results: [Some([0x05, 0, 0]); 4],
                handed: &[(0b1110, 2, Handed::Stored)],
                text: "cycle 0\npattern 0 2 2 2 3:3:2:0 2 2 2 2\npattern 1 2 2 2 2 2 2 2 2\npattern 2 2 2 2 2 2 2 2 2\npattern 3 2 2 2 2 2 2 2 2\nserve 5 to 3 class 2 kind source waited 0 admitted 0\nresult 0 05\nresult 1 05\nresult 2 05\nresult 3 05\ndeliver 1.2 stored\ndeliver 2.2 stored\ndeliver 3.2 stored\n",
                ..NONE
            },
            Case {
                cycle: 32,
                times: 5,
                acts: &[(1, 0, 3, Asked::Posted)],
                waiting: &[(0b0001, 3, OF_ONE)],
                full: &[(0b1110, 2)],
                text: "cycle 32\npattern 0 2 2 2 3:3:2:0 2 2 2 2\npattern 1 2 2 0 2 2 2 2 2\npattern 2 2 2 0 2 2 2 2 2\npattern 3 2 2 0 2 2 2 2 2\nidle\n",
                ..NONE
            },
        ],
        end: "end cycles 37 served 32 discarded 0 idle 5 stored 96 overrun 0 syndromes 0\n",
    },
    Run {
        name: "small buffers",
        cycles: &[
            Case {
                acts: &[(1, 0, 3, Asked::Posted), (1, 0, 3, Asked::PostFull)],
                waiting: &[(0b0001, 3, OF_ONE)],
                decided: Decided::Serves(5, OF_ONE, Way::Source(0), 0, 0b0001),
                results: [Some([0x05, 0, 0]); 4],
                handed: &[(0b1110, 2, Handed::Stored)],
                text: "cycle 0\npost-full 0.3\npattern 0 2 2 2 3:3:2:0 2 2 2 2\npattern 1 2 2 2 2 2 2 2 2\npattern 2 2 2 2 2 2 2 2 2\npattern 3 2 2 2 2 2 2 2 2\nserve 5 to 3 class 2 kind source waited 0 admitted 0\nresult 0 05\nresult 1 05\nresult 2 05\nresult 3 05\ndeliver 1.2 stored\ndeliver 2.2 stored\ndeliver 3.2 stored\n",
                ..NONE
            },
            Case {
                cycle: 1,
                acts: &[(1, 0, 3, Asked::Posted)],
                waiting: &[(0b0001, 3, OF_ONE)],
                decided: Decided::Serves(5, OF_ONE, Way::Source(0), 0, 0b0001),
                results: [Some([0x05, 0, 0]); 4],
                handed: &[(0b1110, 2, Handed::Stored)],
                text: "cycle 1\npattern 0 2 2 2 3:3:2:0 2 2 2 2\npattern 1 2 2 2 2 2 2 2 2\npattern 2 2 2 2 2 2 2 2 2\npattern 3 2 2 2 2 2 2 2 2\nserve 5 to 3 class 2 kind source waited 0 admitted 0\nresult 0 05\nresult 1 05\nresult 2 05\nresult 3 05\ndeliver 1.2 stored\ndeliver 2.2 stored\ndeliver 3.2 stored\n",
                ..NONE
            },
            Case {
                cycle: 2,
                times: 2,
                acts: &[(1, 0, 3, Asked::Posted)],
                waiting: &[(0b0001, 3, OF_ONE)],
                full: &[(0b1110, 2)],
                text: "cycle 2\npattern 0 2 2 2 3:3:2:0 2 2 2 2\npattern 1 2 2 0 2 2 2 2 2\npattern 2 2 2 0 2 2 2 2 2\npattern 3 2 2 0 2 2 2 2 2\nidle\n",
                ..NONE
            },
        ],
        end: "end cycles 4 served 2 discarded 0 idle 2 stored 6 overrun 0 syndromes 0\n",
    },
    Run {
        name: "small buffers with an expiry",
        cycles: &[
            Case {
                acts: &[(1, 0, 3, Asked::Posted), (1, 0, 3, Asked::PostFull)],
                waiting: &[(0b0001, 3, OF_ONE)],
                decided: Decided::Serves(5, OF_ONE, Way::Source(0), 0, 0b0001),
                results: [Some([0x05, 0, 0]); 4],
                handed: &[(0b1110, 2, Handed::Stored)],
                text: "cycle 0\npost-full 0.3\npattern 0 2 2 2 3:3:2:0 2 2 2 2\npattern 1 2 2 2 2 2 2 2 2\npattern 2 2 2 2 2 2 2 2 2\npattern 3 2 2 2 2 2 2 2 2\nserve 5 to 3 class 2 kind source waited 0 admitted 0\nresult 0 05\nresult 1 05\nresult 2 05\nresult 3 05\ndeliver 1.2 stored\ndeliver 2.2 stored\ndeliver 3.2 stored\n",
                ..NONE
            },
            Case {
                cycle: 1,
                acts: &[(1, 0, 3, Asked::Posted)],
                waiting: &[(0b0001, 3, OF_ONE)],
                decided: Decided::Serves(5, OF_ONE, Way::Source(0), 0, 0b0001),
                results: [Some([0x05, 0, 0]); 4],
                handed: &[(0b1110, 2, Handed::Stored)],
                text: "cycle 1\npattern 0 2 2 2 3:3:2:0 2 2 2 2\npattern 1 2 2 2 2 2 2 2 2\npattern 2 2 2 2 2 2 2 2 2\npattern 3 2 2 2 2 2 2 2 2\nserve 5 to 3 class 2 kind source waited 0 admitted 0\nresult 0 05\nresult 1 05\nresult 2 05\nresult 3 05\ndeliver 1.2 stored\ndeliver 2.2 stored\ndeliver 3.2 stored\n",
                ..NONE
            },
            Case {
                cycle: 2,
                acts: &[(1, 0, 3, Asked::Posted)],
                waiting: &[(0b0001, 3, OF_ONE)],
                full: &[(0b1110, 2)],
                text: "cycle 2\npattern 0 2 2 2 3:3:2:0 2 2 2 2\npattern 1 2 2 0 2 2 2 2 2\npattern 2 2 2 0 2 2 2 2 2\npattern 3 2 2 0 2 2 2 2 2\nidle\n",
                ..NONE
            },
            Case {
                cycle: 3,
                waiting: &[(0b0001, 3, OF_ONE)],
                full: &[(0b1110, 2)],
                decided: Decided::Discards(5, OF_ONE, 6, 1, 0b0001),
                text: "cycle 3\npattern 0 2 2 2 3:3:2:0 2 2 2 2\npattern 1 2 2 0 2 2 2 2 2\npattern 2 2 2 0 2 2 2 2 2\npattern 3 2 2 0 2 2 2 2 2\ndiscard 5 to 3 class 2 reason 6 waited 1 admitted 0\n",
                ..NONE
            },
        ],
        end: "end cycles 4 served 2 discarded 1 idle 1 stored 6 overrun 0 syndromes 0\n",
    },
];
