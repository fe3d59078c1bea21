//! Runs of requests without a fault.

use super::{Asked, Case, Decided, NONE, OF_ONE, Run, TO_THREE, Way};
use processor_buffers::Handed;
use syndrome_log::SyndromeKind;

pub(in super::super) const REQUESTS: &[Run] = &[
    Run {
        name: "voted posts",
        cycles: &[Case {
            acts: &[
                (1, 0, 1, Asked::Posted),
                (1, 1, 1, Asked::Posted),
                (1, 2, 1, Asked::Posted),
            ],
            waiting: &[(0b0111, 1, TO_THREE)],
            decided: Decided::Serves(2, TO_THREE, Way::Voted, 0, 0b0111),
            results: [Some([0x41, 0, 0]); 4],
            handed: &[(0b1110, 2, Handed::Stored)],
            text: "cycle 0\npattern 0 2 3:3:1:0 2 2 2 2 2 2\npattern 1 2 3:3:1:0 2 2 2 2 2 2\npattern 2 2 3:3:1:0 2 2 2 2 2 2\npattern 3 2 2 2 2 2 2 2 2\nserve 2 to 3 class 1 kind voted waited 0 admitted 0 1 2\nresult 0 41\nresult 1 41\nresult 2 41\nresult 3 41\ndeliver 1.2 stored\ndeliver 2.2 stored\ndeliver 3.2 stored\n",
            ..NONE
        }],
        end: "end cycles 1 served 1 discarded 0 idle 0 stored 3 overrun 0 syndromes 0\n",
    },
    Run {
        name: "an idle cycle",
        cycles: &[Case {
            text: "cycle 0\npattern 0 2 2 2 2 2 2 2 2\npattern 1 2 2 2 2 2 2 2 2\npattern 2 2 2 2 2 2 2 2 2\npattern 3 2 2 2 2 2 2 2 2\nidle\n",
            ..NONE
        }],
        end: "end cycles 1 served 0 discarded 0 idle 1 stored 0 overrun 0 syndromes 0\n",
    },
    Run {
        name: "two of three",
        cycles: &[
            Case {
                times: 3,
                acts: &[(1, 0, 1, Asked::Posted), (1, 1, 1, Asked::Posted)],
                waiting: &[(0b0011, 1, TO_THREE)],
                text: "cycle 0\npattern 0 2 3:3:1:0 2 2 2 2 2 2\npattern 1 2 3:3:1:0 2 2 2 2 2 2\npattern 2 2 2 2 2 2 2 2 2\npattern 3 2 2 2 2 2 2 2 2\nidle\n",
                ..NONE
            },
            Case {
                cycle: 3,
                waiting: &[(0b0011, 1, TO_THREE)],
                decided: Decided::Serves(2, TO_THREE, Way::Voted, 3, 0b0011),
                results: [Some([0x41, 0, 0]); 4],
                handed: &[(0b1110, 2, Handed::Stored)],
                notes: &[(0b1111, SyndromeKind::R, 2, 2)],
                text: "cycle 3\npattern 0 2 3:3:1:0 2 2 2 2 2 2\npattern 1 2 3:3:1:0 2 2 2 2 2 2\npattern 2 2 2 2 2 2 2 2 2\npattern 3 2 2 2 2 2 2 2 2\nserve 2 to 3 class 1 kind voted waited 3 admitted 0 1\nresult 0 41\nresult 1 41\nresult 2 41\nresult 3 41\ndeliver 1.2 stored\ndeliver 2.2 stored\ndeliver 3.2 stored\nsyndrome 0 R 2 2\nsyndrome 1 R 2 2\nsyndrome 2 R 2 2\nsyndrome 3 R 2 2\n",
                ..NONE
            },
        ],
        end: "end cycles 4 served 1 discarded 0 idle 3 stored 3 overrun 0 syndromes 4\n",
    },
    Run {
        name: "a late member",
        cycles: &[
            Case {
                times: 2,
                acts: &[(1, 0, 1, Asked::Posted), (1, 1, 1, Asked::Posted)],
                waiting: &[(0b0011, 1, TO_THREE)],
                text: "cycle 0\npattern 0 2 3:3:1:0 2 2 2 2 2 2\npattern 1 2 3:3:1:0 2 2 2 2 2 2\npattern 2 2 2 2 2 2 2 2 2\npattern 3 2 2 2 2 2 2 2 2\nidle\n",
                ..NONE
            },
            Case {
                cycle: 2,
                acts: &[(1, 2, 1, Asked::Posted)],
                waiting: &[(0b0111, 1, TO_THREE)],
                decided: Decided::Serves(2, TO_THREE, Way::Voted, 2, 0b0111),
                results: [Some([0x41, 0, 0]); 4],
                handed: &[(0b1110, 2, Handed::Stored)],
                text: "cycle 2\npattern 0 2 3:3:1:0 2 2 2 2 2 2\npattern 1 2 3:3:1:0 2 2 2 2 2 2\npattern 2 2 3:3:1:0 2 2 2 2 2 2\npattern 3 2 2 2 2 2 2 2 2\nserve 2 to 3 class 1 kind voted waited 2 admitted 0 1 2\nresult 0 41\nresult 1 41\nresult 2 41\nresult 3 41\ndeliver 1.2 stored\ndeliver 2.2 stored\ndeliver 3.2 stored\n",
                ..NONE
            },
            Case {
                cycle: 3,
                times: 2,
                text: "cycle 3\npattern 0 2 2 2 2 2 2 2 2\npattern 1 2 2 2 2 2 2 2 2\npattern 2 2 2 2 2 2 2 2 2\npattern 3 2 2 2 2 2 2 2 2\nidle\n",
                ..NONE
            },
        ],
        end: "end cycles 5 served 1 discarded 0 idle 4 stored 3 overrun 0 syndromes 0\n",
    },
    Run {
        name: "a later member",
        cycles: &[
            Case {
                times: 3,
                acts: &[(1, 0, 1, Asked::Posted), (1, 1, 1, Asked::Posted)],
                waiting: &[(0b0011, 1, TO_THREE)],
                text: "cycle 0\npattern 0 2 3:3:1:0 2 2 2 2 2 2\npattern 1 2 3:3:1:0 2 2 2 2 2 2\npattern 2 2 2 2 2 2 2 2 2\npattern 3 2 2 2 2 2 2 2 2\nidle\n",
                ..NONE
            },
            Case {
                cycle: 3,
                acts: &[(1, 2, 1, Asked::Posted)],
                waiting: &[(0b0111, 1, TO_THREE)],
                decided: Decided::Serves(2, TO_THREE, Way::Voted, 3, 0b0111),
                results: [Some([0x41, 0, 0]); 4],
                handed: &[(0b1110, 2, Handed::Stored)],
                text: "cycle 3\npattern 0 2 3:3:1:0 2 2 2 2 2 2\npattern 1 2 3:3:1:0 2 2 2 2 2 2\npattern 2 2 3:3:1:0 2 2 2 2 2 2\npattern 3 2 2 2 2 2 2 2 2\nserve 2 to 3 class 1 kind voted waited 3 admitted 0 1 2\nresult 0 41\nresult 1 41\nresult 2 41\nresult 3 41\ndeliver 1.2 stored\ndeliver 2.2 stored\ndeliver 3.2 stored\n",
                ..NONE
            },
            Case {
                cycle: 4,
                text: "cycle 4\npattern 0 2 2 2 2 2 2 2 2\npattern 1 2 2 2 2 2 2 2 2\npattern 2 2 2 2 2 2 2 2 2\npattern 3 2 2 2 2 2 2 2 2\nidle\n",
                ..NONE
            },
        ],
        end: "end cycles 5 served 1 discarded 0 idle 4 stored 3 overrun 0 syndromes 0\n",
    },
    Run {
        name: "a member that is too late",
        cycles: &[
            Case {
                times: 3,
                acts: &[(1, 0, 1, Asked::Posted), (1, 1, 1, Asked::Posted)],
                waiting: &[(0b0011, 1, TO_THREE)],
                text: "cycle 0\npattern 0 2 3:3:1:0 2 2 2 2 2 2\npattern 1 2 3:3:1:0 2 2 2 2 2 2\npattern 2 2 2 2 2 2 2 2 2\npattern 3 2 2 2 2 2 2 2 2\nidle\n",
                ..NONE
            },
            Case {
                cycle: 3,
                waiting: &[(0b0011, 1, TO_THREE)],
                decided: Decided::Serves(2, TO_THREE, Way::Voted, 3, 0b0011),
                results: [Some([0x41, 0, 0]); 4],
                handed: &[(0b1110, 2, Handed::Stored)],
                notes: &[(0b1111, SyndromeKind::R, 2, 2)],
                text: "cycle 3\npattern 0 2 3:3:1:0 2 2 2 2 2 2\npattern 1 2 3:3:1:0 2 2 2 2 2 2\npattern 2 2 2 2 2 2 2 2 2\npattern 3 2 2 2 2 2 2 2 2\nserve 2 to 3 class 1 kind voted waited 3 admitted 0 1\nresult 0 41\nresult 1 41\nresult 2 41\nresult 3 41\ndeliver 1.2 stored\ndeliver 2.2 stored\ndeliver 3.2 stored\nsyndrome 0 R 2 2\nsyndrome 1 R 2 2\nsyndrome 2 R 2 2\nsyndrome 3 R 2 2\n",
                ..NONE
            },
            Case {
                cycle: 4,
                acts: &[(1, 2, 1, Asked::Posted)],
                waiting: &[(0b0100, 1, TO_THREE)],
                text: "cycle 4\npattern 0 2 2 2 2 2 2 2 2\npattern 1 2 2 2 2 2 2 2 2\npattern 2 2 3:3:1:0 2 2 2 2 2 2\npattern 3 2 2 2 2 2 2 2 2\nidle\n",
                ..NONE
            },
        ],
        end: "end cycles 5 served 1 discarded 0 idle 4 stored 3 overrun 0 syndromes 4\n",
    },
    Run {
        name: "the oldest first",
        cycles: &[
            Case {
                acts: &[(3, 3, 1, Asked::Posted), (2, 0, 3, Asked::Posted)],
                waiting: &[(0b0001, 3, OF_ONE), (0b1000, 1, OF_ONE)],
                decided: Decided::Serves(4, OF_ONE, Way::Source(3), 0, 0b1000),
                results: [Some([0xa1, 0, 0]); 4],
                handed: &[(0b1110, 2, Handed::Stored)],
                text: "cycle 0\npattern 0 2 2 2 3:3:2:0 2 2 2 2\npattern 1 2 2 2 2 2 2 2 2\npattern 2 2 2 2 2 2 2 2 2\npattern 3 2 3:3:2:0 2 2 2 2 2 2\nserve 4 to 3 class 2 kind source waited 0 admitted 3\nresult 0 a1\nresult 1 a1\nresult 2 a1\nresult 3 a1\ndeliver 1.2 stored\ndeliver 2.2 stored\ndeliver 3.2 stored\n",
                ..NONE
            },
            Case {
                cycle: 1,
                acts: &[(1, 0, 1, Asked::Posted), (1, 1, 1, Asked::Posted)],
                waiting: &[
                    (0b0011, 1, TO_THREE),
                    (0b0001, 3, OF_ONE),
                    (0b1000, 1, OF_ONE),
                ],
                decided: Decided::Serves(5, OF_ONE, Way::Source(0), 1, 0b0001),
                results: [Some([0xb1, 0, 0]); 4],
                handed: &[(0b1110, 2, Handed::Stored)],
                text: "cycle 1\npattern 0 2 3:3:1:0 2 3:3:2:0 2 2 2 2\npattern 1 2 3:3:1:0 2 2 2 2 2 2\npattern 2 2 2 2 2 2 2 2 2\npattern 3 2 3:3:2:0 2 2 2 2 2 2\nserve 5 to 3 class 2 kind source waited 1 admitted 0\nresult 0 b1\nresult 1 b1\nresult 2 b1\nresult 3 b1\ndeliver 1.2 stored\ndeliver 2.2 stored\ndeliver 3.2 stored\n",
                ..NONE
            },
            Case {
                cycle: 2,
                waiting: &[
                    (0b0011, 1, TO_THREE),
                    (0b0001, 3, OF_ONE),
                    (0b1000, 1, OF_ONE),
                ],
                decided: Decided::Serves(4, OF_ONE, Way::Source(3), 1, 0b1000),
                results: [Some([0xa2, 0, 0]); 4],
                handed: &[(0b1110, 2, Handed::Stored)],
                text: "cycle 2\npattern 0 2 3:3:1:0 2 3:3:2:0 2 2 2 2\npattern 1 2 3:3:1:0 2 2 2 2 2 2\npattern 2 2 2 2 2 2 2 2 2\npattern 3 2 3:3:2:0 2 2 2 2 2 2\nserve 4 to 3 class 2 kind source waited 1 admitted 3\nresult 0 a2\nresult 1 a2\nresult 2 a2\nresult 3 a2\ndeliver 1.2 stored\ndeliver 2.2 stored\ndeliver 3.2 stored\n",
                ..NONE
            },
            Case {
                cycle: 3,
                waiting: &[
                    (0b0011, 1, TO_THREE),
                    (0b0001, 3, OF_ONE),
                    (0b1000, 1, OF_ONE),
                ],
                decided: Decided::Serves(5, OF_ONE, Way::Source(0), 1, 0b0001),
                results: [Some([0xb2, 0, 0]); 4],
                handed: &[(0b1110, 2, Handed::Stored)],
                text: "cycle 3\npattern 0 2 3:3:1:0 2 3:3:2:0 2 2 2 2\npattern 1 2 3:3:1:0 2 2 2 2 2 2\npattern 2 2 2 2 2 2 2 2 2\npattern 3 2 3:3:2:0 2 2 2 2 2 2\nserve 5 to 3 class 2 kind source waited 1 admitted 0\nresult 0 b2\nresult 1 b2\nresult 2 b2\nresult 3 b2\ndeliver 1.2 stored\ndeliver 2.2 stored\ndeliver 3.2 stored\n",
                ..NONE
            },
            Case {
                cycle: 4,
                waiting: &[(0b0011, 1, TO_THREE), (0b1000, 1, OF_ONE)],
                decided: Decided::Serves(2, TO_THREE, Way::Voted, 3, 0b0011),
                results: [Some([0xc1, 0, 0]); 4],
                handed: &[(0b1110, 2, Handed::Stored)],
                notes: &[(0b1111, SyndromeKind::R, 2, 2)],
                text: "cycle 4\npattern 0 2 3:3:1:0 2 2 2 2 2 2\npattern 1 2 3:3:1:0 2 2 2 2 2 2\npattern 2 2 2 2 2 2 2 2 2\npattern 3 2 3:3:2:0 2 2 2 2 2 2\nserve 2 to 3 class 1 kind voted waited 3 admitted 0 1\nresult 0 c1\nresult 1 c1\nresult 2 c1\nresult 3 c1\ndeliver 1.2 stored\ndeliver 2.2 stored\ndeliver 3.2 stored\nsyndrome 0 R 2 2\nsyndrome 1 R 2 2\nsyndrome 2 R 2 2\nsyndrome 3 R 2 2\n",
                ..NONE
            },
        ],
        end: "end cycles 5 served 5 discarded 0 idle 0 stored 15 overrun 0 syndromes 4\n",
    },
    Run {
        name: "a read of nothing",
        cycles: &[Case {
            acts: &[(1, 1, 2, Asked::Nothing)],
            text: "cycle 0\nread 1.2 none\npattern 0 2 2 2 2 2 2 2 2\npattern 1 2 2 2 2 2 2 2 2\npattern 2 2 2 2 2 2 2 2 2\npattern 3 2 2 2 2 2 2 2 2\nidle\n",
            ..NONE
        }],
        end: "end cycles 1 served 0 discarded 0 idle 1 stored 0 overrun 0 syndromes 0\n",
    },
];
