//! Lines that no script over honest links can bring, and what stays out of a text.

use super::{Asked, Case, Decided, NONE, Run, TO_THREE, UPDATE, Way};
use element_core::{Outcome3, Rejoined};
use processor_buffers::Handed;
use syndrome_log::SyndromeKind;

pub(in super::super) const OTHERS: &[Run] = &[
    Run {
        name: "empty frames",
        cycles: &[Case {
            silent: 0b1111,
            text: "cycle 0\npattern 0 0 0 0 0 0 0 0 0\npattern 1 0 0 0 0 0 0 0 0\npattern 2 0 0 0 0 0 0 0 0\npattern 3 0 0 0 0 0 0 0 0\nidle\n",
            ..NONE
        }],
        end: "end cycles 1 served 0 discarded 0 idle 1 stored 0 overrun 0 syndromes 0\n",
    },
    Run {
        name: "acts, a refused rejoin and a missing update",
        cycles: &[
            Case {
                acts: &[
                    (1, 0, 0, Asked::Posted),
                    (1, 0, 0, Asked::PostFull),
                    (1, 1, 2, Asked::Nothing),
                    (1, 2, 2, Asked::Got(2, 5)),
                ],
                waiting: &[(0b0001, 0, TO_THREE)],
                text: "cycle 0\npost-full 0.0\nread 1.2 none\nread 2.2 2 5 2 3 05\npattern 0 3:3:1:0 2 2 2 2 2 2 2\npattern 1 2 2 2 2 2 2 2 2\npattern 2 2 2 2 2 2 2 2 2\npattern 3 2 2 2 2 2 2 2 2\nidle\n",
                ..NONE
            },
            Case {
                cycle: 1,
                rejoin: Some((0, Rejoined::Refused)),
                waiting: &[(0b1111, 0, UPDATE)],
                decided: Decided::Serves(1, UPDATE, Way::Every, 0, 0b1111),
                update: Some(Outcome3::Missing),
                text: "cycle 1\nrejoin 0 refused\npattern 0 3:0:3:0 2 2 2 2 2 2 2\npattern 1 3:0:3:0 2 2 2 2 2 2 2\npattern 2 3:0:3:0 2 2 2 2 2 2 2\npattern 3 3:0:3:0 2 2 2 2 2 2 2\nserve 1 to 0 class 3 kind every waited 0 admitted 0 1 2 3\nresult 0 none\nresult 1 none\nresult 2 none\nresult 3 none\nupdate missing\n",
                ..NONE
            },
        ],
        end: "end cycles 2 served 1 discarded 0 idle 1 stored 0 overrun 0 syndromes 0\n",
    },
    Run {
        name: "nothing of a faulty element's processors and log",
        cycles: &[Case {
            faulty: Some(2),
            acts: &[
                (1, 2, 7, Asked::Nothing),
                (1, 2, 2, Asked::PostFull),
                (1, 2, 2, Asked::Got(2, 5)),
            ],
            silent: 0b0100,
            waiting: &[(0b0011, 1, TO_THREE)],
            decided: Decided::Serves(2, TO_THREE, Way::Voted, 3, 0b0011),
            results: [Some([0x41, 0, 0]); 4],
            handed: &[
                (0b1000, 2, Handed::Stored),
                (0b0100, 2, Handed::Overrun),
                (0b0010, 2, Handed::Stored),
            ],
            notes: &[
                (0b0101, SyndromeKind::R, 2, 2),
                (0b0100, SyndromeKind::O, 2, 2),
            ],
            text: "cycle 0\npattern 0 2 3:3:1:0 2 2 2 2 2 2\npattern 1 2 3:3:1:0 2 2 2 2 2 2\npattern 2 0 0 0 0 0 0 0 0\npattern 3 2 2 2 2 2 2 2 2\nserve 2 to 3 class 1 kind voted waited 3 admitted 0 1\nresult 0 41\nresult 1 41\nresult 3 41\ndeliver 1.2 stored\ndeliver 3.2 stored\nsyndrome 0 R 2 2\n",
            ..NONE
        }],
        end: "end cycles 1 served 1 discarded 0 idle 0 stored 2 overrun 0 syndromes 1\n",
    },
];
