//! Runs of updates of the table.

use super::{Asked, Case, Decided, NONE, Run, TO_THREE, UPDATE, Way};
use element_core::Outcome3;
use processor_buffers::Handed;

pub(in super::super) const UPDATES: &[Run] = &[
    Run {
        name: "a mask and an admission",
        cycles: &[
            Case {
                acts: &[
                    (1, 0, 0, Asked::Posted),
                    (1, 1, 0, Asked::Posted),
                    (1, 2, 0, Asked::Posted),
                    (1, 3, 0, Asked::Posted),
                ],
                waiting: &[(0b1111, 0, UPDATE)],
                decided: Decided::Serves(1, UPDATE, Way::Every, 0, 0b1111),
                results: [Some([0x01, 0x02, 0x02]); 4],
                update: Some(Outcome3::Done),
                text: "cycle 0\npattern 0 3:0:3:0 2 2 2 2 2 2 2\npattern 1 3:0:3:0 2 2 2 2 2 2 2\npattern 2 3:0:3:0 2 2 2 2 2 2 2\npattern 3 3:0:3:0 2 2 2 2 2 2 2\nserve 1 to 0 class 3 kind every waited 0 admitted 0 1 2 3\nresult 0 010202\nresult 1 010202\nresult 2 010202\nresult 3 010202\nupdate done\n",
                ..NONE
            },
            Case {
                cycle: 1,
                acts: &[
                    (1, 0, 1, Asked::Posted),
                    (1, 1, 1, Asked::Posted),
                    (1, 2, 1, Asked::Posted),
                ],
                waiting: &[(0b0111, 1, TO_THREE)],
                decided: Decided::Serves(2, TO_THREE, Way::Every, 0, 0b0011),
                results: [Some([0x55, 0, 0]); 4],
                handed: &[(0b1110, 2, Handed::Stored)],
                text: "cycle 1\npattern 0 2 3:3:1:0 2 2 2 2 2 2\npattern 1 2 3:3:1:0 2 2 2 2 2 2\npattern 2 2 3:3:1:0 2 2 2 2 2 2\npattern 3 2 2 2 2 2 2 2 2\nserve 2 to 3 class 1 kind every waited 0 admitted 0 1\nresult 0 55\nresult 1 55\nresult 2 55\nresult 3 55\ndeliver 1.2 stored\ndeliver 2.2 stored\ndeliver 3.2 stored\n",
                ..NONE
            },
            Case {
                cycle: 2,
                acts: &[
                    (1, 0, 0, Asked::Posted),
                    (1, 1, 0, Asked::Posted),
                    (1, 2, 0, Asked::Posted),
                    (1, 3, 0, Asked::Posted),
                ],
                waiting: &[(0b1111, 0, UPDATE), (0b0100, 1, TO_THREE)],
                decided: Decided::Serves(1, UPDATE, Way::Every, 0, 0b1111),
                results: [Some([0x02, 0x02, 0x02]); 4],
                update: Some(Outcome3::Done),
                text: "cycle 2\npattern 0 3:0:3:0 2 2 2 2 2 2 2\npattern 1 3:0:3:0 2 2 2 2 2 2 2\npattern 2 3:0:3:0 3:3:1:0 2 2 2 2 2 2\npattern 3 3:0:3:0 2 2 2 2 2 2 2\nserve 1 to 0 class 3 kind every waited 0 admitted 0 1 2 3\nresult 0 020202\nresult 1 020202\nresult 2 020202\nresult 3 020202\nupdate done\n",
                ..NONE
            },
            Case {
                cycle: 3,
                text: "cycle 3\npattern 0 2 2 2 2 2 2 2 2\npattern 1 2 2 2 2 2 2 2 2\npattern 2 2 2 2 2 2 2 2 2\npattern 3 2 2 2 2 2 2 2 2\nidle\n",
                ..NONE
            },
        ],
        end: "end cycles 4 served 3 discarded 0 idle 1 stored 3 overrun 0 syndromes 0\n",
    },
    Run {
        name: "a refused update",
        cycles: &[
            Case {
                acts: &[
                    (1, 0, 0, Asked::Posted),
                    (1, 1, 0, Asked::Posted),
                    (1, 2, 0, Asked::Posted),
                    (1, 3, 0, Asked::Posted),
                ],
                waiting: &[(0b1111, 0, UPDATE)],
                decided: Decided::Serves(1, UPDATE, Way::Every, 0, 0b1111),
                results: [Some([0x01, 0x01, 0]); 4],
                update: Some(Outcome3::Done),
                text: "cycle 0\npattern 0 3:0:3:0 2 2 2 2 2 2 2\npattern 1 3:0:3:0 2 2 2 2 2 2 2\npattern 2 3:0:3:0 2 2 2 2 2 2 2\npattern 3 3:0:3:0 2 2 2 2 2 2 2\nserve 1 to 0 class 3 kind every waited 0 admitted 0 1 2 3\nresult 0 0101\nresult 1 0101\nresult 2 0101\nresult 3 0101\nupdate done\n",
                ..NONE
            },
            Case {
                cycle: 1,
                acts: &[
                    (1, 1, 0, Asked::Posted),
                    (1, 2, 0, Asked::Posted),
                    (1, 3, 0, Asked::Posted),
                ],
                waiting: &[(0b1110, 0, UPDATE)],
                decided: Decided::Serves(1, UPDATE, Way::Every, 0, 0b1110),
                results: [Some([0x01, 0x01, 0x01]); 4],
                update: Some(Outcome3::Refused(12)),
                text: "cycle 1\npattern 0 2 2 2 2 2 2 2 2\npattern 1 3:0:3:0 2 2 2 2 2 2 2\npattern 2 3:0:3:0 2 2 2 2 2 2 2\npattern 3 3:0:3:0 2 2 2 2 2 2 2\nserve 1 to 0 class 3 kind every waited 0 admitted 1 2 3\nresult 0 010101\nresult 1 010101\nresult 2 010101\nresult 3 010101\nupdate refused 12\n",
                ..NONE
            },
            Case {
                cycle: 2,
                acts: &[
                    (1, 0, 1, Asked::Posted),
                    (1, 1, 1, Asked::Posted),
                    (1, 2, 1, Asked::Posted),
                ],
                waiting: &[(0b0111, 1, UPDATE)],
                decided: Decided::Discards(2, UPDATE, 4, 0, 0b0111),
                text: "cycle 2\npattern 0 2 3:0:3:0 2 2 2 2 2 2\npattern 1 2 3:0:3:0 2 2 2 2 2 2\npattern 2 2 3:0:3:0 2 2 2 2 2 2\npattern 3 2 2 2 2 2 2 2 2\ndiscard 2 to 0 class 3 reason 4 waited 0 admitted 0 1 2\n",
                ..NONE
            },
        ],
        end: "end cycles 3 served 2 discarded 1 idle 0 stored 0 overrun 0 syndromes 0\n",
    },
    Run {
        name: "an unread update",
        cycles: &[Case {
            acts: &[
                (1, 0, 0, Asked::Posted),
                (1, 1, 0, Asked::Posted),
                (1, 2, 0, Asked::Posted),
                (1, 3, 0, Asked::Posted),
            ],
            waiting: &[(0b1111, 0, UPDATE)],
            decided: Decided::Serves(1, UPDATE, Way::Every, 0, 0b1111),
            results: [Some([0x09, 0, 0]); 4],
            update: Some(Outcome3::Unread),
            text: "cycle 0\npattern 0 3:0:3:0 2 2 2 2 2 2 2\npattern 1 3:0:3:0 2 2 2 2 2 2 2\npattern 2 3:0:3:0 2 2 2 2 2 2 2\npattern 3 3:0:3:0 2 2 2 2 2 2 2\nserve 1 to 0 class 3 kind every waited 0 admitted 0 1 2 3\nresult 0 09\nresult 1 09\nresult 2 09\nresult 3 09\nupdate unread\n",
            ..NONE
        }],
        end: "end cycles 1 served 1 discarded 0 idle 0 stored 0 overrun 0 syndromes 0\n",
    },
    Run {
        name: "an absent update",
        cycles: &[Case {
            acts: &[
                (1, 0, 0, Asked::Posted),
                (1, 1, 0, Asked::Posted),
                (1, 2, 0, Asked::Posted),
                (1, 3, 0, Asked::Posted),
            ],
            waiting: &[(0b1111, 0, UPDATE)],
            decided: Decided::Serves(1, UPDATE, Way::Every, 0, 0b1111),
            results: [Some([0x01, 0x09, 0]); 4],
            update: Some(Outcome3::Absent),
            text: "cycle 0\npattern 0 3:0:3:0 2 2 2 2 2 2 2\npattern 1 3:0:3:0 2 2 2 2 2 2 2\npattern 2 3:0:3:0 2 2 2 2 2 2 2\npattern 3 3:0:3:0 2 2 2 2 2 2 2\nserve 1 to 0 class 3 kind every waited 0 admitted 0 1 2 3\nresult 0 0109\nresult 1 0109\nresult 2 0109\nresult 3 0109\nupdate absent\n",
            ..NONE
        }],
        end: "end cycles 1 served 1 discarded 0 idle 0 stored 0 overrun 0 syndromes 0\n",
    },
];
