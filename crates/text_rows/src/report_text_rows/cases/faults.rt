//! Runs in which an element is faulty.

use super::{Asked, Case, Decided, NONE, OF_ONE, Run, TO_THREE, TO_TWO, UPDATE, Way};
use element_core::{Outcome3, Rejoined};
use processor_buffers::Handed;
use syndrome_log::SyndromeKind;

pub(in super::super) const FAULTS: &[Run] = &[
    Run {
        name: "a silent element",
        cycles: &[
            Case {
                times: 3,
                faulty: Some(2),
                acts: &[(1, 0, 1, Asked::Posted), (1, 1, 1, Asked::Posted)],
                silent: 0b0100,
                waiting: &[(0b0011, 1, TO_THREE)],
                notes: &[
                    (0b1011, SyndromeKind::P2, 2, 0),
                    (0b1011, SyndromeKind::P2, 2, 1),
                    (0b1011, SyndromeKind::P2, 2, 3),
                ],
                text: "cycle 0\npattern 0 2 3:3:1:0 2 2 2 2 2 2\npattern 1 2 3:3:1:0 2 2 2 2 2 2\npattern 2 0 0 0 0 0 0 0 0\npattern 3 2 2 2 2 2 2 2 2\nidle\nsyndrome 0 P2 2 0\nsyndrome 0 P2 2 1\nsyndrome 0 P2 2 3\nsyndrome 1 P2 2 0\nsyndrome 1 P2 2 1\nsyndrome 1 P2 2 3\nsyndrome 3 P2 2 0\nsyndrome 3 P2 2 1\nsyndrome 3 P2 2 3\n",
                ..NONE
            },
            Case {
                cycle: 3,
                faulty: Some(2),
                silent: 0b0100,
                waiting: &[(0b0011, 1, TO_THREE)],
                decided: Decided::Serves(2, TO_THREE, Way::Voted, 3, 0b0011),
                results: [Some([0x41, 0, 0]); 4],
                handed: &[(0b1110, 2, Handed::Stored)],
                notes: &[
                    (0b1011, SyndromeKind::P2, 2, 0),
                    (0b1011, SyndromeKind::P2, 2, 1),
                    (0b1011, SyndromeKind::P2, 2, 3),
                    (0b1011, SyndromeKind::R, 2, 2),
                    (0b1011, SyndromeKind::O, 2, 2),
                ],
                text: "cycle 3\npattern 0 2 3:3:1:0 2 2 2 2 2 2\npattern 1 2 3:3:1:0 2 2 2 2 2 2\npattern 2 0 0 0 0 0 0 0 0\npattern 3 2 2 2 2 2 2 2 2\nserve 2 to 3 class 1 kind voted waited 3 admitted 0 1\nresult 0 41\nresult 1 41\nresult 3 41\ndeliver 1.2 stored\ndeliver 3.2 stored\nsyndrome 0 P2 2 0\nsyndrome 0 P2 2 1\nsyndrome 0 P2 2 3\nsyndrome 0 R 2 2\nsyndrome 0 O 2 2\nsyndrome 1 P2 2 0\nsyndrome 1 P2 2 1\nsyndrome 1 P2 2 3\nsyndrome 1 R 2 2\nsyndrome 1 O 2 2\nsyndrome 3 P2 2 0\nsyndrome 3 P2 2 1\nsyndrome 3 P2 2 3\nsyndrome 3 R 2 2\nsyndrome 3 O 2 2\n",
                ..NONE
            },
        ],
        end: "end cycles 4 served 1 discarded 0 idle 3 stored 2 overrun 0 syndromes 42\n",
    },
    Run {
        name: "a two-faced pattern",
        cycles: &[Case {
            faulty: Some(3),
            notes: &[
                (0b0011, SyndromeKind::P1, 3, 3),
                (0b0110, SyndromeKind::P2, 0, 3),
                (0b0101, SyndromeKind::P2, 1, 3),
            ],
            text: "cycle 0\npattern 0 2 2 2 2 2 2 2 2\npattern 1 2 2 2 2 2 2 2 2\npattern 2 2 2 2 2 2 2 2 2\npattern 3 2 2 2 2 2 2 2 2\nidle\nsyndrome 0 P1 3 3\nsyndrome 0 P2 1 3\nsyndrome 1 P1 3 3\nsyndrome 1 P2 0 3\nsyndrome 2 P2 0 3\nsyndrome 2 P2 1 3\n",
            ..NONE
        }],
        end: "end cycles 1 served 0 discarded 0 idle 1 stored 0 overrun 0 syndromes 6\n",
    },
    Run {
        name: "a false echo",
        cycles: &[Case {
            faulty: Some(3),
            notes: &[(0b0010, SyndromeKind::P2, 3, 0)],
            text: "cycle 0\npattern 0 2 2 2 2 2 2 2 2\npattern 1 2 2 2 2 2 2 2 2\npattern 2 2 2 2 2 2 2 2 2\npattern 3 2 2 2 2 2 2 2 2\nidle\nsyndrome 1 P2 3 0\n",
            ..NONE
        }],
        end: "end cycles 1 served 0 discarded 0 idle 1 stored 0 overrun 0 syndromes 1\n",
    },
    Run {
        name: "a two-faced source",
        cycles: &[Case {
            faulty: Some(3),
            acts: &[(1, 3, 1, Asked::Posted)],
            waiting: &[(0b1000, 1, OF_ONE)],
            decided: Decided::Serves(4, OF_ONE, Way::Source(3), 0, 0b1000),
            results: [Some([0x17, 0, 0]); 4],
            handed: &[(0b1110, 2, Handed::Stored)],
            notes: &[
                (0b0111, SyndromeKind::D1, 3, 3),
                (0b0110, SyndromeKind::D2, 0, 3),
                (0b0101, SyndromeKind::D2, 1, 3),
                (0b0011, SyndromeKind::D2, 2, 3),
            ],
            text: "cycle 0\npattern 0 2 2 2 2 2 2 2 2\npattern 1 2 2 2 2 2 2 2 2\npattern 2 2 2 2 2 2 2 2 2\npattern 3 2 3:3:2:0 2 2 2 2 2 2\nserve 4 to 3 class 2 kind source waited 0 admitted 3\nresult 0 17\nresult 1 17\nresult 2 17\ndeliver 1.2 stored\ndeliver 2.2 stored\nsyndrome 0 D1 3 3\nsyndrome 0 D2 1 3\nsyndrome 0 D2 2 3\nsyndrome 1 D1 3 3\nsyndrome 1 D2 0 3\nsyndrome 1 D2 2 3\nsyndrome 2 D1 3 3\nsyndrome 2 D2 0 3\nsyndrome 2 D2 1 3\n",
            ..NONE
        }],
        end: "end cycles 1 served 1 discarded 0 idle 0 stored 2 overrun 0 syndromes 9\n",
    },
    Run {
        name: "split votes",
        cycles: &[Case {
            faulty: Some(3),
            acts: &[
                (1, 1, 2, Asked::Posted),
                (1, 2, 2, Asked::Posted),
                (1, 3, 2, Asked::Posted),
            ],
            waiting: &[(0b1110, 2, TO_TWO)],
            decided: Decided::Serves(3, TO_TWO, Way::Voted, 0, 0b1110),
            results: [
                Some([0xff, 0, 0]),
                Some([0xff, 0, 0]),
                Some([0, 0, 0]),
                Some([0xff, 0, 0]),
            ],
            handed: &[(0b0111, 1, Handed::Stored)],
            notes: &[
                (0b0100, SyndromeKind::V, 1, 1),
                (0b0011, SyndromeKind::V, 2, 2),
            ],
            text: "cycle 0\npattern 0 2 2 2 2 2 2 2 2\npattern 1 2 2 3:2:1:0 2 2 2 2 2\npattern 2 2 2 3:2:1:0 2 2 2 2 2\npattern 3 2 2 3:2:1:0 2 2 2 2 2\nserve 3 to 2 class 1 kind voted waited 0 admitted 1 2 3\nresult 0 ff\nresult 1 ff\nresult 2 -\ndeliver 0.1 stored\ndeliver 1.1 stored\ndeliver 2.1 stored\nsyndrome 0 V 2 2\nsyndrome 1 V 2 2\nsyndrome 2 V 1 1\n",
            ..NONE
        }],
        end: "end cycles 1 served 1 discarded 0 idle 0 stored 3 overrun 0 syndromes 3\n",
    },
    Run {
        name: "a two-faced update",
        cycles: &[Case {
            faulty: Some(3),
            acts: &[
                (1, 0, 0, Asked::Posted),
                (1, 1, 0, Asked::Posted),
                (1, 2, 0, Asked::Posted),
                (1, 3, 0, Asked::Posted),
            ],
            waiting: &[(0b1111, 0, UPDATE)],
            decided: Decided::Serves(1, UPDATE, Way::Every, 0, 0b1111),
            results: [Some([0x01, 0x02, 0]); 4],
            update: Some(Outcome3::Done),
            notes: &[
                (0b0001, SyndromeKind::D1, 3, 3),
                (0b0110, SyndromeKind::D2, 0, 3),
                (0b0111, SyndromeKind::V, 2, 2),
            ],
            text: "cycle 0\npattern 0 3:0:3:0 2 2 2 2 2 2 2\npattern 1 3:0:3:0 2 2 2 2 2 2 2\npattern 2 3:0:3:0 2 2 2 2 2 2 2\npattern 3 3:0:3:0 2 2 2 2 2 2 2\nserve 1 to 0 class 3 kind every waited 0 admitted 0 1 2 3\nresult 0 0102\nresult 1 0102\nresult 2 0102\nupdate done\nsyndrome 0 D1 3 3\nsyndrome 0 V 2 2\nsyndrome 1 D2 0 3\nsyndrome 1 V 2 2\nsyndrome 2 D2 0 3\nsyndrome 2 V 2 2\n",
            ..NONE
        }],
        end: "end cycles 1 served 1 discarded 0 idle 0 stored 0 overrun 0 syndromes 6\n",
    },
    Run {
        name: "a flickering member",
        cycles: &[
            Case {
                times: 2,
                faulty: Some(2),
                acts: &[
                    (1, 0, 1, Asked::Posted),
                    (1, 1, 1, Asked::Posted),
                    (1, 2, 1, Asked::Posted),
                ],
                waiting: &[(0b0011, 1, TO_THREE)],
                full: &[(0b0100, 1)],
                text: "cycle 0\npattern 0 2 3:3:1:0 2 2 2 2 2 2\npattern 1 2 3:3:1:0 2 2 2 2 2 2\npattern 2 2 0 2 2 2 2 2 2\npattern 3 2 2 2 2 2 2 2 2\nidle\n",
                ..NONE
            },
            Case {
                cycle: 2,
                faulty: Some(2),
                waiting: &[(0b0111, 1, TO_THREE)],
                decided: Decided::Serves(2, TO_THREE, Way::Voted, 2, 0b0111),
                results: [Some([0x41, 0, 0]); 4],
                handed: &[(0b1110, 2, Handed::Stored)],
                text: "cycle 2\npattern 0 2 3:3:1:0 2 2 2 2 2 2\npattern 1 2 3:3:1:0 2 2 2 2 2 2\npattern 2 2 3:3:1:0 2 2 2 2 2 2\npattern 3 2 2 2 2 2 2 2 2\nserve 2 to 3 class 1 kind voted waited 2 admitted 0 1 2\nresult 0 41\nresult 1 41\nresult 3 41\ndeliver 1.2 stored\ndeliver 3.2 stored\n",
                ..NONE
            },
            Case {
                cycle: 3,
                faulty: Some(2),
                text: "cycle 3\npattern 0 2 2 2 2 2 2 2 2\npattern 1 2 2 2 2 2 2 2 2\npattern 2 2 2 2 2 2 2 2 2\npattern 3 2 2 2 2 2 2 2 2\nidle\n",
                ..NONE
            },
        ],
        end: "end cycles 4 served 1 discarded 0 idle 3 stored 2 overrun 0 syndromes 0\n",
    },
    Run {
        name: "a member that never settles",
        cycles: &[
            Case {
                times: 3,
                faulty: Some(2),
                acts: &[
                    (1, 0, 1, Asked::Posted),
                    (1, 1, 1, Asked::Posted),
                    (1, 2, 1, Asked::Posted),
                ],
                waiting: &[(0b0011, 1, TO_THREE)],
                full: &[(0b0100, 1)],
                text: "cycle 0\npattern 0 2 3:3:1:0 2 2 2 2 2 2\npattern 1 2 3:3:1:0 2 2 2 2 2 2\npattern 2 2 0 2 2 2 2 2 2\npattern 3 2 2 2 2 2 2 2 2\nidle\n",
                ..NONE
            },
            Case {
                cycle: 3,
                faulty: Some(2),
                waiting: &[(0b0011, 1, TO_THREE)],
                full: &[(0b0100, 1)],
                decided: Decided::Serves(2, TO_THREE, Way::Voted, 3, 0b0011),
                results: [Some([0x41, 0, 0]); 4],
                handed: &[(0b1110, 2, Handed::Stored)],
                notes: &[(0b1011, SyndromeKind::R, 2, 2)],
                text: "cycle 3\npattern 0 2 3:3:1:0 2 2 2 2 2 2\npattern 1 2 3:3:1:0 2 2 2 2 2 2\npattern 2 2 0 2 2 2 2 2 2\npattern 3 2 2 2 2 2 2 2 2\nserve 2 to 3 class 1 kind voted waited 3 admitted 0 1\nresult 0 41\nresult 1 41\nresult 3 41\ndeliver 1.2 stored\ndeliver 3.2 stored\nsyndrome 0 R 2 2\nsyndrome 1 R 2 2\nsyndrome 3 R 2 2\n",
                ..NONE
            },
        ],
        end: "end cycles 4 served 1 discarded 0 idle 3 stored 2 overrun 0 syndromes 3\n",
    },
    Run {
        name: "a rejoined element",
        cycles: &[
            Case {
                faulty: Some(3),
                acts: &[
                    (1, 0, 0, Asked::Posted),
                    (1, 1, 0, Asked::Posted),
                    (1, 2, 0, Asked::Posted),
                    (1, 3, 0, Asked::Posted),
                ],
                waiting: &[(0b1111, 0, UPDATE)],
                decided: Decided::Serves(1, UPDATE, Way::Every, 0, 0b1111),
                results: [Some([0x01, 0x02, 0]); 4],
                update: Some(Outcome3::Done),
                text: "cycle 0\npattern 0 3:0:3:0 2 2 2 2 2 2 2\npattern 1 3:0:3:0 2 2 2 2 2 2 2\npattern 2 3:0:3:0 2 2 2 2 2 2 2\npattern 3 3:0:3:0 2 2 2 2 2 2 2\nserve 1 to 0 class 3 kind every waited 0 admitted 0 1 2 3\nresult 0 0102\nresult 1 0102\nresult 2 0102\nupdate done\n",
                ..NONE
            },
            Case {
                cycle: 1,
                faulty: Some(2),
                rejoin: Some((3, Rejoined::Taken)),
                acts: &[(1, 1, 1, Asked::Posted), (1, 2, 1, Asked::Posted)],
                waiting: &[(0b0110, 1, TO_THREE)],
                decided: Decided::Serves(2, TO_THREE, Way::Every, 0, 0b0110),
                results: [Some([0x55, 0, 0]); 4],
                handed: &[(0b1110, 2, Handed::Stored)],
                text: "cycle 1\nrejoin 3 taken\npattern 0 2 2 2 2 2 2 2 2\npattern 1 2 3:3:1:0 2 2 2 2 2 2\npattern 2 2 3:3:1:0 2 2 2 2 2 2\npattern 3 2 2 2 2 2 2 2 2\nserve 2 to 3 class 1 kind every waited 0 admitted 1 2\nresult 0 55\nresult 1 55\nresult 3 55\ndeliver 1.2 stored\ndeliver 3.2 stored\n",
                ..NONE
            },
            Case {
                cycle: 2,
                faulty: Some(2),
                text: "cycle 2\npattern 0 2 2 2 2 2 2 2 2\npattern 1 2 2 2 2 2 2 2 2\npattern 2 2 2 2 2 2 2 2 2\npattern 3 2 2 2 2 2 2 2 2\nidle\n",
                ..NONE
            },
        ],
        end: "end cycles 3 served 2 discarded 0 idle 1 stored 2 overrun 0 syndromes 0\n",
    },
];
