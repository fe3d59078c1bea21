//! Rows of runs: a script, and parts of its report in their order.

/// A row: its name, its script, and parts of the report, each behind the one before it.
pub(crate) struct RunRow {
    pub(crate) name: &'static str,
    pub(crate) script: &'static str,
    pub(crate) parts: &'static [&'static str],
}

pub(crate) static RUNS: [RunRow; 23] = [
    RunRow {
        name: "silent element",
        script: "cycles 4\nfaulty 2\nat 0 post 0.1 3 1 0 41\nat 0 post 1.1 3 1 0 41\nat 0 drop any all\nat 1 drop any all\nat 2 drop any all\nat 3 drop any all\n",
        parts: &[
            "pattern 2 0 0 0 0 0 0 0 0\n",
            "idle\nsyndrome 0 P2 2 0\nsyndrome 0 P2 2 1\nsyndrome 0 P2 2 3\nsyndrome 1 P2 2 0\nsyndrome 1 P2 2 1\nsyndrome 1 P2 2 3\nsyndrome 3 P2 2 0\nsyndrome 3 P2 2 1\nsyndrome 3 P2 2 3\ncycle 1\n",
            "serve 2 to 3 class 1 kind voted waited 3 admitted 0 1\nresult 0 41\nresult 1 41\nresult 3 41\ndeliver 1.2 stored\ndeliver 3.2 stored\nsyndrome 0 P2 2 0\nsyndrome 0 P2 2 1\nsyndrome 0 P2 2 3\nsyndrome 0 R 2 2\nsyndrome 0 O 2 2\n",
            "end cycles 4 served 1 discarded 0 idle 3 stored 2 overrun 0 syndromes 42\n",
        ],
    },
    RunRow {
        name: "two of three",
        script: "cycles 4\nat 0 post 0.1 3 1 0 41\nat 0 post 1.1 3 1 0 41\n",
        parts: &[
            "serve 2 to 3 class 1 kind voted waited 3 admitted 0 1\nresult 0 41\n",
            "deliver 1.2 stored\ndeliver 2.2 stored\ndeliver 3.2 stored\nsyndrome 0 R 2 2\nsyndrome 1 R 2 2\nsyndrome 2 R 2 2\nsyndrome 3 R 2 2\nend cycles 4 served 1 discarded 0 idle 3 stored 3 overrun 0 syndromes 4\n",
        ],
    },
    RunRow {
        name: "two-faced pattern",
        script: "cycles 1\nfaulty 3\nat 0 flip A1 0 7 01\nat 0 flip A1 1 7 02\n",
        parts: &[
            "pattern 3 2 2 2 2 2 2 2 2\nidle\nsyndrome 0 P1 3 3\nsyndrome 0 P2 1 3\nsyndrome 1 P1 3 3\nsyndrome 1 P2 0 3\nsyndrome 2 P2 0 3\nsyndrome 2 P2 1 3\nend ",
        ],
    },
    RunRow {
        name: "false echo",
        script: "cycles 1\nfaulty 3\nat 0 flip A2 1 7 01\n",
        parts: &["idle\nsyndrome 1 P2 3 0\nend "],
    },
    RunRow {
        name: "two-faced source",
        script: "cycles 1\nfaulty 3\nat 0 post 3.1 3 2 0 0f\nat 0 flip B1 1 7 3c\nat 0 flip B1 2 7 5a\n",
        parts: &[
            "serve 4 to 3 class 2 kind source waited 0 admitted 3\nresult 0 17\nresult 1 17\nresult 2 17\ndeliver 1.2 stored\ndeliver 2.2 stored\nsyndrome 0 D1 3 3\n",
            " stored 2 overrun 0 syndromes 9\n",
        ],
    },
    RunRow {
        name: "split votes",
        script: "cycles 1\nfaulty 3\nat 0 post 1.2 2 1 0 ff\nat 0 post 2.2 2 1 0 -\nat 0 post 3.2 2 1 0 ff\nat 0 flip B1 2 7 ff\n",
        parts: &[
            "serve 3 to 2 class 1 kind voted waited 0 admitted 1 2 3\nresult 0 ff\nresult 1 ff\nresult 2 -\ndeliver 0.1 stored\ndeliver 1.1 stored\ndeliver 2.1 stored\nsyndrome 0 V 2 2\nsyndrome 1 V 2 2\nsyndrome 2 V 1 1\n",
        ],
    },
    RunRow {
        name: "two-faced update",
        script: "cycles 1\nfaulty 3\nat 0 post 0.0 0 3 0 0102\nat 0 post 1.0 0 3 0 0102\nat 0 post 2.0 0 3 0 010201\nat 0 post 3.0 0 3 0 010201\nat 0 flip B1 1 9 01\nat 0 flip B1 2 9 01\n",
        parts: &[
            "serve 1 to 0 class 3 kind every waited 0 admitted 0 1 2 3\nresult 0 0102\nresult 1 0102\nresult 2 0102\nupdate done\nsyndrome 0 D1 3 3\nsyndrome 0 V 2 2\nsyndrome 1 D2 0 3\nsyndrome 1 V 2 2\nsyndrome 2 D2 0 3\nsyndrome 2 V 2 2\n",
        ],
    },
    RunRow {
        name: "full receiver",
        script: "cycles 3\nfaulty 3\nat 0 post 0.1 3 1 0 41\nat 0 post 1.1 3 1 0 41\nat 0 post 2.1 3 1 0 41\nat 0 flip A1 all 15 02\nat 1 flip A1 all 15 02\n",
        parts: &[
            "idle\ncycle 1\n",
            "idle\ncycle 2\n",
            "serve 2 to 3 class 1 kind voted waited 2 admitted 0 1 2\n",
            " stored 2 overrun 0 syndromes 0\n",
        ],
    },
    RunRow {
        name: "full receiver at last",
        script: "cycles 3\nfaulty 3\nat 0 post 0.1 3 1 0 41\nat 0 post 1.1 3 1 0 41\nat 0 post 2.1 3 1 0 41\nat 0 flip A1 all 15 02\nat 1 flip A1 all 15 02\nat 2 flip A1 all 15 02\n",
        parts: &[
            "serve 2 to 3 class 1 kind voted waited 2 admitted 0 1 2\n",
            "syndrome 0 O 3 3\nsyndrome 1 O 3 3\nsyndrome 2 O 3 3\n",
        ],
    },
    RunRow {
        name: "full output",
        script: "cycles 1\nat 0 post 0.0 3 1 0 41\nat 0 post 0.0 3 1 0 41\nat 0 post 0.0 3 1 0 41\nat 0 post 0.0 3 1 0 41\nat 0 post 0.0 3 1 0 41\nat 0 post 0.0 3 1 0 41\nat 0 post 0.0 3 1 0 41\nat 0 post 0.0 3 1 0 41\nat 0 post 0.0 3 1 0 41\nat 0 post 0.0 3 1 0 41\nat 0 post 0.0 3 1 0 41\nat 0 post 0.0 3 1 0 41\nat 0 post 0.0 3 1 0 41\nat 0 post 0.0 3 1 0 41\nat 0 post 0.0 3 1 0 41\nat 0 post 0.0 3 1 0 41\nat 0 post 0.0 3 1 0 41\n",
        parts: &["cycle 0\npost-full 0.0\npattern 0 3:3:1:0 2", "idle\n"],
    },
    RunRow {
        name: "mask and admit",
        script: "cycles 4\nat 0 post 0.0 0 3 0 010202\nat 0 post 1.0 0 3 0 010202\nat 0 post 2.0 0 3 0 010202\nat 0 post 3.0 0 3 0 010202\nat 1 post 0.1 3 1 0 55\nat 1 post 1.1 3 1 0 55\nat 1 post 2.1 3 1 0 77\nat 2 post 0.0 0 3 0 020202\nat 2 post 1.0 0 3 0 020202\nat 2 post 2.0 0 3 0 020202\nat 2 post 3.0 0 3 0 020202\n",
        parts: &[
            "update done\n",
            "serve 2 to 3 class 1 kind every waited 0 admitted 0 1\nresult 0 55\n",
            "pattern 2 3:0:3:0 3:3:1:0 2",
            "update done\ncycle 3\n",
            "pattern 2 2 2 2 2 2 2 2 2\n",
            "idle\nend cycles 4 served 3 discarded 0 idle 1 stored 3 overrun 0 syndromes 0\n",
        ],
    },
    RunRow {
        name: "refused update",
        script: "cycles 3\nat 0 post 0.0 0 3 0 0101\nat 0 post 1.0 0 3 0 0101\nat 0 post 2.0 0 3 0 0101\nat 0 post 3.0 0 3 0 0101\nat 1 post 1.0 0 3 0 010101\nat 1 post 2.0 0 3 0 010101\nat 1 post 3.0 0 3 0 010101\nat 2 post 0.1 0 3 0 -\nat 2 post 1.1 0 3 0 -\nat 2 post 2.1 0 3 0 -\n",
        parts: &[
            "update done\n",
            "admitted 1 2 3\n",
            "update refused 12\n",
            "discard 2 to 0 class 3 reason 4 waited 0 admitted 0 1 2\n",
            "end cycles 3 served 2 discarded 1 ",
        ],
    },
    RunRow {
        name: "unread update",
        script: "cycles 1\nat 0 post 0.0 0 3 0 09\nat 0 post 1.0 0 3 0 09\nat 0 post 2.0 0 3 0 09\nat 0 post 3.0 0 3 0 09\n",
        parts: &[
            "serve 1 to 0 class 3 kind every waited 0 admitted 0 1 2 3\nresult 0 09\nresult 1 09\nresult 2 09\nresult 3 09\nupdate unread\n",
        ],
    },
    RunRow {
        name: "absent update",
        script: "cycles 1\nat 0 post 0.0 0 3 0 0109\nat 0 post 1.0 0 3 0 0109\nat 0 post 2.0 0 3 0 0109\nat 0 post 3.0 0 3 0 0109\n",
        parts: &["update absent\n"],
    },
    RunRow {
        name: "read of nothing",
        script: "cycles 1\nat 0 read 1.2\n",
        parts: &["cycle 0\nread 1.2 none\npattern 0"],
    },
    RunRow {
        name: "rejoined element",
        script: "cycles 3\nfaulty 3\nat 0 post 0.0 0 3 0 0102\nat 0 post 1.0 0 3 0 0102\nat 0 post 2.0 0 3 0 0102\nat 0 post 3.0 0 3 0 0102\nat 1 rejoin 2\nat 1 post 1.1 3 1 0 55\nat 1 post 2.1 3 1 0 55\n",
        parts: &[
            "update done\n",
            "cycle 1\nrejoin 3 taken\n",
            "serve 2 to 3 class 1 kind every waited 0 admitted 1 2\nresult 0 55\nresult 1 55\nresult 3 55\ndeliver 1.2 stored\ndeliver 3.2 stored\n",
            "idle\nend cycles 3 served 2 discarded 0 idle 1 stored 2 overrun 0 syndromes 0\n",
        ],
    },
    RunRow {
        name: "overrun at last",
        script: "cycles 35\nat 0 post 0.3 3 2 0 05\nat 1 post 0.3 3 2 0 05\nat 1 read 2.2\nat 1 read 3.2\nat 2 post 0.3 3 2 0 05\nat 2 read 2.2\nat 2 read 3.2\nat 3 post 0.3 3 2 0 05\nat 3 read 2.2\nat 3 read 3.2\nat 4 post 0.3 3 2 0 05\nat 4 read 2.2\nat 4 read 3.2\nat 5 post 0.3 3 2 0 05\nat 5 read 2.2\nat 5 read 3.2\nat 6 post 0.3 3 2 0 05\nat 6 read 2.2\nat 6 read 3.2\nat 7 post 0.3 3 2 0 05\nat 7 read 2.2\nat 7 read 3.2\nat 8 post 0.3 3 2 0 05\nat 8 read 2.2\nat 8 read 3.2\nat 9 post 0.3 3 2 0 05\nat 9 read 2.2\nat 9 read 3.2\nat 10 post 0.3 3 2 0 05\nat 10 read 2.2\nat 10 read 3.2\nat 11 post 0.3 3 2 0 05\nat 11 read 2.2\nat 11 read 3.2\nat 12 post 0.3 3 2 0 05\nat 12 read 2.2\nat 12 read 3.2\nat 13 post 0.3 3 2 0 05\nat 13 read 2.2\nat 13 read 3.2\nat 14 post 0.3 3 2 0 05\nat 14 read 2.2\nat 14 read 3.2\nat 15 post 0.3 3 2 0 05\nat 15 read 2.2\nat 15 read 3.2\nat 16 post 0.3 3 2 0 05\nat 16 read 2.2\nat 16 read 3.2\nat 17 post 0.3 3 2 0 05\nat 17 read 2.2\nat 17 read 3.2\nat 18 post 0.3 3 2 0 05\nat 18 read 2.2\nat 18 read 3.2\nat 19 post 0.3 3 2 0 05\nat 19 read 2.2\nat 19 read 3.2\nat 20 post 0.3 3 2 0 05\nat 20 read 2.2\nat 20 read 3.2\nat 21 post 0.3 3 2 0 05\nat 21 read 2.2\nat 21 read 3.2\nat 22 post 0.3 3 2 0 05\nat 22 read 2.2\nat 22 read 3.2\nat 23 post 0.3 3 2 0 05\nat 23 read 2.2\nat 23 read 3.2\nat 24 post 0.3 3 2 0 05\nat 24 read 2.2\nat 24 read 3.2\nat 25 post 0.3 3 2 0 05\nat 25 read 2.2\nat 25 read 3.2\nat 26 post 0.3 3 2 0 05\nat 26 read 2.2\nat 26 read 3.2\nat 27 post 0.3 3 2 0 05\nat 27 read 2.2\nat 27 read 3.2\nat 28 post 0.3 3 2 0 05\nat 28 read 2.2\nat 28 read 3.2\nat 29 post 0.3 3 2 0 05\nat 29 read 2.2\nat 29 read 3.2\nat 30 post 0.3 3 2 0 05\nat 30 read 2.2\nat 30 read 3.2\nat 31 post 0.3 3 2 0 05\nat 31 read 2.2\nat 31 read 3.2\nat 32 post 0.3 3 2 0 05\nat 32 read 2.2\nat 32 read 3.2\n",
        parts: &[
            "read 2.2 0 5 2 3 05\n",
            "waited 2 admitted 0\n",
            "deliver 1.2 overrun\n",
            "syndrome 0 O 1 1\nsyndrome 1 O 1 1\nsyndrome 2 O 1 1\nsyndrome 3 O 1 1\n",
            "end cycles 35 served 33 discarded 0 idle 2 stored 98 overrun 1 syndromes 4\n",
        ],
    },
    RunRow {
        name: "oldest first",
        script: "cycles 5\nat 0 post 3.1 3 2 0 -\nat 0 post 3.1 3 2 0 -\nat 0 post 3.1 3 2 0 -\nat 0 post 0.3 3 2 0 -\nat 0 post 0.3 3 2 0 -\nat 1 post 0.1 3 1 0 c1\nat 1 post 1.1 3 1 0 c1\n",
        parts: &[
            "serve 4 to 3 class 2 kind source waited 0",
            "serve 5 to 3 class 2 kind source waited 1",
            "serve 4 to 3 class 2 kind source waited 1",
            "serve 5 to 3 class 2 kind source waited 1",
            "serve 2 to 3 class 1 kind voted waited 3",
            "end cycles 5 served 5 discarded 0 idle 0 stored 15 overrun 0 syndromes 4\n",
        ],
    },
    RunRow {
        name: "flickering member",
        script: "cycles 4\nfaulty 2\nat 0 post 0.1 3 1 0 41\nat 0 post 1.1 3 1 0 41\nat 0 post 2.1 3 1 0 41\nat 0 flip A1 all 11 01\nat 1 flip A1 all 11 01\n",
        parts: &[
            "idle\ncycle 1\n",
            "idle\ncycle 2\n",
            "serve 2 to 3 class 1 kind voted waited 2 admitted 0 1 2\n",
        ],
    },
    RunRow {
        name: "never settled member",
        script: "cycles 4\nfaulty 2\nat 0 post 0.1 3 1 0 41\nat 0 post 1.1 3 1 0 41\nat 0 post 2.1 3 1 0 41\nat 0 flip A1 all 11 01\nat 1 flip A1 all 11 01\nat 2 flip A1 all 11 01\nat 3 flip A1 all 11 01\n",
        parts: &[
            "waited 3 admitted 0 1\n",
            "end cycles 4 served 1 discarded 0 idle 3 stored 2 overrun 0 syndromes 3\n",
        ],
    },
    RunRow {
        name: "late member",
        script: "cycles 5\nat 0 post 0.1 3 1 0 41\nat 0 post 1.1 3 1 0 41\nat 2 post 2.1 3 1 0 41\n",
        parts: &[
            "cycle 2\n",
            "serve 2 to 3 class 1 kind voted waited 2 admitted 0 1 2\n",
        ],
    },
    RunRow {
        name: "later member",
        script: "cycles 5\nat 0 post 0.1 3 1 0 41\nat 0 post 1.1 3 1 0 41\nat 3 post 2.1 3 1 0 41\n",
        parts: &["cycle 3\n", "admitted 0 1 2\n"],
    },
    RunRow {
        name: "latest member",
        script: "cycles 5\nat 0 post 0.1 3 1 0 41\nat 0 post 1.1 3 1 0 41\nat 4 post 2.1 3 1 0 41\n",
        parts: &[
            "cycle 3\n",
            "admitted 0 1\n",
            "syndrome 0 R 2 2\nsyndrome 1 R 2 2\nsyndrome 2 R 2 2\nsyndrome 3 R 2 2\n",
            "cycle 4\n",
            "idle\n",
        ],
    },
];
