//! One element over byte streams.

use crate::bench::{Around, call_raw, source};
use ftpp_top::Status;
use std::test::Fail;

/// What element 0 of the built-in table writes in a cycle in which nothing comes to it: bytes, and how often they stand there.
const SILENT: [(&[u8], usize); 9] = [
    (&[0x00, 0x27, 0xa1, 0, 0, 0, 0, 0, 1], 1),
    (&[2, 0, 0, 0], 8),
    (&[0x00, 0x8a, 0xa2, 0, 0, 0, 0, 0, 1], 1),
    (&[2, 0, 0, 0], 8),
    (&[0], 99),
    (&[0x00, 0x47, 0xb1, 0, 0, 0, 0, 0], 1),
    (&[0], 65),
    (&[0x01, 0x0a, 0xb2, 0, 0, 0, 0, 0], 1),
    (&[0], 260),
];

/// No acts, and twelve frames of no bytes.
const NOTHING: [u8; 25] = [0; 25];

/// What `node` answers and writes for an input.
#[derive(Clone, Copy)]
struct NodeRow<'a> {
    words: &'a str,
    around: Around<'a>,
    status: Status,
    bytes: &'a [u8],
}

#[test]
fn serves_nodes(rt: HostRuntime) -> Result<(), Fail> {
    let mut silent = Vec::new(rt.alloc());
    for (part, times) in SILENT {
        for _time in 0..times {
            silent.extend_from_slice(part)?;
        }
    }
    assert_eq!(rt; silent.len(), 522);
    for row in [
        NodeRow {
            words: "node 0 1",
            around: source(&NOTHING),
            status: Status::Done,
            bytes: silent.as_slice(),
        },
        NodeRow {
            words: "node 0 1",
            around: source(&NOTHING[..24]),
            status: Status::Stream { cycle: 0, code: 1 },
            bytes: silent.as_slice(),
        },
        NodeRow {
            words: "node 0 1",
            around: source(&[0x51]),
            status: Status::Stream { cycle: 0, code: 2 },
            bytes: b"",
        },
        NodeRow {
            words: "node 0 2",
            around: source(&NOTHING),
            status: Status::Stream { cycle: 1, code: 1 },
            bytes: silent.as_slice(),
        },
        NodeRow {
            words: "node 0 1",
            around: Around {
                read_piece: 1,
                bad_read: 1,
                ..source(&NOTHING)
            },
            status: Status::Read,
            bytes: b"",
        },
        NodeRow {
            words: "node 0 1",
            around: Around {
                bad_write: 1,
                ..source(&NOTHING)
            },
            status: Status::Write,
            bytes: b"",
        },
        NodeRow {
            words: "node 4 1",
            around: source(&NOTHING),
            status: Status::Config { code: 18 },
            bytes: b"config 18\n",
        },
    ] {
        let answer = call_raw(&rt, row.words, &row.around)?;
        assert_eq!(rt; answer.status, row.status, "{}", row.words);
        assert_eq!(rt; answer.bytes.as_slice(), row.bytes, "{}", row.words);
    }
    Ok(())
}
