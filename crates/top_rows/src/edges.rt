//! Refusals, and calls that fail.

use crate::bench::{Around, call, source};
use crate::texts::{VOTED, VOTED_REPORT};
use ftpp_top::Status;
use std::test::Fail;

#[test]
fn refuses_words_and_scripts(rt: HostRuntime) -> Result<(), Fail> {
    for words in [
        "",
        "run --config",
        "soak 7 0",
        "run now",
        "make 7 10001",
        "Run",
        "check",
    ] {
        let answer = call(&rt, words, &source(b"cycles 1"))?;
        assert_eq!(rt;
            (answer.status, answer.text.as_str()),
            (Status::Usage, "usage\n"),
            "{words}"
        );
    }
    for (script, line, code) in [
        ("cycles 5\nat 0 post 0.8 3 1 0 41", 2, 5),
        ("cycles 5\nat 2 read 0.0\nat 1 read 0.0", 3, 4),
        ("cycles 5\nat 0 po", 2, 1),
        ("cycles 5\nat 5 read 0.0", 2, 4),
        ("cycles 5\nat 0 drop any all", 2, 7),
        ("", 1, 10),
        ("cycles 100001", 1, 3),
        ("cycles 2\nat 1 rejoin 0", 2, 15),
    ] {
        for words in ["run", "trace", "diagnose"] {
            let answer = call(&rt, words, &source(script.as_bytes()))?;
            assert_eq!(rt; answer.status, Status::Script { line, code }, "{script}");
            assert_eq!(rt;
                answer.text,
                format!(in rt.alloc(); "script {line} {code}\n")?,
                "{script}"
            );
        }
    }
    Ok(())
}

#[test]
fn refuses_long_sources(rt: HostRuntime) -> Result<(), Fail> {
    let long = vec![in rt.alloc(); b'#'; 8_388_609]?;
    let answer = call(&rt, "run", &source(long.as_slice()))?;
    assert_eq!(rt;
        (answer.status, answer.text.as_str()),
        (Status::TooLong, "too long\n")
    );
    Ok(())
}

/// A call of words over what lies around it, and what it answers and writes.
#[derive(Clone, Copy)]
struct Edge<'a> {
    words: &'a str,
    around: Around<'a>,
    status: Status,
    text: &'a str,
}

#[test]
fn meets_faults(rt: HostRuntime) -> Result<(), Fail> {
    let three = call(&rt, "run", &source(b"cycles 3"))?;
    let two = three
        .text
        .split_once("cycle 2\n")
        .ok_or("no third cycle")?
        .0;
    for edge in [
        Edge {
            words: "run",
            around: Around {
                read_piece: 1,
                write_piece: 7,
                ..source(VOTED.as_bytes())
            },
            status: Status::Done,
            text: VOTED_REPORT,
        },
        Edge {
            words: "run",
            around: Around {
                bad_read: 1,
                ..source(VOTED.as_bytes())
            },
            status: Status::Read,
            text: "",
        },
        Edge {
            words: "run",
            around: Around {
                read_piece: 4,
                bad_read: 2,
                ..source(VOTED.as_bytes())
            },
            status: Status::Read,
            text: "",
        },
        Edge {
            words: "run",
            around: Around {
                bad_write: 3,
                ..source(b"cycles 3")
            },
            status: Status::Write,
            text: two,
        },
        Edge {
            words: "run",
            around: Around {
                room: 20,
                ..source(b"cycles 1")
            },
            status: Status::Write,
            text: "cycle 0\npattern 0 2 ",
        },
        Edge {
            words: "",
            around: Around {
                bad_write: 1,
                ..source(b"cycles 1")
            },
            status: Status::Write,
            text: "",
        },
        Edge {
            words: "check --config a",
            around: Around {
                bad_load: 1,
                ..source(b"")
            },
            status: Status::Read,
            text: "",
        },
        Edge {
            words: "check --config b",
            around: source(b""),
            status: Status::Read,
            text: "",
        },
    ] {
        let answer = call(&rt, edge.words, &edge.around)?;
        assert_eq!(rt; answer.text.as_str(), edge.text, "{}", edge.words);
        assert_eq!(rt; answer.status, edge.status, "{}", edge.words);
    }
    Ok(())
}
