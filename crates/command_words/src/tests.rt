use crate::{Command, read_words};
use std::test::Fail;

/// Command lines, their words parted by one space, that are lawful, with what they ask for.
static LAWFUL: [(&str, Command<'static>); 16] = [
    ("run", Command::Run { config: None }),
    (
        "run --config table",
        Command::Run {
            config: Some("table"),
        },
    ),
    (
        "trace --config=a=b",
        Command::Trace {
            config: Some("a=b"),
        },
    ),
    ("check --config x", Command::Check { config: "x" }),
    ("migrate --config=x", Command::Migrate { config: "x" }),
    (
        "soak 18446744073709551615 100000",
        Command::Soak {
            start: 18446744073709551615,
            cycles: 100000,
        },
    ),
    (
        "soak 00000000000000000007 1",
        Command::Soak {
            start: 7,
            cycles: 1,
        },
    ),
    (
        "sweep 18446744073709551552 64 15625",
        Command::Sweep {
            start: 18446744073709551552,
            count: 64,
            cycles: 15625,
        },
    ),
    (
        "sweep 18446744073709551615 1 100000",
        Command::Sweep {
            start: 18446744073709551615,
            count: 1,
            cycles: 100000,
        },
    ),
    (
        "make 0 10000",
        Command::Make {
            start: 0,
            cycles: 10000,
        },
    ),
    (
        "node 4 5",
        Command::Node {
            element: 4,
            cycles: 5,
            config: None,
        },
    ),
    (
        "node 0 5 --config x",
        Command::Node {
            element: 0,
            cycles: 5,
            config: Some("x"),
        },
    ),
    (
        "audit none",
        Command::Audit {
            named: None,
            config: None,
        },
    ),
    (
        "audit 3 --config=x",
        Command::Audit {
            named: Some(3),
            config: Some("x"),
        },
    ),
    ("diagnose", Command::Diagnose { config: None }),
    (
        "diagnose --config x",
        Command::Diagnose { config: Some("x") },
    ),
];

/// Command lines that are not lawful.
static UNLAWFUL: [&str; 36] = [
    "",
    "Run",
    "run now",
    "run --config",
    "run --config=",
    "run --config ",
    "run --config -x",
    "run --config=-x",
    "run --config x y",
    "run --config=x --config=y",
    "run --conf=x",
    "run table",
    "check",
    "migrate",
    "check table",
    "soak 7",
    "soak 7 0",
    "soak 7 100001",
    "soak 18446744073709551616 1",
    "soak 000000000000000000007 1",
    "soak +7 1",
    "soak  1",
    "soak 7 1 1",
    "sweep 7 0 1",
    "sweep 7 65 1",
    "sweep 7 64 15626",
    "sweep 18446744073709551553 64 1",
    "make 7 10001",
    "make 7 0",
    "node 5 1",
    "node 04 1",
    "node 4",
    "node 4 1 x",
    "audit",
    "audit 5",
    "audit None",
];

#[test]
fn words_are_read_by_the_table(rt: HostRuntime) -> Result<(), Fail> {
    for (line, command) in &LAWFUL {
        let words = words_of(&rt, line)?;
        assert_eq!(rt; read_words(words.as_slice()), Some(*command), "{line}");
    }
    for line in &UNLAWFUL {
        let words = words_of(&rt, line)?;
        assert_eq!(rt; read_words(words.as_slice()), None, "{line}");
    }
    assert_eq!(rt; read_words(&[]), None);
    Ok(())
}

/// The words of a line.
fn words_of(rt: &HostRuntime, line: &str) -> Result<Vec<String>, Fail> {
    let mut words = Vec::new(rt.alloc());
    for word in line.split(' ') {
        words.push(String::from_str(rt.alloc(), word)?)?;
    }
    Ok(words)
}
