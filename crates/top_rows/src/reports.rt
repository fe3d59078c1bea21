//! Runs, and what they write.

use crate::bench::{call, call_over, has_parts, source};
use crate::runs::RUNS;
use crate::texts::{EMPTY_REPORT, IDLE_REPORT, VOTED, VOTED_REPORT};
use ftpp_top::Status;
use link_fabric::{Liar, Recorder};
use std::test::Fail;

#[test]
fn writes_reports(rt: HostRuntime) -> Result<(), Fail> {
    for (script, report) in [
        (VOTED, VOTED_REPORT),
        ("cycles 1", IDLE_REPORT),
        ("# demo\r\ncycles 1\r\n", IDLE_REPORT),
    ] {
        let answer = call(&rt, "run", &source(script.as_bytes()))?;
        assert_eq!(rt; answer.text.as_str(), report, "{script}");
        assert_eq!(rt; answer.status, Status::Done, "{script}");
    }
    for row in &RUNS {
        let answer = call(&rt, "run", &source(row.script.as_bytes()))?;
        assert_eq!(rt; answer.status, Status::Done, "{}", row.name);
        assert!(rt;
            has_parts(answer.text.as_str(), row.parts),
            "{}: {}",
            row.name,
            answer.text
        );
    }
    Ok(())
}

#[test]
fn carries_frames(rt: HostRuntime) -> Result<(), Fail> {
    let mut recorder = Recorder::new(rt.alloc(), 48)?;
    let answer = call_over(&rt, "run", &source(VOTED.as_bytes()), &mut recorder)?;
    assert_eq!(rt; answer.text.as_str(), VOTED_REPORT);
    let frames = recorder.list().ok_or("more than 48 frames")?;
    assert_eq!(rt; frames.len(), 48);
    let first = frames.first().ok_or("no frame")?;
    assert_eq!(rt;
        (first.at.cycle, first.from.index(), first.to.index()),
        (0, 0, 1)
    );
    let mut calls = Vec::new(rt.alloc());
    for place in 1..49u64 {
        calls.push(place)?;
    }
    let empty = call_over(&rt, "run", &source(b"cycles 1"), &mut Liar::new(calls))?;
    assert_eq!(rt; empty.text.as_str(), EMPTY_REPORT);
    assert_eq!(rt; empty.status, Status::Done);
    let trace = call(&rt, "trace", &source(b"cycles 1"))?;
    assert_eq!(rt; trace.text.lines().count(), 48);
    assert!(rt;
        trace
            .text
            .starts_with("frame 0 A1 0 1 a10000000000010200000002000000")
    );
    Ok(())
}

#[test]
fn sums_up_workloads(rt: HostRuntime) -> Result<(), Fail> {
    let none = source(b"");
    let soak = call(&rt, "soak 7 50", &none)?;
    let next = call(&rt, "soak 8 50", &none)?;
    let sweep = call(&rt, "sweep 7 2 50", &none)?;
    assert_eq!(rt;
        sweep.text,
        format!(in rt.alloc(); "{}{}", soak.text, next.text)?
    );
    assert!(rt; soak.text.starts_with("soak 7 cycles 50 served "));
    let made = call(&rt, "make 7 50", &none)?;
    let mut around = source(made.text.as_bytes());
    around.file = FIVE.as_bytes();
    let run = call(&rt, "run --config=a", &around)?;
    let end = soak.text.strip_prefix("soak 7").ok_or("no line of a soak")?;
    assert!(rt; run.text.ends_with(end), "{}", run.text);
    Ok(())
}

/// The built-in table of five elements as a file.
const FIVE: &str =
    "version = 2\nelements = 5\nmanager = 1\ngroup = [{ vid = 1, members = [\"0.0\", \"1.0\", \"2.0\", \"3.0\"], ts = 3, tr = 2 }, { vid = 2, members = [\"1.1\", \"2.1\", \"3.1\"], ts = 3, tr = 2 }, { vid = 3, members = [\"2.2\", \"3.2\", \"4.2\"], ts = 3, tr = 2 }, { vid = 4, members = [\"0.3\", \"1.3\", \"3.3\", \"4.3\"], ts = 3, tr = 2 }, { vid = 5, members = [\"4.4\"], ts = 3, tr = 2 }, { vid = 6, members = [\"0.5\"], ts = 3, tr = 2 }]\n";
