//! Who can be the faulty element of a run, and which members to mask.

use crate::bench::{call, source};
use ftpp_top::Status;
use std::test::Fail;

#[test]
fn writes_diagnoses(rt: HostRuntime) -> Result<(), Fail> {
    let rows = [
        (
            "false echo",
            "cycles 1\nfaulty 3\nat 0 flip A2 1 7 01\n",
            "suspects 0 1 2 3\nsuspects 1 0 3\nsuspects 2 0 1 3\n",
        ),
        (
            "two-faced pattern",
            "cycles 1\nfaulty 3\nat 0 flip A1 0 7 01\nat 0 flip A1 1 7 02\n",
            "suspects 0 3\nsuspects 1 3\nsuspects 2 3\nmask 1 3\nmask 3 2\n",
        ),
        (
            "no fault",
            "cycles 1\n",
            "suspects 0 1 2 3\nsuspects 1 0 2 3\nsuspects 2 0 1 3\nsuspects 3 0 1 2\n",
        ),
        (
            "rejoined element",
            "cycles 3\nfaulty 3\nat 0 flip A1 0 7 01\nat 0 flip A1 1 7 02\nat 1 rejoin 2\nat 2 flip A2 1 7 01\n",
            "suspects 0 1 2 3\nsuspects 1 0 2\nsuspects 3 0 1 2\n",
        ),
        (
            "member masked before",
            "cycles 2\nfaulty 3\nat 0 post 0.0 0 3 0 010302\nat 0 post 1.0 0 3 0 010302\nat 0 post 2.0 0 3 0 010302\nat 0 post 3.0 0 3 0 010302\nat 1 flip A1 0 7 01\nat 1 flip A1 1 7 02\n",
            "suspects 0 3\nsuspects 1 3\nsuspects 2 3\nmask 1 3\n",
        ),
    ];
    for (name, script, lines) in rows {
        let answer = call(&rt, "diagnose", &source(script.as_bytes()))?;
        assert_eq!(rt; answer.text.as_str(), lines, "{name}");
        assert_eq!(rt; answer.status, Status::Done, "{name}");
    }
    Ok(())
}
