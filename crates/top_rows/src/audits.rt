//! Audits of the trace of a false echo.

use crate::bench::{call, source};
use ftpp_top::Status;
use std::test::Fail;

/// Element 3 tells element 1 another pattern of element 0 than it got.
const FALSE_ECHO: &str = "cycles 1\nfaulty 3\nat 0 flip A2 1 7 01\n";

/// What `audit` answers and writes of a text.
#[derive(Clone, Copy)]
struct AuditRow<'a> {
    words: &'a str,
    text: &'a str,
    status: Status,
    line: &'a str,
}

#[test]
fn audits_traces(rt: HostRuntime) -> Result<(), Fail> {
    let trace = call(&rt, "trace", &source(FALSE_ECHO.as_bytes()))?;
    let whole = trace.text.as_str();
    let all = whole.strip_suffix("\n").ok_or("no line")?;
    let front = all.rsplit_once("\n").ok_or("one line")?.0;
    let cut = format!(in rt.alloc(); "{front}\n")?;
    let (first, behind) = whole.split_once("\n").ok_or("no line")?;
    let third = behind.split_once("\n").ok_or("one line")?.1;
    let gapped = format!(in rt.alloc(); "{first}\n{third}")?;
    for row in [
        AuditRow {
            words: "audit 3",
            text: whole,
            status: Status::Done,
            line: "follows cycles 1\n",
        },
        AuditRow {
            words: "audit 3",
            text: all,
            status: Status::Done,
            line: "follows cycles 1\n",
        },
        AuditRow {
            words: "audit none",
            text: whole,
            status: Status::Done,
            line: "breaks 0 A2 3 1\n",
        },
        AuditRow {
            words: "audit 0",
            text: whole,
            status: Status::Done,
            line: "breaks 0 A2 3 1\n",
        },
        AuditRow {
            words: "audit 3",
            text: cut.as_str(),
            status: Status::Script { line: 48, code: 13 },
            line: "script 48 13\n",
        },
        AuditRow {
            words: "audit none",
            text: gapped.as_str(),
            status: Status::Script { line: 2, code: 12 },
            line: "script 2 12\n",
        },
        AuditRow {
            words: "audit none",
            text: "",
            status: Status::Script { line: 1, code: 13 },
            line: "script 1 13\n",
        },
        AuditRow {
            words: "audit 4",
            text: "",
            status: Status::Config { code: 18 },
            line: "config 18\n",
        },
    ] {
        let answer = call(&rt, row.words, &source(row.text.as_bytes()))?;
        assert_eq!(rt; answer.text.as_str(), row.line, "{}", row.words);
        assert_eq!(rt; answer.status, row.status, "{}", row.words);
    }
    Ok(())
}
