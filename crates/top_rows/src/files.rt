//! Configuration files.

use crate::bench::{Around, call, has_parts, source};
use crate::texts::{FOUR, SMALL_BUFFERS};
use ftpp_top::Status;
use std::alloc::Global;
use std::marker::Sync;
use std::test::Fail;
use std::thread::Threads;

/// Nothing but a file.
fn with_file(file: &[u8]) -> Around<'_> {
    Around {
        file,
        ..source(b"")
    }
}

#[test]
fn checks_and_migrates(rt: HostRuntime) -> Result<(), Fail> {
    let checked = call(&rt, "check --config a", &with_file(FOUR.as_bytes()))?;
    let migrated = call(&rt, "migrate --config=a", &with_file(FOUR.as_bytes()))?;
    assert_eq!(rt;
        (checked.status, migrated.status),
        (Status::Done, Status::Done)
    );
    assert_eq!(rt;
        checked.text,
        format!(in rt.alloc(); "valid elements 4 groups 5 manager 1\n{}", migrated.text)?
    );
    let again = call(
        &rt,
        "migrate --config a",
        &with_file(migrated.text.as_bytes()),
    )?;
    assert_eq!(rt; again.text, migrated.text);
    Ok(())
}

/// Whether each command that loads a file refuses this one with a code.
fn is_refused<R: Threads + Sync + AllocGlobal>(rt: &R, file: &str, code: u8) -> Result<bool, Fail> {
    let line = format!(in rt.alloc(); "config {code}\n")?;
    for words in ["check --config a", "migrate --config a", "run --config a"] {
        let answer = call(rt, words, &with_file(file.as_bytes()))?;
        if answer.status != (Status::Config { code }) || answer.text != line {
            return Ok(false);
        }
    }
    Ok(true)
}

/// A file of two groups: what stands before them, the first one, and the lines of the second.
fn with_group(alloc: Global, head: &str, lines: &str) -> Result<String, Fail> {
    Ok(format!(in alloc;
        "{head}\n[[group]]\nvid = 1\nmembers = [\"0.0\", \"1.0\", \"2.0\"]\nts = 3\ntr = 2\n[[group]]\n{lines}"
    )?)
}

/// What stands before the groups of a file of four elements, in both versions.
const V1: &str = "version = 1\nelements = 4\nmanager = 1";

const V2: &str = "version = 2\nelements = 4\nmanager = 1";

/// The lines of a group of one member.
const ONE: &str = "vid = 2\nmembers = [\"3.1\"]\nts = 3\ntr = 2";

#[test]
fn refuses_files(rt: HostRuntime) -> Result<(), Fail> {
    for (file, code) in [
        ("[", 13),
        ("version = 1\nelements = 4\nmanager = 1\ngroup = []\n", 2),
    ] {
        assert!(rt; is_refused(&rt, file, code)?, "{file}");
    }
    for (head, lines, code) in [
        ("version = 1\nelements = 6\nmanager = 1", ONE, 1),
        (V1, "vid = 0\nmembers = [\"3.1\"]\nts = 3\ntr = 2", 3),
        (V1, "vid = 1\nmembers = [\"3.1\"]\nts = 3\ntr = 2", 4),
        (
            V1,
            "vid = 2\nmembers = [\"3.1\", \"2.5\"]\nts = 3\ntr = 2",
            5,
        ),
        (V1, "vid = 2\nmembers = [\"4.1\"]\nts = 3\ntr = 2", 6),
        (
            V1,
            "vid = 2\nmembers = [\"3.1\", \"2.2\", \"3.3\"]\nts = 3\ntr = 2",
            7,
        ),
        (V1, "vid = 2\nmembers = [\"0.0\"]\nts = 3\ntr = 2", 8),
        (
            V1,
            "vid = 2\nmembers = [\"3.1\"]\nts = 3\ntr = 2\nmasked = [0]",
            9,
        ),
        (V1, "vid = 2\nmembers = [\"3.1\"]\nts = 3\ntr = 1001", 10),
        ("version = 1\nelements = 4\nmanager = 3", ONE, 11),
        ("version = 1\nelements = 4\nmanager = 2", ONE, 12),
        (V1, "vid = 2\nmembers = [\"3.1\"]\ntr = 2", 14),
        (
            V1,
            "vid = 2\nmembers = [\"3.1\"]\nts = 3\ntr = 2\ntx = 1",
            14,
        ),
        (V1, "vid = \"2\"\nmembers = [\"3.1\"]\nts = 3\ntr = 2", 15),
        ("version = 3\nelements = 4\nmanager = 1", ONE, 15),
        (
            V2,
            "vid = 2\nmembers = [\"3.1\"]\nts = 3\ntr = 2\ntx = 1001",
            16,
        ),
        (
            V2,
            "vid = 2\nmembers = [\"3.1\"]\nts = 3\ntr = 2\nouts = 65",
            17,
        ),
    ] {
        let file = with_group(rt.alloc(), head, lines)?;
        assert!(rt; is_refused(&rt, file.as_str(), code)?, "{code} {lines}");
    }
    Ok(())
}

#[test]
fn refuses_cut_files(rt: HostRuntime) -> Result<(), Fail> {
    let whole = FOUR.as_bytes();
    for end in 0..40usize {
        let front = &whole[..end.min(whole.len())];
        let answer = call(&rt, "check --config a", &with_file(front))?;
        assert!(rt;
            matches!(answer.status, Status::Config { code: 13 | 14 }),
            "{end}"
        );
    }
    Ok(())
}

/// Group 5 holds one packet that is to be sent, and group 3 two that it was handed.
#[test]
fn runs_with_small_buffers(rt: HostRuntime) -> Result<(), Fail> {
    let script =
        "cycles 4\nat 0 post 0.3 3 2 0 05\nat 0 post 0.3 3 2 0 05\nat 1 post 0.3 3 2 0 05\nat 2 post 0.3 3 2 0 05\n";
    let [front, back] = SMALL_BUFFERS;
    for (expiry, last) in [
        (
            "",
            "idle\nend cycles 4 served 2 discarded 0 idle 2 stored 6 overrun 0 syndromes 0\n",
        ),
        (
            "tx = 1\n",
            "discard 5 to 3 class 2 reason 6 waited 1 admitted 0\nend cycles 4 served 2 discarded 1 idle 1 ",
        ),
    ] {
        let file = format!(in rt.alloc(); "{front}{expiry}{back}")?;
        let around = Around {
            file: file.as_bytes(),
            ..source(script.as_bytes())
        };
        let answer = call(&rt, "run --config a", &around)?;
        let parts = [
            "cycle 0\npost-full 0.3\n",
            "serve 5 to 3 class 2 kind source ",
            "cycle 1\n",
            "serve 5 to 3 class 2 kind source ",
            "cycle 2\n",
            "idle\ncycle 3\n",
            last,
        ];
        assert_eq!(rt; answer.status, Status::Done, "{expiry}");
        assert!(rt; has_parts(answer.text.as_str(), &parts), "{}", answer.text);
    }
    Ok(())
}

#[test]
fn refuses_long_files(rt: HostRuntime) -> Result<(), Fail> {
    let long = vec![in rt.alloc(); b'#'; 1_048_577]?;
    let answer = call(&rt, "run --config a", &with_file(long.as_slice()))?;
    assert_eq!(rt;
        (answer.status, answer.text.as_str()),
        (Status::TooLong, "too long\n")
    );
    Ok(())
}
