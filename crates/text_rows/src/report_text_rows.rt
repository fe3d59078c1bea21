mod bench;
mod cases;

use bench::{first_other, fullest_shown, is_traced};
use cases::{FAULTS, FRAMES, LIMITS, OTHERS, REQUESTS, UPDATES};
use report_text::TextBuf;
use std::test::Fail;

#[test]
fn texts_of_runs(rt: HostRuntime) -> Result<(), Fail> {
    let mut out = TextBuf::new(rt.alloc())?;
    for runs in [REQUESTS, FAULTS, UPDATES, LIMITS, OTHERS] {
        for run in runs {
            if let Some(wanted) = first_other(run, &mut out) {
                assert_eq!(rt; out.bytes(), wanted.as_bytes(), "{}", run.name);
            }
        }
    }
    Ok(())
}

#[test]
fn frames_and_the_fullest_cycle(rt: HostRuntime) -> Result<(), Fail> {
    let mut out = TextBuf::new(rt.alloc())?;
    for frame in FRAMES {
        assert!(rt; is_traced(frame, &mut out) == Some(true), "{}", frame.text);
    }
    assert!(rt; fullest_shown(&mut out) == Some((18_358, 260)));
    Ok(())
}
