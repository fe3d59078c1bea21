use super::*;
use std::test::*;

/// An entry of a cycle.
fn entry(cycle: u32) -> Syndrome {
    let element = Ne::default();
    Syndrome {
        cycle,
        kind: SyndromeKind::P1,
        accused: element,
        other: element,
    }
}

#[test]
fn holds_the_latest_entries(rt: HostRuntime) -> Result<(), Fail> {
    let mut log = SyndromeLog::new(rt.alloc())?;
    assert!(rt; log.is_empty());
    for cycle in 0..1030 {
        let overwritten = log.push(entry(cycle)).map(|s| s.cycle);
        assert_eq!(rt; overwritten, cycle.checked_sub(1024), "at {cycle}");
    }
    assert_eq!(rt; log.len(), 1024);
    for (place, cycle) in [(0, Some(6)), (1, Some(7)), (1023, Some(1029)), (1024, None)] {
        assert_eq!(rt; log.get(place).map(|s| s.cycle), cycle, "at {place}");
    }
    log.extend_from_slice(&[entry(1), entry(2)]);
    assert_eq!(rt; (log.len(), log.get(0).copied()), (1024, Some(entry(8))));
    assert_eq!(rt; log.get(1023).copied(), Some(entry(2)));
    log.clear();
    assert!(rt; log.is_empty() && log.get(0).is_none());
    assert_eq!(rt; log.push(entry(7)), None);
    assert_eq!(rt; log.get(0).copied(), Some(entry(7)));
    Ok(())
}
