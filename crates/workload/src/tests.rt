use crate::make_script;
use script_text::print_script;
use std::test::Fail;

/// The script of 7 for three cycles, which an independent generator wrote, as those below.
const OF_SEVEN: &str = "cycles 3
faulty 3
at 0 post 0.5 4 2 0 0000000091
at 0 read 0.0
at 0 read 1.0
at 0 read 2.0
at 0 read 3.0
at 0 read 0.3
at 0 read 1.3
at 0 read 3.3
at 0 read 4.3
at 0 flip A2 4 23 03
at 1 post 1.1 5 1 0 0000000103
at 1 post 2.1 5 1 0 0000000103
at 1 post 3.1 5 1 0 0000000103
at 1 read 1.1
at 1 read 2.1
at 1 read 3.1
at 1 read 4.4
at 1 drop any all
at 2 read 2.2
at 2 read 3.2
at 2 read 4.2
at 2 read 0.5
";

#[test]
fn a_script_is_printed(rt: HostRuntime) -> Result<(), Fail> {
    let script = make_script(rt.alloc(), 7, 3).map_err(|_| "no memory")?;
    let text = print_script(rt.alloc(), &script).map_err(|_| "no memory")?;
    assert_eq!(rt; text.as_slice(), OF_SEVEN.as_bytes());
    Ok(())
}

/// The bytes in one number, each by its place.
fn mixed(bytes: &[u8]) -> u32 {
    let mut mixed = 0u32;
    for b in bytes {
        mixed = mixed.wrapping_mul(31).wrapping_add(u32::from(*b));
    }
    mixed
}

#[test]
fn scripts_of_other_numbers(rt: HostRuntime) -> Result<(), Fail> {
    for (start, cycles, acts, edits, len, mix) in [
        (7, 10, 66, 9, 1287, 51596891),
        (0, 100, 771, 80, 17184, 226002225),
        (u64::MAX, 100, 731, 81, 15944, 1157606459),
        (123_456_789_012_345_678, 100, 739, 82, 16236, 2596763687),
    ] {
        let script = make_script(rt.alloc(), start, cycles).map_err(|_| "no memory")?;
        assert_eq!(rt;
            (script.acts.len(), script.edits.len()),
            (acts, edits),
            "of {start}"
        );
        let text = print_script(rt.alloc(), &script).map_err(|_| "no memory")?;
        assert_eq!(rt;
            (text.len(), mixed(text.as_slice())),
            (len, mix),
            "of {start}"
        );
    }
    Ok(())
}
