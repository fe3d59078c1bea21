use crate::traces::{Cycle, Flip, IDLE, trace};
use built_in_tables::built_in_4;
use ftpp_base::{Ne, Round};
use script_text::{MOST_SCRIPT_BYTES, ScriptError};
use std::alloc::Global;
use std::test::Fail;
use trace_audit::{Verdict, audit_text};

/// What an audit says. A round is given by its place, 0 to 3.
#[derive(Clone, Copy, Debug, PartialEq, Eq)]
enum Said {
    /// After so many cycles.
    Follows(u32),
    /// In a cycle and a round, from one element to another.
    Breaks(u32, usize, u8, u8),
    /// A line and its code.
    Refused(u32, u8),
    /// It was not asked, or gave another answer.
    Nothing,
}

fn place_of(round: Round) -> usize {
    match round {
        Round::A1 => 0,
        Round::A2 => 1,
        Round::B1 => 2,
        Round::B2 => 3,
    }
}

/// A verdict as it is compared.
fn of_verdict(verdict: &Verdict) -> Said {
    match verdict {
        Verdict::Follows { cycles } => Said::Follows(*cycles),
        Verdict::Breaks { at, from, to } => {
            Said::Breaks(at.cycle, place_of(at.round), from.byte(), to.byte())
        }
    }
}

/// A refusal as it is compared.
fn of_refusal(error: &ScriptError) -> Said {
    match error {
        ScriptError::At { line, code } => Said::Refused(*line, *code),
        ScriptError::Memory => Said::Nothing,
    }
}

/// What the audit says of a text for the element of that number, or for none from 4 on.
fn audited(bytes: &[u8], named: u8) -> Said {
    if bytes.len() > MOST_SCRIPT_BYTES {
        return Said::Nothing;
    }
    match audit_text::<4>(bytes, &built_in_4(), Ne::new(named, 4)) {
        Ok(verdict) => of_verdict(&verdict),
        Err(error) => of_refusal(&error),
    }
}

/// No element.
const NONE: u8 = 4;

/// Element 3 echoes to 1 another pattern of 0 than it has: this is found, unless 3 is named.
#[test]
fn a_false_echo_is_found(rt: HostRuntime) -> Result<(), Fail> {
    let echo = Flip {
        round: 1,
        from: 3,
        to: 1,
        at: 7,
        bits: 1,
    };
    let text = trace(rt.alloc(), &[IDLE], &Some(echo))?;
    for (named, wanted) in [
        (3, Said::Follows(1)),
        (NONE, Said::Breaks(0, 1, 3, 1)),
        (0, Said::Breaks(0, 1, 3, 1)),
        (1, Said::Breaks(0, 1, 3, 1)),
    ] {
        assert_eq!(rt; audited(text.as_slice(), named), wanted, "{named}");
    }
    Ok(())
}

/// Whether a bit that is turned in the frame of a link is found at that frame, and whether it is free for its sender: in A1 the
/// receiver's echo shows that it had another frame, and in an idle cycle nothing of B1 is echoed.
fn is_found(alloc: Global, flip: Flip) -> Result<bool, Fail> {
    let text = trace(alloc, &[IDLE], &Some(flip))?;
    let bytes = text.as_slice();
    let here = Said::Breaks(0, flip.round, flip.from, flip.to);
    let free = if flip.round == 0 {
        Said::Breaks(0, 1, flip.to, if flip.to == 0 { 1 } else { 0 })
    } else {
        Said::Follows(1)
    };
    let other = (flip.from % 4 + 1) % 4;
    Ok(
        audited(bytes, NONE) == here
            && audited(bytes, other) == here
            && audited(bytes, flip.from) == free,
    )
}

/// Bytes of the shortest frame: those of its head, and some of its cell.
const PLACES: [usize; 11] = [0, 1, 2, 3, 4, 5, 6, 7, 20, 33, 38];

/// The first bit that is not found where it is turned, of 132 in the frames of a round: one in each of these bytes of each link.
fn unfound(alloc: Global, round: usize) -> Result<Option<Flip>, Fail> {
    for link in 0..16u8 {
        let (from, to) = (link / 4, link % 4);
        for at in PLACES {
            let flip = Flip {
                round,
                from,
                to,
                at,
                bits: 0x10,
            };
            if from != to && !is_found(alloc, flip)? {
                return Ok(Some(flip));
            }
        }
    }
    Ok(None)
}

#[test]
fn a_bit_turned_in_a_first_round_is_found(rt: HostRuntime) -> Result<(), Fail> {
    for round in [0, 2] {
        assert_eq!(rt; unfound(rt.alloc(), round)?, None);
    }
    Ok(())
}

#[test]
fn a_bit_turned_in_a_second_round_is_found(rt: HostRuntime) -> Result<(), Fail> {
    for round in [1, 3] {
        assert_eq!(rt; unfound(rt.alloc(), round)?, None);
    }
    Ok(())
}

/// A cycle in which an output waits, and perhaps an element sends a packet.
fn cycle(waits: [u8; 5], sends: Option<(u8, u8)>) -> Cycle {
    Cycle {
        waits: Some(waits),
        sends,
    }
}

/// A request stays until it is served, and its sender sends exactly then. What stood is known from the cycle before.
#[test]
fn requests_stand(rt: HostRuntime) -> Result<(), Fail> {
    let source = [3, 1, 3, 2, 0];
    let third = [0, 1, 3, 1, 0];
    let served = cycle(source, Some((3, 0x0f)));
    let kept = cycle(source, None);
    let waiting = cycle(third, None);
    for (place, (cycles, wanted)) in [
        ([IDLE, served, IDLE], Said::Follows(3)),
        ([IDLE, served, served], Said::Follows(3)),
        ([IDLE, kept, IDLE], Said::Breaks(1, 2, 3, 0)),
        ([waiting, waiting, waiting], Said::Follows(3)),
        ([waiting, IDLE, IDLE], Said::Breaks(1, 0, 0, 1)),
        ([waiting, served, waiting], Said::Breaks(1, 0, 0, 1)),
        (
            [waiting, cycle([0, 1, 3, 2, 0], None), waiting],
            Said::Breaks(1, 0, 0, 1),
        ),
        (
            [IDLE, cycle(source, Some((2, 0x0f))), IDLE],
            Said::Breaks(1, 2, 2, 0),
        ),
    ]
    .iter()
    .enumerate()
    {
        let text = trace(rt.alloc(), cycles, &None)?;
        assert_eq!(rt; audited(text.as_slice(), NONE), *wanted, "case {place}");
    }
    Ok(())
}

/// The text without one of its lines, counted from 1.
fn without_line(alloc: Global, text: &[u8], number: usize) -> Result<Vec<u8>, Fail> {
    let mut kept = Vec::new(alloc);
    let mut line = 1usize;
    for byte in text {
        if line != number {
            kept.push(*byte)?;
        }
        if *byte == b'\n' {
            line = line.saturating_add(1);
        }
    }
    Ok(kept)
}

/// What the audit says of the first bytes of a text.
fn said_of_first(text: &[u8], count: usize) -> Said {
    audited(&text[..count.min(text.len())], NONE)
}

#[test]
fn lines_are_in_their_places(rt: HostRuntime) -> Result<(), Fail> {
    let two = trace(rt.alloc(), &[IDLE, IDLE], &None)?;
    let text = two.as_slice();
    let size = text.len();
    let half = size / 2;
    for (number, line, code) in [
        (1, 1, 12),
        (2, 2, 12),
        (48, 48, 12),
        (49, 49, 12),
        (95, 95, 12),
        (96, 96, 13),
    ] {
        let rest = without_line(rt.alloc(), text, number)?;
        assert_eq!(rt;
            audited(rest.as_slice(), NONE),
            Said::Refused(line, code),
            "{number}"
        );
    }
    // the first line has 93 bytes, 15 of them before its digits, and a cycle 13,104
    for (count, wanted) in [
        (0, Said::Refused(1, 13)),
        (5, Said::Refused(1, 12)),
        (14, Said::Refused(1, 12)),
        (15, Said::Refused(1, 12)),
        (16, Said::Refused(1, 12)),
        (17, Said::Refused(1, 13)),
        (93, Said::Refused(1, 13)),
        (94, Said::Refused(2, 13)),
        (95, Said::Refused(2, 12)),
        (half, Said::Follows(1)),
        (half.saturating_sub(1), Said::Follows(1)),
        (half.saturating_sub(2), Said::Refused(48, 12)),
        (half.saturating_sub(3), Said::Breaks(0, 3, 3, 2)),
        (half.saturating_add(1), Said::Refused(49, 12)),
        (half.saturating_add(94), Said::Refused(50, 13)),
        (size.saturating_sub(1), Said::Follows(2)),
        (size, Said::Follows(2)),
    ] {
        assert_eq!(rt; said_of_first(text, count), wanted, "{count}");
    }
    Ok(())
}

#[test]
fn lines_are_spelled_exactly(rt: HostRuntime) -> Result<(), Fail> {
    for (short, line, code) in [
        ("\n", 1, 12),
        ("frame 0 A1 0 1 -", 1, 13),
        ("frame 0 A1 0 1 -\n", 2, 13),
        ("frame 0 A1 0 1 Af\nframe 0 A1 0 2 -\n\n", 3, 12),
        ("frame 0 A1 0 1 a\n", 1, 12),
        ("frame 0 A1 0 1 \n", 1, 12),
        ("frame 0 A1 0 1\n", 1, 12),
        ("frame  0 A1 0 1 -\n", 1, 12),
        ("frame 00 A1 0 1 -\n", 1, 12),
        ("frame 0 A1 1 0 -\n", 1, 12),
        ("frame 0 a1 0 1 -\n", 1, 12),
        ("frame 0 A1 0 1 - \n", 1, 12),
        ("frame 0 A1 0 1 -\r\n", 1, 12),
        (" frame 0 A1 0 1 -\n", 1, 12),
        ("frame 0 A1 0 1 0g\n", 1, 12),
        ("frame 0 A1 0 1 --\n", 1, 12),
        ("# frame\n", 1, 12),
    ] {
        assert_eq!(rt;
            audited(short.as_bytes(), NONE),
            Said::Refused(line, code),
            "{short}"
        );
    }
    // a frame of 331 bytes, and of one digit or byte more
    for (digits, wanted) in [
        (662, Said::Refused(2, 13)),
        (663, Said::Refused(1, 12)),
        (664, Said::Refused(1, 12)),
    ] {
        let mut text = Vec::from_slice(rt.alloc(), b"frame 0 A1 0 1 ")?;
        text.resize(15 + digits, b'0')?;
        text.push(b'\n')?;
        assert_eq!(rt; audited(text.as_slice(), NONE), wanted, "{digits}");
    }
    Ok(())
}
