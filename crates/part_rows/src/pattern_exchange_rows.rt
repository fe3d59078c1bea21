use bit_vote::Cells;
use ftpp_base::{Ne, Proc};
use local_pattern::Entry;
use packet_format::Descriptor;
use pattern_exchange::*;
use std::test::Fail;
use two_round::TwoRound;

/// Eight ports that are empty and have room.
const QUIET: [u8; 32] = [
    2, 0, 0, 0, 2, 0, 0, 0, 2, 0, 0, 0, 2, 0, 0, 0, 2, 0, 0, 0, 2, 0, 0, 0, 2, 0, 0, 0, 2, 0, 0, 0,
];

/// Eight ports that ask for an exchange of group 3 with class 1 and have room.
const ASKING: [u8; 32] = [
    3, 3, 1, 0, 3, 3, 1, 0, 3, 3, 1, 0, 3, 3, 1, 0, 3, 3, 1, 0, 3, 3, 1, 0, 3, 3, 1, 0, 3, 3, 1, 0,
];

/// A row with another first byte.
fn row(first: u8, all: &[u8; 32]) -> Option<[u8; 32]> {
    let mut bytes = *all;
    bytes[0] = first;
    Some(bytes)
}

fn entry(not_empty: bool, not_full: bool, request: [u8; 3]) -> Entry {
    let [dest, class, source] = request;
    Entry {
        not_empty,
        not_full,
        desc: Descriptor {
            dest,
            class,
            source,
        },
    }
}

/// What element 0 holds, where element 3 shows 03, 00 and 02 to the elements 0, 1 and 2.
fn two_faced() -> Option<TwoRound<4, 32>> {
    let quiet = row(2, &QUIET);
    let zero = Ne::new(0, 4)?;
    let one = Ne::new(1, 4)?;
    let two = Ne::new(2, 4)?;
    let three = Ne::new(3, 4)?;
    let mut x = TwoRound::new(zero);
    x.first(quiet);
    x.take_first(one, quiet);
    x.take_first(two, quiet);
    x.take_first(three, row(3, &QUIET));
    let mut cells = Cells::absent();
    cells.set(0, quiet);
    cells.set(1, quiet);
    cells.set(2, quiet);
    cells.set(3, row(0, &QUIET));
    x.take_echo(one, cells);
    cells.set(3, quiet);
    x.take_echo(two, cells);
    x.take_echo(three, cells);
    Some(x)
}

#[test]
fn two_faced_column_is_agreed(rt: HostRuntime) -> Result<(), Fail> {
    let pattern = settle(&two_faced().ok_or("elements")?);
    let free = entry(false, true, [0, 0, 0]);
    for (ne, port) in [(0, 0), (1, 7), (2, 3), (3, 0), (3, 1)] {
        assert!(rt; pattern.entry(Proc { ne, port }) == free, "{ne}.{port}");
    }
    Ok(())
}

/// A first byte of 04 is outside the grammar, and so is a request of an empty output.
#[test]
fn entries_outside_the_grammar_are_quiet(rt: HostRuntime) -> Result<(), Fail> {
    let one = Ne::new(1, 4).ok_or("1")?;
    let two = Ne::new(2, 4).ok_or("2")?;
    let mut x = TwoRound::<4, 32>::new(Ne::new(0, 4).ok_or("0")?);
    let mut cells = Cells::absent();
    cells.set(1, row(4, &ASKING));
    x.take_first(one, row(4, &ASKING));
    x.take_echo(two, cells);
    let pattern = pattern_of(&x.results());
    for (ne, port, wanted) in [
        (1, 0, entry(false, false, [0, 0, 0])),
        (1, 1, entry(true, true, [3, 1, 0])),
        (0, 1, entry(false, false, [0, 0, 0])),
    ] {
        assert!(rt; pattern.entry(Proc { ne, port }) == wanted, "{ne}.{port}");
    }
    Ok(())
}
