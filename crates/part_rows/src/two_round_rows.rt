ghost use Rattle.std.specs.Prelude.{◌<◌};

use bit_vote::Cells;
use ftpp_base::{Ne, Set8};
use std::test::Fail;
use two_round::*;

/// Eight ports that are empty and not full.
const QUIET: [u8; 32] = [
    2, 0, 0, 0, 2, 0, 0, 0, 2, 0, 0, 0, 2, 0, 0, 0, 2, 0, 0, 0, 2, 0, 0, 0, 2, 0, 0, 0, 2, 0, 0, 0,
];

/// The first bytes of the patterns that come to each element from each: the faulty element 3 shows 03, 00 and 02.
const SHOWN: [[u8; 4]; 4] = [[2, 2, 2, 3], [2, 2, 2, 0], [2, 2, 2, 2], [2, 2, 2, 2]];

/// Eight ports that are empty and not full, but for the first byte of the first one.
fn column(first: u8) -> Option<[u8; 32]> {
    let mut bytes = QUIET;
    bytes[0] = first;
    Some(bytes)
}

/// An element that heard the first round.
fn first_heard(me: Ne) -> TwoRound<4, 32>
    requires { me < 4 }
{
    let shown = SHOWN[me.index()];
    let mut x = TwoRound::new(me);
    x.first(column(shown[me.index()]));
    for k in 0..4 {
        let from = Ne::at(k);
        if from != x.me() {
            x.take_first(from, column(shown[k]));
        }
    }
    x
}

/// An element that heard both rounds.
fn both_heard(me: Ne) -> TwoRound<4, 32>
    requires { me < 4 }
{
    let mut x = first_heard(me);
    for k in 0..4 {
        let from = Ne::at(k);
        if from != x.me() {
            x.take_echo(from, first_heard(from).echo());
        }
    }
    x
}

/// All come to 02, whose pattern it is.
#[test]
fn two_faced_pattern_is_agreed(rt: HostRuntime) {
    for me in 0..4 {
        let x = both_heard(Ne::at(me));
        for of in 0..4 {
            assert!(rt; x.result(Ne::at(of)) == column(2), "{of} at {me}");
        }
    }
}

/// What element 0 gives of some or of all senders.
#[test]
fn results_are_given_by_sender(rt: HostRuntime) {
    let x = both_heard(Ne::at(0));
    let all = x.results();
    let some = x.results_of(Set8 { bits: 0b1001 });
    for (of, in_set) in [(0, true), (1, false), (2, false), (3, true)] {
        assert!(rt; all.get(of) == column(2), "{of} of all");
        let wanted = if in_set { column(2) } else { None };
        assert!(rt; some.get(of) == wanted, "{of} of some");
    }
}

/// The column with this first byte, if there is one.
fn column_if(first: Option<u8>) -> Option<[u8; 32]> {
    match first {
        Some(first) => column(first),
        None => None,
    }
}

/// Whether an element holds this copy of a sender's pattern, was relayed this one by another, and comes to this one.
fn holds(
    x: &TwoRound<4, 32>,
    relay: Ne,
    source: Ne,
    copy: Option<u8>,
    relayed: Option<u8>,
    voted: Option<u8>,
) -> bool
    requires relay { relay < 4 }
    requires source { source < 4 }
{
    relay != x.me()
        && x.copy(source) == column_if(copy)
        && x.relayed(relay, source) == column_if(relayed)
        && x.result(source) == column_if(voted)
}

/// A restart keeps the element's number alone.
#[test]
fn copies_are_kept_until_a_restart(rt: HostRuntime) {
    let mut x = both_heard(Ne::at(0));
    assert!(rt; x.me() == Ne::at(0));
    assert!(rt; holds(&x, Ne::at(1), Ne::at(3), Some(3), Some(0), Some(2)));
    x.restart();
    assert!(rt; x.me() == Ne::at(0));
    assert!(rt; holds(&x, Ne::at(1), Ne::at(3), None, None, None));
}

/// What element 0 of five comes to about element 4: a row of one byte of its own, and those that 1, 2 and 3 relay.
fn result_of_four(own: u8, relayed: [u8; 3]) -> TwoRound<5, 1> {
    let mut x = TwoRound::new(Ne::at(0));
    x.take_first(Ne::at(4), Some([own]));
    for k in 0..3 {
        let from = Ne::at(k + 1);
        let mut cells = Cells::absent();
        cells.set(4, Some([relayed[k]]));
        if from != x.me() {
            x.take_echo(from, cells);
        }
    }
    x
}

/// Two of four copies have the bit: the tie gives 0.
#[test]
fn tie_among_five_gives_zero(rt: HostRuntime) {
    let x = result_of_four(1, [1, 0, 0]);
    assert!(rt; x.result(Ne::at(4)) == Some([0]));
    let all = x.results();
    assert!(rt; all.get(4) == Some([0]) && all.get(3).is_none());
}
