//! Links: who sends to whom in which round, in the order of a trace.

ghost use Rattle.std.specs.Prelude.{◌≡◌, ◌≢◌, ◌-◌, ◌<◌, ◌≤◌, ◌⊎◌};
ghost use Rattle.trace_audit.specs.Trace.{per_cycle, place_of, receiver_place, round_number};
ghost use Rattle.trace_audit.specs.Links.{link_at, per_round, receiver_of, round_of_number};

use ftpp_base::{Ne, Round};

/// A round, the element that sends in it, and the one that it sends to.
#[derive(Clone, Copy, Debug, PartialEq, Eq)]
pub(crate) struct Link {
    pub(crate) round: Round,
    pub(crate) from: Ne,
    pub(crate) to: Ne,
}

/// How many frames a round has.
pub(crate) fn per_round<const N: usize>() -> usize
    requires { (N ≡ 4) ⊎ (N ≡ 5) }
    ensures count { result ≡ per_round N }
    ensures some { 0 < result }
    ensures most { result ≤ 20 }
{
    N * (N - 1)
}

/// The number of a round, from 0.
fn round_number(round: Round) -> usize
    ensures number { result ≡ round_number round }
    ensures most { result ≤ 3 }
{
    match round {
        Round::A1 => 0,
        Round::A2 => 1,
        Round::B1 => 2,
        Round::B2 => 3,
    }
}

/// The round of a number.
fn round_of_number(number: usize) -> Round
    ensures { result ≡ round_of_number number }
{
    match number {
        0 => Round::A1,
        1 => Round::A2,
        2 => Round::B1,
        _ => Round::B2,
    }
}

/// The place of a receiver among the others of a sender.
fn receiver_place(from: Ne, to: Ne) -> usize
    ensures place { result ≡ receiver_place from to }
    ensures most { result ≤ to }
{
    if to.index() < from.index() {
        to.index()
    } else {
        to.index().saturating_sub(1)
    }
}

/// The place of a frame in its cycle.
pub(crate) fn place_of<const N: usize>(round: Round, from: Ne, to: Ne) -> usize
    requires { (N ≡ 4) ⊎ (N ≡ 5) }
    ensures { result ≡ place_of N round from to }
{
    round_number(round) * per_round::<N>() + (from.index() * (N - 1) + receiver_place(from, to))
}

/// The receiver at a place among the others of a sender.
fn receiver_of<const N: usize>(from: usize, seat: usize) -> usize
    requires size { N ≤ 5 }
    requires from { from < N }
    requires seat { seat < N - 1 }
    ensures receiver { result ≡ receiver_of from seat }
    ensures there { result < N }
    ensures another { result ≢ from }
{
    if seat < from { seat } else { seat + 1 }
}

/// The link at a place of a cycle.
#[tactic(auto, unfolding(crate::specs::Links::link_at))]
pub(crate) fn link_at<const N: usize>(place: usize) -> Link
    requires { (N ≡ 4) ⊎ (N ≡ 5) }
    ensures link { result ≡ link_at N place }
    ensures from { result.from < N }
    ensures to { result.to < N }
    ensures another { result.from ≢ result.to }
{
    let in_round = place % per_round::<N>();
    let from = in_round / (N - 1);
    let to = receiver_of::<N>(from, in_round % (N - 1));
    Link {
        round: round_of_number(place / per_round::<N>()),
        from: Ne::at(from),
        to: Ne::at(to),
    }
}
