//! The chooser of the scoreboard keeps pairs of since and number in order, so that the oldest is in front.

ghost use Rattle.std.specs.Prelude.{◌≡◌, ◌<◌, ◌≤◌, filter, option_map, find, length, take_while};
ghost use Rattle.sender_choice.specs.Sinces.{nothing_held};

use crate::Chooser;
use ftpp_base::{MOST_GROUPS, Row, VidSet};
use std::marker::Model;

/// A group that waits, and since when.
#[derive(Clone, Copy, Debug, PartialEq, Eq)]
struct Pair {
    /// The cycle since which the group waits.
    since: u32,
    /// The number of the group.
    vid: u8,
}

// An entry of a `Row` needs a value to begin with.
impl Default for Pair {
    fn default() -> Pair {
        Pair { since: 0, vid: 0 }
    }
}

/// The chooser that keeps its groups in the order of since and number.
#[derive(Drop)]
pub struct IndexChooser {
    /// One pair for each group that is held, in order.
    pairs: Row<Pair, MOST_GROUPS>,
}

impl Model for IndexChooser {
    ghost use Rattle.std.specs.Prelude.{List};
    ghost use Rattle.sender_choice.specs.declared.index.Pair.{Pair};

    ghost Value = { List Pair };

    ghost use Rattle.std.specs.Prelude.{◌≤◌, length};
    ghost use Rattle.sender_choice.specs.Pairs.{InOrder};
    ghost use Rattle.ftpp_base.specs.declared.limits.TheConstants.{MOST_GROUPS};

    ghost view = { λ c. c.pairs.items };

    ghost invariant = { λ c. (length c.pairs.items ≤ MOST_GROUPS) × InOrder c.pairs.items };
}

impl IndexChooser {
    ghost use Rattle.sender_choice.specs.Pairs.{sinces_of};

    /// A chooser that holds no group.
    pub fn new() -> IndexChooser
        ensures { sinces_of result ≡ nothing_held }
    {
        IndexChooser { pairs: Row::new() }
    }
}

impl Chooser for IndexChooser {
    ghost use Rattle.sender_choice.specs.Pairs.{sinces_of};

    ghost held = { sinces_of };

    fn set(&mut self, vid: u8, since: u32) {
        take_out(&mut self.pairs, vid);
        put_in(&mut self.pairs, Pair { since, vid });
    }

    fn clear(&mut self, vid: u8) {
        take_out(&mut self.pairs, vid);
    }

    fn since(&self, vid: u8) -> Option<u32> {
        self.pairs
            .iter()
            .find(|pair| pair.vid == vid)
            .map(|pair| pair.since)
    }

    #[tactic(auto, using(crate::proofs::OldestPair::chosen))]
    fn oldest(&self, eligible: &VidSet) -> Option<(u8, u32)> {
        first_eligible(self.pairs.as_slice(), eligible)
    }
}

ghost use Rattle.sender_choice.specs.Pairs.{is_before, goes_before, is_other, put_in_order, may_be, shown};

/// Removes the pair of a group.
fn take_out(pairs: &mut Row<Pair, MOST_GROUPS>, vid: u8)
    ensures { pairs.new.items ≡ filter (is_other vid) pairs.old.items }
{
    pairs.retain(|pair| pair.vid != vid);
}

/// Inserts a pair behind those that come before it.
fn put_in(pairs: &mut Row<Pair, MOST_GROUPS>, pair: Pair)
    requires { length pairs.old.items < MOST_GROUPS }
    ensures items { pairs.new.items ≡ put_in_order pair pairs.old.items }
    ensures fits { length pairs.new.items ≤ MOST_GROUPS }
{
    let place = place_in(pairs.as_slice(), &pair);
    pairs.insert(place, pair);
}

/// How many pairs come before this one.
fn place_in(pairs: &[Pair], pair: &Pair) -> usize
    ensures { result ≡ length (take_while (goes_before pair.now) pairs.now) }
{
    pairs
        .iter()
        .take_while(|other| is_before(other, pair))
        .count()
}

/// Whether a pair comes before another: it waits longer, or as long with a lower number.
fn is_before(one: &Pair, other: &Pair) -> bool
    ensures { result ≡ is_before one.now other.now }
{
    one.since < other.since || (one.since == other.since && one.vid < other.vid)
}

/// Number and since of the first pair whose group is in the set, if there is one.
fn first_eligible(pairs: &[Pair], eligible: &VidSet) -> Option<(u8, u32)>
    ensures { result ≡ option_map shown (find (may_be eligible.now) pairs.now) }
{
    pairs
        .iter()
        .find(|pair| eligible.has(pair.vid))
        .map(|pair| (pair.vid, pair.since))
}
