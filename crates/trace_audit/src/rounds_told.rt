//! A first round, as its frames tell it: what each element holds of each other one, and what is agreed on of each.

ghost use Rattle.std.specs.Prelude.{◌≡◌, ◌^◌, ◌<◌, ◌≤◌, remove};
ghost use Rattle.ftpp_base.specs.Lists.{each_below, is_this};
ghost use Rattle.bit_vote.specs.Agreed.{agreed, copy_at};

use bit_vote::{Cells, vote_lanes};
use ftpp_base::{Ne, Row};

/// A first round, as its frames tell it.
#[derive(Drop)]
pub(crate) struct RoundTold<const N: usize, const B: usize> {
    /// What each element's frame to its least receiver reads as.
    pub(crate) own: Cells<N, B>,
    /// What the named element's frame to each receiver reads as.
    pub(crate) heard: Cells<N, B>,
}

impl<const N: usize, const B: usize> RoundTold<N, B> {
    /// Nothing was told.
    pub(crate) fn absent() -> RoundTold<N, B>
        requires { B < 2 ^ 32 }
    {
        RoundTold {
            own: Cells::absent(),
            heard: Cells::absent(),
        }
    }
}

/// Whether the optional element is this one.
pub(crate) fn is_this(named: &Option<Ne>, ne: Ne) -> bool
    ensures { result ≡ is_this named.now ne }
{
    match named {
        Some(one) => *one == ne,
        None => false,
    }
}

/// The copy of a sender's value that a receiver holds.
#[tactic(auto, unfolding(bit_vote::specs::Agreed::copy_at))]
pub(crate) fn copy<const N: usize, const B: usize>(
    named: &Option<Ne>,
    own: &Cells<N, B>,
    heard: &Cells<N, B>,
    receiver: Ne,
    sender: Ne,
) -> Option<[u8; B]>
    requires receiver { receiver < N }
    requires sender { sender < N }
    ensures { result ≡ copy_at (record { faulty = named.now; own = own.now; heard = heard.now }) receiver sender }
{
    let other = receiver != sender;
    if is_this(named, sender) && other {
        heard.get(receiver.index())
    } else {
        own.get(sender.index())
    }
}

/// The copies of all values that a receiver holds.
#[tactic(auto, using(crate::proofs::Columns::no_cells, crate::proofs::Columns::one_cell, crate::proofs::Columns::all_cells))]
pub(crate) fn copies<const N: usize, const B: usize>(
    named: &Option<Ne>,
    own: &Cells<N, B>,
    heard: &Cells<N, B>,
    receiver: Ne,
) -> Cells<N, B>
    requires few { N ≤ 5 }
    requires receiver { receiver < N }
    requires width { B ≤ 64 }
    ensures { result ≡ each_below N (copy_at (record { faulty = named.now; own = own.now; heard = heard.now }) receiver) }
{
    let mut cells = Cells::absent();
    for k in 0..N {
        cells.set(k, copy(named, own, heard, receiver, Ne::at(k)));
    }
    cells
}

/// What the elements but one heard, ascending.
#[tactic(auto, using(crate::proofs::Others::none_pushed, crate::proofs::Others::one_pushed, crate::proofs::Others::all_pushed))]
fn heard_but<const N: usize, const B: usize>(
    heard: &Cells<N, B>,
    one: Ne,
) -> Row<Option<[u8; B]>, 5>
    requires few { N ≤ 5 }
    requires one { one < N }
    requires width { B ≤ 64 }
    ensures { result.items ≡ remove heard.now one }
{
    let mut rows: Row<Option<[u8; B]>, 5> = Row::new();
    let _first = heard.get(one.index());
    for k in 0..N {
        rows.push(heard.get(k));
    }
    rows.remove(one.index());
    rows
}

/// What is agreed on of a sender: its own value, or the vote over what the others heard of the named one.
#[tactic(auto, unfolding(bit_vote::specs::Agreed::agreed))]
fn agreed<const N: usize, const B: usize>(
    named: &Option<Ne>,
    own: &Cells<N, B>,
    heard: &Cells<N, B>,
    sender: Ne,
) -> Option<[u8; B]>
    requires few { N ≤ 5 }
    requires sender { sender < N }
    requires width { B ≤ 64 }
    ensures { result ≡ agreed (record { faulty = named.now; own = own.now; heard = heard.now }) sender }
{
    if is_this(named, sender) {
        vote_lanes(heard_but(heard, sender).as_slice())
    } else {
        own.get(sender.index())
    }
}

/// What is agreed on of each element.
#[tactic(auto, using(crate::proofs::Columns::no_cells, crate::proofs::Columns::one_cell, crate::proofs::Columns::all_cells))]
pub(crate) fn all_agreed<const N: usize, const B: usize>(
    named: &Option<Ne>,
    own: &Cells<N, B>,
    heard: &Cells<N, B>,
) -> Cells<N, B>
    requires few { N ≤ 5 }
    requires width { B ≤ 64 }
    ensures { result ≡ each_below N (agreed (record { faulty = named.now; own = own.now; heard = heard.now })) }
{
    let mut cells = Cells::absent();
    for k in 0..N {
        cells.set(k, agreed(named, own, heard, Ne::at(k)));
    }
    cells
}
