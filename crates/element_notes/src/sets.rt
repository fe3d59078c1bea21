//! Sets of elements that are put together one by one.

ghost use Rattle.std.specs.Prelude.{◌≡◌, ℕ, ◌<◌, ◌≤◌, ◌==◌, ◌&&◌, ◌||◌, true};
ghost use Rattle.ftpp_base.specs.Sets.{has};

use ftpp_base::Set8;

/// The set of all elements.
#[tactic(auto, using(crate::proofs::SetsOfElements::has_all))]
pub(crate) fn all_elements() -> Set8
    ensures { (k : ℕ) → k < 5 → has result k ≡ true }
{
    Set8 { bits: 0b1_1111 }
}

/// The set with one element more, where it belongs there.
#[tactic(auto, using(crate::proofs::SetsOfElements::has_more))]
pub(crate) fn put_if(set: &Set8, belongs: bool, ne: u8) -> Set8
    requires { ne < 8 }
    ensures { (k : ℕ) → k < 8 → has result k ≡ (has set.now k || (belongs && k == ne)) }
{
    if belongs { set.with(ne) } else { *set }
}
