//! Whose copies are relayed in the second round of packets.

ghost use Rattle.std.specs.Prelude.{◌≡◌, ℕ, ◌<◌, ◌==◌, ◌&&◌, not};
ghost use Rattle.ftpp_base.specs.Sets.{has};
ghost use Rattle.config_table.specs.Kinds.{contributes, is_relayed, is_voted};

use config_table::{Decision, Kind, Service};
use ftpp_base::Set8;

/// The set of one element, if it is in another.
#[tactic(auto, using(crate::proofs::RelaySets::has_none, crate::proofs::RelaySets::has_one))]
fn one_of(set: &Set8, ne: u8) -> Set8
    requires { ne < 5 }
    ensures { (k : ℕ) → k < 5 → has result k ≡ has set.now k && ne == k }
{
    let none = Set8::EMPTY;
    if set.has(ne) { none.with(ne) } else { none }
}

/// The elements that contribute to an exchange of two rounds.
fn relayed_in(service: &Service) -> Set8
    ensures { (ne : ℕ) → ne < 5 → has result ne ≡ (not (is_voted service.now.kind) && contributes service.now ne) }
{
    match &service.kind {
        Kind::Voted => Set8::EMPTY,
        Kind::Source(source) => one_of(&service.admitted, source.byte()),
        Kind::Every => service.admitted,
    }
}

/// The elements whose packets are relayed.
pub fn relayed(decision: &Decision) -> Set8
    ensures { (ne : ℕ) → ne < 5 → has result ne ≡ is_relayed decision.now ne }
{
    match decision {
        Decision::Exchange(service) => relayed_in(service),
        _ => Set8::EMPTY,
    }
}
