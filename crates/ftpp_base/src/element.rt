//! Network elements, the processors at their ports, and the rounds of a cycle.

ghost use Rattle.std.specs.Prelude.{◌≡◌, ◌<◌, ◌≤◌, ◌⊎◌, ◌↔◌, IsNone, IfSome};

use crate::limits::MOST_ELEMENTS;
use std::marker::Model;

/// The number of a network element, from 0. Clauses see the number itself.
#[derive(Clone, Copy, Debug, PartialEq, Eq)]
pub struct Ne {
    /// Below `MOST_ELEMENTS`.
    number: u8,
}

impl Model for Ne {
    ghost use Rattle.std.specs.Prelude.{ℕ, ◌<◌};

    ghost Value = { ℕ };

    ghost view = { λ e. e.number };

    ghost invariant = { λ e. e.number < 5 };

    ghost inverse = { λ n. record { number = n } };
}

impl Ne {
    /// The element of this number in a cluster of `total` elements.
    pub fn new(n: u8, total: u8) -> Option<Ne>
        ensures none { IsNone result ↔ ((total ≤ n) ⊎ (MOST_ELEMENTS ≤ n)) }
        ensures number { IfSome result (λ e. e ≡ n) }
    {
        if n >= total || n >= MOST_ELEMENTS {
            None
        } else {
            Some(Ne { number: n })
        }
    }

    /// The element at a place of a list by element.
    pub fn at(place: usize) -> Ne
        requires { place < MOST_ELEMENTS }
        ensures { result ≡ place }
    {
        Ne {
            number: place as u8,
        }
    }

    /// The number as a place in a list by element.
    pub fn index(self) -> usize
        ensures number { result ≡ self }
        ensures small { result < MOST_ELEMENTS }
    {
        usize::from(self.number)
    }

    /// The number as a byte.
    pub fn byte(self) -> u8
        ensures number { result ≡ self }
        ensures small { result < MOST_ELEMENTS }
    {
        self.number
    }
}

// An entry of a `Row` needs a value to begin with: here and below, that is the default.
impl Default for Ne {
    ghost is_default = { λ e. e ≡ 0 };

    fn default() -> Ne {
        Ne { number: 0 }
    }
}

/// A processor by its place.
#[derive(Clone, Copy, Debug, PartialEq, Eq, PartialOrd, Ord)]
pub struct Proc {
    /// The element at which it stands.
    pub ne: u8,
    /// The port of that element, 0 to 7.
    pub port: u8,
}

impl Default for Proc {
    ghost is_default = { λ p. (p.ne ≡ 0) × (p.port ≡ 0) };

    fn default() -> Proc {
        Proc { ne: 0, port: 0 }
    }
}

/// The four rounds of a cycle, in order: patterns, their echoes, packets, their echoes.
#[derive(Clone, Copy, Debug, PartialEq, Eq, PartialOrd, Ord)]
pub enum Round {
    A1,
    A2,
    B1,
    B2,
}

/// One round of one cycle. Cycles are counted from 0.
#[derive(Clone, Copy, Debug, PartialEq, Eq)]
pub struct Slot {
    pub cycle: u32,
    pub round: Round,
}

impl Default for Slot {
    ghost use Rattle.ftpp_base.specs.declared.element.Round.{Round};

    ghost is_default = { λ s. (s.cycle ≡ 0) × (s.round ≡ Round.A1) };

    fn default() -> Slot {
        Slot {
            cycle: 0,
            round: Round::A1,
        }
    }
}
