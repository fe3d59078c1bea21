//! Sets of small numbers that take no memory of their own.

ghost use Rattle.std.specs.Prelude.{◌≡◌, ◌≢◌, ℕ, ◌<◌, true, false};
ghost use Rattle.ftpp_base.specs.Sets.{has, with_number};
ghost use Rattle.ftpp_base.specs.Vids.{has_vid};

use std::marker::Model;

/// A set of numbers below 8: bit i of `bits` is 1 where i is in it.
#[derive(Clone, Copy, Debug, PartialEq, Eq)]
pub struct Set8 {
    pub bits: u8,
}

impl Set8 {
    /// The set with no number.
    pub const EMPTY: Set8 = Set8 { bits: 0 };

    /// Whether the number is in the set.
    pub fn has(self, i: u8) -> bool
        requires { i < 8 }
        ensures { result ≡ has self i }
    {
        (self.bits >> i) & 1 == 1
    }

    /// The set with this number added.
    pub fn with(self, i: u8) -> Set8
        requires { i < 8 }
        ensures { result ≡ with_number self i }
    {
        with_bit(self.bits, i)
    }
}

/// The set of the bits of a byte, with this number added.
fn with_bit(bits: u8, i: u8) -> Set8
    requires { i < 8 }
    ensures { result ≡ with_number (record { bits = bits }) i }
{
    Set8 {
        bits: bits | (1 << i),
    }
}

impl Default for Set8 {
    ghost is_default = { λ s. s.bits ≡ 0 };

    fn default() -> Set8 {
        Set8::EMPTY
    }
}

/// A set of group numbers. Clauses see it as one test for each number.
#[derive(Clone, Copy, Debug)]
pub struct VidSet {
    /// Whether each number is in the set.
    tests: [bool; 256],
}

impl Model for VidSet {
    ghost use Rattle.std.specs.Prelude.{List, Bool};

    ghost Value = { List Bool };

    ghost view = { λ s. s.tests };

    ghost inverse = { λ l. record { tests = l } };
}

impl VidSet {
    /// The empty set.
    pub fn new() -> VidSet
        ensures { (vid : ℕ) → has_vid result vid ≡ false }
    {
        VidSet {
            tests: [false; 256],
        }
    }

    /// Whether the number is in the set.
    pub fn has(&self, vid: u8) -> bool
        ensures { result ≡ has_vid self.now vid }
    {
        self.tests[usize::from(vid)]
    }

    /// Puts the number into the set.
    pub fn put(&mut self, vid: u8)
        ensures has { has_vid self.new vid ≡ true }
        ensures others { (other : ℕ) → other ≢ vid → has_vid self.new other ≡ has_vid self.old other }
    {
        self.tests[usize::from(vid)] = true;
    }
}

impl Default for VidSet {
    ghost is_default = { λ s. (vid : ℕ) → has_vid s vid ≡ false };

    fn default() -> VidSet {
        VidSet::new()
    }
}
