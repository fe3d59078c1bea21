//! The elements that can be the faulty one, by the entries that one element noted.

ghost use Rattle.std.specs.Prelude.{◌≡◌, ◌≢◌, ◌<◌, ◌≤◌, ◌⊎◌, [], ◌∷◌, length, filter, MatchOption};
ghost use Rattle.ftpp_base.specs.Lists.{others, is_in};
ghost use Rattle.element_core.specs.Claims.{is_of_copies};
ghost use Rattle.diagnosis.specs.Suspects.{is_left_by, is_suspect, only_one};

use ftpp_base::{Ne, Row};
use std::marker::Model;
use syndrome_log::{Syndrome, SyndromeKind};

/// The elements that can be the faulty one, by what one element noted of the others, ascending. Clauses see their numbers.
#[derive(Drop)]
pub struct Suspects {
    left: Row<Ne, 5>,
}

impl Model for Suspects {
    ghost use Rattle.std.specs.Prelude.{ℕ, List};

    ghost Value = { List ℕ };

    ghost view = { λ s. s.left.items };
}

// An entry of a `Row` needs a value to begin with.
impl Default for Suspects {
    ghost use Rattle.std.specs.Prelude.{[]};

    ghost is_default = { λ s. s ≡ [] };

    fn default() -> Suspects {
        Suspects { left: Row::new() }
    }
}

impl Suspects {
    /// All of `n` elements but `me`.
    #[tactic(auto, using(crate::proofs::Left::below_more, crate::proofs::Left::below_length))]
    pub fn all(n: u8, me: Ne) -> Suspects
        requires n { (n ≡ 4) ⊎ (n ≡ 5) }
        requires me { me < n }
        ensures { result ≡ others n me }
    {
        let mut left = Row::new();
        for place in 0..usize::from(n) {
            left.push(Ne::at(place));
        }
        left.remove(me.index());
        Suspects { left }
    }

    /// Keeps the suspects that an entry of copies names, as accused or as other; any other entry leaves them all.
    pub fn note(&mut self, s: &Syndrome)
        ensures { self.new ≡ filter (is_left_by s.now) self.old }
    {
        if is_of_copies(s.kind) {
            let (accused, other) = (s.accused, s.other);
            self.left.retain(|ne| *ne == accused || *ne == other);
        }
    }

    /// Notes some entries, one after another.
    pub fn note_all(&mut self, noted: &[Syndrome])
        ensures { self.new ≡ filter (is_suspect noted.now) self.old }
    {
        for s in noted {
            self.note(s);
        }
    }

    /// Whether an element is a suspect.
    pub fn has(&self, ne: Ne) -> bool
        ensures { result ≡ is_in self.now ne }
    {
        self.left.iter().any(|left| *left == ne)
    }

    /// The suspect, if exactly one is left.
    pub fn only(&self) -> Option<Ne>
        ensures only { result ≡ only_one self.now }
        ensures one { MatchOption result (length self.now ≢ 1) (λ ne. self.now ≡ ne ∷ []) }
    {
        match self.left.as_slice() {
            [ne] => Some(*ne),
            _ => None,
        }
    }

    /// The suspects, ascending.
    pub fn left(&self) -> &[Ne]
        ensures left { result.now ≡ self.now }
        ensures few { length result.now ≤ 5 }
    {
        self.left.as_slice()
    }
}

/// Whether an entry of this kind speaks of what two elements sent of a third.
fn is_of_copies(kind: SyndromeKind) -> bool
    ensures { result ≡ is_of_copies kind }
{
    match kind {
        SyndromeKind::P1 | SyndromeKind::P2 | SyndromeKind::D1 | SyndromeKind::D2 => true,
        SyndromeKind::R | SyndromeKind::O | SyndromeKind::V => false,
    }
}
