//! What one element holds of an exchange, and what it makes of it.

ghost use Rattle.std.specs.Prelude.{◌≡◌, ◌≢◌, ◌↔◌, ℕ, ◌<◌, ◌≤◌, ◌^◌, true, false, IsTrue, option_copied, length, slice_index};
ghost use Rattle.bit_vote.specs.Vote.{IsCell};
ghost use Rattle.ftpp_base.specs.Lists.{cell_at, each_below};
ghost use Rattle.ftpp_base.specs.Sets.{has};
ghost use Rattle.two_round.specs.Echoes.{no_echoes, with_copy, with_relayed, relayed_at, word_of, result_for, result_of, AreAlike, IsUnanimous};
ghost use Rattle.two_round.specs.Agreement.{IsAgreed};

use bit_vote::{Cells, same_bytes, vote_lanes};
use ftpp_base::{Ne, Row, Set8};
use std::marker::Model;

/// What every optional row is: a row of bytes of its width, or none.
fn is_cell<const B: usize>(cell: Option<&[u8; B]>)
    ensures { IsCell B (option_copied cell.entry) }
{
    if let Some(row) = cell {
        is_row(row);
    }
}

/// What every row is: bytes, as many as it is wide.
fn is_row<const B: usize>(row: &[u8; B])
    ensures long { length row.now ≡ B }
    ensures bytes { (k : ℕ) → slice_index row.now k < 256 }
{
    are_bytes(&row[..]);
}

/// What is in a slice of bytes.
fn are_bytes(bytes: &[u8])
    ensures { (k : ℕ) → slice_index bytes.now k < 256 }
{
    let _length = bytes.len();
}

/// Whether two optional rows are equal.
fn is_same<const B: usize>(one: Option<&[u8; B]>, other: Option<&[u8; B]>) -> bool
    ensures { IsTrue result ↔ (option_copied one.entry ≡ option_copied other.entry) }
{
    match (one, other) {
        (Some(one), Some(other)) => same_bytes(one, other),
        (None, None) => true,
        _ => false,
    }
}

/// What one element holds of an exchange in two rounds among `N` elements. A cell is an optional row of
/// `B` bytes.
#[derive(Clone, Copy, Debug)]
pub struct TwoRound<const N: usize, const B: usize> {
    /// The element that holds it.
    me: Ne,
    /// The first-round copies by sender, its own value included.
    copies: Cells<N, B>,
    /// The second-round cells by relay and sender.
    relayed: [Cells<N, B>; N],
}

impl<const N: usize, const B: usize> Model for TwoRound<N, B> {
    ghost use Rattle.std.specs.Prelude.{◌≡◌, ◌<◌, ◌≤◌, ◌^◌, length};
    ghost use Rattle.two_round.specs.Echoes.{Echoes};

    ghost Value = { Echoes };

    ghost view = { λ x. record { me = x.me; copies = x.copies; relayed = x.relayed } };

    ghost invariant = { λ x. (x.me < N) × (N ≤ 5) × (length x.copies ≡ N) × (length x.relayed ≡ N) × (B < 2 ^ 32) };

    ghost inverse = { λ x. record { me = x.me; copies = x.copies; relayed = x.relayed } };
}

impl<const N: usize, const B: usize> TwoRound<N, B> {
    /// The exchange of element `me`, which has heard nothing.
    pub fn new(me: Ne) -> TwoRound<N, B>
        requires among { me < N }
        requires few { N ≤ 5 }
        requires small { B < 2 ^ 32 }
        ensures { result ≡ no_echoes N me }
    {
        TwoRound {
            me,
            copies: Cells::absent(),
            relayed: [Cells::absent(); N],
        }
    }

    /// Forgets all that was heard.
    pub fn restart(&mut self)
        ensures { self.new ≡ no_echoes N self.old.me }
    {
        *self = TwoRound::new(self.me);
    }

    /// The element that holds it.
    pub fn me(&self) -> Ne
        ensures me { result ≡ self.now.me }
        ensures among { result < N }
        ensures few { N ≤ 5 }
    {
        // Without a read of the copies the check does not find their type, and refuses this call.
        let _copies = self.copies.len();
        self.me
    }

    /// Takes the element's own value.
    pub fn first(&mut self, own: Option<[u8; B]>)
        ensures { self.new ≡ with_copy self.old self.old.me own.entry }
    {
        self.copies.set(self.me.index(), own);
    }

    /// Takes the value that another element sent in the first round.
    pub fn take_first(&mut self, from: Ne, cell: Option<[u8; B]>)
        requires among { from < N }
        requires other { from ≢ self.old.me }
        ensures { self.new ≡ with_copy self.old from cell.entry }
    {
        self.copies.set(from.index(), cell);
    }

    /// What the element sends in the second round: its first-round copies, its own value included.
    pub fn echo(&self) -> Cells<N, B>
        ensures { result ≡ self.now.copies }
    {
        self.copies
    }

    /// The first-round copies where they lie, its own value included.
    pub fn copies(&self) -> &Cells<N, B>
        ensures { result.now ≡ self.now.copies }
    {
        &self.copies
    }

    /// Takes the copies that another element sent in the second round.
    pub fn take_echo(&mut self, from: Ne, cells: Cells<N, B>)
        requires among { from < N }
        requires other { from ≢ self.old.me }
        ensures { self.new ≡ with_relayed self.old from cells.entry }
    {
        self.relayed[from.index()] = cells;
    }

    /// The first-round copy of a source.
    pub fn copy(&self, source: Ne) -> Option<[u8; B]>
        requires { source < N }
        ensures { result ≡ cell_at self.now.copies source }
    {
        self.copies.get(source.index())
    }

    /// The second-round cell of a relay about a source.
    pub fn relayed(&self, relay: Ne, source: Ne) -> Option<[u8; B]>
        requires relay { relay < N }
        requires source { source < N }
        requires other { relay ≢ self.now.me }
        ensures { result ≡ relayed_at self.now relay source }
    {
        self.relayed[relay.index()].get(source.index())
    }

    /// The word of element `of` about a source: the own copy, or the cell that `of` relayed.
    fn word(&self, of: usize, source: usize) -> Option<[u8; B]>
        requires of { of < N }
        requires source { source < N }
        ensures { result ≡ word_of self.now source of }
    {
        if of == self.me.index() {
            self.copies.get(source)
        } else {
            self.relayed[of].get(source)
        }
    }

    /// Whether the word of an element about a source is the own copy.
    fn is_own_copy(&self, of: usize, source: usize) -> bool
        requires of { of < N }
        requires source { source < N }
        ensures { IsTrue result ↔ (word_of self.now source of ≡ cell_at self.now.copies source) }
    {
        of == self.me.index() || is_same(self.relayed[of].row(source), self.copies.row(source))
    }

    /// Whether there are two elements or more, and the word of each but the source is the own copy. Then so is the vote.
    fn is_alike(&self, source: usize) -> bool
        requires { source < N }
        ensures alike { IsTrue result ↔ AreAlike N self.now source }
        ensures voted { IsTrue result → cell_at self.now.copies source ≡ result_for self.now source }
    {
        let elements = self.copies.len();
        if elements < 2 {
            return false;
        }
        for of in 0..elements {
            if of != source && !self.is_own_copy(of, source) {
                return false;
            }
        }
        is_cell(self.copies.row(source));
        true
    }

    /// The vote over the words of all elements but the source, counted bit by bit.
    fn counted(&self, source: usize) -> Option<[u8; B]>
        requires { source < N }
        ensures { result ≡ result_for self.now source }
    {
        let elements = self.copies.len();
        let mut words = Row::<Option<[u8; B]>, N>::new();
        for of in 0..elements {
            if of != source {
                words.push(self.word(of, source));
            }
        }
        vote_lanes(words.as_slice())
    }

    /// The vote over the words of all elements but the source. Where all words are the own copy, so is the vote,
    /// and nothing is counted.
    fn voted(&self, source: usize) -> Option<[u8; B]>
        requires { source < N }
        ensures { result ≡ result_for self.now source }
    {
        if self.is_alike(source) {
            self.copies.get(source)
        } else {
            self.counted(source)
        }
    }

    /// The result for a source: the vote over the words of all elements but the source. None exactly
    /// where at most half of these are present.
    pub fn result(&self, source: Ne) -> Option<[u8; B]>
        requires { source < N }
        ensures vote { result ≡ result_for self.now source }
        // Also for the faulty source, it is the value that every other element comes to.
        ensures agreed { IsAgreed B N self.now source result }
    {
        self.voted(source.index())
    }

    /// The results for all sources, by source.
    pub fn results(&self) -> Cells<N, B>
        ensures results { result ≡ each_below N (result_for self.now) }
        ensures few { N ≤ 5 }
    {
        // room that `settle_all` writes over
        let mut results = self.copies;
        let _differing = self.settle_all(&mut results);
        results
    }

    /// The results for the sources of a set, by source. The results for all others are absent.
    pub fn results_of(&self, sources: Set8) -> Cells<N, B>
        ensures results { result ≡ each_below N (result_of sources self.now) }
        ensures few { N ≤ 5 }
    {
        // room that `settle` writes over
        let mut results = self.copies;
        let _differing = self.settle(sources, &mut results);
        results
    }

    /// Like `results_of`, but writes the results over other ones, and tells the sources of the set about which some word is
    /// not the own copy. The words about any other source of the set are all equal to its result.
    pub fn settle(&self, sources: Set8, results: &mut Cells<N, B>) -> Set8
        ensures results { results.new ≡ each_below N (result_of sources self.now) }
        ensures few { N ≤ 5 }
        ensures differing { (s : ℕ) → s < N → (has result s ≡ true) ↔ ((has sources s ≡ true) × (AreAlike N self.now s → ⊥)) }
        ensures alike { (s : ℕ) → s < N → has sources s ≡ true → has result s ≡ false → IsUnanimous N self.now s }
    {
        // the copy is the result where the words are alike
        *results = self.copies;
        let mut differing = Set8::EMPTY;
        for source in 0..self.copies.len() {
            if !sources.has(source as u8) {
                results.set(source, None);
            } else if !self.is_alike(source) {
                results.set(source, self.counted(source));
                differing = differing.with(source as u8);
            }
        }
        differing
    }

    /// The same for all sources.
    pub fn settle_all(&self, results: &mut Cells<N, B>) -> Set8
        ensures results { results.new ≡ each_below N (result_for self.now) }
        ensures few { N ≤ 5 }
        ensures differing { (s : ℕ) → s < N → (has result s ≡ true) ↔ (AreAlike N self.now s → ⊥) }
        ensures alike { (s : ℕ) → s < N → has result s ≡ false → IsUnanimous N self.now s }
    {
        // A set has all of them, since there are at most five.
        self.settle(Set8 { bits: 0xff }, results)
    }
}
