//! Optional rows, kept as rows of bytes and the set of those that are present.

ghost use Rattle.std.specs.Prelude.{◌≡◌, ℕ, ◌<◌, ◌^◌, None, length, slice_set, replicate, option_copied};
ghost use Rattle.ftpp_base.specs.Lists.{cell_at};

use std::marker::Model;

/// A list of `N` optional rows of `B` bytes. Clauses see the list itself.
#[derive(Clone, Copy, Debug, PartialEq, Eq)]
pub struct Cells<const N: usize, const B: usize> {
    /// Whether each row is present.
    present: [bool; N],
    /// The rows. An absent one is kept as zeros, so that equal lists are kept alike.
    rows: [[u8; B]; N],
}

impl<const N: usize, const B: usize> Model for Cells<N, B> {
    ghost use Rattle.std.specs.Prelude.{◌≡◌, ◌<◌, ◌^◌, ℕ, Bool, List, Option, length, map};
    ghost use Rattle.std.proofs.Common.{ap};
    ghost use Rattle.bit_vote.specs.Packing.{packed, AreZeroed, row_of, test_of, packed_again};

    ghost Value = { List (Option (List ℕ)) };

    ghost view = { λ c. packed c.present c.rows };

    ghost invariant = { λ c. (length c.present ≡ N) × (length c.rows ≡ N) × AreZeroed B c.present c.rows × (B < 2 ^ 32) };

    ghost inverse = { λ l. record { present = map test_of l; rows = map (row_of B) l } };

    ghost inverse_ok = { λ a h. ap (λ (x : List Bool × List (List ℕ)). record { present = x.0; rows = x.1 }) (packed_again B a.present a.rows h.2) };
}

impl<const N: usize, const B: usize> Cells<N, B> {
    /// No row is present.
    pub fn absent() -> Cells<N, B>
        requires { B < 2 ^ 32 }
        ensures none { result ≡ replicate N None }
        ensures length { length result ≡ N }
    {
        Cells {
            present: [false; N],
            rows: [[0; B]; N],
        }
    }

    /// How many places there are.
    pub fn len(&self) -> usize
        ensures count { result ≡ N }
        ensures length { length self.now ≡ N }
    {
        self.present.as_slice().len()
    }

    /// The row at place `i`, if it is present.
    pub fn get(&self, i: usize) -> Option<[u8; B]>
        requires { i < N }
        ensures cell { result ≡ cell_at self.now i }
        ensures length { length self.now ≡ N }
    {
        if self.present[i] {
            Some(self.rows[i])
        } else {
            None
        }
    }

    /// The row at place `i` where it lies, if it is present.
    pub fn row(&self, i: usize) -> Option<&[u8; B]>
        requires { i < N }
        ensures cell { option_copied result ≡ cell_at self.now i }
        ensures length { length self.now ≡ N }
    {
        if self.present[i] {
            Some(&self.rows[i])
        } else {
            None
        }
    }

    /// Puts a row, or none, at place `i`.
    pub fn set(&mut self, i: usize, cell: Option<[u8; B]>)
        requires { i < N }
        ensures set { self.new ≡ slice_set self.old i cell.entry }
        ensures length { length self.new ≡ N }
    {
        match cell {
            None => {
                self.present[i] = false;
                self.rows[i] = [0; B];
            }
            Some(row) => {
                self.present[i] = true;
                self.rows[i] = row;
            }
        }
    }
}
