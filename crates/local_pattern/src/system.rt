//! The agreed pattern: what the ports of all elements show.

ghost use Rattle.std.specs.Prelude.{◌≡◌, ◌<◌, [], length, replicate, slice_set, slice_index_or, option_map, IfSome, IsSome, IsNone, ◌↔◌};
ghost use Rattle.local_pattern.specs.Pattern.{entry_of, quiet, quiet_column, read_column};

use crate::spelling::QUIET;
use crate::{Entry, LocalPattern};
use ftpp_base::{Ne, Proc};
use std::marker::Model;

/// The local patterns of `N` elements, by element. Clauses see the list of columns.
#[derive(Clone, Copy, Debug, PartialEq, Eq)]
pub struct SystemPattern<const N: usize> {
    columns: [LocalPattern; N],
}

impl<const N: usize> Model for SystemPattern<N> {
    ghost use Rattle.std.specs.Prelude.{◌≡◌, List, length};
    ghost use Rattle.local_pattern.specs.declared.Entry.{Entry};

    ghost Value = { List (List Entry) };

    ghost view = { λ p. p.columns };

    ghost invariant = { λ p. length p.columns ≡ N };

    ghost inverse = { λ l. record { columns = l } };
}

impl<const N: usize> SystemPattern<N> {
    /// No request and no space at any port of any element.
    pub fn quiet() -> SystemPattern<N>
        ensures { result ≡ replicate N quiet_column }
    {
        SystemPattern {
            columns: [LocalPattern::quiet(); N],
        }
    }

    /// How many elements there are.
    pub fn elements(&self) -> usize
        ensures count { result ≡ N }
        ensures length { length self.now ≡ N }
    {
        self.columns.as_slice().len()
    }

    /// Changes what the ports of an element show.
    pub fn set_column(&mut self, ne: Ne, column: LocalPattern)
        requires { ne < N }
        ensures { self.new ≡ slice_set self.old ne column }
    {
        self.columns[ne.index()] = column;
    }

    /// Changes what the ports of an element show to what a row shows.
    pub fn reread(&mut self, ne: Ne, cell: Option<&[u8; 32]>)
        requires { ne < N }
        ensures { self.new ≡ slice_set self.old ne (read_column (option_map (λ row. row.now) cell.entry)) }
    {
        self.columns[ne.index()].reread(cell);
    }

    /// What the ports of an element show.
    pub fn column(&self, ne: Ne) -> &LocalPattern
        requires { ne < N }
        ensures { result.now ≡ slice_index_or self.now ne [] }
    {
        &self.columns[ne.index()]
    }

    /// What a processor's port shows.
    pub fn entry(&self, proc: Proc) -> Entry
        requires element { proc.ne < N }
        requires port { proc.port < 8 }
        ensures { result ≡ entry_of self.now proc }
    {
        self.columns[usize::from(proc.ne)].entry(proc.port)
    }

    /// What a processor's port shows, lent; None for a processor that is not there.
    #[tactic(auto, using(std::proofs::lemmas::List::get_or_past))]
    pub fn peek(&self, proc: Proc) -> Option<&Entry>
        ensures here { IsSome result ↔ ((proc.ne < N) × (proc.port < 8)) }
        ensures some { IfSome result (λ entry. entry.now ≡ entry_of self.now proc) }
        ensures none { IsNone result → entry_of self.now proc ≡ quiet }
    {
        let ne = usize::from(proc.ne);
        if ne < self.columns.len() {
            self.columns[ne].peek(proc.port)
        } else {
            None
        }
    }

    /// Like `entry`, but for any processor: one that is not there shows no request and no space.
    #[tactic(auto, using(std::proofs::lemmas::List::get_or_past))]
    pub fn shown(&self, proc: Proc) -> Entry
        ensures { result ≡ entry_of self.now proc }
    {
        let ne = usize::from(proc.ne);
        if ne < self.columns.len() {
            self.columns[ne].shown(proc.port)
        } else {
            QUIET
        }
    }
}
