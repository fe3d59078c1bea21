//! How an element begins anew, and from the agreed state of the others.

ghost use Rattle.std.specs.Prelude.{◌≡◌, ◌<◌, ◌≤◌, Some, None, IfSome};
ghost use Rattle.rejoin.specs.State.{IsInRange};
ghost use Rattle.element_core.specs.Run.{AgreedState as Agreed};
ghost use Rattle.element_core.specs.ElementValue.{begins_with, fresh, rejoined_with, state_of};
ghost use Rattle.element_core.specs.Rejoins.{IsStateOf, others_vote, IsVotedState, IsRejoined};

use crate::{Due, Element, Rejoined};
use bit_vote::{Cells, vote_lanes};
use config_table::Table;
use ftpp_base::{Round, Row};
use rejoin::{AgreedState, decode_state};

impl<const N: usize> Element<N> {
    /// The bytes of its agreed state: the cycle that comes next, the table, and what the scoreboard keeps of each group.
    pub fn state(&self) -> [u8; 1887]
        requires due { self.now.due ≡ Due.Emit Round.A1 }
        ensures { IsStateOf result (state_of self.now) }
    {
        self.kept.state()
    }

    /// Begins anew on a table, as an element that is made of it, in the memory that it has.
    pub fn reset(&mut self, table: &Table)
        requires { table.now.n ≡ N }
        ensures { self.new ≡ fresh self.old.kept.me table.now }
    {
        self.kept.reset(table);
        self.patterns.restart();
        self.packets.restart();
        self.due = Due::Emit(Round::A1);
        self.last = None;
        self.log.clear();
    }

    /// Takes the agreed state of the others by the vote over what they tell of it, bit by bit, and begins from it with empty
    /// ports. Refused, and nothing changes, exactly where the vote is none, or is no state among as many elements.
    pub fn rejoin(&mut self, states: &Cells<N, 1887>) -> Rejoined
        requires due { self.old.due ≡ Due.Emit Round.A1 }
        ensures { IsRejoined N self.old states.now result self.new }
    {
        match voted_state(self.kept.me().index(), states) {
            Some(state) => {
                self.take(&state);
                Rejoined::Taken
            }
            None => Rejoined::Refused,
        }
    }

    /// Begins from an agreed state, in the memory that it has.
    fn take(&mut self, state: &AgreedState)
        requires size { state.now.table.n ≡ N }
        requires in_range { IsInRange state.now.cycle state.now.table state.now.rows.items }
        ensures { self.new ≡ rejoined_with self.old.kept.me (record { cycle = state.now.cycle; table = state.now.table; scoreboard = state.now.rows.items }) }
    {
        self.kept.take(state);
        self.patterns.restart();
        self.packets.restart();
        self.due = Due::Emit(Round::A1);
        self.last = None;
        self.log.clear();
    }
}

/// The vote over the entries of the other elements, ascending.
fn others_vote<const N: usize>(me: usize, states: &Cells<N, 1887>) -> Option<[u8; 1887]>
    requires few { N ≤ 5 }
    ensures { result ≡ others_vote N me states.now }
{
    let mut cells = Row::<Option<[u8; 1887]>, N>::new();
    for of in 0..N {
        if of != me {
            cells.push(states.get(of));
        }
    }
    vote_lanes(cells.as_slice())
}

/// The state that the others' entries give by their vote. None exactly where there is none among as many elements.
fn voted_state<const N: usize>(me: usize, states: &Cells<N, 1887>) -> Option<AgreedState>
    requires few { N ≤ 5 }
    ensures found { IfSome result (λ s. IsVotedState N me states.now (record { cycle = s.cycle; table = s.table; scoreboard = s.rows.items })) }
    ensures none { result ≡ None → (s : Agreed) → IsVotedState N me states.now s → ⊥ }
{
    let bytes = others_vote(me, states)?;
    let state = decode_state(&bytes)?;
    if usize::from(state.table.n()) == N {
        Some(state)
    } else {
        None
    }
}
