//! Laws of states as bytes: the body of each function is empty, and its clauses are the law.

ghost use Rattle.std.specs.Prelude.{◌≡◌, ◌≤◌, ℕ, List, map, All};
ghost use Rattle.config_table.specs.declared.groups.Group.{Group};
ghost use Rattle.config_table.specs.declared.decisions.StateRow.{StateRow};
ghost use Rattle.config_table.specs.Table.{TableValue, IsValid};
ghost use Rattle.rejoin.specs.declared.AgreedState.{AgreedState};
ghost use Rattle.rejoin.specs.State.{RequestFits, LagsFit, RowFits, IsInRange, IsState, state_bytes};
ghost use Rattle.rejoin.specs.Grammar.{EncodedIsSpelled, StateIsSpelled};

use ftpp_base::MOST_CYCLES;

/// A state has one spelling, and bytes spell one state at most: what is read is encoded to the same bytes, and what
/// was encoded is read back.
pub fn one_spelling()
    ensures bytes { (xs ys : List ℕ) (now : ℕ) (table : TableValue) (rows : List StateRow) → IsState xs now table rows → IsState ys now table rows → xs ≡ ys }
    ensures state { (xs : List ℕ) (s t : AgreedState) → IsState xs s.cycle s.table s.rows.items → IsState xs t.cycle t.table t.rows.items → s ≡ t }
    ensures spelled { (now : ℕ) (table : TableValue) (rows : List StateRow) → IsInRange now table rows → IsState (state_bytes now table rows) now table rows }
{}

/// Bytes are a state exactly where each of their fields is in the grammar, whose definition says field by field what the
/// 1,887 bytes are; and what is encoded is in it.
pub fn grammar_of_states()
    ensures state { StateIsSpelled }
    ensures encoded { EncodedIsSpelled }
{}

/// A valid table is a state with rows that are made of its groups, where each of them fits its group.
pub fn made_of_groups()
    ensures { (now : ℕ) (table : TableValue) (made : Group → StateRow) → now ≤ MOST_CYCLES → IsValid table
        → All (λ g. RowFits now (g, made g)) table.groups → IsInRange now table (map made table.groups) }
{}

/// The rows of a state have the numbers of its groups, in order, and their numbers of cycles are in their ranges.
pub fn rows_of_groups()
    ensures numbered { (now : ℕ) (table : TableValue) (rows : List StateRow) → IsInRange now table rows → map (λ row. row.vid) rows ≡ map (λ g. g.vid) table.groups }
    ensures requests { (now : ℕ) (table : TableValue) (rows : List StateRow) → IsInRange now table rows → All (λ row. RequestFits now row.request) rows }
    ensures lags { (now : ℕ) (table : TableValue) (rows : List StateRow) → IsInRange now table rows → All (λ row. LagsFit now row.lags) rows }
{}
