//! Laws of every exchange in two rounds. Each function states its law as its clause, and does nothing.

ghost use Rattle.std.specs.Prelude.{ℕ};
ghost use Rattle.two_round.specs.Echoes.{Echoes, result_for};
ghost use Rattle.two_round.specs.Agreement.{Agreement, IsAgreed};

/// The law of agreement: among four or five elements, whatever the faulty one sends in both rounds,
/// and to whom, every other element's result for each sender is the agreed value.
pub fn agreement()
    ensures { Agreement }
{}

/// The same for any element that has heard what such rounds let it hear.
pub fn agreement_where_heard()
    ensures { (wide n : ℕ) (x : Echoes) (sender : ℕ) → IsAgreed wide n x sender (result_for x sender) }
{}
