//! Laws of updates as bytes: the body of each function is empty, and its clauses are the law.

ghost use Rattle.table_update.specs.Grammar.{EachSpelledIsRead, EachReadIsSpelled, GrammarIsRead, OneMeaning, OneSpelling};

/// A packet that spells an update is read as that update, and what is read of a packet is spelled by it: None is read exactly
/// where a packet is outside the grammar, which says field by field what its bytes are.
pub fn reading_is_exact()
    ensures complete { EachSpelledIsRead }
    ensures sound { EachReadIsSpelled }
    ensures grammar { GrammarIsRead }
{}

/// An update has one spelling, and bytes spell one update at most.
pub fn one_spelling()
    ensures bytes { OneSpelling }
    ensures update { OneMeaning }
{}
