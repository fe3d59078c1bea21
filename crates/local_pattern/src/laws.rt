//! Laws of patterns as bytes: the body of each function is empty, and its clauses are the law.

ghost use Rattle.local_pattern.specs.Grammar.{EncodedIsRow, GrammarIsSpelled, OneMeaning, OneSpelling, OutsideIsQuiet, RowIsRead, SpelledIsRead};

/// Reading keeps to the grammar, whose definition says field by field which four bytes are an entry: in the grammar bytes are
/// read as the entry that they spell, and outside as no request and no space.
pub fn grammar_of_entries()
    ensures read { SpelledIsRead }
    ensures spelled { GrammarIsSpelled }
    ensures outside { OutsideIsQuiet }
{}

/// The row that is encoded spells the eight entries, which are read of it.
pub fn grammar_of_rows()
    ensures read { RowIsRead }
    ensures encoded { EncodedIsRow }
{}

/// Eight entries have one spelling, and a row spells one list of entries at most.
pub fn one_spelling()
    ensures bytes { OneSpelling }
    ensures entries { OneMeaning }
{}
