//! What holds of the entries of every exchange: each function here stands for a law, which its clause states, and does nothing.

ghost use Rattle.data_exchange.specs.Laws.{AlikeEntries, EqualEntries, SourceEntries};

/// An exchange that is held alike, and is not of one source, has the common packet as its entry at
/// every receiver.
pub fn alike_entries()
    ensures { AlikeEntries }
{}

/// An exchange of one source that is fault-free and admitted has that source's packet as its entry at
/// every receiver.
pub fn source_entries()
    ensures { SourceEntries }
{}

/// Entries of two rounds do not depend on the receiver.
pub fn equal_entries()
    ensures { EqualEntries }
{}
