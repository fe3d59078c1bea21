//! Laws of many pushes. Each function states its law as its clause, and does nothing.

ghost use Rattle.syndrome_log.specs.Log.{HoldsLastPushed, KeepsLastOfBoth};

/// However many entries are pushed into an empty log one by one, it holds the last 1,024 of them.
pub fn holds_last_pushed()
    ensures { HoldsLastPushed }
{}

/// The entries that a log dropped make no difference to what it holds later.
pub fn keeps_last_of_both()
    ensures { KeepsLastOfBoth }
{}
