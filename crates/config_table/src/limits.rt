//! The numbers that bound a table.

/// The fewest live members of the group that may update the table.
pub const FEWEST_MANAGERS: u8 = 3;

/// The longest timeout or expiry, in cycles.
pub const LONGEST_WAIT: u16 = 1000;

/// The most packets that the output or the input of a port holds.
pub const MOST_SLOTS: u8 = 64;

/// How many packets the output of a port holds, unless its group says otherwise.
pub const USUAL_OUTS: u8 = 16;

/// How many packets the input of a port holds, unless its group says otherwise.
pub const USUAL_INS: u8 = 32;
