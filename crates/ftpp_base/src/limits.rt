//! Numbers that hold for every cluster.

/// The most network elements of a cluster.
pub const MOST_ELEMENTS: u8 = 5;

/// How many ports each element has. They are numbered from 0.
pub const PORTS: u8 = 8;

/// The most processors of a cluster: one at each port of each element.
pub const MOST_PROCESSORS: usize = 40;

/// The most groups of a cluster.
pub const MOST_GROUPS: usize = 40;

/// The most cycles of a run.
pub const MOST_CYCLES: u32 = 100_000;
