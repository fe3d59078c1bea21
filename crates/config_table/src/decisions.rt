//! What a cycle's pattern says of each group, and what is decided on it.

use ftpp_base::{MOST_GROUPS, Ne, Row, Set8};
use packet_format::Descriptor;

/// What a group's members agree on in one pattern. The sets are of elements.
#[derive(Clone, Copy, Debug, PartialEq, Eq)]
pub struct GroupFlags {
    pub vid: u8,
    /// The descriptor that more than half of the live members hold.
    pub desc: Option<Descriptor>,
    /// Whether all live members hold it; false where there is none.
    pub unanimous: bool,
    /// Where the live members stand.
    pub live: Set8,
    /// Where those of them stand that hold the voted descriptor; empty where there is none.
    pub holds: Set8,
    /// Where those of them stand that say that their input is not full.
    pub space: Set8,
    /// Whether more than half of the live members say so.
    pub most_space: bool,
}

// an entry of a `Row` needs a value to begin with
impl Default for GroupFlags {
    fn default() -> GroupFlags {
        GroupFlags {
            vid: 0,
            desc: None,
            unanimous: false,
            live: Set8::EMPTY,
            holds: Set8::EMPTY,
            space: Set8::EMPTY,
            most_space: false,
        }
    }
}

/// What each group's members agree on, one row for each group in the order of the table.
pub type VotedFlags = Row<GroupFlags, MOST_GROUPS>;

/// How a request is carried.
#[derive(Clone, Copy, Debug, PartialEq, Eq)]
pub enum Kind {
    /// In one round, with a vote over the copies of all that contribute.
    Voted,
    /// In two rounds, from this element alone.
    Source(Ne),
    /// In two rounds, from each element that contributes.
    Every,
}

/// A request that is served.
#[derive(Clone, Copy, Debug, PartialEq, Eq)]
pub struct Service {
    pub vid: u8,
    pub desc: Descriptor,
    pub kind: Kind,
    /// The elements of the live members that hold the descriptor.
    pub admitted: Set8,
    /// How many cycles the request waited.
    pub waited: u32,
}

/// What is done in a cycle.
#[derive(Clone, Copy, Debug, PartialEq, Eq)]
pub enum Decision {
    Idle,
    /// A request that is not lawful or has expired, with the reason, 1 to 6.
    Discard {
        vid: u8,
        desc: Descriptor,
        reason: u8,
        admitted: Set8,
        waited: u32,
    },
    Exchange(Service),
}

/// What the scoreboard keeps of a group.
#[derive(Clone, Copy, Debug, PartialEq, Eq)]
pub struct StateRow {
    pub vid: u8,
    /// Its request, the cycle since which it stands, and how many cycles in a row its destination had no space.
    pub request: Option<(Descriptor, u32, u32)>,
    /// How many cycles in a row each member was full while the group had most space.
    pub lags: [u32; 4],
}

// an entry of a `Row` needs a value to begin with
impl Default for StateRow {
    fn default() -> StateRow {
        StateRow {
            vid: 0,
            request: None,
            lags: [0; 4],
        }
    }
}
