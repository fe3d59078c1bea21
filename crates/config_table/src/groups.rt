//! Virtual groups.

ghost use Rattle.std.specs.Prelude.{◌≡◌, ◌≤◌, length, map};
ghost use Rattle.config_table.specs.Groups.{is_live, live_count, proc_at, usual_group};

use crate::lookups::unmasked;
use crate::{USUAL_INS, USUAL_OUTS};
use ftpp_base::{Proc, Row, Set8};

/// A group: its number, its members, which of them are masked, its timeouts, its expiry and the limits of its ports.
#[derive(Debug, Drop, PartialEq, Eq)]
pub struct Group {
    /// The group's number; in a valid table 1 to 254.
    pub vid: u8,
    /// The members, each at an element of its own.
    pub members: Row<Proc, 4>,
    /// The indices of the members that are not live.
    pub masked: Set8,
    /// How many cycles a request waits for members that do not hold it; 1 to 1,000.
    pub ts: u16,
    /// How many cycles in a row a member with a full input is waited for; 1 to 1,000.
    pub tr: u16,
    /// How many cycles in a row a request to the group waits while most inputs are full; at most 1,000, and 0 means without end.
    pub tx: u16,
    /// How many packets the output of a member's port holds; 1 to 64.
    pub outs: u8,
    /// How many packets the input of a member's port holds; 1 to 64.
    pub ins: u8,
}

impl Group {
    /// The group of that number with these members, each by its element and its port, and with what a group
    /// usually has: nobody is masked, `ts` is 3, `tr` 2, `tx` 0, `outs` 16 and `ins` 32.
    pub fn usual(vid: u8, members: &[(u8, u8)]) -> Group
        requires { length members.now ≤ 4 }
        ensures { result ≡ usual_group vid (map proc_at members.now) }
    {
        Group {
            vid,
            members: procs_at(members),
            masked: Set8::EMPTY,
            ts: 3,
            tr: 2,
            tx: 0,
            outs: USUAL_OUTS,
            ins: USUAL_INS,
        }
    }

    /// The same group again.
    pub fn copy(&self) -> Group
        ensures { result ≡ self.now }
    {
        let mut members: Row<Proc, 4> = Row::new();
        members
            .try_extend_from_slice(self.members.as_slice())
            .unwrap();
        Group {
            vid: self.vid,
            members,
            masked: self.masked,
            ts: self.ts,
            tr: self.tr,
            tx: self.tx,
            outs: self.outs,
            ins: self.ins,
        }
    }

    /// Whether there is a member of that index and it is not masked.
    pub fn is_live(&self, index: u8) -> bool
        ensures { result ≡ is_live self.now index }
    {
        usize::from(index) < self.members.len() && !self.masked.has(index)
    }

    /// How many members are not masked.
    pub fn live_count(&self) -> u8
        ensures count { result ≡ live_count self.now }
        ensures few { result ≤ 4 }
    {
        unmasked(&self.masked, self.members.as_slice())
    }
}

/// The processors at these elements and ports.
fn procs_at(seats: &[(u8, u8)]) -> Row<Proc, 4>
    requires { length seats.now ≤ 4 }
    ensures { result.items ≡ map proc_at seats.now }
{
    let mut procs: Row<Proc, 4> = Row::new();
    for &(ne, port) in seats {
        procs.push(Proc { ne, port });
    }
    procs
}

// an entry of a `Row` needs a value to begin with
impl Default for Group {
    fn default() -> Group {
        Group {
            vid: 0,
            members: Row::new(),
            masked: Set8::EMPTY,
            ts: 0,
            tr: 0,
            tx: 0,
            outs: 0,
            ins: 0,
        }
    }
}
