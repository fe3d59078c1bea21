//! What processors do before the rounds of a cycle, and what they are answered.

ghost use Rattle.std.specs.Prelude.{◌≡◌};

use crate::{Delivered, Descriptor, Packet};
use ftpp_base::{Proc, Row};

/// What a processor does before the rounds of a cycle.
#[derive(Clone, Copy, Debug, PartialEq, Eq)]
pub enum Act {
    /// Gives a packet to be sent.
    Post {
        proc: Proc,
        desc: Descriptor,
        packet: Packet,
    },
    /// Takes the oldest packet that waits to be read.
    Read(Proc),
}

impl Default for Act {
    ghost use Rattle.packet_format.specs.declared.acts.Act.{Act};

    ghost is_default = { λ act. act ≡ Act.Read (record { ne = 0; port = 0 }) };

    fn default() -> Act {
        Act::Read(Proc::default())
    }
}

/// The answer to an act.
#[derive(Clone, Copy, Debug, PartialEq, Eq)]
pub enum ActAnswer {
    /// The packet waits to be sent.
    Posted,
    /// The output of the port is full.
    PostFull,
    /// The oldest packet that waited to be read.
    Got(Delivered),
    /// No packet waits to be read.
    Nothing,
}

impl Default for ActAnswer {
    ghost use Rattle.packet_format.specs.declared.acts.ActAnswer.{ActAnswer};

    ghost is_default = { λ answer. answer ≡ ActAnswer.Nothing };

    fn default() -> ActAnswer {
        ActAnswer::Nothing
    }
}

/// The most acts of one cycle.
pub const MOST_ACTS: usize = 80;

/// The acts of all processors in one cycle, in order.
pub type HostActs = Row<Act, MOST_ACTS>;
