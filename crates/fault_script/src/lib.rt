//! What the faulty element does to its frames.
#![tactic(auto)]

mod adversaries;
mod kept;
mod players;

pub use adversaries::{Adversary, NoFault};
use frame_format::FrameBuf;
use ftpp_base::{Ne, Round};
pub use players::Player;

/// What is done to a frame.
#[derive(Debug, Drop)]
pub enum EditKind {
    /// No bytes are sent.
    Drop,
    /// The byte at the offset (0 to 330) is changed by exclusive or; nothing past the frame's end.
    Flip { offset: u16, bits: u8 },
    /// These bytes are sent.
    Send(FrameBuf),
    /// The unedited frame of the same round of the cycle before is sent.
    Repeat,
}

/// A change of the frames of the faulty element in a cycle: in one round or in any, to one element or to all.
#[derive(Debug, Drop)]
pub struct Edit {
    pub cycle: u32,
    pub round: Option<Round>,
    pub to: Option<Ne>,
    pub what: EditKind,
}
