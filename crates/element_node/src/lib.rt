//! One element over byte streams. Its input has the acts of its own processors and the frames of the other elements; its
//! output has the answers to the acts and its own frames. `serve_node` writes the node text of what it read, says where
//! the input ended or broke, and reads nothing that is not due before it wrote what is.
#![tactic(auto)]

mod acting;
mod acts;
mod frames;
pub mod laws;
mod reading;
mod serving;

pub use serving::serve_node;

/// How a node ended.
#[derive(Clone, Copy, Debug, PartialEq, Eq)]
pub enum NodeEnd {
    /// The input was whole, and all was written.
    Done,
    /// The input ended or broke in a cycle, 0 to `cycles`, with a code: 1 where it ended before the end of the last cycle,
    /// 2 where there are more than 80 acts, 3 where an act begins with a byte other than 1 and 2, 4 where a port is not
    /// below 8, 5 where a length is above 331, 6 where a byte follows the last cycle.
    Stream { cycle: u32, code: u8 },
    /// A read failed.
    Read,
    /// A write failed.
    Write,
    /// The system gave no memory. Nothing was read or written.
    Memory,
}

/// Why a call within a cycle goes no further.
#[derive(Clone, Copy, Debug, PartialEq, Eq)]
pub(crate) enum Halt {
    /// The input ended.
    Ended,
    /// A byte broke the input, with this code.
    Broken(u8),
    /// A read failed.
    Read,
    /// A write failed.
    Write,
}
