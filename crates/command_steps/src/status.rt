//! How a call ends.

ghost use Rattle.std.specs.Prelude.{◌≡◌};

/// How a call of `top` ended.
#[derive(Clone, Copy, Debug, PartialEq, Eq)]
pub enum Status {
    /// All was read and the whole output was written.
    Done,
    /// The words are not lawful.
    Usage,
    /// A line of the script is refused, with this code.
    Script { line: u32, code: u8 },
    /// The configuration file is refused, with this code.
    Config { code: u8 },
    /// A read or a load failed.
    Read,
    /// A write failed; what is written is a prefix of the output.
    Write,
    /// The system gave no memory, and nothing was written.
    Memory,
    /// A script has more than 8,388,608 bytes, or a configuration file more than 1,048,576.
    TooLong,
    /// The byte stream of a node breaks, in this cycle and with this code.
    Stream { cycle: u32, code: u8 },
}

impl Status {
    ghost use Rattle.command_steps.specs.Ends.{exit_of};

    /// The exit of the program: 0 for what is done.
    pub fn exit(self) -> u8
        ensures { result ≡ exit_of self }
    {
        match self {
            Status::Done => 0,
            Status::Usage => 1,
            Status::Script { .. } => 2,
            Status::Config { .. } => 3,
            Status::Read => 4,
            Status::Write => 5,
            Status::Memory => 6,
            Status::TooLong => 7,
            Status::Stream { .. } => 8,
        }
    }
}
