//! Commands.

/// What a command line asks for. A `config` is the name of a configuration file, which is not empty and does
/// not begin with `-`; without one the built-in table of four elements is meant. `cycles` is 1 to 100,000.
#[derive(Clone, Copy, Debug, PartialEq, Eq)]
pub enum Command<'a> {
    /// Run a script and report.
    Run {
        config: Option<&'a str>,
    },
    /// Run a script and write every frame.
    Trace {
        config: Option<&'a str>,
    },
    /// Say whether a configuration file is valid.
    Check {
        config: &'a str,
    },
    /// Write a configuration file in the newest version.
    Migrate {
        config: &'a str,
    },
    /// Run the generated script of a number, and write its totals.
    Soak {
        start: u64,
        cycles: u32,
    },
    /// Soak from `count` (1 to 64) consecutive numbers; at most 1,000,000 cycles in all.
    Sweep {
        start: u64,
        count: u32,
        cycles: u32,
    },
    /// Write the generated script of a number, of at most 10,000 cycles.
    Make {
        start: u64,
        cycles: u32,
    },
    /// Run one element (0 to 4) over byte streams.
    Node {
        element: u8,
        cycles: u32,
        config: Option<&'a str>,
    },
    /// Say whether a trace follows, where the named element (0 to 4) may be faulty.
    Audit {
        named: Option<u8>,
        config: Option<&'a str>,
    },
    /// Run a script and say which element is suspected.
    Diagnose {
        config: Option<&'a str>,
    },
}
