//! The clauses of a valid table.

ghost use Rattle.std.specs.Prelude.{◌≡◌};
ghost use Rattle.config_table.specs.Table.{error_code};

use ftpp_base::Proc;

/// The first clause that a table breaks, with what breaks it.
#[derive(Clone, Copy, Debug, PartialEq, Eq)]
pub enum ConfigError {
    /// There are not four or five elements.
    Elements { n: u8 },
    /// There is no group, or there are more than 40.
    GroupCount { count: usize },
    /// A group has the number 0 or 255.
    Vid { vid: u8 },
    /// A group's number is not greater than that of the group before.
    VidOrder { vid: u8 },
    /// A group does not have one, three or four members.
    Size { vid: u8, size: u8 },
    /// A member's element is not below `n`, or its port is not below 8.
    MemberRange { vid: u8, proc: Proc },
    /// A member stands at the element of an earlier member.
    SameElement { vid: u8, ne: u8 },
    /// A member is a member of an earlier group.
    SharedProcessor { vid: u8, proc: Proc },
    /// A bit at or above the size is masked, or no member is live.
    Masked { vid: u8, masked: u8 },
    /// `ts`, or else `tr`, is not in 1 to 1,000.
    Timeout { vid: u8, value: u16 },
    /// `tx` is greater than 1,000.
    Expiry { vid: u8, value: u16 },
    /// `outs`, or else `ins`, is not in 1 to 64.
    Slots { vid: u8, value: u8 },
    /// No group has the manager's number.
    Manager { manager: u8 },
    /// The manager has fewer than three live members.
    ManagerLive { manager: u8, live: u8 },
}

impl ConfigError {
    /// The number of the clause: 1 to 12, 16 or 17.
    pub fn code(&self) -> u8
        ensures { result ≡ error_code self.now }
    {
        match self {
            ConfigError::Elements { .. } => 1,
            ConfigError::GroupCount { .. } => 2,
            ConfigError::Vid { .. } => 3,
            ConfigError::VidOrder { .. } => 4,
            ConfigError::Size { .. } => 5,
            ConfigError::MemberRange { .. } => 6,
            ConfigError::SameElement { .. } => 7,
            ConfigError::SharedProcessor { .. } => 8,
            ConfigError::Masked { .. } => 9,
            ConfigError::Timeout { .. } => 10,
            ConfigError::Manager { .. } => 11,
            ConfigError::ManagerLive { .. } => 12,
            ConfigError::Expiry { .. } => 16,
            ConfigError::Slots { .. } => 17,
        }
    }
}
