//! Why a configuration file is refused.

ghost use Rattle.std.specs.Prelude.{◌≡◌, Some, None};
ghost use Rattle.config_text.specs.Fields.{place, text_code};

use config_table::ConfigError;
use thiserror::Error;

/// A key of a configuration file.
#[derive(Clone, Copy, Debug, PartialEq, Eq)]
pub enum ConfigKey {
    Version,
    Elements,
    Manager,
    Groups,
    Vid,
    Members,
    Ts,
    Tr,
    Masked,
    Tx,
    Outs,
    Ins,
    /// A key that is not listed.
    Other,
}

/// Where a key stands: at the top, or in the group of a place from 0.
#[derive(Clone, Copy, Debug, PartialEq, Eq)]
pub struct Place {
    pub group: Option<usize>,
    pub key: ConfigKey,
}

/// The first test that a configuration file fails.
#[derive(Debug, Drop, PartialEq, Eq, Error)]
pub enum TextError {
    /// The text is no TOML document.
    #[error("NotToml")]
    NotToml,
    /// A key that must stand is absent, or a key is not listed.
    #[error("Key")]
    Key(Place),
    /// A value is of another kind, or out of its range.
    #[error("Kind")]
    Kind(Place),
    /// The table breaks a clause.
    #[error("Table")]
    Table(ConfigError),
    /// The system gave no memory.
    #[error("Memory")]
    Memory,
}

impl TextError {
    /// The number of the test: 13 NotToml, 14 Key, 15 Kind, or that of the table's clause. None for Memory alone.
    pub fn code(&self) -> Option<u8>
        ensures { result ≡ text_code self.now }
    {
        match self {
            TextError::Table(error) => Some(error.code()),
            TextError::NotToml => Some(13),
            TextError::Key(_) => Some(14),
            TextError::Kind(_) => Some(15),
            TextError::Memory => None,
        }
    }
}

/// The place of a key at the top.
pub(crate) fn at_top(key: ConfigKey) -> Place
    ensures { result ≡ place None key }
{
    Place { group: None, key }
}

/// The place of a key in a group.
pub(crate) fn in_group(at: usize, key: ConfigKey) -> Place
    ensures { result ≡ place (Some at) key }
{
    Place {
        group: Some(at),
        key,
    }
}
