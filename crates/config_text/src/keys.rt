//! Which keys a table may have.

ghost use Rattle.std.specs.Prelude.{◌≡◌, Some, None};
ghost use Rattle.toml.specs.View.{table_view};
ghost use Rattle.config_text.specs.Fields.{are_listed};
ghost use Rattle.config_text.specs.Reading.{is_top_key, is_group_key, top_only, group_only};

use crate::errors::{at_top, in_group};
use crate::{ConfigKey, TextError};
use toml::Table;

/// Refuses a document with a key that is not listed at the top.
#[tactic(auto, unfolding(crate::specs::Reading::top_only))]
pub(crate) fn top_only(table: &Table) -> Result<(), TextError>
    ensures { result ≡ top_only (table_view table.now) }
{
    if has_top_keys(table) {
        Ok(())
    } else {
        Err(TextError::Key(at_top(ConfigKey::Other)))
    }
}

/// Refuses a group with a key that is not listed for the version.
#[tactic(auto, unfolding(crate::specs::Reading::group_only))]
pub(crate) fn group_only(version: u16, at: usize, table: &Table) -> Result<(), TextError>
    ensures { result ≡ group_only version at (table_view table.now) }
{
    if has_group_keys(version, table) {
        Ok(())
    } else {
        Err(TextError::Key(in_group(at, ConfigKey::Other)))
    }
}

/// Whether a key is listed at the top.
#[tactic(auto, unfolding(crate::specs::Reading::is_top_key))]
fn is_top_key(key: &str) -> bool
    ensures { result ≡ is_top_key key.now }
{
    key == "version" || key == "elements" || key == "manager" || key == "group"
}

/// Whether a key is listed for a group in that version.
#[tactic(auto, unfolding(crate::specs::Reading::is_group_key))]
fn is_group_key(version: u16, key: &str) -> bool
    ensures { result ≡ is_group_key version key.now }
{
    key == "vid"
        || key == "members"
        || key == "ts"
        || key == "tr"
        || key == "masked"
        || version == 2 && (key == "tx" || key == "outs" || key == "ins")
}

/// Whether all keys of a document are listed.
fn has_top_keys(table: &Table) -> bool
    ensures { result ≡ are_listed is_top_key (table_view table.now) }
{
    'keys: for (key, _value) in table.iter() {
        if !is_top_key(key.as_str()) {
            return false;
        }
    }
    true
}

/// Whether all keys of a group are listed for the version.
fn has_group_keys(version: u16, table: &Table) -> bool
    ensures { result ≡ are_listed (is_group_key version) (table_view table.now) }
{
    'keys: for (key, _value) in table.iter() {
        if !is_group_key(version, key.as_str()) {
            return false;
        }
    }
    true
}
