//! The keys of a table, each with its test, in the order of the format.

ghost use Rattle.std.specs.Prelude.{◌≡◌, ◌≤◌, Some, None, IfOk, option_map, MatchResult, Ok, Err};
ghost use Rattle.toml.specs.Data.{get_member};
ghost use Rattle.toml.specs.View.{view, table_view, array_view};
ghost use Rattle.config_text.specs.Fields.{required, optional};
ghost use Rattle.config_text.specs.Values.{number_of};
ghost use Rattle.config_text.specs.Reading.{version_in, elements_in, manager_in, groups_in, table_at, vid_in, members_in, masked_in, ts_in, tr_in, tx_in, outs_in, ins_in};

use crate::errors::{at_top, in_group};
use crate::values::{number, procs_of, set_of, version_number};
use crate::{ConfigKey, Place, TextError};
use config_table::{USUAL_INS, USUAL_OUTS};
use ftpp_base::{Proc, Row, Set8};
use toml::value::Array;
use toml::{Table, Value};

/// The value at a key.
pub(crate) fn lookup<'a>(table: &'a Table, name: &str) -> Option<&'a Value>
    ensures { option_map (λ v. view v.now) result ≡ get_member name.now (table_view table.now) }
{
    table.get(name)
}

/// The number that must stand at a key.
fn number_at(table: &Table, name: &str, at: Place, top: u16) -> Result<u16, TextError>
    ensures value { result ≡ required at (number_of top) (get_member name.now (table_view table.now)) }
    ensures within { IfOk result (λ n. n ≤ top) }
{
    let value = lookup(table, name).ok_or(TextError::Key(at))?;
    number(value, top).ok_or(TextError::Kind(at))
}

/// The number at a key, or another one where it is absent.
fn number_or(table: &Table, name: &str, at: Place, top: u16, absent: u16) -> Result<u16, TextError>
    requires { absent ≤ top }
    ensures value { result ≡ optional at (number_of top) absent (get_member name.now (table_view table.now)) }
    ensures within { IfOk result (λ n. n ≤ top) }
{
    match lookup(table, name) {
        None => Ok(absent),
        Some(value) => number(value, top).ok_or(TextError::Kind(at)),
    }
}

/// The version, 1 or 2.
#[tactic(auto, unfolding(crate::specs::Reading::version_in))]
pub(crate) fn version_in(table: &Table) -> Result<u16, TextError>
    ensures { result ≡ version_in (table_view table.now) }
{
    let at = at_top(ConfigKey::Version);
    let value = lookup(table, "version").ok_or(TextError::Key(at))?;
    version_number(value).ok_or(TextError::Kind(at))
}

/// The number of elements, at most 255.
#[tactic(auto, unfolding(crate::specs::Reading::elements_in))]
pub(crate) fn elements_in(table: &Table) -> Result<u8, TextError>
    ensures { result ≡ elements_in (table_view table.now) }
{
    let n = number_at(table, "elements", at_top(ConfigKey::Elements), 255)?;
    Ok(n as u8)
}

/// The number of the manager, at most 255.
#[tactic(auto, unfolding(crate::specs::Reading::manager_in))]
pub(crate) fn manager_in(table: &Table) -> Result<u8, TextError>
    ensures { result ≡ manager_in (table_view table.now) }
{
    let n = number_at(table, "manager", at_top(ConfigKey::Manager), 255)?;
    Ok(n as u8)
}

/// The entries of the groups.
#[tactic(auto, unfolding(crate::specs::Reading::groups_in))]
pub(crate) fn groups_in(table: &Table) -> Result<&Array, TextError>
    ensures { MatchResult result (λ a. groups_in (table_view table.now) ≡ Ok (array_view a.now)) (λ e. groups_in (table_view table.now) ≡ Err e) }
{
    let at = at_top(ConfigKey::Groups);
    let value = lookup(table, "group").ok_or(TextError::Key(at))?;
    value.as_array().ok_or(TextError::Kind(at))
}

/// The entry of a group as a table.
#[tactic(auto, unfolding(crate::specs::Reading::table_at))]
pub(crate) fn table_at(at: usize, value: &Value) -> Result<&Table, TextError>
    ensures { MatchResult result (λ t. table_at at (view value.now) ≡ Ok (table_view t.now)) (λ e. table_at at (view value.now) ≡ Err e) }
{
    value
        .as_table()
        .ok_or(TextError::Kind(in_group(at, ConfigKey::Groups)))
}

/// A group's number, at most 255.
#[tactic(auto, unfolding(crate::specs::Reading::vid_in))]
pub(crate) fn vid_in(table: &Table, at: usize) -> Result<u8, TextError>
    ensures { result ≡ vid_in at (table_view table.now) }
{
    let n = number_at(table, "vid", in_group(at, ConfigKey::Vid), 255)?;
    Ok(n as u8)
}

/// A group's members, at most four.
#[tactic(auto, unfolding(crate::specs::Reading::members_in))]
pub(crate) fn members_in(table: &Table, at: usize) -> Result<Row<Proc, 4>, TextError>
    ensures { result ≡ members_in at (table_view table.now) }
{
    let at = in_group(at, ConfigKey::Members);
    let value = lookup(table, "members").ok_or(TextError::Key(at))?;
    procs_of(value).ok_or(TextError::Kind(at))
}

/// The timeout `ts`, at most 65,535.
#[tactic(auto, unfolding(crate::specs::Reading::ts_in))]
pub(crate) fn ts_in(table: &Table, at: usize) -> Result<u16, TextError>
    ensures { result ≡ ts_in at (table_view table.now) }
{
    number_at(table, "ts", in_group(at, ConfigKey::Ts), 65535)
}

/// The timeout `tr`, at most 65,535.
#[tactic(auto, unfolding(crate::specs::Reading::tr_in))]
pub(crate) fn tr_in(table: &Table, at: usize) -> Result<u16, TextError>
    ensures { result ≡ tr_in at (table_view table.now) }
{
    number_at(table, "tr", in_group(at, ConfigKey::Tr), 65535)
}

/// The set of masked members, empty where the key is absent.
#[tactic(auto, unfolding(crate::specs::Reading::masked_in))]
pub(crate) fn masked_in(table: &Table, at: usize) -> Result<Set8, TextError>
    ensures { result ≡ masked_in at (table_view table.now) }
{
    match lookup(table, "masked") {
        None => Ok(Set8::EMPTY),
        Some(value) => set_of(value).ok_or(TextError::Kind(in_group(at, ConfigKey::Masked))),
    }
}

/// The expiry, 0 where the key is absent.
#[tactic(auto, unfolding(crate::specs::Reading::tx_in))]
pub(crate) fn tx_in(table: &Table, at: usize) -> Result<u16, TextError>
    ensures { result ≡ tx_in at (table_view table.now) }
{
    number_or(table, "tx", in_group(at, ConfigKey::Tx), 65535, 0)
}

/// The output limit, the usual one where the key is absent.
#[tactic(auto, unfolding(crate::specs::Reading::outs_in))]
pub(crate) fn outs_in(table: &Table, at: usize) -> Result<u8, TextError>
    ensures { result ≡ outs_in at (table_view table.now) }
{
    let n = number_or(
        table,
        "outs",
        in_group(at, ConfigKey::Outs),
        255,
        u16::from(USUAL_OUTS),
    )?;
    Ok(n as u8)
}

/// The input limit, the usual one where the key is absent.
#[tactic(auto, unfolding(crate::specs::Reading::ins_in))]
pub(crate) fn ins_in(table: &Table, at: usize) -> Result<u8, TextError>
    ensures { result ≡ ins_in at (table_view table.now) }
{
    let n = number_or(
        table,
        "ins",
        in_group(at, ConfigKey::Ins),
        255,
        u16::from(USUAL_INS),
    )?;
    Ok(n as u8)
}
