//! A configuration file, test by test.

ghost use Rattle.std.specs.Prelude.{◌≡◌, [], MatchResult, Ok, Err};
ghost use Rattle.toml.specs.View.{view, array_view, table_view};
ghost use Rattle.config_text.specs.Reading.{group_from, groups_from, checked, table_from, config_of};

use crate::TextError;
use crate::fields::{
    elements_in, groups_in, ins_in, manager_in, masked_in, members_in, outs_in, table_at, tr_in,
    ts_in, tx_in, version_in, vid_in,
};
use crate::keys::{group_only, top_only};
use config_table::{Group, Table};
use std::alloc::Global;
use toml::Value;
use toml::value::Array;

/// The group that an entry is.
#[tactic(auto, unfolding(crate::specs::Reading::group_from))]
fn group_from(version: u16, at: usize, value: &Value) -> Result<Group, TextError>
    ensures { result ≡ group_from version at (view value.now) }
{
    let table = table_at(at, value)?;
    group_only(version, at, table)?;
    let vid = vid_in(table, at)?;
    let members = members_in(table, at)?;
    let ts = ts_in(table, at)?;
    let tr = tr_in(table, at)?;
    let masked = masked_in(table, at)?;
    let tx = tx_in(table, at)?;
    let outs = outs_in(table, at)?;
    let ins = ins_in(table, at)?;
    Ok(Group {
        vid,
        members,
        masked,
        ts,
        tr,
        tx,
        outs,
        ins,
    })
}

/// The groups of the entries.
fn groups_from(alloc: Global, version: u16, array: &Array) -> Result<Vec<Group>, TextError>
    ensures { MatchResult result (λ gs. groups_from version [] (array_view array.now) ≡ Ok gs.items) (λ e. ¬ (e ≡ TextError.Memory) → groups_from version [] (array_view array.now) ≡ Err e) }
{
    let mut groups: Vec<Group> = Vec::new(alloc);
    for value in array {
        let group = group_from(version, groups.len(), value)?;
        match groups.push(group) {
            Ok(()) => {}
            Err(_) => return Err(TextError::Memory),
        }
    }
    Ok(groups)
}

/// The table, unless it breaks a clause.
#[tactic(auto, unfolding(crate::specs::Reading::checked))]
fn checked(n: u8, manager: u8, groups: &[Group]) -> Result<Table, TextError>
    ensures { result ≡ checked (record { n = n; manager = manager; groups = groups.now }) }
{
    match Table::new(n, manager, groups) {
        Ok(table) => Ok(table),
        Err(error) => Err(TextError::Table(error)),
    }
}

/// The table that a document is.
#[tactic(auto, unfolding(crate::specs::Reading::table_from))]
fn table_from(alloc: Global, document: &toml::Table) -> Result<Table, TextError>
    ensures { MatchResult result (λ t. table_from (table_view document.now) ≡ Ok t) (λ e. ¬ (e ≡ TextError.Memory) → table_from (table_view document.now) ≡ Err e) }
{
    top_only(document)?;
    let version = version_in(document)?;
    let n = elements_in(document)?;
    let manager = manager_in(document)?;
    let entries = groups_in(document)?;
    let groups = groups_from(alloc, version, entries)?;
    checked(n, manager, groups.as_slice())
}

/// Reads a configuration file.
#[tactic(auto, using(crate::proofs::Texts::text_read, crate::proofs::Texts::text_refused))]
pub fn read_config(alloc: Global, bytes: &[u8]) -> Result<Table, TextError>
    ensures { ¬ (result ≡ Err TextError.Memory) → result ≡ config_of bytes.now }
{
    match toml::table_from_slice(alloc, bytes) {
        Ok(document) => table_from(alloc, &document),
        Err(error) => {
            if error.is_memory() {
                Err(TextError::Memory)
            } else {
                Err(TextError::NotToml)
            }
        }
    }
}
