//! A table printed as a configuration file.

ghost use Rattle.std.specs.Prelude.{◌≡◌, ◌+◌, ◌<◌, ◌≤◌, [], ◌∷◌, ◌++◌, All, pos, IfOk, OnOk, Ok, Some, if◌then◌else◌, string_bytes};
ghost use Rattle.toml.specs.Data.{integer, push_item};
ghost use Rattle.toml.specs.View.{view, array_view, table_view};
ghost use Rattle.config_text.specs.Printing.{HasDigits, with_member, proc_text, printed_proc, printed_procs, printed_set, printed_group, printed_entry, printed_groups, printed_table};
ghost use Rattle.config_text.specs.Reading.{document_of, config_of};
ghost use Rattle.ftpp_base.specs.Sets.{has};
ghost use Rattle.config_table.specs.Table.{IsValid};
ghost use Rattle.config_table.specs.Groups.{members_of};

use config_table::{Group, Table};
use ftpp_base::{NoMemory, Proc, Set8};
use std::alloc::Global;
use toml::Value;
use toml::value::Array;

/// Puts a value at a key.
fn put(alloc: Global, table: &mut toml::Table, name: &str, value: Value) -> Result<(), NoMemory>
    ensures { OnOk result (table_view table.new ≡ with_member name.now (view value) (table_view table.old)) }
{
    let key = match String::from_str(alloc, name) {
        Ok(key) => key,
        Err(_) => return Err(NoMemory),
    };
    match table.insert(key, value) {
        Ok(_) => Ok(()),
        Err(_) => Err(NoMemory),
    }
}

/// Puts a number at a key.
fn put_number(
    alloc: Global,
    table: &mut toml::Table,
    name: &str,
    number: u16,
) -> Result<(), NoMemory>
    ensures { OnOk result (table_view table.new ≡ with_member name.now (integer (pos number)) (table_view table.old)) }
{
    put(alloc, table, name, Value::from(u32::from(number)))
}

/// Puts a value at the end of an array.
fn add(array: &mut Array, value: Value) -> Result<(), NoMemory>
    ensures { OnOk result (array.new.items ≡ array.old.items ++ value ∷ []) }
{
    match array.push(value) {
        Ok(()) => Ok(()),
        Err(_) => Err(NoMemory),
    }
}

/// The element, a dot and the port, each number of one digit.
fn printed_proc(alloc: Global, p: Proc) -> Result<Value, NoMemory>
    requires { HasDigits p }
    ensures { IfOk result (λ v. view v ≡ printed_proc p) }
{
    match format!(in alloc; "{}.{}", p.ne, p.port) {
        Ok(text) => Ok(Value::from(text)),
        Err(_) => Err(NoMemory),
    }
}

/// The processors as an array of texts.
fn printed_procs(alloc: Global, members: &[Proc]) -> Result<Value, NoMemory>
    requires { All HasDigits members.now }
    ensures { IfOk result (λ v. view v ≡ printed_procs members.now) }
{
    let mut array: Array = Vec::new(alloc);
    for p in members {
        let value = printed_proc(alloc, *p)?;
        add(&mut array, value)?;
    }
    Ok(Value::from(array))
}

/// The number, if it is in the set.
#[tactic(auto, using(crate::proofs::Inserted::view_pushed))]
fn add_number(array: &mut Array, set: &Set8, i: u8) -> Result<(), NoMemory>
    requires { i < 8 }
    ensures { OnOk result (array_view array.new ≡ (if has set.now i then push_item (array_view array.old) (integer (pos i)) else array_view array.old)) }
{
    if set.has(i) {
        add(array, Value::from(i))?;
    }
    Ok(())
}

/// The numbers of a set as an array, ascending.
#[tactic(auto, using(crate::proofs::Inserted::numbers_more), unfolding(crate::specs::Printing::printed_set))]
fn printed_set(alloc: Global, set: &Set8) -> Result<Value, NoMemory>
    ensures { IfOk result (λ v. view v ≡ printed_set set.now) }
{
    let mut array: Array = Vec::new(alloc);
    for i in 0..8u8 {
        add_number(&mut array, set, i)?;
    }
    Ok(Value::from(array))
}

/// A group with all keys of version 2.
#[tactic(auto, unfolding(crate::specs::Printing::printed_group))]
fn printed_group(alloc: Global, g: &Group) -> Result<toml::Table, NoMemory>
    requires { All HasDigits (members_of g.now) }
    ensures { IfOk result (λ t. table_view t ≡ printed_group g.now) }
{
    let members = printed_procs(alloc, g.members.as_slice())?;
    let masked = printed_set(alloc, &g.masked)?;
    let mut table = toml::Table::new(alloc);
    put_number(alloc, &mut table, "vid", u16::from(g.vid))?;
    put(alloc, &mut table, "members", members)?;
    put_number(alloc, &mut table, "ts", g.ts)?;
    put_number(alloc, &mut table, "tr", g.tr)?;
    put(alloc, &mut table, "masked", masked)?;
    put_number(alloc, &mut table, "tx", g.tx)?;
    put_number(alloc, &mut table, "outs", u16::from(g.outs))?;
    put_number(alloc, &mut table, "ins", u16::from(g.ins))?;
    Ok(table)
}

/// The groups as an array of tables.
fn printed_groups(alloc: Global, groups: &[Group]) -> Result<Value, NoMemory>
    requires { All (λ g. All HasDigits (members_of g)) groups.now }
    ensures { IfOk result (λ v. view v ≡ printed_groups groups.now) }
{
    let mut array: Array = Vec::new(alloc);
    for g in groups {
        let table = printed_group(alloc, g)?;
        add(&mut array, Value::from(table))?;
    }
    Ok(Value::from(array))
}

/// A table as a document of version 2.
#[tactic(auto, unfolding(crate::specs::Printing::printed_table))]
fn printed_table(alloc: Global, table: &Table) -> Result<toml::Table, NoMemory>
    ensures document { IfOk result (λ t. table_view t ≡ printed_table table.now) }
    ensures valid { OnOk result (IsValid table.now) }
    ensures manager { OnOk result (table.now.manager ≤ 255) }
{
    let groups = printed_groups(alloc, table.groups())?;
    let mut document = toml::Table::new(alloc);
    put_number(alloc, &mut document, "version", 2)?;
    put_number(alloc, &mut document, "elements", u16::from(table.n()))?;
    put_number(alloc, &mut document, "manager", u16::from(table.manager()))?;
    put(alloc, &mut document, "group", groups)?;
    Ok(document)
}

/// The text of a table, with all the keys of version 2, which `read_config` reads as the same table.
pub fn print_config(alloc: Global, table: &Table) -> Result<Vec<u8>, NoMemory>
    ensures document { IfOk result (λ text. document_of text.items ≡ Some (printed_table table.now)) }
    ensures reads_back { IfOk result (λ text. config_of text.items ≡ Ok table.now) }
{
    let document = printed_table(alloc, table)?;
    match toml::table_to_string(alloc, &document) {
        Ok(text) => Ok(text.into_bytes()),
        Err(_) => Err(NoMemory),
    }
}
