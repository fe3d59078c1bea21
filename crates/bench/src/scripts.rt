//! The steady exchange, as the text of a script.

use config_table::{Group, Table};
use ftpp_base::{MOST_GROUPS, Proc, Row};
use std::alloc::{AllocError, Global};

/// The element that lies.
const LIAR: u8 = 4;

/// Where a lie changes a frame: in each cell that the longest frame of patterns has.
const PLACES: &[u16] = &[8, 41, 74, 107, 140];

/// A table of as many groups as there can be: the first of three members, and one of each other processor of five elements.
pub fn table_of_most() -> Option<Table> {
    let mut groups: Row<Group, MOST_GROUPS> = Row::new();
    groups
        .try_push(Group::usual(1, &[(0, 0), (1, 0), (2, 0)]))
        .ok()?;
    for place in 3..40u8 {
        let one = [(place % 5, place / 5)];
        groups.try_push(Group::usual(place - 1, &one)).ok()?;
    }
    Table::new(5, 1, groups.as_slice()).ok()
}

/// The group at a place, the places going round.
fn group_at(groups: &[Group], place: usize) -> Option<&Group> {
    groups.get(place.checked_rem(groups.len())?)
}

/// Adds a line to the text.
fn add(text: &mut Vec<u8>, line: &String) -> Result<(), AllocError> {
    text.extend_from_slice(line.as_str().as_bytes())?;
    Ok(())
}

/// All members of a group read.
fn read(alloc: Global, text: &mut Vec<u8>, cycle: u32, group: &Group) -> Result<(), AllocError> {
    for member in group.members.as_slice() {
        let Proc { ne, port } = *member;
        add(text, &format!(in alloc; "at {cycle} read {ne}.{port}\n")?)?;
    }
    Ok(())
}

/// All members of a group post the same packet to another group.
fn post(
    alloc: Global,
    text: &mut Vec<u8>,
    cycle: u32,
    group: &Group,
    dest: u8,
) -> Result<(), AllocError> {
    for member in group.members.as_slice() {
        let Proc { ne, port } = *member;
        add(
            text,
            &format!(in alloc; "at {cycle} post {ne}.{port} {dest} 1 0 c0ffee\n")?,
        )?;
    }
    Ok(())
}

/// The liar changes its frames of a cycle, for each receiver in another way.
fn lie(alloc: Global, text: &mut Vec<u8>, cycle: u32) -> Result<(), AllocError> {
    for to in 0..LIAR {
        for place in PLACES {
            add(
                text,
                &format!(in alloc; "at {cycle} flip any {to} {place} 1{to}\n")?,
            )?;
        }
    }
    Ok(())
}

/// The script of the steady exchange: in each cycle the members of a group read, and post alike to the next group, the
/// groups going round.
pub fn exchange(
    alloc: Global,
    table: &Table,
    cycles: u32,
    lies: bool,
) -> Result<Vec<u8>, AllocError> {
    let mut text = Vec::new(alloc);
    add(&mut text, &format!(in alloc; "cycles {cycles}\n")?)?;
    if lies {
        add(&mut text, &format!(in alloc; "faulty {LIAR}\n")?)?;
    }
    for cycle in 0..cycles {
        let place = cycle as usize;
        let here = group_at(table.groups(), place);
        let next = group_at(table.groups(), place + 1);
        if let (Some(here), Some(next)) = (here, next) {
            read(alloc, &mut text, cycle, here)?;
            post(alloc, &mut text, cycle, here, next.vid)?;
        }
        if lies {
            lie(alloc, &mut text, cycle)?;
        }
    }
    Ok(text)
}
