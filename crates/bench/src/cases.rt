//! The cases, and how they are played.

ghost use Rattle.std.specs.Prelude.{◌≤◌};

use crate::scripts::{exchange, table_of_most};
use config_table::Table;
use ftpp_base::MOST_CYCLES;
use ftpp_top::{built_in_4, built_in_5, make_script, played_totals};
use link_fabric::Mesh;
use report_text::Totals;
use script_text::{MOST_SCRIPT_BYTES, read_script};
use std::alloc::Global;

/// The number of the workload.
pub const START: u64 = 7;

/// What is played.
#[derive(Clone, Copy, PartialEq, Eq)]
pub enum Case {
    /// The workload of the soak, on the built-in table of five elements.
    Soak,
    /// A steady exchange on that table.
    Five,
    /// The same on the built-in table of four elements.
    Four,
    /// The same on a table of as many groups as there can be.
    Most,
    /// The exchange of `Five`, where element 4 lies to each receiver in another way.
    Lies,
}

impl Case {
    /// The case of that name.
    pub fn named(name: &str) -> Option<Case> {
        match name.as_bytes() {
            b"soak" => Some(Case::Soak),
            b"five" => Some(Case::Five),
            b"four" => Some(Case::Four),
            b"most" => Some(Case::Most),
            b"lies" => Some(Case::Lies),
            _ => None,
        }
    }

    /// Its name.
    pub fn name(self) -> &'static str {
        match self {
            Case::Soak => "soak",
            Case::Five => "five",
            Case::Four => "four",
            Case::Most => "most",
            Case::Lies => "lies",
        }
    }
}

/// The totals of a script.
fn totals_of(alloc: Global, table: &Table, text: &[u8]) -> Option<Totals> {
    if text.len() > MOST_SCRIPT_BYTES {
        return None;
    }
    let script = read_script(alloc, text, table).ok()?;
    if table.n() == 4 {
        played_totals::<4, Mesh>(alloc, table, &script, &mut Mesh).ok()
    } else {
        played_totals::<5, Mesh>(alloc, table, &script, &mut Mesh).ok()
    }
}

/// The totals of the steady exchange on a table.
fn steady(alloc: Global, table: &Table, cycles: u32, lies: bool) -> Option<Totals> {
    let text = exchange(alloc, table, cycles, lies).ok()?;
    totals_of(alloc, table, text.as_slice())
}

/// The totals of the workload of the soak.
fn soak(alloc: Global, cycles: u32) -> Option<Totals>
    requires some { 1 ≤ cycles }
    requires few { cycles ≤ MOST_CYCLES }
{
    let script = make_script(alloc, START, cycles).ok()?;
    played_totals::<5, Mesh>(alloc, &built_in_5(), &script, &mut Mesh).ok()
}

/// Plays a case of 1 to 100,000 cycles. None where memory runs out, or where its script is too long to be read: the exchange
/// has some 30,000 cycles at most, and 7,000 with lies.
pub fn played(alloc: Global, case: Case, cycles: u32) -> Option<Totals> {
    if cycles < 1 || cycles > MOST_CYCLES {
        return None;
    }
    match case {
        Case::Soak => soak(alloc, cycles),
        Case::Five => steady(alloc, &built_in_5(), cycles, false),
        Case::Four => steady(alloc, &built_in_4(), cycles, false),
        Case::Most => steady(alloc, &table_of_most()?, cycles, false),
        Case::Lies => steady(alloc, &built_in_5(), cycles, true),
    }
}
