//! What `check`, `migrate` and `make` write.

ghost use Rattle.std.specs.Prelude.{◌≡◌, ◌≤◌, ◌++◌, OnOk, OnErr};
ghost use Rattle.ftpp_outside.specs.Told.{Rose, Adds};
ghost use Rattle.script_text.specs.Reading.{plan_of};
ghost use Rattle.command_steps.specs.declared.status.Status.TheVariants.{Done, Write, Memory};
ghost use Rattle.command_steps.specs.Ends.{AddsPrefix, Ends};
ghost use Rattle.command_steps.specs.Migrating.{checked, migrated, made, IsOfOutput};

use crate::lines::valid_line;
use crate::status::Status;
use config_table::Table;
use config_text::print_config;
use ftpp_outside::{Sink, WriteFault, write_all};
use script_text::{Script, print_script};
use std::alloc::Global;

/// Writes a line and then a text.
#[tactic(auto, using(crate::proofs::Writing::adds_more, crate::proofs::Writing::prefix_of_front, crate::proofs::Writing::rest_cut))]
fn write_both<K: Sink>(line: &[u8], text: &[u8], out: &mut K) -> Result<(), WriteFault>
    ensures ok { OnOk result (Adds (K.written out.old) (line.now ++ text.now) (K.written out.new)) }
    ensures prefix { OnErr result (AddsPrefix (K.written out.old) (line.now ++ text.now) (K.written out.new)) }
    ensures fault { OnErr result (Rose (K.faults out.old) (K.faults out.new)) }
    ensures faults { K.faults out.old ≤ K.faults out.new }
{
    write_all(out, line)?;
    write_all(out, text)
}

/// Writes the line on a table, and its printed configuration.
#[tactic(auto, using(crate::proofs::Writing::writes_table, crate::proofs::Writing::writes_table_part))]
pub fn check<K: Sink>(alloc: Global, table: &Table, out: &mut K) -> Status
    ensures ends { Ends (checked table.now) result (K.written out.old) (K.written out.new) }
    ensures only { IsOfOutput result }
    ensures write { result ≡ Write → Rose (K.faults out.old) (K.faults out.new) }
    ensures faults { K.faults out.old ≤ K.faults out.new }
{
    let line = valid_line(table);
    let Ok(text) = print_config(alloc, table) else {
        return Status::Memory;
    };
    match write_both(line.as_slice(), text.as_slice(), out) {
        Ok(()) => Status::Done,
        Err(WriteFault) => Status::Write,
    }
}

/// Writes the printed configuration of a table.
pub fn migrate<K: Sink>(alloc: Global, table: &Table, out: &mut K) -> Status
    ensures ends { Ends (migrated table.now) result (K.written out.old) (K.written out.new) }
    ensures only { IsOfOutput result }
    ensures write { result ≡ Write → Rose (K.faults out.old) (K.faults out.new) }
    ensures faults { K.faults out.old ≤ K.faults out.new }
{
    let Ok(file) = print_config(alloc, table) else {
        return Status::Memory;
    };
    match write_all(out, file.as_slice()) {
        Ok(()) => Status::Done,
        Err(WriteFault) => Status::Write,
    }
}

/// Writes the canonical text of a script.
pub fn make<K: Sink>(alloc: Global, script: &Script, out: &mut K) -> Status
    ensures ends { Ends (made (plan_of script.now)) result (K.written out.old) (K.written out.new) }
    ensures only { IsOfOutput result }
    ensures write { result ≡ Write → Rose (K.faults out.old) (K.faults out.new) }
    ensures faults { K.faults out.old ≤ K.faults out.new }
{
    let Ok(text) = print_script(alloc, script) else {
        return Status::Memory;
    };
    match write_all(out, text.as_slice()) {
        Ok(()) => Status::Done,
        Err(WriteFault) => Status::Write,
    }
}
