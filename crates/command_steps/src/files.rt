//! The table of a configuration file.

ghost use Rattle.std.specs.Prelude.{◌≡◌, ◌≤◌, ◌⊎◌, length, Result, Ok, Err, IfErr};
ghost use Rattle.ftpp_outside.specs.Told.{Rose};
ghost use Rattle.ftpp_outside.specs.Files.{IsLonger};
ghost use Rattle.config_table.specs.Table.{TableValue};
ghost use Rattle.config_text.specs.Reading.{config_of};
ghost use Rattle.command_steps.specs.declared.status.Status.TheVariants.{Read, Write, TooLong, Memory};
ghost use Rattle.command_steps.specs.Known.{Steps, IsRefusal};
ghost use Rattle.command_steps.specs.Loading.{file_limit, table_or, table_named};

use crate::refusals::{refuse_config, refuse_length};
use crate::status::Status;
use config_table::Table;
use config_text::read_config;
use ftpp_outside::{Shelf, ShelfError, Sink};
use std::alloc::Global;

/// The most bytes of a configuration file.
const MOST_FILE_BYTES: usize = 1_048_576;

/// The table of a file's bytes, or the refusal that is written.
fn read_table<K: Sink>(alloc: Global, bytes: &[u8], out: &mut K) -> Result<Table, Status>
    ensures step { Steps (λ (t : TableValue). t) (table_or (config_of bytes.now)) result (K.written out.old) (K.written out.new) }
    ensures no_read { result ≡ Err Read → ⊥ }
    ensures no_length { result ≡ Err TooLong → ⊥ }
    ensures only { IfErr result IsRefusal }
    ensures memory { result ≡ Err Memory → K.written out.new ≡ K.written out.old }
    ensures write { result ≡ Err Write → Rose (K.faults out.old) (K.faults out.new) }
    ensures faults { K.faults out.old ≤ K.faults out.new }
{
    match read_config(alloc, bytes) {
        Ok(table) => Ok(table),
        Err(error) => match error.code() {
            Some(code) => Err(refuse_config(code, out)),
            None => Err(Status::Memory),
        },
    }
}

/// The table of the file of this name. Otherwise the call ends: the file was not loaded, or is refused, and the line
/// that says so was written.
pub fn load_table<H: Shelf, K: Sink>(
    alloc: Global,
    name: &str,
    shelf: &mut H,
    out: &mut K,
) -> Result<Table, Status>
    ensures step { Steps (λ (t : TableValue). t) (table_named (H.files shelf.old) name.now) result (K.written out.old) (K.written out.new) }
    ensures read { result ≡ Err Read → Rose (H.faults shelf.old) (H.faults shelf.new) }
    ensures sure { H.sure_of shelf.old name.now → result ≡ Err Read → ⊥ }
    ensures too_long { result ≡ Err TooLong → IsLonger (H.files shelf.old) name.now file_limit }
    ensures only { IfErr result IsRefusal }
    ensures memory { result ≡ Err Memory → K.written out.new ≡ K.written out.old }
    ensures write { result ≡ Err Write → Rose (K.faults out.old) (K.faults out.new) }
    ensures same { H.files shelf.new ≡ H.files shelf.old }
    ensures shelf_faults { H.faults shelf.old ≤ H.faults shelf.new }
    ensures sink_faults { K.faults out.old ≤ K.faults out.new }
{
    match shelf.load(alloc, name, MOST_FILE_BYTES) {
        Ok(bytes) => read_table(alloc, bytes.as_slice(), out),
        Err(ShelfError::Fault) => Err(Status::Read),
        Err(ShelfError::TooLong) => Err(refuse_length(out)),
        Err(ShelfError::Memory) => Err(Status::Memory),
    }
}
