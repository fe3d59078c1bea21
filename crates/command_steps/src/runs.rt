//! The table and the script of a run, and the table of a command that names an element.

ghost use Rattle.std.specs.Prelude.{◌≡◌, ◌+◌, ◌<◌, ◌≤◌, ◌⊎◌, ℕ, Option, [], Ok, Err, IfErr, IfOk, IfSome, IsTrue, option_copied, Some, None};
ghost use Rattle.ftpp_outside.specs.Told.{Rose, raised};
ghost use Rattle.ftpp_outside.specs.Files.{IsLonger};
ghost use Rattle.config_table.specs.Table.{TableValue};
ghost use Rattle.fault_script.specs.Edited.{never_fall};
ghost use Rattle.script_text.specs.Reading.{plan_of};
ghost use Rattle.script_text.specs.Playable.{IsPlayable};
ghost use Rattle.command_steps.specs.declared.status.Status.TheVariants.{Read, Write, TooLong, Memory};
ghost use Rattle.command_steps.specs.Known.{Steps, IsRefusal};
ghost use Rattle.command_steps.specs.Loading.{file_limit, script_limit, element_in, table_for, table_with, run_for, loaded, IsLongFile};

use crate::files::load_table;
use crate::refusals::refuse_config;
use crate::scripts::load_script;
use crate::status::Status;
use built_in_tables::built_in_4;
use config_table::Table;
use ftpp_base::Ne;
use ftpp_outside::{Shelf, Sink, Source};
use script_text::Script;
use std::alloc::Global;

/// The code of an element in the words that the table does not have.
const NO_ELEMENT: u8 = 18;

/// The table of the named file, or the built-in one of four elements where none is named.
fn table_for<H: Shelf, K: Sink>(
    alloc: Global,
    config: Option<&str>,
    shelf: &mut H,
    out: &mut K,
) -> Result<Table, Status>
    ensures step { Steps (λ (t : TableValue). t) (table_for (H.files shelf.old) (option_copied config.entry)) result (K.written out.old) (K.written out.new) }
    ensures read { result ≡ Err Read → Rose (H.faults shelf.old) (H.faults shelf.new) }
    ensures sure { IfSome (option_copied config.entry) (H.sure_of shelf.old) → result ≡ Err Read → ⊥ }
    ensures too_long { result ≡ Err TooLong → IsLongFile (H.files shelf.old) (option_copied config.entry) }
    ensures only { IfErr result IsRefusal }
    ensures memory { result ≡ Err Memory → K.written out.new ≡ K.written out.old }
    ensures write { result ≡ Err Write → Rose (K.faults out.old) (K.faults out.new) }
    ensures unloaded { option_copied config.entry ≡ None → shelf.new ≡ shelf.old }
    ensures shelf_faults { H.faults shelf.old ≤ H.faults shelf.new }
    ensures sink_faults { K.faults out.old ≤ K.faults out.new }
{
    match config {
        None => Ok(built_in_4()),
        Some(name) => load_table(alloc, name, shelf, out),
    }
}

/// The element of this number, or the refusal that is written where the table has none of it.
fn element_of<K: Sink>(number: u8, table: &Table, out: &mut K) -> Result<Ne, Status>
    ensures step { Steps (λ (ne : ℕ). ne) (element_in table.now.n number) result (K.written out.old) (K.written out.new) }
    ensures below { IfOk result (λ ne. (ne ≡ number) × (ne < table.now.n)) }
    ensures no_read { result ≡ Err Read → ⊥ }
    ensures no_length { result ≡ Err TooLong → ⊥ }
    ensures only { IfErr result IsRefusal }
    ensures memory { result ≡ Err Memory → K.written out.new ≡ K.written out.old }
    ensures write { result ≡ Err Write → Rose (K.faults out.old) (K.faults out.new) }
    ensures faults { K.faults out.old ≤ K.faults out.new }
{
    match Ne::new(number, table.n()) {
        Some(ne) => Ok(ne),
        None => Err(refuse_config(NO_ELEMENT, out)),
    }
}

/// The table of a command on one element, and that element. It is refused behind all other causes of a configuration.
pub fn load_element<H: Shelf, K: Sink>(
    alloc: Global,
    number: u8,
    config: Option<&str>,
    shelf: &mut H,
    out: &mut K,
) -> Result<(Table, Ne), Status>
    ensures step { Steps (λ (r : TableValue × ℕ). r.0) (table_with (H.files shelf.old) (Some number) (option_copied config.entry)) result (K.written out.old) (K.written out.new) }
    ensures below { IfOk result (λ r. (r.1 ≡ number) × (r.1 < r.0.n)) }
    ensures read { result ≡ Err Read → Rose (H.faults shelf.old) (H.faults shelf.new) }
    ensures sure { IfSome (option_copied config.entry) (H.sure_of shelf.old) → result ≡ Err Read → ⊥ }
    ensures too_long { result ≡ Err TooLong → IsLongFile (H.files shelf.old) (option_copied config.entry) }
    ensures only { IfErr result IsRefusal }
    ensures memory { result ≡ Err Memory → K.written out.new ≡ K.written out.old }
    ensures write { result ≡ Err Write → Rose (K.faults out.old) (K.faults out.new) }
    ensures unloaded { option_copied config.entry ≡ None → shelf.new ≡ shelf.old }
    ensures shelf_faults { H.faults shelf.old ≤ H.faults shelf.new }
    ensures sink_faults { K.faults out.old ≤ K.faults out.new }
{
    let table = table_for(alloc, config, shelf, out)?;
    let ne = element_of(number, &table, out)?;
    Ok((table, ne))
}

/// The same, where an element may be named or none.
pub fn load_named<H: Shelf, K: Sink>(
    alloc: Global,
    named: Option<u8>,
    config: Option<&str>,
    shelf: &mut H,
    out: &mut K,
) -> Result<(Table, Option<Ne>), Status>
    ensures step { Steps (λ (r : TableValue × Option ℕ). r.0) (table_with (H.files shelf.old) named (option_copied config.entry)) result (K.written out.old) (K.written out.new) }
    ensures named { IfOk result (λ r. r.1 ≡ named) }
    ensures below { IfOk result (λ r. IfSome r.1 (λ ne. ne < r.0.n)) }
    ensures read { result ≡ Err Read → Rose (H.faults shelf.old) (H.faults shelf.new) }
    ensures sure { IfSome (option_copied config.entry) (H.sure_of shelf.old) → result ≡ Err Read → ⊥ }
    ensures too_long { result ≡ Err TooLong → IsLongFile (H.files shelf.old) (option_copied config.entry) }
    ensures only { IfErr result IsRefusal }
    ensures memory { result ≡ Err Memory → K.written out.new ≡ K.written out.old }
    ensures write { result ≡ Err Write → Rose (K.faults out.old) (K.faults out.new) }
    ensures unloaded { option_copied config.entry ≡ None → shelf.new ≡ shelf.old }
    ensures shelf_faults { H.faults shelf.old ≤ H.faults shelf.new }
    ensures sink_faults { K.faults out.old ≤ K.faults out.new }
{
    let Some(number) = named else {
        let table = table_for(alloc, config, shelf, out)?;
        return Ok((table, None));
    };
    let (table, ne) = load_element(alloc, number, config, shelf, out)?;
    Ok((table, Some(ne)))
}

/// The table of a run and its script: first the table is loaded, then the script is read. Otherwise the call ends.
pub fn load_run<S: Source, H: Shelf, K: Sink>(
    alloc: Global,
    config: Option<&str>,
    input: &mut S,
    shelf: &mut H,
    out: &mut K,
) -> Result<(Table, Script), Status>
    ensures step { Steps loaded (run_for (H.files shelf.old) (S.left input.old) (option_copied config.entry)) result (K.written out.old) (K.written out.new) }
    ensures end { IfOk result (λ _. IfSome (S.left input.new) (λ bytes. bytes ≡ [])) }
    ensures playable { IfOk result (λ r. IsPlayable r.0.n (plan_of r.1)) }
    ensures edits { IfOk result (λ r. IsTrue (never_fall 0 r.1.edits.items)) }
    ensures read { result ≡ Err Read → Rose (S.faults input.old) (S.faults input.new) ⊎ Rose (H.faults shelf.old) (H.faults shelf.new) }
    ensures sure { IfSome (option_copied config.entry) (H.sure_of shelf.old) → result ≡ Err Read → Rose (S.faults input.old) (S.faults input.new) }
    ensures too_long { result ≡ Err TooLong → (S.taken input.new ≡ raised (S.taken input.old) (script_limit + 1)) ⊎ IsLongFile (H.files shelf.old) (option_copied config.entry) }
    ensures only { IfErr result IsRefusal }
    ensures memory { result ≡ Err Memory → K.written out.new ≡ K.written out.old }
    ensures write { result ≡ Err Write → Rose (K.faults out.old) (K.faults out.new) }
    ensures source_faults { S.faults input.old ≤ S.faults input.new }
    ensures unloaded { option_copied config.entry ≡ None → shelf.new ≡ shelf.old }
    ensures shelf_faults { H.faults shelf.old ≤ H.faults shelf.new }
    ensures sink_faults { K.faults out.old ≤ K.faults out.new }
{
    // a file is loaded before the source is read
    let table = table_for(alloc, config, shelf, out)?;
    let script = load_script(alloc, input, &table, out)?;
    Ok((table, script))
}
