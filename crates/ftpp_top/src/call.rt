//! The top call.

ghost use Rattle.std.specs.Prelude.{◌≡◌, ◌+◌, ◌≤◌, ◌⊎◌, [], map, true, false, IfSome, IsTrue, None, string_bytes, option_copied, Some};
ghost use Rattle.ftpp_outside.specs.Told.{raised, Rose};
ghost use Rattle.ftpp_outside.specs.Files.{IsLonger};
ghost use Rattle.command_steps.specs.declared.status.Status.TheVariants.{Done, Usage, Read, Write, Memory, TooLong};
ghost use Rattle.command_steps.specs.Ends.{IsOr};
ghost use Rattle.command_steps.specs.Known.{Given, EndsAs};
ghost use Rattle.command_steps.specs.Loading.{script_limit, file_limit, table_named, run_for, IsLongFile};
ghost use Rattle.command_steps.specs.Migrating.{checked, migrated, made, IsOfOutput};
ghost use Rattle.command_words.specs.Commands.{command_of};
ghost use Rattle.command_words.specs.Values.{command_value, IsInRange};
ghost use Rattle.workload.specs.Workload.{workload};
ghost use Rattle.ftpp_top.specs.Audited.{Judged};
ghost use Rattle.ftpp_top.specs.Carries.{Carries};
ghost use Rattle.ftpp_top.specs.Causes.{Causes};
ghost use Rattle.ftpp_top.specs.Commands.{ends_by, ends_with, carried_with, node_for, node_with, audit_for, audited_with, reads, loads, carries, is_node};
ghost use Rattle.ftpp_top.specs.RunOutputs.{writes};
ghost use Rattle.ftpp_top.specs.Served.{Served};

use crate::commands::audit::audit;
use crate::commands::node::node;
use crate::commands::play::{RunOutput, play};
use crate::commands::soak::soak;
use crate::commands::sweep::sweep;
use command_steps::{
    Status, check, load_bytes, load_element, load_named, load_run, load_table, make, migrate,
    refuse_words,
};
use command_words::{Command, read_words};
use ftpp_base::{Gate, MOST_CYCLES};
use ftpp_outside::{Shelf, Sink, Source};
use link_fabric::Fabric;
use std::alloc::Global;
use std::thread::Threads;
use workload::make_script;

/// `run`, `trace` and `diagnose`: loads the table, reads the script, and writes what is asked for of its run.
fn play_command<S: Source, K: Sink, H: Shelf, F: Fabric>(
    alloc: Global,
    output: RunOutput,
    config: Option<&str>,
    input: &mut S,
    shelf: &mut H,
    fabric: &mut F,
    out: &mut K,
) -> Status
    ensures ends { EndsAs (ends_by (run_for (H.files shelf.old) (S.left input.old) (option_copied config.entry)) (writes output (F.honest fabric.old))) result (K.written out.old) (K.written out.new) }
    ensures carried { IsTrue (F.honest fabric.old) → Carries (run_for (H.files shelf.old) (S.left input.old) (option_copied config.entry)) result (F.told fabric.old) (F.told fabric.new) }
    ensures whole { result ≡ Done → IfSome (S.left input.new) (λ bytes. bytes ≡ []) }
    ensures too_long { result ≡ TooLong → (S.taken input.new ≡ raised (S.taken input.old) (script_limit + 1)) ⊎ IsLongFile (H.files shelf.old) (option_copied config.entry) }
    ensures lawful { result ≡ Usage → ⊥ }
    ensures unloaded { option_copied config.entry ≡ None → shelf.new ≡ shelf.old }
    ensures sure { IfSome (option_copied config.entry) (H.sure_of shelf.old) → result ≡ Read → Rose (S.faults input.old) (S.faults input.new) }
    ensures causes { Causes result (record { source = S.faults input.old; shelf = H.faults shelf.old; sink = K.faults out.old; written = K.written out.old }) (record { source = S.faults input.new; shelf = H.faults shelf.new; sink = K.faults out.new; written = K.written out.new }) }
{
    let (table, script) = match load_run(alloc, config, input, shelf, out) {
        Ok(parts) => parts,
        Err(status) => return status,
    };
    play(alloc, output, &table, &script, fabric, out)
}

/// `check`: loads a table, and writes the line on it and its printed configuration.
fn check_command<K: Sink, H: Shelf>(
    alloc: Global,
    config: &str,
    shelf: &mut H,
    out: &mut K,
) -> Status
    ensures ends { EndsAs (ends_by (table_named (H.files shelf.old) config.now) checked) result (K.written out.old) (K.written out.new) }
    ensures too_long { result ≡ TooLong → IsLonger (H.files shelf.old) config.now file_limit }
    ensures sure { H.sure_of shelf.old config.now → result ≡ Read → ⊥ }
    ensures lawful { result ≡ Usage → ⊥ }
    ensures causes { Causes result (record { source = 0; shelf = H.faults shelf.old; sink = K.faults out.old; written = K.written out.old }) (record { source = 0; shelf = H.faults shelf.new; sink = K.faults out.new; written = K.written out.new }) }
{
    match load_table(alloc, config, shelf, out) {
        Ok(table) => check(alloc, &table, out),
        Err(status) => status,
    }
}

/// `migrate`: loads a table, and writes its printed configuration.
fn migrate_command<K: Sink, H: Shelf>(
    alloc: Global,
    config: &str,
    shelf: &mut H,
    out: &mut K,
) -> Status
    ensures ends { EndsAs (ends_by (table_named (H.files shelf.old) config.now) migrated) result (K.written out.old) (K.written out.new) }
    ensures too_long { result ≡ TooLong → IsLonger (H.files shelf.old) config.now file_limit }
    ensures sure { H.sure_of shelf.old config.now → result ≡ Read → ⊥ }
    ensures lawful { result ≡ Usage → ⊥ }
    ensures causes { Causes result (record { source = 0; shelf = H.faults shelf.old; sink = K.faults out.old; written = K.written out.old }) (record { source = 0; shelf = H.faults shelf.new; sink = K.faults out.new; written = K.written out.new }) }
{
    match load_table(alloc, config, shelf, out) {
        Ok(table) => migrate(alloc, &table, out),
        Err(status) => status,
    }
}

/// `make`: writes the script of the workload of a number.
fn make_command<K: Sink>(alloc: Global, start: u64, cycles: u32, out: &mut K) -> Status
    requires some { 1 ≤ cycles }
    requires few { cycles ≤ MOST_CYCLES }
    ensures ends { EndsAs (Given (made (workload start cycles))) result (K.written out.old) (K.written out.new) }
    ensures only { IsOfOutput result }
    ensures causes { Causes result (record { source = 0; shelf = 0; sink = K.faults out.old; written = K.written out.old }) (record { source = 0; shelf = 0; sink = K.faults out.new; written = K.written out.new }) }
{
    match make_script(alloc, start, cycles) {
        Ok(script) => make(alloc, &script, out),
        Err(_) => Status::Memory,
    }
}

/// `node`: loads the table, and runs one of its elements over the source and the sink.
fn node_command<S: Source, K: Sink, H: Shelf>(
    alloc: Global,
    element: u8,
    cycles: u32,
    config: Option<&str>,
    input: &mut S,
    shelf: &mut H,
    out: &mut K,
) -> Status
    requires some { 1 ≤ cycles }
    requires few { cycles ≤ MOST_CYCLES }
    ensures served { Served (node_for (H.files shelf.old) element cycles (option_copied config.entry)) result (S.left input.old) (S.left input.new) (K.written out.old) (K.written out.new) }
    ensures whole { result ≡ Done → IfSome (S.left input.new) (λ bytes. bytes ≡ []) }
    ensures too_long { result ≡ TooLong → IsLongFile (H.files shelf.old) (option_copied config.entry) }
    ensures lawful { result ≡ Usage → ⊥ }
    ensures unserved { result ≡ Memory → input.new ≡ input.old }
    ensures unloaded { option_copied config.entry ≡ None → shelf.new ≡ shelf.old }
    ensures sure { IfSome (option_copied config.entry) (H.sure_of shelf.old) → result ≡ Read → Rose (S.faults input.old) (S.faults input.new) }
    ensures causes { Causes result (record { source = S.faults input.old; shelf = H.faults shelf.old; sink = K.faults out.old; written = K.written out.old }) (record { source = S.faults input.new; shelf = H.faults shelf.new; sink = K.faults out.new; written = K.written out.new }) }
{
    let (table, me) = match load_element(alloc, element, config, shelf, out) {
        Ok(parts) => parts,
        Err(status) => return status,
    };
    node(alloc, me, &table, cycles, input, out)
}

/// `audit`: loads the table, reads the trace, and writes the verdict on it.
fn audit_command<S: Source, K: Sink, H: Shelf>(
    alloc: Global,
    named: Option<u8>,
    config: Option<&str>,
    input: &mut S,
    shelf: &mut H,
    out: &mut K,
) -> Status
    ensures ends { Judged (audit_for (H.files shelf.old) (S.left input.old) named (option_copied config.entry)) result (K.written out.old) (K.written out.new) }
    ensures whole { result ≡ Done → IfSome (S.left input.new) (λ bytes. bytes ≡ []) }
    ensures too_long { result ≡ TooLong → (S.taken input.new ≡ raised (S.taken input.old) (script_limit + 1)) ⊎ IsLongFile (H.files shelf.old) (option_copied config.entry) }
    ensures lawful { result ≡ Usage → ⊥ }
    ensures unloaded { option_copied config.entry ≡ None → shelf.new ≡ shelf.old }
    ensures sure { IfSome (option_copied config.entry) (H.sure_of shelf.old) → result ≡ Read → Rose (S.faults input.old) (S.faults input.new) }
    ensures causes { Causes result (record { source = S.faults input.old; shelf = H.faults shelf.old; sink = K.faults out.old; written = K.written out.old }) (record { source = S.faults input.new; shelf = H.faults shelf.new; sink = K.faults out.new; written = K.written out.new }) }
{
    let (table, named) = match load_named(alloc, named, config, shelf, out) {
        Ok(parts) => parts,
        Err(status) => return status,
    };
    let bytes = match load_bytes(alloc, input, out) {
        Ok(bytes) => bytes,
        Err(status) => return status,
    };
    audit(bytes.as_slice(), &table, named, out)
}

/// Carries out a command.
#[tactic(auto, unfolding(crate::specs::Commands::ends_of, crate::specs::Commands::carried_of, crate::specs::Commands::audited_of, crate::specs::Commands::node_of))]
fn answer<R: Threads + Sync, S: Source, K: Sink, H: Shelf, F: Fabric, G: Gate>(
    rt: &R,
    alloc: Global,
    command: Command<'_>,
    input: &mut S,
    shelf: &mut H,
    fabric: &mut F,
    gate: &G,
    out: &mut K,
) -> Status
    requires { IsInRange command }
    // The words, and what the shelf and the source tell, decide what is answered and written.
    ensures told { EndsAs (ends_with (F.honest fabric.old) (H.files shelf.old) (S.left input.old) (Some (command_value command.entry))) result (K.written out.old) (K.written out.new) }
    // `audit` writes the verdict on the trace.
    ensures audited { Judged (audited_with (H.files shelf.old) (S.left input.old) (Some (command_value command.entry))) result (K.written out.old) (K.written out.new) }
    // `node` writes the node text of what it reads.
    ensures served { Served (node_with (H.files shelf.old) (Some (command_value command.entry))) result (S.left input.old) (S.left input.new) (K.written out.old) (K.written out.new) }
    // The frames that were carried are those of the run.
    ensures carried { IsTrue (F.honest fabric.old) → Carries (carried_with (H.files shelf.old) (S.left input.old) (Some (command_value command.entry))) result (F.told fabric.old) (F.told fabric.new) }

    ensures lawful { result ≡ Usage → ⊥ }

    // What a command does not use stays.
    ensures unread { reads (Some (command_value command.entry)) ≡ false → input.new ≡ input.old }
    ensures unloaded { loads (Some (command_value command.entry)) ≡ None → shelf.new ≡ shelf.old }
    ensures uncarried { carries (Some (command_value command.entry)) ≡ false → fabric.new ≡ fabric.old }
    ensures unserved { result ≡ Memory → is_node (Some (command_value command.entry)) ≡ true → input.new ≡ input.old }

    // What is done read the source to its end.
    ensures whole { result ≡ Done → reads (Some (command_value command.entry)) ≡ true → IfSome (S.left input.new) (λ bytes. bytes ≡ []) }
    ensures too_long { result ≡ TooLong → (S.taken input.new ≡ raised (S.taken input.old) (script_limit + 1)) ⊎ IsLongFile (H.files shelf.old) (loads (Some (command_value command.entry))) }
    ensures sure { IfSome (loads (Some (command_value command.entry))) (H.sure_of shelf.old) → result ≡ Read → Rose (S.faults input.old) (S.faults input.new) }
    ensures causes { Causes result (record { source = S.faults input.old; shelf = H.faults shelf.old; sink = K.faults out.old; written = K.written out.old }) (record { source = S.faults input.new; shelf = H.faults shelf.new; sink = K.faults out.new; written = K.written out.new }) }
{
    match command {
        Command::Run { config } => {
            play_command(alloc, RunOutput::Report, config, input, shelf, fabric, out)
        }
        Command::Trace { config } => {
            play_command(alloc, RunOutput::Trace, config, input, shelf, fabric, out)
        }
        Command::Diagnose { config } => {
            play_command(
                alloc,
                RunOutput::Diagnosis,
                config,
                input,
                shelf,
                fabric,
                out,
            )
        }
        Command::Check { config } => check_command(alloc, config, shelf, out),
        Command::Migrate { config } => migrate_command(alloc, config, shelf, out),
        Command::Soak { start, cycles } => soak(rt, alloc, start, cycles, fabric, gate, out),
        Command::Sweep {
            start,
            count,
            cycles,
        } => sweep(rt, alloc, start, count, cycles, gate, out),
        Command::Make { start, cycles } => make_command(alloc, start, cycles, out),
        Command::Node {
            element,
            cycles,
            config,
        } => node_command(alloc, element, cycles, config, input, shelf, out),
        Command::Audit { named, config } => audit_command(alloc, named, config, input, shelf, out),
    }
}

/// Runs the command that the words ask for, and answers how it ended. All output and all lines of refusals go to `out`.
///
/// The order is: the words; the configuration file; the source; the output. All memory is taken before the first byte is
/// written, and no cycle takes any.
pub fn top<R: Threads + Sync, S: Source, K: Sink, H: Shelf, F: Fabric, G: Gate>(
    rt: &R,
    alloc: Global,
    words: &[String],
    input: &mut S,
    shelf: &mut H,
    fabric: &mut F,
    gate: &G,
    out: &mut K,
) -> Status
    // The words, and what the shelf and the source tell, decide what is answered and written.
    ensures told { EndsAs (ends_with (F.honest fabric.old) (H.files shelf.old) (S.left input.old) (command_of (map string_bytes words.now))) result (K.written out.old) (K.written out.new) }
    // `audit` writes the verdict on the trace.
    ensures audited { Judged (audited_with (H.files shelf.old) (S.left input.old) (command_of (map string_bytes words.now))) result (K.written out.old) (K.written out.new) }
    // `node` writes the node text of what it reads.
    ensures served { Served (node_with (H.files shelf.old) (command_of (map string_bytes words.now))) result (S.left input.old) (S.left input.new) (K.written out.old) (K.written out.new) }
    // The frames that were carried are those of the run.
    ensures carried { IsTrue (F.honest fabric.old) → Carries (carried_with (H.files shelf.old) (S.left input.old) (command_of (map string_bytes words.now))) result (F.told fabric.old) (F.told fabric.new) }

    // Words that are not lawful are refused, and only these.
    ensures usage { (command_of (map string_bytes words.now)) ≡ None → IsOr Usage result }
    ensures lawful { result ≡ Usage → (command_of (map string_bytes words.now)) ≡ None }

    // What a command does not use stays.
    ensures unread { reads (command_of (map string_bytes words.now)) ≡ false → input.new ≡ input.old }
    ensures unloaded { loads (command_of (map string_bytes words.now)) ≡ None → shelf.new ≡ shelf.old }
    ensures uncarried { carries (command_of (map string_bytes words.now)) ≡ false → fabric.new ≡ fabric.old }
    ensures unserved { result ≡ Memory → is_node (command_of (map string_bytes words.now)) ≡ true → input.new ≡ input.old }

    // What is done read the source to its end.
    ensures whole { result ≡ Done → reads (command_of (map string_bytes words.now)) ≡ true → IfSome (S.left input.new) (λ bytes. bytes ≡ []) }
    ensures too_long { result ≡ TooLong → (S.taken input.new ≡ raised (S.taken input.old) (script_limit + 1)) ⊎ IsLongFile (H.files shelf.old) (loads (command_of (map string_bytes words.now))) }

    // When faults and want of memory come.
    ensures read { result ≡ Read → Rose (S.faults input.old) (S.faults input.new) ⊎ Rose (H.faults shelf.old) (H.faults shelf.new) }
    ensures sure { IfSome (loads (command_of (map string_bytes words.now))) (H.sure_of shelf.old) → result ≡ Read → Rose (S.faults input.old) (S.faults input.new) }
    ensures write { result ≡ Write → Rose (K.faults out.old) (K.faults out.new) }
    ensures memory { result ≡ Memory → K.written out.new ≡ K.written out.old }
    ensures source_faults { S.faults input.old ≤ S.faults input.new }
    ensures shelf_faults { H.faults shelf.old ≤ H.faults shelf.new }
    ensures sink_faults { K.faults out.old ≤ K.faults out.new }
{
    match read_words(words) {
        Some(command) => answer(rt, alloc, command, input, shelf, fabric, gate, out),
        None => refuse_words(out),
    }
}
