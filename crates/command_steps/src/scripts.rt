//! The bytes of a source, and its script.

ghost use Rattle.std.specs.Prelude.{◌≡◌, ◌+◌, ◌<◌, ◌≤◌, Vec, ℕ, [], length, vec_len, Result, Ok, Err, IfErr, IfOk, IfSome, IsTrue};
ghost use Rattle.ftpp_outside.specs.Told.{Rose, raised};
ghost use Rattle.fault_script.specs.Edited.{never_fall};
ghost use Rattle.script_text.specs.Reading.{plan_of, script_of};
ghost use Rattle.script_text.specs.Playable.{IsPlayable};
ghost use Rattle.command_steps.specs.declared.status.Status.TheVariants.{Read, Write, TooLong, Memory};
ghost use Rattle.command_steps.specs.Known.{Steps, IsRefusal};
ghost use Rattle.command_steps.specs.Loading.{script_limit, bytes_told, plan_or, plan_told};

use crate::refusals::{refuse_length, refuse_script};
use crate::status::Status;
use config_table::Table;
use ftpp_outside::{InputError, Sink, Source, read_all};
use script_text::{MOST_SCRIPT_BYTES, Script, ScriptError, read_script};
use std::alloc::Global;

/// The script of these bytes, or the refusal that is written.
fn parse_script<K: Sink>(
    alloc: Global,
    bytes: &[u8],
    table: &Table,
    out: &mut K,
) -> Result<Script, Status>
    requires { length bytes.now ≤ script_limit }
    ensures step { Steps plan_of (plan_or (script_of table.now.n bytes.now)) result (K.written out.old) (K.written out.new) }
    ensures playable { IfOk result (λ s. IsPlayable table.now.n (plan_of s)) }
    ensures edits { IfOk result (λ s. IsTrue (never_fall 0 s.edits.items)) }
    ensures no_read { result ≡ Err Read → ⊥ }
    ensures no_length { result ≡ Err TooLong → ⊥ }
    ensures only { IfErr result IsRefusal }
    ensures memory { result ≡ Err Memory → K.written out.new ≡ K.written out.old }
    ensures write { result ≡ Err Write → Rose (K.faults out.old) (K.faults out.new) }
    ensures faults { K.faults out.old ≤ K.faults out.new }
{
    match read_script(alloc, bytes, table) {
        Ok(script) => Ok(script),
        Err(ScriptError::At { line, code }) => Err(refuse_script(line, code, out)),
        Err(ScriptError::Memory) => Err(Status::Memory),
    }
}

/// All bytes that are left, where they are no more than a script may have. Otherwise the call ends, and where they are too
/// many, the line that says so was written.
pub fn load_bytes<S: Source, K: Sink>(
    alloc: Global,
    input: &mut S,
    out: &mut K,
) -> Result<Vec<u8>, Status>
    ensures step { Steps (λ (v : Vec ℕ Global). v.items) (bytes_told (S.left input.old)) result (K.written out.old) (K.written out.new) }
    ensures short { IfOk result (λ v. vec_len v ≤ script_limit) }
    ensures end { IfOk result (λ _. IfSome (S.left input.new) (λ bytes. bytes ≡ [])) }
    ensures read { result ≡ Err Read → Rose (S.faults input.old) (S.faults input.new) }
    ensures too_long { result ≡ Err TooLong → S.taken input.new ≡ raised (S.taken input.old) (script_limit + 1) }
    ensures only { IfErr result IsRefusal }
    ensures memory { result ≡ Err Memory → K.written out.new ≡ K.written out.old }
    ensures write { result ≡ Err Write → Rose (K.faults out.old) (K.faults out.new) }
    ensures source_faults { S.faults input.old ≤ S.faults input.new }
    ensures sink_faults { K.faults out.old ≤ K.faults out.new }
{
    match read_all(alloc, input, MOST_SCRIPT_BYTES) {
        Ok(bytes) => Ok(bytes),
        Err(InputError::Read) => Err(Status::Read),
        Err(InputError::TooLong) => Err(refuse_length(out)),
        Err(InputError::Memory) => Err(Status::Memory),
    }
}

/// The script of all bytes that are left, for the elements of a table. Otherwise the call ends: the bytes were not read,
/// or the script is refused, and the line that says so was written.
pub fn load_script<S: Source, K: Sink>(
    alloc: Global,
    input: &mut S,
    table: &Table,
    out: &mut K,
) -> Result<Script, Status>
    ensures step { Steps plan_of (plan_told table.now.n (S.left input.old)) result (K.written out.old) (K.written out.new) }
    ensures end { IfOk result (λ _. IfSome (S.left input.new) (λ bytes. bytes ≡ [])) }
    ensures playable { IfOk result (λ s. IsPlayable table.now.n (plan_of s)) }
    ensures edits { IfOk result (λ s. IsTrue (never_fall 0 s.edits.items)) }
    ensures read { result ≡ Err Read → Rose (S.faults input.old) (S.faults input.new) }
    ensures too_long { result ≡ Err TooLong → S.taken input.new ≡ raised (S.taken input.old) (script_limit + 1) }
    ensures only { IfErr result IsRefusal }
    ensures memory { result ≡ Err Memory → K.written out.new ≡ K.written out.old }
    ensures write { result ≡ Err Write → Rose (K.faults out.old) (K.faults out.new) }
    ensures source_faults { S.faults input.old ≤ S.faults input.new }
    ensures sink_faults { K.faults out.old ≤ K.faults out.new }
{
    let bytes = load_bytes(alloc, input, out)?;
    parse_script(alloc, bytes.as_slice(), table, out)
}
