//! `audit`: whether a trace follows.

ghost use Rattle.std.specs.Prelude.{◌≡◌, ◌<◌, ◌≤◌, IfSome, length};
ghost use Rattle.ftpp_outside.specs.Told.{Rose};
ghost use Rattle.trace_audit.specs.AuditedTrace.{Audits};
ghost use Rattle.command_steps.specs.declared.status.Status.TheVariants.{Write, Memory};
ghost use Rattle.command_steps.specs.Ends.{Exactly, Ends, done_with};
ghost use Rattle.command_steps.specs.Migrating.{IsOfOutput};
ghost use Rattle.command_steps.specs.Loading.{script_limit};
ghost use Rattle.ftpp_top.specs.Audited.{EndsAudit, IsOfAudit, verdict_line};

use crate::verdict_line::verdict_line;
use command_steps::{Status, refuse_script};
use config_table::Table;
use ftpp_base::Ne;
use ftpp_outside::{Sink, WriteFault, write_all};
use script_text::ScriptError;
use trace_audit::{Verdict, audit_text};

/// The verdict on a text, among as many elements as the table has.
fn judge(bytes: &[u8], table: &Table, named: Option<Ne>) -> Result<Verdict, ScriptError>
    requires named { IfSome named (λ ne. ne < table.now.n) }
    requires short { length bytes.now ≤ script_limit }
    ensures { Audits table.now named bytes.now result }
{
    if table.n() == 4 {
        audit_text::<4>(bytes, table, named)
    } else {
        audit_text::<5>(bytes, table, named)
    }
}

/// Writes the line of a verdict.
fn write_verdict<K: Sink>(verdict: &Verdict, out: &mut K) -> Status
    ensures ends { Ends (done_with (Exactly (verdict_line verdict.now))) result (K.written out.old) (K.written out.new) }
    ensures only { IsOfOutput result }
    ensures no_memory { result ≡ Memory → ⊥ }
    ensures write { result ≡ Write → Rose (K.faults out.old) (K.faults out.new) }
    ensures faults { K.faults out.old ≤ K.faults out.new }
{
    let line = verdict_line(verdict);
    match write_all(out, line.as_slice()) {
        Ok(()) => Status::Done,
        Err(WriteFault) => Status::Write,
    }
}

/// Audits the text of a trace, and writes the verdict, or the first line that is refused. It takes no memory.
pub(crate) fn audit<K: Sink>(bytes: &[u8], table: &Table, named: Option<Ne>, out: &mut K) -> Status
    requires named { IfSome named (λ ne. ne < table.now.n) }
    requires short { length bytes.now ≤ script_limit }
    ensures ends { EndsAudit (record { table = table.now; named = named; bytes = bytes.now }) result (K.written out.old) (K.written out.new) }
    ensures only { IsOfAudit result }
    ensures write { result ≡ Write → Rose (K.faults out.old) (K.faults out.new) }
    ensures faults { K.faults out.old ≤ K.faults out.new }
{
    match judge(bytes, table, named) {
        Ok(verdict) => write_verdict(&verdict, out),
        Err(ScriptError::At { line, code }) => refuse_script(line, code, out),
        Err(ScriptError::Memory) => Status::Memory,
    }
}
