//! The lines of refusals, written.

ghost use Rattle.std.specs.Prelude.{◌≡◌, ◌≤◌};
ghost use Rattle.ftpp_outside.specs.Told.{Rose};
ghost use Rattle.command_steps.specs.declared.status.Status.TheVariants.{Usage, Script, Config, TooLong, Write};
ghost use Rattle.command_steps.specs.Ends.{not_lawful, too_long, refused_script, refused_config, Ends, IsOr};

use crate::lines::{config_line, script_line};
use crate::status::Status;
use ftpp_outside::{Sink, WriteFault, write_all};

/// Writes `usage`.
pub fn refuse_words<K: Sink>(out: &mut K) -> Status
    ensures ends { Ends not_lawful result (K.written out.old) (K.written out.new) }
    ensures only { IsOr Usage result }
    ensures write { result ≡ Write → Rose (K.faults out.old) (K.faults out.new) }
    ensures faults { K.faults out.old ≤ K.faults out.new }
{
    match write_all(out, b"usage\n") {
        Ok(()) => Status::Usage,
        Err(WriteFault) => Status::Write,
    }
}

/// Writes `too long`.
pub fn refuse_length<K: Sink>(out: &mut K) -> Status
    ensures ends { Ends too_long result (K.written out.old) (K.written out.new) }
    ensures only { IsOr TooLong result }
    ensures write { result ≡ Write → Rose (K.faults out.old) (K.faults out.new) }
    ensures faults { K.faults out.old ≤ K.faults out.new }
{
    match write_all(out, b"too long\n") {
        Ok(()) => Status::TooLong,
        Err(WriteFault) => Status::Write,
    }
}

/// Writes the line of a script (or of a trace) that is refused.
pub fn refuse_script<K: Sink>(line: u32, code: u8, out: &mut K) -> Status
    ensures ends { Ends (refused_script line code) result (K.written out.old) (K.written out.new) }
    ensures only { IsOr (Script line code) result }
    ensures write { result ≡ Write → Rose (K.faults out.old) (K.faults out.new) }
    ensures faults { K.faults out.old ≤ K.faults out.new }
{
    let text = script_line(line, code);
    match write_all(out, text.as_slice()) {
        Ok(()) => Status::Script { line, code },
        Err(WriteFault) => Status::Write,
    }
}

/// Writes the code of a configuration file that is refused.
pub fn refuse_config<K: Sink>(code: u8, out: &mut K) -> Status
    ensures ends { Ends (refused_config code) result (K.written out.old) (K.written out.new) }
    ensures only { IsOr (Config code) result }
    ensures write { result ≡ Write → Rose (K.faults out.old) (K.faults out.new) }
    ensures faults { K.faults out.old ≤ K.faults out.new }
{
    let text = config_line(code);
    match write_all(out, text.as_slice()) {
        Ok(()) => Status::Config { code },
        Err(WriteFault) => Status::Write,
    }
}
