//! A call on which nothing fails, and of which nothing is refused, is done: the first function here stands for laws, which its
//! clauses state, and the second is the top call over bytes that never fail.

ghost use Rattle.std.specs.Prelude.{◌≡◌, ◌-◌, ◌^◌, ◌<◌, IfSome, None, map, string_bytes};
ghost use Rattle.ftpp_outside.specs.Told.{Rose};
ghost use Rattle.command_steps.specs.declared.status.Status.TheVariants.{Read, Write};
ghost use Rattle.command_words.specs.Commands.{command_of};
ghost use Rattle.ftpp_top.specs.Commands.{loads};
ghost use Rattle.ftpp_top.specs.Completeness.{DoneIfNoneFails, AuditedIfNoneFails, ServedIfNoneFails};

use crate::call::top;
use command_steps::Status;
use ftpp_base::Gate;
use ftpp_outside::{Shelf, SteadySink, SteadySource};
use link_fabric::Fabric;
use std::alloc::Global;
use std::thread::Threads;

/// **Where nothing is refused and nothing fails, a call is done with its whole output**, or memory is wanting and nothing was written.
pub fn is_done()
    ensures ends { DoneIfNoneFails }
    ensures audited { AuditedIfNoneFails }
    ensures served { ServedIfNoneFails }
{}

/// **Over a source and a sink that never fail, no write fails, and no read but that of a file**, where the shelf is not sure
/// of it.
pub fn top_over_steady_bytes<R: Threads + Sync, H: Shelf, F: Fabric, G: Gate>(
    rt: &R,
    alloc: Global,
    words: &[String],
    input: &mut SteadySource,
    shelf: &mut H,
    fabric: &mut F,
    gate: &G,
    out: &mut SteadySink,
) -> Status
    requires { H.faults shelf.old < 2 ^ 64 - 1 }
    ensures write { result ≡ Write → ⊥ }
    ensures read { result ≡ Read → Rose (H.faults shelf.old) (H.faults shelf.new) }
    ensures unloaded { loads (command_of (map string_bytes words.now)) ≡ None → result ≡ Read → ⊥ }
    ensures sure { IfSome (loads (command_of (map string_bytes words.now))) (H.sure_of shelf.old) → result ≡ Read → ⊥ }
{
    top(rt, alloc, words, input, shelf, fabric, gate, out)
}
