//! `node`: one element over byte streams.

ghost use Rattle.std.specs.Prelude.{◌≡◌, ◌<◌, ◌≤◌};
ghost use Rattle.ftpp_outside.specs.Told.{Rose};
ghost use Rattle.command_steps.specs.declared.status.Status.TheVariants.{Read, Write, Memory};
ghost use Rattle.ftpp_top.specs.Served.{IsOfNode, ServesNode, status_of};

use command_steps::Status;
use config_table::Table;
use element_node::{NodeEnd, serve_node};
use ftpp_base::{MOST_CYCLES, Ne};
use ftpp_outside::{Sink, Source};
use std::alloc::Global;

/// The status of a node that ended so.
fn status_of(end: NodeEnd) -> Status
    ensures { result ≡ status_of end }
{
    match end {
        NodeEnd::Done => Status::Done,
        NodeEnd::Stream { cycle, code } => Status::Stream { cycle, code },
        NodeEnd::Read => Status::Read,
        NodeEnd::Write => Status::Write,
        NodeEnd::Memory => Status::Memory,
    }
}

/// Runs one of a table's elements for some cycles. All memory is taken before the first byte is read.
pub(crate) fn node<S: Source, K: Sink>(
    alloc: Global,
    me: Ne,
    table: &Table,
    cycles: u32,
    input: &mut S,
    out: &mut K,
) -> Status
    requires below { me < table.now.n }
    requires first { 1 ≤ cycles }
    requires most { cycles ≤ MOST_CYCLES }
    ensures served { ServesNode (record { table = table.now; element = me; cycles = cycles }) result (S.left input.old) (S.left input.new) (K.written out.old) (K.written out.new) }
    ensures only { IsOfNode result }
    ensures read { result ≡ Read → Rose (S.faults input.old) (S.faults input.new) }
    ensures write { result ≡ Write → Rose (K.faults out.old) (K.faults out.new) }
    ensures memory { result ≡ Memory → (input.new ≡ input.old) × (out.new ≡ out.old) }
    ensures input_faults { S.faults input.old ≤ S.faults input.new }
    ensures out_faults { K.faults out.old ≤ K.faults out.new }
{
    let end = if table.n() == 4 {
        serve_node::<4, S, K>(alloc, me, table, cycles, input, out)
    } else {
        serve_node::<5, S, K>(alloc, me, table, cycles, input, out)
    };
    status_of(end)
}
