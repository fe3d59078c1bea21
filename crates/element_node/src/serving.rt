//! Cycles of a node: acts are read and answered, and in each round its frame is written before those of the others are read.

ghost use Rattle.std.specs.Prelude.{◌≡◌, ◌≢◌, ℕ, ◌+◌, ◌<◌, ◌≤◌, ◌⊎◌, List, [], ◌++◌, length, take, slice_index_or, Option, IfErr, IfSome, OnOk, Err};
ghost use Rattle.ftpp_outside.specs.Told.{Rose, Adds};
ghost use Rattle.link_fabric.specs.Ends.{came_of};
ghost use Rattle.ftpp_base.specs.declared.element.Round.TheVariants.{A1};
ghost use Rattle.element_core.specs.declared.Due.TheVariants.{Emit};
ghost use Rattle.element_node.specs.Dialog.{ready, write_then};
ghost use Rattle.element_node.specs.Progress.{Between, Halts, IsNoStream, IsWholeInput, Serves, cycle_after, end_in, round_after};
ghost use Rattle.element_node.specs.Node.{at_the_end, cycle_dialog, cycles_from, framed, node, round_dialog, rounds_dialog};

use crate::acting::{Text, answer_acts};
use crate::acts::take_acts;
use crate::frames::take_frames;
use crate::{Halt, NodeEnd};
use config_table::Table;
use element_core::Element;
use frame_format::FrameBuf;
use ftpp_base::{MOST_CYCLES, Ne, Round};
use ftpp_outside::{ReadFault, Sink, Source, write_all};
use link_fabric::LinkEnd;
use packet_format::HostActs;
use std::alloc::Global;

/// Puts a frame behind a text, with its length before it.
fn push_framed(frame: &FrameBuf, text: &mut Text)
    requires room { length text.old.items ≤ 5760 }
    ensures { text.new.items ≡ text.old.items ++ framed frame.now.items }
{
    let count = frame.len();
    text.push((count / 256 % 256) as u8);
    text.push((count % 256) as u8);
    let _ = text.try_extend_from_slice(frame.as_slice());
}

/// Writes the text, and begins a new one.
fn write_text<K: Sink>(out: &mut K, text: &mut Text) -> Result<(), Halt>
    ensures written { OnOk result (Adds (K.written out.old) text.old.items (K.written out.new)) }
    ensures partly { IfErr result (λ halt. (halt ≡ Halt.Write) × ((n : ℕ) × (n ≤ length text.old.items) × Adds (K.written out.old) (take n text.old.items) (K.written out.new))) }
    ensures empty { OnOk result (text.new.items ≡ []) }
    ensures write { result ≡ Err Halt.Write → Rose (K.faults out.old) (K.faults out.new) }
    ensures faults { K.faults out.old ≤ K.faults out.new }
{
    if write_all(out, text.as_slice()).is_err() {
        return Err(Halt::Write);
    }
    text.clear();
    Ok(())
}

/// An element other than this one.
fn another(me: Ne) -> Ne
    ensures { (result ≢ me) × (result < 2) }
{
    if me == Ne::at(0) {
        Ne::at(1)
    } else {
        Ne::at(0)
    }
}

/// A round: the frame goes out behind the text that waits, and then the frames of the others are read.
fn serve_round<const N: usize, S: Source, K: Sink>(
    round: Round,
    element: &mut Element<N>,
    link: &mut LinkEnd<N>,
    text: &mut Text,
    input: &mut S,
    out: &mut K,
) -> Result<(), Halt>
    requires size { (N ≡ 4) ⊎ (N ≡ 5) }
    requires due { element.old.due ≡ Emit round }
    requires cycle { element.old.kept.cycle < MOST_CYCLES }
    requires owner { link.old.owner ≡ element.old.kept.me }
    requires own { slice_index_or (came_of link.old) link.old.owner [] ≡ [] }
    requires room { length text.old.items ≤ 5760 }
    ensures served { OnOk result (Between (write_then text.old.items (round_dialog round element.old)) (ready element.new) (S.left input.old) (S.left input.new) (K.written out.old) (K.written out.new)) }
    ensures halted { IfErr result (λ halt. Halts (write_then text.old.items (round_dialog round element.old)) halt (S.left input.old) (S.left input.new) (K.written out.old) (K.written out.new)) }
    ensures due { OnOk result (element.new.due ≡ Emit (round_after round)) }
    ensures cycle { OnOk result (element.new.kept.cycle ≡ cycle_after round element.old.kept.cycle) }
    ensures me { OnOk result (element.new.kept.me ≡ element.old.kept.me) }
    ensures text { OnOk result (text.new.items ≡ []) }
    ensures room { OnOk result (length text.new.items ≤ 5760) }
    ensures owner { OnOk result (link.new.owner ≡ element.new.kept.me) }
    ensures own { OnOk result (slice_index_or (came_of link.new) link.new.owner [] ≡ []) }
    ensures read { result ≡ Err Halt.Read → Rose (S.faults input.old) (S.faults input.new) }
    ensures write { result ≡ Err Halt.Write → Rose (K.faults out.old) (K.faults out.new) }
    ensures input_faults { S.faults input.old ≤ S.faults input.new }
    ensures out_faults { K.faults out.old ≤ K.faults out.new }
{
    // its table is one of `N` elements
    let _table = element.table();
    element.emit(round, link);
    push_framed(link.leaving(another(element.me())), text);
    write_text(out, text)?;
    take_frames(input, link)?;
    element.absorb(round, link);
    Ok(())
}

/// The four rounds of a cycle.
fn serve_rounds<const N: usize, S: Source, K: Sink>(
    element: &mut Element<N>,
    link: &mut LinkEnd<N>,
    text: &mut Text,
    input: &mut S,
    out: &mut K,
) -> Result<(), Halt>
    requires size { (N ≡ 4) ⊎ (N ≡ 5) }
    requires due { element.old.due ≡ Emit A1 }
    requires cycle { element.old.kept.cycle < MOST_CYCLES }
    requires owner { link.old.owner ≡ element.old.kept.me }
    requires own { slice_index_or (came_of link.old) link.old.owner [] ≡ [] }
    requires room { length text.old.items ≤ 5760 }
    ensures served { OnOk result (Between (write_then text.old.items (rounds_dialog element.old)) (ready element.new) (S.left input.old) (S.left input.new) (K.written out.old) (K.written out.new)) }
    ensures halted { IfErr result (λ halt. Halts (write_then text.old.items (rounds_dialog element.old)) halt (S.left input.old) (S.left input.new) (K.written out.old) (K.written out.new)) }
    ensures due { OnOk result (element.new.due ≡ Emit A1) }
    ensures cycle { OnOk result (element.new.kept.cycle ≡ element.old.kept.cycle + 1) }
    ensures me { OnOk result (element.new.kept.me ≡ element.old.kept.me) }
    ensures text { OnOk result (text.new.items ≡ []) }
    ensures owner { OnOk result (link.new.owner ≡ element.new.kept.me) }
    ensures own { OnOk result (slice_index_or (came_of link.new) link.new.owner [] ≡ []) }
    ensures read { result ≡ Err Halt.Read → Rose (S.faults input.old) (S.faults input.new) }
    ensures write { result ≡ Err Halt.Write → Rose (K.faults out.old) (K.faults out.new) }
    ensures input_faults { S.faults input.old ≤ S.faults input.new }
    ensures out_faults { K.faults out.old ≤ K.faults out.new }
{
    serve_round(Round::A1, element, link, text, input, out)?;
    serve_round(Round::A2, element, link, text, input, out)?;
    serve_round(Round::B1, element, link, text, input, out)?;
    serve_round(Round::B2, element, link, text, input, out)
}

/// A cycle: its acts are read and answered, and the rounds follow.
fn serve_cycle<const N: usize, S: Source, K: Sink>(
    element: &mut Element<N>,
    link: &mut LinkEnd<N>,
    acts: &mut HostActs,
    text: &mut Text,
    input: &mut S,
    out: &mut K,
) -> Result<(), Halt>
    requires size { (N ≡ 4) ⊎ (N ≡ 5) }
    requires due { element.old.due ≡ Emit A1 }
    requires cycle { element.old.kept.cycle < MOST_CYCLES }
    requires owner { link.old.owner ≡ element.old.kept.me }
    requires own { slice_index_or (came_of link.old) link.old.owner [] ≡ [] }
    requires empty { text.old.items ≡ [] }
    ensures served { OnOk result (Between (cycle_dialog element.old) (ready element.new) (S.left input.old) (S.left input.new) (K.written out.old) (K.written out.new)) }
    ensures halted { IfErr result (λ halt. Halts (cycle_dialog element.old) halt (S.left input.old) (S.left input.new) (K.written out.old) (K.written out.new)) }
    ensures due { OnOk result (element.new.due ≡ Emit A1) }
    ensures cycle { OnOk result (element.new.kept.cycle ≡ element.old.kept.cycle + 1) }
    ensures me { OnOk result (element.new.kept.me ≡ element.old.kept.me) }
    ensures text { OnOk result (text.new.items ≡ []) }
    ensures owner { OnOk result (link.new.owner ≡ element.new.kept.me) }
    ensures own { OnOk result (slice_index_or (came_of link.new) link.new.owner [] ≡ []) }
    ensures read { result ≡ Err Halt.Read → Rose (S.faults input.old) (S.faults input.new) }
    ensures write { result ≡ Err Halt.Write → Rose (K.faults out.old) (K.faults out.new) }
    ensures input_faults { S.faults input.old ≤ S.faults input.new }
    ensures out_faults { K.faults out.old ≤ K.faults out.new }
{
    let me = element.me();
    take_acts(input, me, acts)?;
    answer_acts(me, element, acts, text);
    serve_rounds(element, link, text, input, out)
}

/// The end of a node that halted in a cycle.
fn end_in(cycle: u32, halt: Halt) -> NodeEnd
    ensures { result ≡ end_in cycle halt }
{
    match halt {
        Halt::Ended => NodeEnd::Stream { cycle, code: 1 },
        Halt::Broken(code) => NodeEnd::Stream { cycle, code },
        Halt::Read => NodeEnd::Read,
        Halt::Write => NodeEnd::Write,
    }
}

/// The end behind the last cycle, where no byte may come.
fn take_end<S: Source>(cycles: u32, input: &mut S) -> NodeEnd
    ensures served { (w : Option (List ℕ)) → Serves (at_the_end cycles) cycles result (S.left input.old) (S.left input.new) w w }
    ensures read { result ≡ NodeEnd.Read → Rose (S.faults input.old) (S.faults input.new) }
    ensures only { (result ≢ NodeEnd.Write) × (result ≢ NodeEnd.Memory) }
    ensures faults { S.faults input.old ≤ S.faults input.new }
{
    let mut one = [0; 1];
    match input.read(&mut one) {
        Ok(0) => NodeEnd::Done,
        Ok(_) => NodeEnd::Stream {
            cycle: cycles,
            code: 6,
        },
        Err(ReadFault) => NodeEnd::Read,
    }
}

/// Serves a number of cycles from the first one on, and the end behind them.
fn serve_cycles<const N: usize, S: Source, K: Sink>(
    element: &mut Element<N>,
    cycles: u32,
    input: &mut S,
    out: &mut K,
) -> NodeEnd
    requires size { (N ≡ 4) ⊎ (N ≡ 5) }
    requires due { element.old.due ≡ Emit A1 }
    requires first { element.old.kept.cycle ≡ 0 }
    requires most { cycles ≤ MOST_CYCLES }
    ensures served { Serves (cycles_from cycles element.old) cycles result (S.left input.old) (S.left input.new) (K.written out.old) (K.written out.new) }
    ensures read { result ≡ NodeEnd.Read → Rose (S.faults input.old) (S.faults input.new) }
    ensures write { result ≡ NodeEnd.Write → Rose (K.faults out.old) (K.faults out.new) }
    ensures no_memory { result ≢ NodeEnd.Memory }
    ensures input_faults { S.faults input.old ≤ S.faults input.new }
    ensures out_faults { K.faults out.old ≤ K.faults out.new }
{
    let mut link = LinkEnd::new(element.me());
    let mut acts = HostActs::new();
    let mut text = Text::new();
    for cycle in 0..cycles {
        if let Err(halt) = serve_cycle(element, &mut link, &mut acts, &mut text, input, out) {
            return end_in(cycle, halt);
        }
    }
    take_end(cycles, input)
}

/// Runs one of the `N` elements of a table for some cycles, 1 to 100,000, over bytes. All memory is taken before the first
/// read. Each byte is read only when it is due, after all was written that is due before it.
///
/// # Errors
///
/// The [`NodeEnd`] says how it ended: `Stream` exactly where a byte breaks the input or the input ends too early, `Read`
/// and `Write` only where a read or a write failed, and `Memory` before anything was read or written.
pub fn serve_node<const N: usize, S: Source, K: Sink>(
    alloc: Global,
    me: Ne,
    table: &Table,
    cycles: u32,
    input: &mut S,
    out: &mut K,
) -> NodeEnd
    requires elements { table.now.n ≡ N }
    requires below { me < N }
    requires first { 1 ≤ cycles }
    requires most { cycles ≤ MOST_CYCLES }
    ensures served { Serves (node me table.now cycles) cycles result (S.left input.old) (S.left input.new) (K.written out.old) (K.written out.new) }
    ensures whole { IfSome (S.left input.old) (λ bytes. IsWholeInput (node me table.now cycles) cycles bytes → IsNoStream result) }
    ensures read { result ≡ NodeEnd.Read → Rose (S.faults input.old) (S.faults input.new) }
    ensures write { result ≡ NodeEnd.Write → Rose (K.faults out.old) (K.faults out.new) }
    ensures memory { result ≡ NodeEnd.Memory → (input.new ≡ input.old) × (out.new ≡ out.old) }
    ensures input_faults { S.faults input.old ≤ S.faults input.new }
    ensures out_faults { K.faults out.old ≤ K.faults out.new }
{
    // a table has four or five elements
    let _elements = table.n();
    match Element::<N>::new(alloc, me, table) {
        Ok(mut element) => serve_cycles(&mut element, cycles, input, out),
        Err(_) => NodeEnd::Memory,
    }
}
