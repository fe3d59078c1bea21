//! The acts of a cycle, read from the input.

ghost use Rattle.std.specs.Prelude.{◌≡◌, ℕ, ◌≢◌, ◌<◌, ◌≤◌, List, Option, [], Err, IfErr, IfOk, OnOk};
ghost use Rattle.ftpp_outside.specs.Told.{Rose};
ghost use Rattle.element_node.specs.Dialog.{ready};
ghost use Rattle.element_node.specs.Progress.{Between, Halts};
ghost use Rattle.std.specs.List.{All};
ghost use Rattle.element_node.specs.Input.{IsOwnAct, read_act_at, read_act, read_act_of, read_counted, read_acts, read_acts_from, is_kind, post_of};

use crate::Halt;
use crate::reading::{take_byte, take_piece};
use ftpp_base::{Ne, Proc};
use ftpp_outside::Source;
use packet_format::{Act, Descriptor, HostActs, MOST_ACTS, Packet};

/// The post of 67 bytes: the request and the packet.
fn post_of(me: Ne, port: u8, body: &[u8; 67]) -> Act
    ensures { result ≡ post_of me port body.now }
{
    let mut bytes = [0; 64];
    bytes.copy_from_slice(&body[3..]);
    Act::Post {
        proc: Proc {
            ne: me.byte(),
            port,
        },
        desc: Descriptor {
            dest: body[0],
            class: body[1],
            source: body[2],
        },
        packet: Packet { bytes },
    }
}

/// What follows the port of an act.
fn take_act_at<S: Source>(input: &mut S, me: Ne, kind: u8, port: u8) -> Result<Act, Halt>
    ensures own { IfOk result (IsOwnAct me) }
    ensures taken { IfOk result (λ act. (w : Option (List ℕ)) → Between (read_act_at me kind port) (ready act) (S.left input.old) (S.left input.new) w w) }
    ensures halted { IfErr result (λ halt. (w : Option (List ℕ)) → Halts (read_act_at me kind port) halt (S.left input.old) (S.left input.new) w w) }
    ensures read { result ≡ Err Halt.Read → Rose (S.faults input.old) (S.faults input.new) }
    ensures no_write { result ≢ Err Halt.Write }
    ensures faults { S.faults input.old ≤ S.faults input.new }
{
    if port >= 8 {
        return Err(Halt::Broken(4));
    }
    if kind != 1 {
        let ne = me.byte();
        return Ok(Act::Read(Proc { ne, port }));
    }
    let mut body = [0; 67];
    take_piece(input, &mut body)?;
    Ok(post_of(me, port, &body))
}

/// Whether an act begins so.
fn is_kind(kind: u8) -> bool
    ensures { result ≡ is_kind kind }
{
    kind == 1 || kind == 2
}

/// What follows the first byte of an act.
fn take_act_of<S: Source>(input: &mut S, me: Ne, kind: u8) -> Result<Act, Halt>
    ensures own { IfOk result (IsOwnAct me) }
    ensures taken { IfOk result (λ act. (w : Option (List ℕ)) → Between (read_act_of me kind) (ready act) (S.left input.old) (S.left input.new) w w) }
    ensures halted { IfErr result (λ halt. (w : Option (List ℕ)) → Halts (read_act_of me kind) halt (S.left input.old) (S.left input.new) w w) }
    ensures read { result ≡ Err Halt.Read → Rose (S.faults input.old) (S.faults input.new) }
    ensures no_write { result ≢ Err Halt.Write }
    ensures faults { S.faults input.old ≤ S.faults input.new }
{
    if !is_kind(kind) {
        return Err(Halt::Broken(3));
    }
    let port = take_byte(input)?;
    take_act_at(input, me, kind, port)
}

/// The next act.
fn take_act<S: Source>(input: &mut S, me: Ne) -> Result<Act, Halt>
    ensures own { IfOk result (IsOwnAct me) }
    ensures taken { IfOk result (λ act. (w : Option (List ℕ)) → Between (read_act me) (ready act) (S.left input.old) (S.left input.new) w w) }
    ensures halted { IfErr result (λ halt. (w : Option (List ℕ)) → Halts (read_act me) halt (S.left input.old) (S.left input.new) w w) }
    ensures read { result ≡ Err Halt.Read → Rose (S.faults input.old) (S.faults input.new) }
    ensures no_write { result ≢ Err Halt.Write }
    ensures faults { S.faults input.old ≤ S.faults input.new }
{
    let kind = take_byte(input)?;
    take_act_of(input, me, kind)
}

/// A number of acts, at most 80.
fn take_counted<S: Source>(
    input: &mut S,
    me: Ne,
    count: u8,
    acts: &mut HostActs,
) -> Result<(), Halt>
    requires { count ≤ MOST_ACTS }
    ensures own { OnOk result (All (IsOwnAct me) acts.new.items) }
    ensures taken { OnOk result ((w : Option (List ℕ)) → Between (read_acts_from me count []) (ready acts.new.items) (S.left input.old) (S.left input.new) w w) }
    ensures halted { IfErr result (λ halt. (w : Option (List ℕ)) → Halts (read_acts_from me count []) halt (S.left input.old) (S.left input.new) w w) }
    ensures read { result ≡ Err Halt.Read → Rose (S.faults input.old) (S.faults input.new) }
    ensures no_write { result ≢ Err Halt.Write }
    ensures faults { S.faults input.old ≤ S.faults input.new }
{
    acts.clear();
    for _ in 0..count {
        acts.push(take_act(input, me)?);
    }
    Ok(())
}

/// The acts of a cycle.
pub(crate) fn take_acts<S: Source>(input: &mut S, me: Ne, acts: &mut HostActs) -> Result<(), Halt>
    ensures own { OnOk result (All (IsOwnAct me) acts.new.items) }
    ensures taken { OnOk result ((w : Option (List ℕ)) → Between (read_acts me) (ready acts.new.items) (S.left input.old) (S.left input.new) w w) }
    ensures halted { IfErr result (λ halt. (w : Option (List ℕ)) → Halts (read_acts me) halt (S.left input.old) (S.left input.new) w w) }
    ensures read { result ≡ Err Halt.Read → Rose (S.faults input.old) (S.faults input.new) }
    ensures no_write { result ≢ Err Halt.Write }
    ensures faults { S.faults input.old ≤ S.faults input.new }
{
    let count = take_byte(input)?;
    if count as usize > MOST_ACTS {
        return Err(Halt::Broken(2));
    }
    take_counted(input, me, count, acts)
}
