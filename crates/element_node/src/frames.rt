//! The frames of a round, read from the input.

ghost use Rattle.std.specs.Prelude.{◌≡◌, ◌≢◌, ℕ, ◌<◌, ◌≤◌, ◌⊎◌, ◌==◌, List, Option, [], ◌++◌, ◌∷◌, length, take, slice_index_or, Err, IfErr, OnOk};
ghost use Rattle.ftpp_outside.specs.Told.{Rose};
ghost use Rattle.link_fabric.specs.Ends.{came_of};
ghost use Rattle.element_node.specs.Dialog.{ready, piece};
ghost use Rattle.element_node.specs.Progress.{Between, Halts};
ghost use Rattle.element_node.specs.Input.{read_frame, length_in, read_frame_from, read_frames_from, read_frames};

use crate::Halt;
use crate::reading::take_piece;
use frame_format::{FRAME_BYTES, FrameBuf};
use ftpp_base::Ne;
use ftpp_outside::Source;
use link_fabric::LinkEnd;

/// The bytes of a frame, so many of them.
fn take_bytes<S: Source>(input: &mut S, count: usize, frame: &mut FrameBuf) -> Result<(), Halt>
    requires { count ≤ FRAME_BYTES }
    ensures taken { OnOk result ((w : Option (List ℕ)) → Between (piece count) (ready frame.new.items) (S.left input.old) (S.left input.new) w w) }
    ensures halted { IfErr result (λ halt. (w : Option (List ℕ)) → Halts (piece count) halt (S.left input.old) (S.left input.new) w w) }
    ensures read { result ≡ Err Halt.Read → Rose (S.faults input.old) (S.faults input.new) }
    ensures no_write { result ≢ Err Halt.Write }
    ensures faults { S.faults input.old ≤ S.faults input.new }
{
    let mut bytes = [0; FRAME_BYTES];
    let part = &mut bytes[..count];
    take_piece(input, part)?;
    frame.clear();
    let _ = frame.try_extend_from_slice(part);
    Ok(())
}

/// How long the frame is whose first two bytes these are.
fn length_in(bytes: &[u8; 2]) -> usize
    ensures { result ≡ length_in bytes.now }
{
    let high = bytes[0];
    let low = bytes[1];
    usize::from(high) * 256 + usize::from(low)
}

/// The next frame.
fn take_frame<S: Source>(input: &mut S, frame: &mut FrameBuf) -> Result<(), Halt>
    ensures taken { OnOk result ((w : Option (List ℕ)) → Between read_frame (ready frame.new.items) (S.left input.old) (S.left input.new) w w) }
    ensures halted { IfErr result (λ halt. (w : Option (List ℕ)) → Halts read_frame halt (S.left input.old) (S.left input.new) w w) }
    ensures read { result ≡ Err Halt.Read → Rose (S.faults input.old) (S.faults input.new) }
    ensures no_write { result ≢ Err Halt.Write }
    ensures faults { S.faults input.old ≤ S.faults input.new }
{
    let mut two = [0; 2];
    take_piece(input, &mut two)?;
    let count = length_in(&two);
    if count > FRAME_BYTES {
        return Err(Halt::Broken(5));
    }
    take_bytes(input, count, frame)
}

/// The frame of one sender, if that is another element.
fn take_frame_from<const N: usize, S: Source>(
    input: &mut S,
    sender: Ne,
    link: &mut LinkEnd<N>,
) -> Result<(), Halt>
    requires below { sender < N }
    requires own { slice_index_or (came_of link.old) link.old.owner [] ≡ [] }
    ensures taken { OnOk result ((w : Option (List ℕ)) → Between (read_frame_from link.old.owner sender) (ready (slice_index_or (came_of link.new) sender [])) (S.left input.old) (S.left input.new) w w) }
    ensures before { take sender (came_of link.new) ≡ take sender (came_of link.old) }
    ensures halted { IfErr result (λ halt. (w : Option (List ℕ)) → Halts (read_frame_from link.old.owner sender) halt (S.left input.old) (S.left input.new) w w) }
    ensures owner { link.new.owner ≡ link.old.owner }
    ensures own { slice_index_or (came_of link.new) link.old.owner [] ≡ [] }
    ensures read { result ≡ Err Halt.Read → Rose (S.faults input.old) (S.faults input.new) }
    ensures no_write { result ≢ Err Halt.Write }
    ensures faults { S.faults input.old ≤ S.faults input.new }
{
    if sender == link.owner {
        return Ok(());
    }
    let mut frame = FrameBuf::new();
    take_frame(input, &mut frame)?;
    link.arrive(sender, &frame);
    Ok(())
}

/// The frames of a round, one from each other element.
pub(crate) fn take_frames<const N: usize, S: Source>(
    input: &mut S,
    link: &mut LinkEnd<N>,
) -> Result<(), Halt>
    requires size { (N ≡ 4) ⊎ (N ≡ 5) }
    requires own { slice_index_or (came_of link.old) link.old.owner [] ≡ [] }
    ensures taken { OnOk result ((w : Option (List ℕ)) → Between (read_frames N link.old.owner) (ready (came_of link.new)) (S.left input.old) (S.left input.new) w w) }
    ensures halted { IfErr result (λ halt. (w : Option (List ℕ)) → Halts (read_frames N link.old.owner) halt (S.left input.old) (S.left input.new) w w) }
    ensures owner { link.new.owner ≡ link.old.owner }
    ensures own { slice_index_or (came_of link.new) link.old.owner [] ≡ [] }
    ensures read { result ≡ Err Halt.Read → Rose (S.faults input.old) (S.faults input.new) }
    ensures no_write { result ≢ Err Halt.Write }
    ensures faults { S.faults input.old ≤ S.faults input.new }
{
    for k in 0..N {
        take_frame_from(input, Ne::at(k), link)?;
    }
    Ok(())
}
