ghost use Rattle.std.specs.Prelude.{◌≡◌, IsTrue};
ghost use Rattle.fault_script.specs.Edited.{never_fall};

use fault_script::{Adversary, Edit, EditKind, NoFault, Player};
use frame_format::FrameBuf;
use ftpp_base::{Ne, Round, Slot};

/// A short frame: kind, cycle, sender and two bytes.
fn frame(cycle: u8, sender: u8) -> FrameBuf {
    let mut frame = FrameBuf::new();
    let _ = frame.try_extend_from_slice([0xa1, 0, 0, 0, cycle, sender, 0x11, 0x22].as_slice());
    frame
}

fn edit(cycle: u32, round: Option<Round>, to: Option<Ne>, what: EditKind) -> Edit
    ensures { result.cycle ≡ cycle }
{
    Edit {
        cycle,
        round,
        to,
        what,
    }
}

fn flip(offset: u16, bits: u8) -> Edit
    ensures { result.cycle ≡ 1 }
{
    edit(1, None, None, EditKind::Flip { offset, bits })
}

/// The last two bytes of a frame of eight, and zeros of one without bytes.
fn last_two(frame: &FrameBuf) -> Option<(u8, u8)> {
    let bytes = frame.as_slice();
    match (bytes.len(), bytes.get(6), bytes.get(7)) {
        (8, Some(first), Some(second)) => Some((*first, *second)),
        (0, _, _) => Some((0, 0)),
        _ => None,
    }
}

/// The last two bytes of the frame that is sent to element 2 in A1 of cycle 1, zeros where no bytes are sent.
fn sent<A: Adversary>(adversary: &mut A) -> Option<(u8, u8)> {
    let at = Slot {
        cycle: 1,
        round: Round::A1,
    };
    let mut got = FrameBuf::new();
    adversary.frame(at, Ne::at(2), &frame(1, 3), &mut got);
    last_two(&got)
}

/// Whether these edits give these bytes.
fn gives(edits: &[Edit], first: u8, second: u8) -> bool
    requires { IsTrue (never_fall 0 edits.now) }
{
    let mut player = Player::new(edits);
    sent(&mut player) == Some((first, second))
}

#[test]
fn flips_are_played_in_order(rt: HostRuntime) {
    let mut no_fault = NoFault;
    assert!(rt; sent(&mut no_fault) == Some((0x11, 0x22)));
    assert!(rt; gives(&[], 0x11, 0x22));
    assert!(rt; gives(&[flip(6, 0x0f), flip(6, 0xf0)], 0x11 ^ 0xff, 0x22));
    assert!(rt; gives(&[flip(8, 0xff), flip(330, 1)], 0x11, 0x22));
}

#[test]
fn edits_are_played_in_order(rt: HostRuntime) {
    let here = Ne::at(2);
    assert!(rt; gives(&[edit(1, None, None, EditKind::Drop), flip(6, 1)], 0, 0));
    let send = edit(1, Some(Round::A1), Some(here), EditKind::Send(frame(9, 9)));
    assert!(rt; gives(&[send, flip(7, 1)], 0x11, 0x23));
    assert!(rt; gives(&[edit(1, None, None, EditKind::Repeat)], 0, 0));
}

#[test]
fn edits_of_other_frames_are_left_out(rt: HostRuntime) {
    let other_round = edit(1, Some(Round::A2), None, EditKind::Drop);
    let other_receiver = edit(1, None, Some(Ne::at(1)), EditKind::Drop);
    assert!(rt; gives(&[other_round, other_receiver], 0x11, 0x22));
    let before = edit(0, None, None, EditKind::Drop);
    let behind = edit(2, None, None, EditKind::Drop);
    assert!(rt; gives(&[before, flip(7, 2), behind], 0x11, 0x20));
}

/// What a player sends to element 2 in A1 of a cycle in place of a frame.
fn play(player: &mut Player<'_>, cycle: u32, own: &FrameBuf, got: &mut FrameBuf) {
    let at = Slot {
        cycle,
        round: Round::A1,
    };
    player.frame(at, Ne::at(2), own, got);
}

/// How many bytes a repeat in A1 of cycle 1 sends, asked for twice, after a frame of a sender was kept; 9 if they are not those
/// of cycle 0.
fn repeated(cycle_before: u32, sender_before: u8) -> usize {
    let edits = [edit(1, None, None, EditKind::Repeat)];
    let mut player = Player::new(&edits);
    let mut got = FrameBuf::new();
    play(
        &mut player,
        cycle_before,
        &frame(0, sender_before),
        &mut got,
    );
    play(&mut player, 1, &frame(1, 3), &mut got);
    play(&mut player, 1, &frame(1, 3), &mut got);
    let bytes = got.as_slice();
    match bytes.get(4) {
        Some(0) | None => bytes.len(),
        Some(_) => 9,
    }
}

/// How many bytes a repeat in A1 of cycle 0 sends.
fn repeated_at_the_start() -> usize {
    let edits = [edit(0, None, None, EditKind::Repeat)];
    let mut player = Player::new(&edits);
    let mut got = frame(9, 9);
    play(&mut player, 0, &frame(0, 3), &mut got);
    got.len()
}

#[test]
fn a_frame_is_repeated_where_the_same_element_was_faulty(rt: HostRuntime) {
    for (cycle, sender, wanted) in [(0, 3, 8), (0, 1, 0), (1, 3, 0)] {
        assert!(rt; repeated(cycle, sender) == wanted, "{sender} in {cycle}");
    }
    assert!(rt; repeated_at_the_start() == 0);
}
