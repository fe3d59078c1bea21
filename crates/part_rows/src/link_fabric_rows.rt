ghost use Rattle.std.specs.Prelude.{◌≡◌, ◌<◌};

use frame_format::FrameBuf;
use ftpp_base::{Ne, Round, Slot};
use link_fabric::{Carried, Fabric, Liar, Link, LinkEnd, Mesh, Recorder};
use std::test::Fail;

const SLOT: Slot = Slot {
    cycle: 7,
    round: Round::B1,
};

fn frame(byte: u8) -> FrameBuf {
    let mut frame = FrameBuf::new();
    frame.push(byte);
    frame
}

/// Whether a frame is the one of that byte.
fn is_frame(frame: &FrameBuf, byte: u8) -> bool {
    frame.as_slice() == [byte].as_slice()
}

/// Carries a frame of one byte from element 0 to element 3, and gives how many bytes came; 9 if they are others.
fn carried<F: Fabric>(fabric: &mut F, byte: u8) -> usize {
    let mut got = frame(9);
    fabric.carry(SLOT, Ne::at(0), Ne::at(3), &frame(byte), &mut got);
    if got.is_empty() || is_frame(&got, byte) {
        got.len()
    } else {
        9
    }
}

#[test]
fn a_mesh_delivers_what_was_sent(rt: HostRuntime) {
    let mut mesh = Mesh;
    assert!(rt; carried(&mut mesh, 1) == 1);
}

/// Whether a frame was carried as the one of that byte.
fn is_carried(told: &Carried, byte: u8) -> bool {
    told.at == SLOT && told.from == Ne::at(0) && told.to == Ne::at(3) && is_frame(&told.frame, byte)
}

/// Whether the recorder tells of two frames, the second of which is the one of that byte.
fn tells_two(recorder: &Recorder, byte: u8) -> bool {
    match recorder.list() {
        Some([_, second]) => is_carried(second, byte),
        _ => false,
    }
}

#[test]
fn a_recorder_tells_while_there_is_room(rt: HostRuntime) -> Result<(), Fail> {
    let mut recorder = Recorder::new(rt.alloc(), 2).ok().ok_or("no memory")?;
    assert!(rt; carried(&mut recorder, 1) == 1);
    assert!(rt; carried(&mut recorder, 2) == 1);
    assert!(rt; tells_two(&recorder, 2));
    assert!(rt; carried(&mut recorder, 3) == 1);
    assert!(rt; recorder.list().is_none());
    Ok(())
}

#[test]
fn a_liar_lies_at_the_listed_calls(rt: HostRuntime) -> Result<(), Fail> {
    let mut liar = Liar::new(vec![in rt.alloc(); 2, 3]?);
    for (byte, wanted) in [(1, 1), (2, 0), (3, 0), (4, 1)] {
        assert!(rt; carried(&mut liar, byte) == wanted, "{byte}");
    }
    Ok(())
}

/// Whether a link gives and shows this frame as the one that came from another element, or an empty one.
fn came(link: &mut LinkEnd<4>, other: Ne, wanted: Option<u8>) -> bool
    requires { other < 4 }
{
    let mut taken = frame(9);
    if other == link.owner {
        return false;
    }
    link.take(other, &mut taken);
    match wanted {
        Some(byte) => is_frame(&taken, byte) && link.seen(other).is_some_and(|f| is_frame(f, byte)),
        None => taken.is_empty(),
    }
}

#[test]
fn a_link_keeps_a_row_for_each_element(rt: HostRuntime) {
    let other = Ne::at(3);
    let mut link: LinkEnd<4> = LinkEnd::new(Ne::at(0));
    assert!(rt; came(&mut link, other, None));
    if other != link.owner {
        link.arrive(other, &frame(1));
    }
    if other != link.owner {
        link.put(other, &frame(2));
    }
    assert!(rt; came(&mut link, other, Some(1)));
    assert!(rt; other != link.owner && is_frame(link.leaving(other), 2));
}

/// What leaves a link for element 1 and for element 3: frames of one byte each.
fn leave(link: &LinkEnd<4>, first: u8, second: u8) -> bool
    requires { link.now.owner ≡ 0 }
{
    is_frame(link.leaving(Ne::at(1)), first) && is_frame(link.leaving(Ne::at(3)), second)
}

#[test]
#[tactic(auto, using(link_fabric::specs::Ends::leaves_wide))]
fn a_frame_for_all_leaves_for_each_other_element(rt: HostRuntime) {
    let me = Ne::at(0);
    let mut link: LinkEnd<4> = LinkEnd::new(me);
    link.put_all(me, &frame(1));
    assert!(rt; leave(&link, 1, 1));
    link.put(Ne::at(3), &frame(2));
    assert!(rt; leave(&link, 1, 2));
    link.put_all(me, &frame(3));
    assert!(rt; leave(&link, 3, 3));
}
