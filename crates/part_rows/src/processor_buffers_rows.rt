use packet_format::{Delivered, Descriptor, Packet};
use processor_buffers::*;
use std::alloc::Global;
use std::test::Fail;

const REQUEST: Descriptor = Descriptor {
    dest: 3,
    class: 1,
    source: 0,
};

/// A packet that begins with this byte.
fn packet(byte: u8) -> Packet {
    let mut bytes = [0; 64];
    bytes[0] = byte;
    Packet { bytes }
}

/// A packet as group 2 sends it in a cycle.
fn delivered(cycle: u8) -> Delivered {
    Delivered {
        cycle: u32::from(cycle),
        from: 2,
        class: 1,
        dest: 3,
        packet: packet(cycle),
    }
}

/// Whether so many posts are taken, and no more.
fn takes_posts(buffers: &mut PortBuffers, count: u8) -> bool {
    for byte in 0..count {
        if buffers.post(REQUEST, packet(byte)).is_err() {
            return false;
        }
    }
    buffers.post(REQUEST, packet(99)) == Err(PostFull)
}

/// Whether so many deliveries are stored, and no more.
fn stores(buffers: &mut PortBuffers, count: u8) -> bool {
    for cycle in 0..count {
        if buffers.deliver(delivered(cycle)) != Handed::Stored {
            return false;
        }
    }
    buffers.deliver(delivered(99)) == Handed::Overrun
}

/// Whether so many heads come in order, and then none.
fn has_heads(buffers: &mut PortBuffers, count: u8) -> bool {
    for byte in 0..count {
        if buffers.head() != Some((REQUEST, packet(byte))) {
            return false;
        }
        buffers.pop_request(&REQUEST);
    }
    buffers.head().is_none()
}

/// Whether so many deliveries are read in order, and then none.
fn has_deliveries(buffers: &mut PortBuffers, count: u8) -> bool {
    for cycle in 0..count {
        if buffers.read() != Some(delivered(cycle)) {
            return false;
        }
    }
    buffers.read().is_none()
}

/// Whether empty buffers have these limits and flags.
fn stand(buffers: &PortBuffers, limits: (u8, u8), flags: (bool, bool)) -> bool {
    buffers.limits() == limits && buffers.flags() == flags
}

/// New buffers with these limits, if they are in range and the buffers are as they have to be before.
fn limited(alloc: Global, outs: u8, ins: u8) -> Result<PortBuffers, Fail> {
    let mut buffers = PortBuffers::new(alloc)?;
    if !stand(&buffers, (16, 32), (false, true)) {
        return Err("other limits".into());
    }
    buffers.set_limits(outs.clamp(1, 64), ins.clamp(1, 64));
    Ok(buffers)
}

#[test]
fn holds_as_many_as_its_limits(rt: HostRuntime) -> Result<(), Fail> {
    for (outs, ins) in [(16, 32), (1, 1), (2, 64), (64, 3)] {
        let mut buffers = limited(rt.alloc(), outs, ins)?;
        assert!(rt;
            stand(&buffers, (outs, ins), (false, true)),
            "limits {outs} {ins}"
        );
        assert!(rt; takes_posts(&mut buffers, outs), "posts of {outs}");
        assert!(rt; stores(&mut buffers, ins), "deliveries of {ins}");
        assert!(rt;
            stand(&buffers, (outs, ins), (true, false)),
            "flags {outs} {ins}"
        );
        assert!(rt; has_heads(&mut buffers, outs), "heads of {outs}");
        assert!(rt; has_deliveries(&mut buffers, ins), "reads of {ins}");
    }
    Ok(())
}

/// Whether the head is the packet with this first byte, or there is none.
fn has_head(buffers: &PortBuffers, byte: Option<u8>) -> bool {
    match byte {
        Some(byte) => buffers.head() == Some((REQUEST, packet(byte))),
        None => buffers.head().is_none(),
    }
}

#[test]
fn pops_the_head_of_its_request(rt: HostRuntime) -> Result<(), Fail> {
    let mut buffers = PortBuffers::new(rt.alloc())?;
    buffers.pop_request(&REQUEST);
    assert!(rt; buffers.post(REQUEST, packet(1)).is_ok());
    for other in [
        Descriptor { dest: 4, ..REQUEST },
        Descriptor {
            class: 2,
            ..REQUEST
        },
        Descriptor {
            source: 1,
            ..REQUEST
        },
    ] {
        buffers.pop_request(&other);
        assert!(rt; has_head(&buffers, Some(1)));
    }
    buffers.pop_request(&REQUEST);
    assert!(rt; has_head(&buffers, None));
    Ok(())
}

#[test]
fn a_clear_takes_all_out(rt: HostRuntime) -> Result<(), Fail> {
    let mut buffers = PortBuffers::new(rt.alloc())?;
    assert!(rt; buffers.post(REQUEST, packet(2)).is_ok());
    assert!(rt; buffers.deliver(delivered(2)) == Handed::Stored);
    assert!(rt; has_head(&buffers, Some(2)));
    buffers.clear();
    assert!(rt; has_head(&buffers, None) && buffers.read().is_none());
    Ok(())
}
