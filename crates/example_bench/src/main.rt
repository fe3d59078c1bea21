//! An example of `docs/EMBED.md`: four network elements over links of one's own (`Mailbox`), stepped by hand.
//!
//! In cycle 0 the members of group 2 post the same packet to group 3, and all elements come to it. In cycle 1 the wires
//! of element 3 are cut: the others note three missing echoes each, and nothing stops.
#![tactic(auto)]

mod bench;
mod mailbox;
mod seat;

use bench::{Wires, build, post_alike, round};
use config_table::Decision;
use element_core::CycleRecord;
use ftpp_base::Round;
use packet_format::{Descriptor, Packet};
use seat::Seat;
use std::{io, str};

/// The rounds of a cycle, in order.
const ROUNDS: &[Round] = &[Round::A1, Round::A2, Round::B1, Round::B2];

/// The packet that the members of group 2 post.
fn greeting() -> Packet {
    let mut bytes = [0; 64];
    bytes[..5].copy_from_slice(b"hello");
    Packet { bytes }
}

/// A packet's text of five letters.
fn text(packet: &Option<Packet>) -> &str {
    match packet {
        Some(packet) => str::from_utf8(&packet.bytes[..5]).unwrap_or("?"),
        None => "none",
    }
}

/// Writes what an element made of a cycle.
fn show(rt: &impl Print, number: usize, record: &CycleRecord<4>) -> io::Result<()> {
    let notes = record.syndromes.len();
    match &record.decision {
        Decision::Exchange(service) => {
            let (from, to, packet) = (service.vid, service.desc.dest, text(&record.packet));
            println!(rt;
                "element {number}: group {from} to group {to}, packet {packet}, {notes} notes"
            )
        }
        Decision::Discard { vid, .. } => {
            println!(rt; "element {number}: request of group {vid} discarded, {notes} notes")
        }
        Decision::Idle => println!(rt; "element {number}: idle, {notes} notes"),
    }
}

/// Writes what all elements made of the last cycle.
fn show_all(rt: &impl Print, cycle: u32, seats: &[Seat]) -> io::Result<()> {
    println!(rt; "cycle {cycle}")?;
    for (number, seat) in seats.iter().enumerate() {
        if let Some(record) = seat.element.last() {
            show(rt, number, record)?;
        }
    }
    Ok(())
}

/// The wires of a cycle: those of element 3 are cut after the first one.
fn wires_in(cycle: u32) -> Wires {
    if cycle == 0 {
        Wires::Whole
    } else {
        Wires::CutAt(3)
    }
}

/// Plays a cycle: the acts of the processors, then the four rounds. None where a step was not due, which does not happen.
fn play(seats: &mut [Seat], cycle: u32) -> Option<()> {
    if cycle == 0 {
        let to_group_3 = Descriptor {
            dest: 3,
            class: 1,
            source: 0,
        };
        post_alike(seats, &[0, 1, 2], 1, to_group_3, greeting())?;
    }
    for &now in ROUNDS {
        round(seats, now, wires_in(cycle))?;
    }
    Some(())
}

fn main(rt: HostRuntime) -> io::Result<()> {
    let Some(mut seats) = build(rt.alloc()) else {
        return println!(rt; "no memory");
    };
    for cycle in 0..2 {
        if play(seats.as_mut_slice(), cycle).is_none() {
            return println!(rt; "a step was not due");
        }
        show_all(&rt, cycle, seats.as_slice())?;
    }
    Ok(())
}
