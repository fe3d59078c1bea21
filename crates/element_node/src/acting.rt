//! What an element does for its processors: acts are performed, and their answers are put into a text.

ghost use Rattle.std.specs.Prelude.{◌≡◌, ◌+◌, ◌≤◌, ◌++◌, [], length};
ghost use Rattle.std.specs.List.{All};
ghost use Rattle.packet_format.specs.Packets.{delivered_bytes};
ghost use Rattle.ftpp_base.specs.declared.element.Round.TheVariants.{A1};
ghost use Rattle.element_core.specs.declared.Due.TheVariants.{Emit};
ghost use Rattle.element_core.specs.AloneRun.{own_answer};
ghost use Rattle.element_core.specs.ElementValue.{after_own_act};
ghost use Rattle.element_node.specs.Input.{IsOwnAct};
ghost use Rattle.element_node.specs.Node.{after_own_acts, answer_bytes, answers_text};

use arrayvec::ArrayVec;
use byteorder::{BigEndian, ByteOrder};
use element_core::Element;
use frame_format::FRAME_BYTES;
use ftpp_base::Ne;
use packet_format::{Act, ActAnswer, Delivered, HostActs, MOST_ACTS};

/// The bytes of the longest answer.
const ANSWER_BYTES: usize = 72;

/// The bytes that are written at once: at most the answers to all acts of a cycle, and a frame with its length.
const MOST_BYTES: usize = MOST_ACTS * ANSWER_BYTES + 2 + FRAME_BYTES;

/// Bytes that wait to be written.
pub(crate) type Text = ArrayVec<u8, MOST_BYTES>;

/// Performs an act.
fn perform<const N: usize>(element: &mut Element<N>, act: &Act) -> ActAnswer
    requires due { element.old.due ≡ Emit A1 }
    requires own { IsOwnAct element.old.kept.me act.now }
    ensures element { element.new ≡ after_own_act act.now element.old }
    ensures answer { result ≡ own_answer element.old.kept.table element.old.kept.ports act.now }
{
    match act {
        Act::Post { proc, desc, packet } => match element.host_post(proc.port, *desc, *packet) {
            Ok(()) => ActAnswer::Posted,
            Err(_) => ActAnswer::PostFull,
        },
        Act::Read(proc) => match element.host_read(proc.port) {
            Some(delivered) => ActAnswer::Got(delivered),
            None => ActAnswer::Nothing,
        },
    }
}

/// Puts a delivered packet behind a text, as its 71 bytes.
fn push_delivered(delivered: &Delivered, text: &mut Text)
    requires room { length text.old.items + 71 ≤ 6093 }
    ensures text { text.new.items ≡ text.old.items ++ delivered_bytes delivered.now }
    ensures len { length text.new.items ≡ length text.old.items + 71 }
{
    let mut bytes = [0; ANSWER_BYTES - 1];
    BigEndian::write_u32(&mut bytes, delivered.cycle);
    bytes[4] = delivered.from;
    bytes[5] = delivered.class;
    bytes[6] = delivered.dest;
    bytes[7..].copy_from_slice(&delivered.packet.bytes);
    let _ = text.try_extend_from_slice(&bytes);
}

/// Puts an answer behind a text.
fn push_answer(answer: &ActAnswer, text: &mut Text)
    requires room { length text.old.items + 72 ≤ 6093 }
    ensures text { text.new.items ≡ text.old.items ++ answer_bytes answer.now }
    ensures len { length text.new.items ≤ length text.old.items + 72 }
{
    match answer {
        ActAnswer::Posted => text.push(0),
        ActAnswer::PostFull => text.push(1),
        ActAnswer::Nothing => text.push(2),
        ActAnswer::Got(delivered) => {
            text.push(3);
            push_delivered(delivered, text);
        }
    }
}

/// Performs the acts of a cycle, in order, and puts their answers into a text.
pub(crate) fn answer_acts<const N: usize>(
    me: Ne,
    element: &mut Element<N>,
    acts: &HostActs,
    text: &mut Text,
)
    requires due { element.old.due ≡ Emit A1 }
    requires me { element.old.kept.me ≡ me }
    requires own { All (IsOwnAct me) acts.now.items }
    requires empty { text.old.items ≡ [] }
    ensures element { element.new ≡ after_own_acts element.old acts.now.items }
    ensures text { text.new.items ≡ answers_text element.old acts.now.items }
    ensures len { length text.new.items ≤ 5760 }
{
    for k in 0..acts.len() {
        let act = &acts[k];
        let answer = perform(element, act);
        push_answer(&answer, text);
    }
}
