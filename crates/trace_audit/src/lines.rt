//! The lines of an audited trace.

ghost use Rattle.std.specs.Prelude.{◌≡◌, ◌+◌, ◌≤◌, ◌⊎◌, ◌++◌, codes, length, option_map, option_copied};
ghost use Rattle.std.specs.Fmt.{decimal};
ghost use Rattle.script_words.specs.Fields.{frame_of};
ghost use Rattle.trace_audit.specs.Links.{bytes_of};
ghost use Rattle.trace_audit.specs.AuditedTrace.{after_head, bytes_if_read, frame_on, head_at, line_head, round_word};

use crate::links::{Link, link_at, per_round};
use frame_format::FrameBuf;
use ftpp_base::{Ne, Round, Row};
use itoa::Buffer;
use script_words::fields::frame;

/// What stands in a line before the bytes of its frame, at most 28 bytes.
type Head = Row<u8, 32>;

/// Appends bytes.
fn piece(head: &mut Head, bytes: &[u8])
    requires { length head.old.items + length bytes.now ≤ 32 }
    ensures text { head.new.items ≡ head.old.items ++ bytes.now }
    ensures len { length head.new.items ≡ length head.old.items + length bytes.now }
{
    let _ = head.try_extend_from_slice(bytes);
}

/// Appends the number of a cycle.
fn cycle_number(head: &mut Head, n: u32)
    requires { length head.old.items + 10 ≤ 32 }
    ensures text { head.new.items ≡ head.old.items ++ decimal n }
    ensures len { length head.new.items ≤ length head.old.items + 10 }
{
    let mut buffer = Buffer::new();
    piece(head, buffer.format(n).as_bytes());
}

/// Appends the number of an element.
fn element_number(head: &mut Head, ne: Ne)
    requires { length head.old.items + 3 ≤ 32 }
    ensures text { head.new.items ≡ head.old.items ++ decimal ne }
    ensures len { length head.new.items ≤ length head.old.items + 3 }
{
    let n = ne.byte();
    let mut buffer = Buffer::new();
    piece(head, buffer.format(n).as_bytes());
}

/// Appends the name of a round.
fn round_name(head: &mut Head, round: Round)
    requires { length head.old.items + 2 ≤ 32 }
    ensures text { head.new.items ≡ head.old.items ++ round_word round }
    ensures len { length head.new.items ≡ length head.old.items + 2 }
{
    match round {
        Round::A1 => piece(head, b"A1"),
        Round::A2 => piece(head, b"A2"),
        Round::B1 => piece(head, b"B1"),
        Round::B2 => piece(head, b"B2"),
    }
}

/// What stands in the line of a frame before its bytes.
#[tactic(auto, unfolding(crate::specs::AuditedTrace::line_head))]
fn line_head(cycle: u32, link: &Link) -> Head
    ensures { result.items ≡ line_head cycle link.now }
{
    let mut head = Head::new();
    piece(&mut head, b"frame ");
    cycle_number(&mut head, cycle);
    piece(&mut head, b" ");
    round_name(&mut head, link.round);
    piece(&mut head, b" ");
    element_number(&mut head, link.from);
    piece(&mut head, b" ");
    element_number(&mut head, link.to);
    piece(&mut head, b" ");
    head
}

/// The head of the line at a place of a trace, counted from 0.
fn head_at<const N: usize>(place: u32) -> Head
    requires { (N ≡ 4) ⊎ (N ≡ 5) }
    ensures { result.items ≡ head_at N place }
{
    let per_cycle = 4 * per_round::<N>() as u32;
    line_head(
        place / per_cycle,
        &link_at::<N>((place % per_cycle) as usize),
    )
}

/// What follows the head of a line, if the line begins with it.
fn after_head<'a>(head: &[u8], line: &'a [u8]) -> Option<&'a [u8]>
    ensures { option_copied result ≡ after_head head.now line.now }
{
    if line.len() < head.len() {
        return None;
    }
    let (front, rest) = line.split_at(head.len());
    if front == head { Some(rest) } else { None }
}

/// The frame that a word spells.
fn frame_in(word: &[u8]) -> Option<FrameBuf>
    ensures { option_map bytes_of result ≡ bytes_if_read (frame_of word.now) }
{
    match frame(word) {
        Ok(frame) => Some(frame),
        Err(_) => None,
    }
}

/// The frame of the line at a place of a trace, if the line is so.
#[tactic(auto, unfolding(crate::specs::AuditedTrace::frame_on))]
pub(crate) fn frame_on<const N: usize>(place: u32, line: &[u8]) -> Option<FrameBuf>
    requires { (N ≡ 4) ⊎ (N ≡ 5) }
    ensures { option_map bytes_of result ≡ frame_on N place line.now }
{
    let head = head_at::<N>(place);
    match after_head(head.as_slice(), line) {
        None => None,
        Some(word) => frame_in(word),
    }
}
