//! The line of an audit.

ghost use Rattle.std.specs.Prelude.{◌≡◌, ◌+◌, ◌≤◌, ◌++◌, length};
ghost use Rattle.trace_audit.specs.AuditedTrace.{round_word};
ghost use Rattle.command_steps.specs.Lines.{line_room};
ghost use Rattle.ftpp_top.specs.Audited.{follows_line, breaks_line, verdict_line};

use command_steps::{Line, number, piece};
use ftpp_base::{Ne, Round, Slot};
use trace_audit::Verdict;

/// The word of a round.
fn round_word(round: Round) -> &'static [u8]
    ensures word { result.now ≡ round_word round }
    ensures len { length result.now ≡ 2 }
{
    match round {
        Round::A1 => b"A1",
        Round::A2 => b"A2",
        Round::B1 => b"B1",
        Round::B2 => b"B2",
    }
}

/// Appends the line of a trace that follows.
#[tactic(auto, using(crate::proofs::Lines::follows_pieces))]
fn put_follows(cycles: u32, line: &mut Line)
    requires { length line.old.items + 60 ≤ line_room }
    ensures { line.new.items ≡ line.old.items ++ follows_line cycles }
{
    piece(line, b"follows cycles ");
    number(line, u64::from(cycles));
    piece(line, b"\n");
}

/// Appends the line of the first frame that is not expected: one of a round, from an element to another.
#[tactic(auto, using(crate::proofs::Lines::breaks_pieces))]
fn put_breaks(at: &Slot, from: Ne, to: Ne, line: &mut Line)
    requires { length line.old.items + 120 ≤ line_room }
    ensures { line.new.items ≡ line.old.items ++ breaks_line at.now from to }
{
    piece(line, b"breaks ");
    number(line, u64::from(at.cycle));
    piece(line, b" ");
    piece(line, round_word(at.round));
    piece(line, b" ");
    number(line, u64::from(from.byte()));
    piece(line, b" ");
    number(line, u64::from(to.byte()));
    piece(line, b"\n");
}

/// The line of a verdict.
pub(crate) fn verdict_line(verdict: &Verdict) -> Line
    ensures { result.items ≡ verdict_line verdict.now }
{
    let mut line = Line::new();
    match verdict {
        Verdict::Follows { cycles } => put_follows(*cycles, &mut line),
        Verdict::Breaks { at, from, to } => put_breaks(at, *from, *to, &mut line),
    }
    line
}
