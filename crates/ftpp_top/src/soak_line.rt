//! The summary line of a soak.

ghost use Rattle.std.specs.Prelude.{◌≡◌, ◌+◌, ◌≤◌, ◌++◌, length};
ghost use Rattle.command_steps.specs.Lines.{line_room};
ghost use Rattle.ftpp_top.specs.SoakLine.{soak_line};

use command_steps::{Line, number, piece};
use report_text::Totals;

/// Appends the line of a soak from `start` with these totals.
#[tactic(auto, using(crate::proofs::Lines::soak_pieces))]
fn put_soak(start: u64, totals: &Totals, line: &mut Line)
    requires { length line.old.items + 240 ≤ line_room }
    ensures { line.new.items ≡ line.old.items ++ soak_line start totals.now }
{
    piece(line, b"soak ");
    number(line, start);
    piece(line, b" cycles ");
    number(line, totals.cycles);
    piece(line, b" served ");
    number(line, totals.served);
    piece(line, b" discarded ");
    number(line, totals.discarded);
    piece(line, b" idle ");
    number(line, totals.idle);
    piece(line, b" stored ");
    number(line, totals.stored);
    piece(line, b" overrun ");
    number(line, totals.overrun);
    piece(line, b" syndromes ");
    number(line, totals.syndromes);
    piece(line, b"\n");
}

/// The line of a soak from `start` with these totals.
pub(crate) fn soak_line(start: u64, totals: &Totals) -> Line
    ensures { result.items ≡ soak_line start totals.now }
{
    let mut line = Line::new();
    put_soak(start, totals, &mut line);
    line
}
