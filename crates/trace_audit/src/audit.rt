//! The verdict on the text of a trace.

ghost use Rattle.std.specs.Prelude.{◌≡◌, ◌+◌, ◌≤◌, ◌<◌, ◌^◌, ◌⊎◌, ℕ, ◌||◌, [], Some, None, is_some, length, option_copied};
ghost use Rattle.script_words.specs.Lines.{has_bytes};
ghost use Rattle.trace_audit.specs.AuditedTrace.{Audits, frame_on};
ghost use Rattle.trace_audit.specs.Progress.{progress_first};
ghost use Rattle.trace_audit.specs.Reading.{ReadsAll, Takes, TakesLine, TakesPiece, verdict_if, verdict_of};

use crate::auditor::Auditor;
use crate::lines::frame_on;
use crate::links::{link_at, per_round};
use config_table::Table;
use frame_format::FrameBuf;
use ftpp_base::{MOST_CYCLES, Ne, Slot};
use script_text::{MOST_SCRIPT_BYTES, ScriptError};
use script_words::lines::cut_line;

/// What an audit finds of a trace.
#[derive(Clone, Copy, Debug, PartialEq, Eq)]
pub enum Verdict {
    /// It follows for the named element, or for none.
    Follows { cycles: u32 },
    /// The first frame that is not expected.
    Breaks { at: Slot, from: Ne, to: Ne },
}

/// A line that is not the one of its place.
const BAD_LINE: u8 = 12;

/// A trace that is empty or ends inside a cycle.
const ENDS_INSIDE: u8 = 13;

/// What was made of the lines so far.
#[derive(Drop)]
struct Reading<const N: usize> {
    auditor: Auditor<N>,
    /// How many lines there were.
    lines: u32,
    /// The place of the first frame that is not expected, if there is one.
    broken: Option<u32>,
}

impl<const N: usize> Reading<N> {
    /// Before the first line.
    fn new(table: &Table, named: Option<Ne>) -> Reading<N>
        requires elements { table.now.n ≡ N }
        requires size { (N ≡ 4) ⊎ (N ≡ 5) }
        requires named { (ne : ℕ) → named ≡ Some ne → ne < N }
        ensures auditor { result.auditor ≡ progress_first table.now named }
        ensures lines { result.lines ≡ 0 }
        ensures broken { result.broken ≡ None }
    {
        Reading {
            auditor: Auditor::begun(table, named),
            lines: 0,
            broken: None,
        }
    }

    /// Takes the frame of the next line. Behind the first that is not expected, none is looked at.
    fn take(&mut self, frame: &FrameBuf)
        requires cycle { self.old.broken ≡ None → self.old.auditor.known.cycle < MOST_CYCLES }
        requires lines { self.old.lines + 1 < 2 ^ 32 }
        ensures { Takes N self.old frame.now.items self.new }
    {
        if self.broken.is_none() && !self.auditor.next(frame) {
            self.broken = Some(self.lines);
        }
        self.lines += 1;
    }

    /// Reads the next line.
    fn take_line(&mut self, line: &[u8]) -> Result<(), ScriptError>
        requires size { (N ≡ 4) ⊎ (N ≡ 5) }
        requires cycle { self.old.broken ≡ None → self.old.auditor.known.cycle < MOST_CYCLES }
        requires lines { self.old.lines + 1 < 2 ^ 32 }
        ensures { TakesLine N self.old (frame_on N self.old.lines line.now) result self.new }
    {
        match frame_on::<N>(self.lines, line) {
            Some(frame) => {
                self.take(&frame);
                Ok(())
            }
            None => Err(ScriptError::At {
                line: self.lines + 1,
                code: BAD_LINE,
            }),
        }
    }

    /// Reads the next piece between newlines, which is a line or the end behind the last newline.
    fn take_piece(&mut self, piece: &[u8], is_line: bool) -> Result<(), ScriptError>
        requires size { (N ≡ 4) ⊎ (N ≡ 5) }
        requires cycle { self.old.broken ≡ None → self.old.auditor.known.cycle < MOST_CYCLES }
        requires lines { self.old.lines + 1 < 2 ^ 32 }
        ensures { TakesPiece N self.old is_line (frame_on N self.old.lines piece.now) result self.new }
    {
        if is_line {
            self.take_line(piece)
        } else {
            Ok(())
        }
    }

    /// Reads all lines, and gives one more than there are newlines.
    fn take_lines(&mut self, bytes: &[u8]) -> Result<u32, ScriptError>
        requires size { (N ≡ 4) ⊎ (N ≡ 5) }
        requires elements { self.old.auditor.known.table.n ≡ N }
        requires cycle { self.old.auditor.known.cycle ≡ 0 }
        requires frames { self.old.auditor.so_far ≡ [] }
        requires lines { self.old.lines ≡ 0 }
        requires broken { self.old.broken ≡ None }
        requires len { length bytes.now ≤ MOST_SCRIPT_BYTES }
        ensures { ReadsAll N self.old.auditor bytes.now result self.new }
    {
        let mut rest = Some(bytes);
        let mut pieces = 0u32;
        while let Some(text) = rest {
            let (piece, after) = cut_line(text);
            rest = after;
            pieces += 1;
            match self.take_piece(piece, is_line(piece, &rest)) {
                Ok(()) => {}
                Err(e) => return Err(e),
            }
        }
        Ok(pieces)
    }

    /// The verdict, if the lines are those of whole cycles.
    fn verdict(&self, last: u32) -> Result<Verdict, ScriptError>
        requires { (N ≡ 4) ⊎ (N ≡ 5) }
        ensures { result ≡ verdict_if N last self.now.lines self.now.broken }
    {
        let per_cycle = 4 * per_round::<N>() as u32;
        if self.lines == 0 || self.lines % per_cycle != 0 {
            return Err(ScriptError::At {
                line: last,
                code: ENDS_INSIDE,
            });
        }
        match self.broken {
            None => Ok(Verdict::Follows {
                cycles: self.lines / per_cycle,
            }),
            Some(place) => Ok(breaks_at::<N>(place)),
        }
    }
}

/// Whether a piece between newlines is a line: it has bytes, or a newline follows.
fn is_line(piece: &[u8], after: &Option<&[u8]>) -> bool
    ensures { result ≡ (is_some (option_copied after.now) || has_bytes piece.now) }
{
    after.is_some() || !piece.is_empty()
}

/// The verdict that the frame at a place of the trace is the first that is not expected.
fn breaks_at<const N: usize>(place: u32) -> Verdict
    requires { (N ≡ 4) ⊎ (N ≡ 5) }
    ensures { result ≡ verdict_of N 0 (Some place) }
{
    let per_cycle = 4 * per_round::<N>() as u32;
    let link = link_at::<N>((place % per_cycle) as usize);
    Verdict::Breaks {
        at: Slot {
            cycle: place / per_cycle,
            round: link.round,
        },
        from: link.from,
        to: link.to,
    }
}

/// The verdict on a text.
fn verdict_on<const N: usize>(
    bytes: &[u8],
    table: &Table,
    named: Option<Ne>,
) -> Result<Verdict, ScriptError>
    requires elements { table.now.n ≡ N }
    requires size { (N ≡ 4) ⊎ (N ≡ 5) }
    requires named { (ne : ℕ) → named ≡ Some ne → ne < N }
    requires len { length bytes.now ≤ MOST_SCRIPT_BYTES }
    ensures { Audits table.now named bytes.now result }
{
    let mut reading: Reading<N> = Reading::new(table, named);
    match reading.take_lines(bytes) {
        Ok(last) => reading.verdict(last),
        Err(e) => Err(e),
    }
}

/// The verdict on the text of a trace from this table on: whether it follows for the named element, or for none. A line that
/// is not the one of its place has code 12, and a trace that is empty or ends inside a cycle code 13. It takes no memory.
pub fn audit_text<const N: usize>(
    bytes: &[u8],
    table: &Table,
    named: Option<Ne>,
) -> Result<Verdict, ScriptError>
    requires elements { table.now.n ≡ N }
    requires named { (ne : ℕ) → named ≡ Some ne → ne < N }
    requires len { length bytes.now ≤ MOST_SCRIPT_BYTES }
    ensures { Audits table.now named bytes.now result }
{
    // a table has four or five elements, which only a call of it tells
    let _elements = table.n();
    verdict_on::<N>(bytes, table, named)
}
