//! A script, line by line.

ghost use Rattle.std.specs.Prelude.{◌≡◌, ◌+◌, ◌<◌, ◌≤◌, [], length, IfOk, IsTrue, OnOk};
ghost use Rattle.std.specs.Str.Lines.{strip_carriage_return};
ghost use Rattle.script_text.specs.declared.ScriptError.TheVariants.{Memory};
ghost use Rattle.script_words.specs.Lines.{words_of};
ghost use Rattle.script_text.specs.Items.{before};
ghost use Rattle.script_text.specs.Judged.{InOrder, line_read};
ghost use Rattle.script_text.specs.Reading.{KeepsIfRoom, Takes, TakesAll, Stands, Reads, RefusesFirst, plan_held, plan_of, script_of};
ghost use Rattle.script_text.specs.Printing.{IsScript};
ghost use Rattle.script_text.specs.Playable.{IsPlayable};
ghost use Rattle.fault_script.specs.Edited.{never_fall};

use crate::items::{Item, SoFar};
use crate::{MOST_SCRIPT_BYTES, Script, ScriptError};
use config_table::Table;
use fault_script::Edit;
use ftpp_base::Ne;
use packet_format::Act;
use script_words::Refused;
use script_words::lines::cut_line;
use std::alloc::{AllocFailed, Global};

/// What the lines so far make.
#[derive(Drop)]
struct Reader {
    so_far: SoFar,
    acts: Vec<(u32, Act)>,
    edits: Vec<Edit>,
    rejoins: Vec<(u32, Option<Ne>)>,
}

impl<T: Drop> From<AllocFailed<T>> for ScriptError {
    ghost from_gives = { λ _ e. e ≡ Memory };

    fn from(_e: AllocFailed<T>) -> ScriptError {
        ScriptError::Memory
    }
}

/// A copy, since an option of an element is moved where it is passed.
fn same_element(next: &Option<Ne>) -> Option<Ne>
    ensures { result ≡ next.now }
{
    match next {
        None => None,
        Some(e) => Some(*e),
    }
}

impl Reader {
    /// Before the first line, for `n` elements.
    #[tactic(auto, using(crate::proofs::Steps::stands_first), unfolding(crate::specs::Items::before))]
    fn new(alloc: Global, n: u8) -> Reader
        ensures stands { Stands result.so_far.n [] result }
        ensures number { result.so_far.n ≡ n }
    {
        Reader {
            so_far: SoFar {
                n,
                cycles: None,
                named: None,
                faulty: None,
                last: None,
                asked: 0,
            },
            acts: Vec::new(alloc),
            edits: Vec::new(alloc),
            rejoins: Vec::new(alloc),
        }
    }

    /// The script, if its length was said.
    fn finish(self, last: u32) -> Result<Script, ScriptError>
        ensures { Reads result (plan_held last self) }
    {
        let Reader {
            so_far,
            acts,
            edits,
            rejoins,
        } = self;
        match so_far.cycles {
            None => Err(ScriptError::At {
                line: last,
                code: Refused::NoCycles.code(),
            }),
            Some(cycles) => Ok(Script {
                cycles,
                faulty: so_far.named,
                acts,
                edits,
                rejoins,
            }),
        }
    }

    /// Keeps what a line says, and what the next line has to know of it.
    fn keep(&mut self, item: Item) -> Result<(), ScriptError>
        requires { InOrder self.old.so_far item }
        ensures { KeepsIfRoom self.old item result self.new }
    {
        match item {
            Item::Cycles(c) => self.so_far.cycles = Some(c),
            Item::Faulty(e) => {
                self.so_far.named = Some(e);
                self.so_far.faulty = Some(e);
            }
            Item::Asked(c, act) => {
                self.acts.push((c, act))?;
                self.so_far.asked = self.so_far.asked_at(c) + 1;
                self.so_far.last = Some(c);
            }
            Item::Edited(edit) => {
                let c = edit.cycle;
                self.edits.push(edit)?;
                self.so_far.asked = self.so_far.asked_at(c);
                self.so_far.last = Some(c);
            }
            Item::Rejoined(c, next) => {
                let from_now = same_element(&next);
                self.rejoins.push((c, next))?;
                self.so_far.asked = self.so_far.asked_at(c);
                self.so_far.last = Some(c);
                self.so_far.faulty = from_now;
            }
        }
        Ok(())
    }

    /// Reads one line, from 1.
    fn take_line(&mut self, line: &[u8], number: u32) -> Result<(), ScriptError>
        requires { self.old.so_far.n ≤ 5 }
        ensures { Takes self.old (line_read self.old.so_far (words_of (strip_carriage_return line.now))) number result self.new }
    {
        match self.so_far.line(line) {
            Err(refused) => Err(ScriptError::At {
                line: number,
                code: refused.code(),
            }),
            Ok(None) => Ok(()),
            Ok(Some(item)) => self.keep(item),
        }
    }

    /// Reads all lines, and gives the number of the last one.
    fn read_lines(&mut self, bytes: &[u8]) -> Result<u32, ScriptError>
        requires start { Stands self.old.so_far.n [] self.old }
        requires elements { self.old.so_far.n ≤ 5 }
        requires len { length bytes.now ≤ MOST_SCRIPT_BYTES }
        ensures { TakesAll self.old.so_far.n bytes.now result self.new }
    {
        let mut rest = Some(bytes);
        let mut line = 0u32;
        while let Some(text) = rest {
            let (front, after) = cut_line(text);
            rest = after;
            line += 1;
            match self.take_line(front, line) {
                Ok(()) => {}
                Err(e) => return Err(e),
            }
        }
        Ok(line)
    }
}

/// The script of a text for `n` elements.
fn read(alloc: Global, bytes: &[u8], n: u8) -> Result<Script, ScriptError>
    requires elements { n ≤ 5 }
    requires len { length bytes.now ≤ MOST_SCRIPT_BYTES }
    ensures { Reads result (script_of n bytes.now) }
{
    let mut reader = Reader::new(alloc, n);
    match reader.read_lines(bytes) {
        Err(e) => Err(e),
        Ok(last) => reader.finish(last),
    }
}

/// The script of a text for the elements of the table, or its first refused line with the first code.
/// It takes memory for the acts, the edits and the rejoins, and is linear in the bytes.
#[tactic(auto, using(crate::proofs::First::tells_first, crate::proofs::InTurn::answers_script, crate::proofs::InTurn::answers_playable, crate::proofs::InTurn::answers_edits))]
pub fn read_script(alloc: Global, bytes: &[u8], table: &Table) -> Result<Script, ScriptError>
    requires { length bytes.now ≤ MOST_SCRIPT_BYTES }
    // What the definition gives, unless memory ran out.
    ensures exact { Reads result (script_of table.now.n bytes.now) }
    // The line that is named is the first that is refused.
    ensures first { RefusesFirst table.now.n bytes.now result }
    // What is read can be printed and read again.
    ensures script { IfOk result (λ s. IsScript table.now.n (plan_of s)) }
    // It can be played: all that it names is there, and a cycle has at most 80 acts.
    ensures playable { IfOk result (λ s. IsPlayable table.now.n (plan_of s)) }
    // The cycles of its edits do not fall.
    ensures edits { IfOk result (λ s. IsTrue (never_fall 0 s.edits.items)) }
{
    read(alloc, bytes, table.n())
}
