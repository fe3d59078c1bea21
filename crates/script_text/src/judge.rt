//! A line as what it says, or the first test that it fails.
//!
//! Each form has a function of its own that makes the tests in the order of the codes.

ghost use Rattle.std.specs.Prelude.{◌≡◌, ◌+◌, ◌<◌, ◌≤◌, map, take, slice_index, ◌==◌, IfOk, IfSome, IsTrue};
ghost use Rattle.script_text.specs.Judged.{total_of, in_order, asked_at, with_room, cycles_line, faulty_line, read_line, post_line, edit_line, drop_line, repeat_line, flip_line, send_line, rejoin_line, leaving, acting_from, at_item, line_item, line_read, may_follow, InOrder};
ghost use Rattle.std.specs.Str.Lines.{strip_carriage_return};
ghost use Rattle.script_words.specs.Lines.{words_of, is_skipped};

use crate::items::{Item, SoFar};
use fault_script::{Edit, EditKind};
use ftpp_base::{MOST_CYCLES, Ne};
use packet_format::{Act, Descriptor, MOST_ACTS};
use script_words::Refused;
use script_words::fields::{
    bits, byte, frame, is_named, number, offset, other, packet, processor, round,
};
use script_words::lines::{without_carriage_return, words};

impl SoFar {
    /// The length of the run, which must have been said.
    fn total(&self) -> Result<u32, Refused>
        ensures { result ≡ total_of self.now }
    {
        match self.cycles {
            None => Err(Refused::CyclesLine),
            Some(total) => Ok(total),
        }
    }

    /// The cycle of a line, which must be one of the run and not before that of the line before.
    #[tactic(auto, unfolding(crate::specs::Judged::in_order))]
    fn ordered(&self, total: u32, c: u64) -> Result<u32, Refused>
        ensures value { result ≡ in_order self.now total c }
        ensures follows { IfOk result (λ at. IsTrue (may_follow self.now.last at)) }
    {
        if c >= u64::from(total) {
            return Err(Refused::Cycle);
        }
        let c = c as u32;
        match self.last {
            None => Ok(c),
            Some(last) => {
                if c < last {
                    return Err(Refused::Cycle);
                }
                Ok(c)
            }
        }
    }

    /// The posts and reads of a cycle so far.
    #[tactic(auto, unfolding(crate::specs::Judged::asked_at))]
    pub(crate) fn asked_at(&self, c: u32) -> u32
        ensures { result ≡ asked_at self.now c }
    {
        match self.last {
            None => 0,
            Some(last) => { if last == c { self.asked } else { 0 } }
        }
    }

    /// A post or a read, of which a cycle may have `MOST_ACTS`.
    #[tactic(auto, unfolding(crate::specs::Judged::with_room))]
    fn with_room(&self, c: u32, act: Act) -> Result<Item, Refused>
        requires { IsTrue (may_follow self.now.last c) }
        ensures value { result ≡ with_room self.now c act }
        ensures order { IfOk result (InOrder self.now) }
    {
        if self.asked_at(c) as usize >= MOST_ACTS {
            return Err(Refused::TooManyActs);
        }
        Ok(Item::Asked(c, act))
    }

    /// `cycles C`
    #[tactic(auto, unfolding(crate::specs::Judged::cycles_line))]
    fn cycles_item(&self, count: &[u8]) -> Result<Item, Refused>
        ensures value { result ≡ cycles_line self.now count.now }
        ensures order { IfOk result (InOrder self.now) }
    {
        if self.cycles.is_some() {
            return Err(Refused::CyclesLine);
        }
        let c = number(count)?;
        if c < 1 || c > u64::from(MOST_CYCLES) {
            return Err(Refused::Number);
        }
        Ok(Item::Cycles(c as u32))
    }

    /// `faulty E`
    #[tactic(auto, unfolding(crate::specs::Judged::faulty_line))]
    fn faulty_item(&self, element: &[u8]) -> Result<Item, Refused>
        requires { self.now.n ≤ 5 }
        ensures value { result ≡ faulty_line self.now element.now }
        ensures order { IfOk result (InOrder self.now) }
    {
        self.total()?;
        let e = byte(element)?;
        if self.named.is_some() || self.last.is_some() {
            return Err(Refused::FaultyLine);
        }
        match Ne::new(e, self.n) {
            None => Err(Refused::FaultyLine),
            Some(e) => Ok(Item::Faulty(e)),
        }
    }

    /// `at C read E.P`
    #[tactic(auto, unfolding(crate::specs::Judged::read_line))]
    fn read_item(&self, cycle: &[u8], proc: &[u8]) -> Result<Item, Refused>
        ensures value { result ≡ read_line self.now cycle.now proc.now }
        ensures order { IfOk result (InOrder self.now) }
    {
        let total = self.total()?;
        let c = number(cycle)?;
        let at = self.ordered(total, c)?;
        let p = processor(self.n, proc)?;
        self.with_room(at, Act::Read(p))
    }

    /// `at C post E.P DEST CLASS SOURCE PACKET`
    #[tactic(auto, unfolding(crate::specs::Judged::post_line))]
    fn post_item(
        &self,
        cycle: &[u8],
        proc: &[u8],
        dest: &[u8],
        class: &[u8],
        source: &[u8],
        bytes: &[u8],
    ) -> Result<Item, Refused>
        ensures value { result ≡ post_line self.now cycle.now proc.now dest.now class.now source.now bytes.now }
        ensures order { IfOk result (InOrder self.now) }
    {
        let total = self.total()?;
        let c = number(cycle)?;
        let dest = byte(dest)?;
        let class = byte(class)?;
        let source = byte(source)?;
        let at = self.ordered(total, c)?;
        let proc = processor(self.n, proc)?;
        let packet = packet(bytes)?;
        let desc = Descriptor {
            dest,
            class,
            source,
        };
        self.with_room(at, Act::Post { proc, desc, packet })
    }

    /// The element that is faulty now, or the refusal that is given where none is.
    fn acting(&self, refused: Refused) -> Result<Ne, Refused>
        ensures { result ≡ acting_from refused self.now.faulty }
    {
        match self.faulty {
            None => Err(refused),
            Some(f) => Ok(f),
        }
    }

    /// What every edit ends with: the round and the receiver, while an element is faulty.
    #[tactic(auto, unfolding(crate::specs::Judged::edit_line))]
    fn edit_item(
        &self,
        at: u32,
        round_word: &[u8],
        to_word: &[u8],
        what: EditKind,
    ) -> Result<Item, Refused>
        requires elements { self.now.n ≤ 5 }
        requires follows { IsTrue (may_follow self.now.last at) }
        ensures value { result ≡ edit_line self.now at round_word.now to_word.now what }
        ensures order { IfOk result (InOrder self.now) }
    {
        let f = self.acting(Refused::FaultyLine)?;
        let round = round(round_word)?;
        let to = other(Refused::RoundOrReceiver, b"all", self.n, f, to_word)?;
        Ok(Item::Edited(Edit {
            cycle: at,
            round,
            to,
            what,
        }))
    }

    /// `at C drop ROUND TO`
    #[tactic(auto, unfolding(crate::specs::Judged::drop_line))]
    fn drop_item(&self, cycle: &[u8], round: &[u8], to: &[u8]) -> Result<Item, Refused>
        requires { self.now.n ≤ 5 }
        ensures value { result ≡ drop_line self.now cycle.now round.now to.now }
        ensures order { IfOk result (InOrder self.now) }
    {
        let total = self.total()?;
        let c = number(cycle)?;
        let at = self.ordered(total, c)?;
        self.edit_item(at, round, to, EditKind::Drop)
    }

    /// `at C repeat ROUND TO`
    #[tactic(auto, unfolding(crate::specs::Judged::repeat_line))]
    fn repeat_item(&self, cycle: &[u8], round: &[u8], to: &[u8]) -> Result<Item, Refused>
        requires { self.now.n ≤ 5 }
        ensures value { result ≡ repeat_line self.now cycle.now round.now to.now }
        ensures order { IfOk result (InOrder self.now) }
    {
        let total = self.total()?;
        let c = number(cycle)?;
        let at = self.ordered(total, c)?;
        self.edit_item(at, round, to, EditKind::Repeat)
    }

    /// `at C flip ROUND TO OFFSET BITS`
    #[tactic(auto, unfolding(crate::specs::Judged::flip_line))]
    fn flip_item(
        &self,
        cycle: &[u8],
        round: &[u8],
        to: &[u8],
        place: &[u8],
        change: &[u8],
    ) -> Result<Item, Refused>
        requires { self.now.n ≤ 5 }
        ensures value { result ≡ flip_line self.now cycle.now round.now to.now place.now change.now }
        ensures order { IfOk result (InOrder self.now) }
    {
        let total = self.total()?;
        let c = number(cycle)?;
        let offset = offset(place)?;
        let bits = bits(change)?;
        let at = self.ordered(total, c)?;
        self.edit_item(at, round, to, EditKind::Flip { offset, bits })
    }

    /// `at C send ROUND TO FRAME`
    #[tactic(auto, unfolding(crate::specs::Judged::send_line))]
    fn send_item(
        &self,
        cycle: &[u8],
        round: &[u8],
        to: &[u8],
        bytes: &[u8],
    ) -> Result<Item, Refused>
        requires { self.now.n ≤ 5 }
        ensures value { result ≡ send_line self.now cycle.now round.now to.now bytes.now }
        ensures order { IfOk result (InOrder self.now) }
    {
        let total = self.total()?;
        let c = number(cycle)?;
        let at = self.ordered(total, c)?;
        let frame = frame(bytes)?;
        self.edit_item(at, round, to, EditKind::Send(frame))
    }

    /// The element that rejoins, in the first line of a cycle.
    fn leaving(&self, at: u32) -> Result<Ne, Refused>
        ensures { result ≡ leaving self.now at }
    {
        match self.last {
            None => self.acting(Refused::Rejoin),
            Some(last) => {
                if last == at {
                    return Err(Refused::Rejoin);
                }
                self.acting(Refused::Rejoin)
            }
        }
    }

    /// `at C rejoin NEXT`
    #[tactic(auto, unfolding(crate::specs::Judged::rejoin_line))]
    fn rejoin_item(&self, cycle: &[u8], next: &[u8]) -> Result<Item, Refused>
        requires { self.now.n ≤ 5 }
        ensures value { result ≡ rejoin_line self.now cycle.now next.now }
        ensures order { IfOk result (InOrder self.now) }
    {
        let total = self.total()?;
        let c = number(cycle)?;
        let at = self.ordered(total, c)?;
        let f = self.leaving(at)?;
        let e = other(Refused::Rejoin, b"none", self.n, f, next)?;
        Ok(Item::Rejoined(at, e))
    }

    /// A line of a cycle, by its name and the words behind it.
    #[tactic(auto, unfolding(crate::specs::Judged::at_item))]
    fn at_item(&self, cycle: &[u8], name: &[u8], words: &[&[u8]]) -> Result<Item, Refused>
        requires { self.now.n ≤ 5 }
        ensures value { result ≡ at_item self.now cycle.now name.now (map (λ w. w.now) words.now) }
        ensures order { IfOk result (InOrder self.now) }
    {
        match words {
            [p] => {
                if is_named(name, b"read") {
                    return self.read_item(cycle, p);
                }
                if is_named(name, b"rejoin") {
                    return self.rejoin_item(cycle, p);
                }
                Err(Refused::NoForm)
            }
            [r, t] => {
                if is_named(name, b"drop") {
                    return self.drop_item(cycle, r, t);
                }
                if is_named(name, b"repeat") {
                    return self.repeat_item(cycle, r, t);
                }
                Err(Refused::NoForm)
            }
            [r, t, x] => {
                if is_named(name, b"send") {
                    return self.send_item(cycle, r, t, x);
                }
                Err(Refused::NoForm)
            }
            [r, t, o, b] => {
                if is_named(name, b"flip") {
                    return self.flip_item(cycle, r, t, o, b);
                }
                Err(Refused::NoForm)
            }
            [p, d, k, i, x] => {
                if is_named(name, b"post") {
                    return self.post_item(cycle, p, d, k, i, x);
                }
                Err(Refused::NoForm)
            }
            _ => Err(Refused::NoForm),
        }
    }

    /// A line that is not skipped, by its words.
    #[tactic(auto, unfolding(crate::specs::Judged::line_item))]
    fn item(&self, words: &[&[u8]]) -> Result<Item, Refused>
        requires { self.now.n ≤ 5 }
        ensures value { result ≡ line_item self.now (map (λ w. w.now) words.now) }
        ensures order { IfOk result (InOrder self.now) }
    {
        match words {
            [a, b] => {
                if is_named(a, b"cycles") {
                    return self.cycles_item(b);
                }
                if is_named(a, b"faulty") {
                    return self.faulty_item(b);
                }
                Err(Refused::NoForm)
            }
            [a, c, name, more @ ..] => {
                if is_named(a, b"at") {
                    return self.at_item(c, name, more);
                }
                Err(Refused::NoForm)
            }
            _ => Err(Refused::NoForm),
        }
    }

    /// A line by its words, None where it is skipped.
    #[tactic(auto, unfolding(crate::specs::Judged::line_read))]
    fn words_item(&self, words: &[&[u8]]) -> Result<Option<Item>, Refused>
        requires { self.now.n ≤ 5 }
        ensures value { result ≡ line_read self.now (map (λ w. w.now) words.now) }
        ensures order { IfOk result (λ item. IfSome item (InOrder self.now)) }
    {
        if let [first, ..] = words {
            if starts_comment(first) {
                return Ok(None);
            }
            let item = self.item(words)?;
            return Ok(Some(item));
        }
        Ok(None)
    }

    /// What a line says, None where it is skipped.
    #[tactic(auto, using(crate::proofs::Forms::line_read_take))]
    pub(crate) fn line(&self, line: &[u8]) -> Result<Option<Item>, Refused>
        requires { self.now.n ≤ 5 }
        ensures value { result ≡ line_read self.now (words_of (strip_carriage_return line.now)) }
        ensures order { IfOk result (λ item. IfSome item (InOrder self.now)) }
    {
        let found = words(without_carriage_return(line));
        self.words_item(found.as_slice())
    }
}

/// Whether a line that begins with this word is a comment.
fn starts_comment(word: &[u8]) -> bool
    ensures { result ≡ (slice_index word.now 0 == 35) }
{
    !word.is_empty() && word[0] == b'#'
}
