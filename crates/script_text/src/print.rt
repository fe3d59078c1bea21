//! Scripts as text.

ghost use Rattle.std.specs.Prelude.{◌≡◌, ℕ, Ok, ◌+◌, ◌*◌, ◌≤◌, ◌<◌, [], ◌∷◌, ◌++◌, length, map, codes, OnOk, IfOk};
ghost use Rattle.std.specs.Fmt.{decimal};
ghost use Rattle.script_text.specs.Reading.{plan_of, script_of};
ghost use Rattle.hex.specs.Hex.{encode_lower};
ghost use Rattle.script_text.specs.declared.items.Item.TheVariants.{Cycles, Faulty, Asked, Edited, Rejoined};
ghost use Rattle.script_text.specs.Printing.{behind, proc_word, bytes_word, up_to_last, packet_word, round_word, element_word, act_words, edit_words, item_words, item_line, text_of, front_while, rest_after, is_rejoin_at, is_act_at, is_edit_at, rejoined, asked, edited, named_items, canonical, IsScript};

use crate::Script;
use fault_script::{Edit, EditKind};
use ftpp_base::{Ne, NoMemory, Proc, Round};
use itoa::Buffer;
use packet_format::{Act, Packet};
use std::alloc::{AllocError, Global};

/// A space and a word.
fn word(out: &mut Vec<u8>, word: &[u8]) -> Result<(), AllocError>
    ensures { OnOk result (out.new.items ≡ out.old.items ++ 32 ∷ word.now) }
{
    out.push(b' ')?;
    out.extend_from_slice(word)
}

/// A space and a number.
fn number(out: &mut Vec<u8>, n: u32) -> Result<(), AllocError>
    ensures { OnOk result (out.new.items ≡ out.old.items ++ 32 ∷ decimal n) }
{
    let mut buffer = Buffer::new();
    word(out, buffer.format(n).as_bytes())
}

/// A number right behind what stands there.
fn digit_number(out: &mut Vec<u8>, n: u8) -> Result<(), AllocError>
    ensures { OnOk result (out.new.items ≡ out.old.items ++ decimal n) }
{
    let mut buffer = Buffer::new();
    out.extend_from_slice(buffer.format(n).as_bytes())
}

/// A space, the element, a dot and the port.
#[tactic(auto, using(crate::proofs::Pieces::proc_pieces))]
fn proc(out: &mut Vec<u8>, p: Proc) -> Result<(), AllocError>
    ensures { OnOk result (out.new.items ≡ out.old.items ++ 32 ∷ proc_word p) }
{
    out.push(b' ')?;
    digit_number(out, p.ne)?;
    out.push(b'.')?;
    digit_number(out, p.port)
}

/// The hexadecimal digits.
static DIGITS: [u8; 16] = *b"0123456789abcdef";

/// A byte as two digits.
#[tactic(auto, using(crate::proofs::Pieces::pair_of))]
fn pair(out: &mut Vec<u8>, b: u8) -> Result<(), AllocError>
    ensures { OnOk result (out.new.items ≡ out.old.items ++ encode_lower (b ∷ [])) }
{
    let high = DIGITS[b as usize / 16];
    let low = DIGITS[b as usize % 16];
    out.push(high)?;
    out.push(low)?;
    Ok(())
}

/// Bytes as pairs of digits.
#[tactic(auto, using(crate::proofs::Pieces::encode_more, crate::proofs::Pieces::encode_none))]
fn digits(out: &mut Vec<u8>, bytes: &[u8]) -> Result<(), AllocError>
    ensures { OnOk result (out.new.items ≡ out.old.items ++ encode_lower bytes.now) }
{
    for b in bytes {
        pair(out, *b)?;
    }
    Ok(())
}

/// A space, and bytes as pairs of digits, or a dash for none.
fn byte_row(out: &mut Vec<u8>, bytes: &[u8]) -> Result<(), AllocError>
    ensures { OnOk result (out.new.items ≡ out.old.items ++ 32 ∷ bytes_word bytes.now) }
{
    if bytes.is_empty() {
        return word(out, b"-");
    }
    out.push(b' ')?;
    digits(out, bytes)
}

/// The bytes up to the last one that is not 0.
fn up_to_last_byte(bytes: &[u8]) -> &[u8]
    ensures { result.now ≡ up_to_last bytes.now }
{
    let mut len = bytes.len();
    while len > 0 && bytes[len - 1] == 0 {
        len -= 1;
    }
    &bytes[..len]
}

/// A space and a packet up to its last byte that is not 0.
#[tactic(auto, unfolding(crate::specs::Printing::packet_word))]
fn packet(out: &mut Vec<u8>, x: &Packet) -> Result<(), AllocError>
    ensures { OnOk result (out.new.items ≡ out.old.items ++ 32 ∷ packet_word x.now.bytes) }
{
    byte_row(out, up_to_last_byte(&x.bytes))
}

/// A space and a round, `any` for all of them.
fn round(out: &mut Vec<u8>, r: Option<Round>) -> Result<(), AllocError>
    ensures { OnOk result (out.new.items ≡ out.old.items ++ 32 ∷ round_word r) }
{
    match r {
        Some(Round::A1) => word(out, b"A1"),
        Some(Round::A2) => word(out, b"A2"),
        Some(Round::B1) => word(out, b"B1"),
        Some(Round::B2) => word(out, b"B2"),
        None => word(out, b"any"),
    }
}

/// A space and an element, or the name that stands for none.
fn element(out: &mut Vec<u8>, name: &[u8], e: &Option<Ne>) -> Result<(), AllocError>
    ensures { OnOk result (out.new.items ≡ out.old.items ++ 32 ∷ element_word name.now e.now) }
{
    match e {
        None => word(out, name),
        Some(e) => number(out, e.index() as u32),
    }
}

/// An act behind its cycle.
#[tactic(auto, using(crate::proofs::Pieces::read_pieces, crate::proofs::Pieces::post_pieces))]
fn act(out: &mut Vec<u8>, act: &Act) -> Result<(), AllocError>
    ensures { OnOk result (out.new.items ≡ out.old.items ++ behind (act_words act.now)) }
{
    match act {
        Act::Read(p) => {
            word(out, b"read")?;
            proc(out, *p)
        }
        Act::Post {
            proc: p,
            desc,
            packet: x,
        } => {
            word(out, b"post")?;
            proc(out, *p)?;
            number(out, u32::from(desc.dest))?;
            number(out, u32::from(desc.class))?;
            number(out, u32::from(desc.source))?;
            packet(out, x)
        }
    }
}

/// An edit behind its cycle.
#[tactic(auto, using(crate::proofs::Pieces::three_last, crate::proofs::Pieces::four_last, crate::proofs::Pieces::five_last))]
fn edit(out: &mut Vec<u8>, e: &Edit) -> Result<(), AllocError>
    ensures { OnOk result (out.new.items ≡ out.old.items ++ behind (edit_words (round_word e.now.round) (element_word (codes "all") e.now.to) e.now.what)) }
{
    match &e.what {
        EditKind::Drop => {
            word(out, b"drop")?;
            round(out, e.round)?;
            element(out, b"all", &e.to)
        }
        EditKind::Repeat => {
            word(out, b"repeat")?;
            round(out, e.round)?;
            element(out, b"all", &e.to)
        }
        EditKind::Flip { offset, bits } => {
            word(out, b"flip")?;
            round(out, e.round)?;
            element(out, b"all", &e.to)?;
            number(out, u32::from(*offset))?;
            out.push(b' ')?;
            pair(out, *bits)
        }
        EditKind::Send(frame) => {
            word(out, b"send")?;
            round(out, e.round)?;
            element(out, b"all", &e.to)?;
            byte_row(out, frame.as_slice())
        }
    }
}

/// The line of the run's length.
#[tactic(auto, using(crate::proofs::Pieces::cycles_pieces))]
fn cycles_line(out: &mut Vec<u8>, c: u32) -> Result<(), AllocError>
    ensures { OnOk result (out.new.items ≡ out.old.items ++ item_line (Cycles c)) }
{
    out.extend_from_slice(b"cycles")?;
    number(out, c)?;
    out.push(b'\n')?;
    Ok(())
}

/// The line of the element that is faulty from the start on.
#[tactic(auto, using(crate::proofs::Pieces::faulty_pieces))]
fn faulty_line(out: &mut Vec<u8>, e: Ne) -> Result<(), AllocError>
    ensures { OnOk result (out.new.items ≡ out.old.items ++ item_line (Faulty e)) }
{
    out.extend_from_slice(b"faulty")?;
    number(out, e.index() as u32)?;
    out.push(b'\n')?;
    Ok(())
}

/// The first two words of a line of a cycle.
fn at(out: &mut Vec<u8>, c: u32) -> Result<(), AllocError>
    ensures { OnOk result (out.new.items ≡ (out.old.items ++ codes "at") ++ 32 ∷ decimal c) }
{
    out.extend_from_slice(b"at")?;
    number(out, c)
}

/// The line of an act.
#[tactic(auto, using(crate::proofs::Pieces::asked_pieces))]
fn asked_line(out: &mut Vec<u8>, c: u32, a: &Act) -> Result<(), AllocError>
    ensures { OnOk result (out.new.items ≡ out.old.items ++ item_line (Asked c a.now)) }
{
    at(out, c)?;
    act(out, a)?;
    out.push(b'\n')?;
    Ok(())
}

/// The line of an edit.
#[tactic(auto, using(crate::proofs::Pieces::edited_pieces))]
fn edited_line(out: &mut Vec<u8>, e: &Edit) -> Result<(), AllocError>
    ensures { OnOk result (out.new.items ≡ out.old.items ++ item_line (Edited e.now)) }
{
    at(out, e.cycle)?;
    edit(out, e)?;
    out.push(b'\n')?;
    Ok(())
}

/// The line of a rejoin.
#[tactic(auto, using(crate::proofs::Pieces::rejoined_pieces))]
fn rejoined_line(out: &mut Vec<u8>, c: u32, next: &Option<Ne>) -> Result<(), AllocError>
    ensures { OnOk result (out.new.items ≡ out.old.items ++ item_line (Rejoined c next.now)) }
{
    at(out, c)?;
    word(out, b"rejoin")?;
    element(out, b"none", next)?;
    out.push(b'\n')?;
    Ok(())
}

/// The lines of a cycle, which stand at the front; the rest is given back.
#[tactic(auto, using(crate::proofs::Canonical::prints_more, crate::proofs::Canonical::prints_stop, crate::proofs::Canonical::prints_end))]
fn acts_at<'a>(
    out: &mut Vec<u8>,
    c: u32,
    all: &'a [(u32, Act)],
) -> Result<&'a [(u32, Act)], AllocError>
    ensures { IfOk result (λ rest. (out.new.items ≡ out.old.items ++ text_of (map asked (front_while (is_act_at c) all.now))) × (rest.now ≡ rest_after (is_act_at c) all.now)) }
{
    let mut rest = all;
    while let Some((x, more)) = rest.split_first() {
        if x.0 != c {
            return Ok(rest);
        }
        asked_line(out, x.0, &x.1)?;
        rest = more;
    }
    Ok(rest)
}

/// The lines of a cycle, which stand at the front; the rest is given back.
#[tactic(auto, using(crate::proofs::Canonical::prints_more, crate::proofs::Canonical::prints_stop, crate::proofs::Canonical::prints_end))]
fn edits_at<'a>(out: &mut Vec<u8>, c: u32, all: &'a [Edit]) -> Result<&'a [Edit], AllocError>
    ensures { IfOk result (λ rest. (out.new.items ≡ out.old.items ++ text_of (map edited (front_while (is_edit_at c) all.now))) × (rest.now ≡ rest_after (is_edit_at c) all.now)) }
{
    let mut rest = all;
    while let Some((x, more)) = rest.split_first() {
        if x.cycle != c {
            return Ok(rest);
        }
        edited_line(out, x)?;
        rest = more;
    }
    Ok(rest)
}

/// The lines of a cycle, which stand at the front; the rest is given back.
#[tactic(auto, using(crate::proofs::Canonical::prints_more, crate::proofs::Canonical::prints_stop, crate::proofs::Canonical::prints_end))]
fn rejoins_at<'a>(
    out: &mut Vec<u8>,
    c: u32,
    all: &'a [(u32, Option<Ne>)],
) -> Result<&'a [(u32, Option<Ne>)], AllocError>
    ensures { IfOk result (λ rest. (out.new.items ≡ out.old.items ++ text_of (map rejoined (front_while (is_rejoin_at c) all.now))) × (rest.now ≡ rest_after (is_rejoin_at c) all.now)) }
{
    let mut rest = all;
    while let Some((x, more)) = rest.split_first() {
        if x.0 != c {
            return Ok(rest);
        }
        rejoined_line(out, x.0, &x.1)?;
        rest = more;
    }
    Ok(rest)
}

/// The line of the element that is faulty from the start on, if there is one.
#[tactic(auto, using(crate::proofs::Canonical::named_none, crate::proofs::Canonical::named_some))]
fn named_line(out: &mut Vec<u8>, faulty: &Option<Ne>) -> Result<(), AllocError>
    ensures { OnOk result (out.new.items ≡ out.old.items ++ text_of (named_items faulty.now)) }
{
    match faulty {
        None => Ok(()),
        Some(e) => faulty_line(out, *e),
    }
}

/// All lines of a script, cycle by cycle.
fn lines(alloc: Global, script: &Script) -> Result<Vec<u8>, AllocError>
    ensures { IfOk result (λ text. text.items ≡ text_of (canonical (plan_of script.now))) }
{
    let mut out = Vec::new(alloc);
    cycles_line(&mut out, script.cycles)?;
    named_line(&mut out, &script.faulty)?;
    let mut rejoins = script.rejoins.as_slice();
    let mut acts = script.acts.as_slice();
    let mut edits = script.edits.as_slice();
    for c in 0..script.cycles {
        rejoins = rejoins_at(&mut out, c, rejoins)?;
        acts = acts_at(&mut out, c, acts)?;
        edits = edits_at(&mut out, c, edits)?;
    }
    Ok(out)
}

/// The canonical text of a script: one line an item, words parted by one space, the cycles in order, and
/// in each its rejoin, its acts and its edits.
#[tactic(auto, using(crate::proofs::Law::read_again))]
pub fn print_script(alloc: Global, script: &Script) -> Result<Vec<u8>, NoMemory>
    ensures canonical { IfOk result (λ text. text.items ≡ text_of (canonical (plan_of script.now))) }
    // Read again it is the same script, for every number of elements for which it is one.
    ensures again { IfOk result (λ text. (n : ℕ) → n ≤ 5 → IsScript n (plan_of script.now) → script_of n text.items ≡ Ok (plan_of script.now)) }
{
    match lines(alloc, script) {
        Ok(text) => Ok(text),
        Err(_) => Err(NoMemory),
    }
}
