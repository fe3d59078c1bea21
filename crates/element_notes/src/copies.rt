//! Copies and relayed rows that differ from the results, about the senders that are looked at.

ghost use Rattle.std.specs.Prelude.{◌≡◌, ◌≢◌, ℕ, Bool, ◌+◌, ◌<◌, ◌≤◌, ◌++◌, not, length};
ghost use Rattle.ftpp_base.specs.Sets.{has};
ghost use Rattle.bit_vote.specs.Vote.{same_cell};
ghost use Rattle.two_round.specs.Echoes.{word_of};
ghost use Rattle.element_notes.specs.Notes.{off_copies, off_by, off_relays};
ghost use Rattle.element_notes.specs.AtHand.{HasDiffering};
ghost use Rattle.element_notes.specs.Words.{is_off_word, IsWhole};

use crate::entries::{Accused, Heading, Notes, note_each};
use crate::sets::put_if;
use bit_vote::{Cells, same_bytes};
use ftpp_base::{Ne, Set8};
use syndrome_log::SyndromeKind;
use two_round::TwoRound;

/// The kinds of the entries on an exchange: on copies, and on relayed rows.
#[derive(Clone, Copy)]
pub(crate) struct Kinds {
    pub(crate) copies: SyndromeKind,
    pub(crate) relays: SyndromeKind,
}

/// Whether the optional rows differ.
pub(crate) fn differ<const B: usize>(a: &Option<[u8; B]>, b: &Option<[u8; B]>) -> bool
    ensures { result ≡ not (same_cell a.now b.now) }
{
    match (a, b) {
        (Some(one), Some(other)) => !same_bytes(one, other),
        (None, None) => false,
        _ => true,
    }
}

/// What an element counts as another one's word about a sender: its own copy, or the row that the
/// other one relayed.
fn word<const N: usize, const B: usize>(
    x: &TwoRound<N, B>,
    me: Ne,
    of: Ne,
    sender: Ne,
) -> Option<[u8; B]>
    requires own { x.now.me ≡ me }
    requires of { of < N }
    requires sender { sender < N }
    ensures { result ≡ word_of x.now sender of }
{
    if of == me {
        x.copy(sender)
    } else {
        x.relayed(of, sender)
    }
}

/// Whether a sender is another than the one whose word it is, is looked at, and the word differs from
/// the result.
fn is_off_word<const N: usize, const B: usize>(
    x: &TwoRound<N, B>,
    results: &Cells<N, B>,
    looked_at: &Set8,
    me: Ne,
    of: Ne,
    sender: Ne,
) -> bool
    requires whole { IsWhole N me x.now looked_at.now results.now }
    requires of { of < N }
    requires sender { sender < N }
    ensures { result ≡ is_off_word x.now looked_at.now of sender }
{
    sender != of
        && looked_at.has(sender.byte())
        && differ(&word(x, me, of, sender), &results.get(sender.index()))
}

/// The senders that are looked at about whom an element's word differs from the result.
fn off_words<const N: usize, const B: usize>(
    x: &TwoRound<N, B>,
    results: &Cells<N, B>,
    looked_at: &Set8,
    me: Ne,
    of: Ne,
) -> Set8
    requires whole { IsWhole N me x.now looked_at.now results.now }
    requires of { of < N }
    ensures { (s : ℕ) → s < N → has result s ≡ is_off_word x.now looked_at.now of s }
{
    let mut off = Set8::EMPTY;
    for k in 0..N {
        let sender = Ne::at(k);
        let is_off = is_off_word(x, results, looked_at, me, of, sender);
        off = put_if(&off, is_off, k as u8);
    }
    off
}

/// Notes the senders whose copies differ from the results.
fn note_copies<const N: usize, const B: usize>(
    x: &TwoRound<N, B>,
    results: &Cells<N, B>,
    looked_at: &Set8,
    me: Ne,
    heading: &Heading,
    out: &mut Notes,
)
    requires whole { IsWhole N me x.now looked_at.now results.now }
    requires room { length out.old.items ≤ 59 }
    ensures items { out.new.items ≡ out.old.items ++ off_copies heading.now.cycle heading.now.kind x.now N (has looked_at.now) }
    ensures few { length out.new.items ≤ length out.old.items + 4 }
{
    let off = off_words(x, results, looked_at, me, me);
    note_each(out, heading, &Accused::Itself, N as u8, &off);
}

/// Notes the senders about whom a relay's row differs from the result.
fn note_relay<const N: usize, const B: usize>(
    x: &TwoRound<N, B>,
    results: &Cells<N, B>,
    looked_at: &Set8,
    me: Ne,
    relay: Ne,
    heading: &Heading,
    out: &mut Notes,
)
    requires whole { IsWhole N me x.now looked_at.now results.now }
    requires relay { relay < N }
    requires other { relay ≢ me }
    requires room { length out.old.items ≤ 59 }
    ensures items { out.new.items ≡ out.old.items ++ off_by heading.now.cycle heading.now.kind x.now N (has looked_at.now) relay }
    ensures few { length out.new.items ≤ length out.old.items + 4 }
{
    let off = off_words(x, results, looked_at, me, relay);
    note_each(out, heading, &Accused::Relay(relay), N as u8, &off);
}

/// Notes the relayed rows that differ from the results, relay by relay.
fn note_relays<const N: usize, const B: usize>(
    x: &TwoRound<N, B>,
    results: &Cells<N, B>,
    looked_at: &Set8,
    me: Ne,
    heading: &Heading,
    out: &mut Notes,
)
    requires whole { IsWhole N me x.now looked_at.now results.now }
    requires room { length out.old.items ≤ 43 }
    ensures items { out.new.items ≡ out.old.items ++ off_relays heading.now.cycle heading.now.kind x.now N (has looked_at.now) }
    ensures few { length out.new.items ≤ length out.old.items + 16 }
{
    for k in 0..N {
        let relay = Ne::at(k);
        if relay != me {
            note_relay(x, results, looked_at, me, relay, heading, out);
        }
    }
}

/// Notes the copies of an exchange that differ from the results, and then the relayed rows that do. Only the words about
/// some senders are looked at: those about any other one that counts are all its result.
pub(crate) fn note_exchange<const N: usize, const B: usize>(
    x: &TwoRound<N, B>,
    results: &Cells<N, B>,
    differing: &Set8,
    me: Ne,
    kinds: &Kinds,
    cycle: u32,
    out: &mut Notes,
)
    requires whole { IsWhole N me x.now differing.now results.now }
    requires room { length out.old.items ≤ 39 }
    ensures items { (senders : ℕ → Bool) → HasDiffering N x.now senders differing.now
        → out.new.items ≡ out.old.items ++ off_copies cycle kinds.now.copies x.now N senders ++ off_relays cycle kinds.now.relays x.now N senders }
    ensures few { length out.new.items ≤ length out.old.items + 20 }
{
    if differing.bits == 0 {
        return;
    }
    let copies = Heading {
        cycle,
        kind: kinds.copies,
    };
    note_copies(x, results, differing, me, &copies, out);
    let relays = Heading {
        cycle,
        kind: kinds.relays,
    };
    note_relays(x, results, differing, me, &relays, out);
}
