//! The live members of a group, and what they say in the agreed pattern.

ghost use Rattle.std.specs.Prelude.{◌≡◌, ◌<◌, ◌≤◌, ◌+◌, ◌++◌, ℕ, List, [], ◌∷◌, length, filter, count_by, if◌then◌else◌};
ghost use Rattle.ftpp_base.specs.Sets.{set_of};
ghost use Rattle.packet_format.specs.Packets.{same_descriptor};
ghost use Rattle.config_table.specs.Groups.{elements_of, live_members};
ghost use Rattle.flag_vote.specs.Flags.{has_space, holds};
ghost use Rattle.flag_vote.specs.Words.{asks, unmasked_from};

use config_table::Group;
use ftpp_base::{Proc, Row, Set8};
use local_pattern::SystemPattern;
use packet_format::Descriptor;

/// Some of the members of a group.
pub type Members = Row<Proc, 4>;

/// Puts a member at the end, where it is to be kept.
fn push_if(row: &mut Members, keep: bool, proc: Proc)
    requires { length row.old.items < 4 }
    ensures items { row.new.items ≡ row.old.items ++ (if keep then proc ∷ [] else []) }
    ensures length { length row.new.items ≤ length row.old.items + 1 }
{
    if keep {
        row.push(proc);
    }
}

/// The members that are not masked, in their order.
fn unmasked(members: &[Proc], masked: &Set8) -> Members
    requires { length members.now ≤ 4 }
    ensures items { result.items ≡ unmasked_from masked.now 0 members.now }
    ensures few { length result.items ≤ 4 }
{
    let mut live = Members::new();
    for (i, p) in members.iter().enumerate() {
        let is_masked = masked.has(i as u8);
        push_if(&mut live, !is_masked, *p);
    }
    live
}

/// The live members of a group, in the order of the table.
pub fn live_members(g: &Group) -> Members
    ensures items { result.items ≡ live_members g.now }
    ensures few { length result.items ≤ 4 }
{
    unmasked(g.members.as_slice(), &g.masked)
}

/// Whether the requests are equal.
fn same(a: &Descriptor, b: &Descriptor) -> bool
    ensures { result ≡ same_descriptor a.now b.now }
{
    a.dest == b.dest && a.class == b.class && a.source == b.source
}

/// Whether a member holds the request.
fn holds<const N: usize>(pattern: &SystemPattern<N>, desc: &Descriptor, proc: Proc) -> bool
    ensures { result ≡ holds pattern.now desc.now proc }
{
    let Some(entry) = pattern.peek(proc) else {
        return false;
    };
    if !entry.not_empty {
        return false;
    }
    same(&entry.desc, desc)
}

/// One more, where it counts.
fn one_more(count: usize, counts: bool) -> usize
    requires { count < 4 }
    ensures { result ≡ count + (if counts then 1 else 0) }
{
    if counts { count + 1 } else { count }
}

/// The set with one element more. No set has a number that is 8 or more.
#[tactic(auto, using(crate::proofs::Counted::set_more, crate::proofs::Counted::set_same))]
fn with_element(set: Set8, ne: u8) -> Set8
    ensures { (xs : List ℕ) → set ≡ set_of xs → result ≡ set_of (xs ++ ne ∷ []) }
{
    if ne < 8 { set.with(ne) } else { set }
}

/// The set of the bits of a byte, with one element more where it belongs there.
fn with_bit_if(bits: u8, belongs: bool, ne: u8) -> Set8
    requires { ne < 8 }
    ensures { (xs : List ℕ) → record { bits = bits } ≡ set_of xs → result ≡ set_of (xs ++ (if belongs then ne ∷ [] else [])) }
{
    Set8 {
        bits: bits | (u8::from(belongs) << ne),
    }
}

/// The set with one element more where it belongs there, and the set as it is where not.
fn with_element_if(set: Set8, belongs: bool, ne: u8) -> Set8
    ensures { (xs : List ℕ) → set ≡ set_of xs → result ≡ set_of (xs ++ (if belongs then ne ∷ [] else [])) }
{
    if ne < 8 {
        with_bit_if(set.bits, belongs, ne)
    } else {
        set
    }
}

/// Those of some members that hold a request.
#[derive(Drop)]
pub struct Holders {
    /// How many they are.
    pub count: usize,
    /// Where they stand.
    pub elements: Set8,
}

/// Counts a member where it holds the request.
fn add_holder<const N: usize>(
    pattern: &SystemPattern<N>,
    desc: &Descriptor,
    proc: Proc,
    holders: &mut Holders,
)
    requires { holders.old.count < 4 }
    ensures count { holders.new.count ≡ holders.old.count + (if holds pattern.now desc.now proc then 1 else 0) }
    ensures elements { (xs : List ℕ) → holders.old.elements ≡ set_of xs → holders.new.elements ≡ set_of (xs ++ (if holds pattern.now desc.now proc then proc.ne ∷ [] else [])) }
{
    if holds(pattern, desc, proc) {
        holders.count += 1;
        holders.elements = with_element(holders.elements, proc.ne);
    }
}

/// The members that hold a request.
pub fn holders_of<const N: usize>(
    pattern: &SystemPattern<N>,
    desc: &Descriptor,
    members: &[Proc],
) -> Holders
    requires { length members.now ≤ 4 }
    ensures count { result.count ≡ count_by (holds pattern.now desc.now) members.now }
    ensures few { result.count ≤ 4 }
    ensures elements { result.elements ≡ set_of (elements_of (filter (holds pattern.now desc.now) members.now)) }
{
    let mut holders = Holders {
        count: 0,
        elements: Set8::EMPTY,
    };
    for p in members {
        add_holder(pattern, desc, *p, &mut holders);
    }
    holders
}

/// What members say of themselves, counted in one go.
#[derive(Drop)]
pub struct Said {
    /// How many have a request.
    pub asking: usize,
    /// How many have room.
    pub with_space: usize,
    /// The elements of those that have room.
    pub space: Set8,
    /// The elements of all.
    pub live: Set8,
}

/// Adds what one member says.
fn hear<const N: usize>(pattern: &SystemPattern<N>, proc: Proc, said: &mut Said)
    requires few { said.old.asking < 4 }
    requires few_with { said.old.with_space < 4 }
    ensures asking { said.new.asking ≡ said.old.asking + (if asks pattern.now proc then 1 else 0) }
    ensures with_space { said.new.with_space ≡ said.old.with_space + (if has_space pattern.now proc then 1 else 0) }
    ensures space { (xs : List ℕ) → said.old.space ≡ set_of xs → said.new.space ≡ set_of (xs ++ (if has_space pattern.now proc then proc.ne ∷ [] else [])) }
    ensures live { (xs : List ℕ) → said.old.live ≡ set_of xs → said.new.live ≡ set_of (xs ++ proc.ne ∷ []) }
{
    let Some(entry) = pattern.peek(proc) else {
        said.live = with_element(said.live, proc.ne);
        return;
    };
    said.asking = one_more(said.asking, entry.not_empty);
    said.with_space = one_more(said.with_space, entry.not_full);
    said.space = with_element_if(said.space, entry.not_full, proc.ne);
    said.live = with_element(said.live, proc.ne);
}

/// Asks all members what they say.
pub fn survey<const N: usize>(pattern: &SystemPattern<N>, members: &[Proc]) -> Said
    requires { length members.now ≤ 4 }
    ensures asking { result.asking ≡ count_by (asks pattern.now) members.now }
    ensures few { result.asking ≤ 4 }
    ensures with_space { result.with_space ≡ count_by (has_space pattern.now) members.now }
    ensures few_with { result.with_space ≤ 4 }
    ensures space { result.space ≡ set_of (elements_of (filter (has_space pattern.now) members.now)) }
    ensures live { result.live ≡ set_of (elements_of members.now) }
{
    let mut said = Said {
        asking: 0,
        with_space: 0,
        space: Set8::EMPTY,
        live: Set8::EMPTY,
    };
    for p in members {
        hear(pattern, *p, &mut said);
    }
    said
}
