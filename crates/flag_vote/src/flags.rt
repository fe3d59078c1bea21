//! The flags of each group of a table.

ghost use Rattle.std.specs.Prelude.{◌≡◌, ◌<◌, ◌≤◌, ◌++◌, [], ◌∷◌, None, count_by, filter, length, map, option_map, IfSome};
ghost use Rattle.std.specs.List.{list_all};
ghost use Rattle.ftpp_base.specs.Bits.{is_majority};
ghost use Rattle.ftpp_base.specs.Sets.{set_of};
ghost use Rattle.config_table.specs.Groups.{elements_of, live_members};
ghost use Rattle.flag_vote.specs.Flags.{flags_of, holds, voted_flags};
ghost use Rattle.flag_vote.specs.Words.{asks, flags_on, most_held, with_vote};

use crate::members::{Members, holders_of, live_members, survey};
use config_table::{Group, GroupFlags, Table, VotedFlags};
use ftpp_base::{MOST_GROUPS, Proc, Set8};
use local_pattern::SystemPattern;
use packet_format::Descriptor;

/// Whether a part is more than half of the whole.
fn is_majority(part: usize, whole: usize) -> bool
    requires { part ≤ 4 }
    ensures { result ≡ is_majority part whole }
{
    whole < 2 * part
}

/// A request that more than half of the live members hold.
#[derive(Drop)]
struct Held {
    desc: Descriptor,
    /// The elements of those that hold it.
    holds: Set8,
    /// Whether all hold it.
    unanimous: bool,
}

/// The request that more than half of the live members hold, if any.
fn first_held<const N: usize>(pattern: &SystemPattern<N>, live: &[Proc]) -> Option<Held>
    requires { length live.now ≤ 4 }
    ensures desc { option_map (λ held. held.desc) result ≡ most_held pattern.now live.now }
    ensures holds { IfSome result (λ held. held.holds ≡ set_of (elements_of (filter (holds pattern.now held.desc) live.now))) }
    ensures all { IfSome result (λ held. held.unanimous ≡ list_all (holds pattern.now held.desc) live.now) }
{
    for p in live {
        let desc = pattern.shown(*p).desc;
        let holders = holders_of(pattern, &desc, live);
        if is_majority(holders.count, live.len()) {
            return Some(Held {
                desc,
                holds: holders.elements,
                unanimous: holders.count == live.len(),
            });
        }
    }
    None
}

/// Puts the request that more than half of the live members hold, if any, into flags that tell of none.
fn vote<const N: usize>(pattern: &SystemPattern<N>, live: &[Proc], flags: &mut GroupFlags)
    requires few { length live.now ≤ 4 }
    requires none { flags.old ≡ with_vote pattern.now live.now None flags.old }
    ensures { flags.new ≡ with_vote pattern.now live.now (most_held pattern.now live.now) flags.old }
{
    match first_held(pattern, live) {
        Some(held) => {
            flags.desc = Some(held.desc);
            flags.holds = held.holds;
            flags.unanimous = held.unanimous;
        }
        None => {}
    }
}

/// The flags of a group with these live members, but for the voted request, and how many members ask.
fn flags_but_vote<const N: usize>(
    pattern: &SystemPattern<N>,
    vid: u8,
    live: &[Proc],
) -> (GroupFlags, usize)
    requires { length live.now ≤ 4 }
    ensures flags { result.0 ≡ with_vote pattern.now live.now None (flags_on pattern.now vid live.now) }
    ensures asking { result.1 ≡ count_by (asks pattern.now) live.now }
    ensures few { result.1 ≤ 4 }
{
    let said = survey(pattern, live);
    let flags = GroupFlags {
        vid,
        desc: None,
        unanimous: false,
        live: said.live,
        holds: Set8::EMPTY,
        space: said.space,
        most_space: is_majority(said.with_space, live.len()),
    };
    (flags, said.asking)
}

/// The live members of a group, in the order of the table. Where nobody is masked these are all, and else they are put into
/// `kept`.
fn live_of<'a>(g: &'a Group, kept: &'a mut Members) -> &'a [Proc]
    ensures members { result.now ≡ live_members g.now }
    ensures few { length result.now ≤ 4 }
{
    if g.masked.bits == 0 {
        return g.members.as_slice();
    }
    *kept = live_members(g);
    kept.as_slice()
}

/// Adds the flags of a group. Without a request of more than half of the live members there is nothing to vote on.
fn add_group<const N: usize>(
    pattern: &SystemPattern<N>,
    g: &Group,
    kept: &mut Members,
    flags: &mut VotedFlags,
)
    requires { length flags.old.items < MOST_GROUPS }
    ensures { flags.new.items ≡ flags.old.items ++ flags_of pattern.now g.now ∷ [] }
{
    let live = live_of(g, kept);
    let (one, asking) = flags_but_vote(pattern, g.vid, live);
    let at = flags.len();
    flags.push(one);
    if is_majority(asking, live.len()) {
        let all = flags.as_mut_slice();
        vote(pattern, live, &mut all[at]);
    }
}

/// Puts the flags of the groups into an empty list, in their order.
fn add_flags<const N: usize>(pattern: &SystemPattern<N>, groups: &[Group], flags: &mut VotedFlags)
    requires few { length groups.now ≤ MOST_GROUPS }
    requires empty { flags.old.items ≡ [] }
    ensures { flags.new.items ≡ map (flags_of pattern.now) groups.now }
{
    let mut kept = Members::new();
    for g in groups {
        add_group(pattern, g, &mut kept, flags);
    }
}

/// The flags of each group by the agreed pattern of the table's elements, in the order of the table.
pub fn voted<const N: usize>(table: &Table, pattern: &SystemPattern<N>) -> VotedFlags
    ensures { result.items ≡ voted_flags table.now pattern.now }
{
    let mut flags = VotedFlags::new();
    voted_into(table, pattern, &mut flags);
    flags
}

/// Like `voted`, but in place of what the list held before.
pub fn voted_into<const N: usize>(table: &Table, pattern: &SystemPattern<N>, flags: &mut VotedFlags)
    ensures { flags.new.items ≡ voted_flags table.now pattern.now }
{
    flags.clear();
    add_flags(pattern, table.groups(), flags);
}
