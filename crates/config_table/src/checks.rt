//! The clauses of a valid table, each as a function that gives the error.

ghost use Rattle.std.specs.Prelude.{◌≡◌, ◌≤◌, not, length, reverse, [], find, None, option_copied};
ghost use Rattle.config_table.specs.Table.{is_within, follows, repeated_element, is_in_range, is_free, first_error, vid_error, order_error, size_error, range_error, element_error, shared_error, masked_error, timeout_error, expiry_error, slots_error, group_error, groups_error, table_error, elements_error, count_error, manager_error, is_named};

use crate::lookups::{is_taken, named, stands_at};
use crate::{ConfigError, FEWEST_MANAGERS, Group, LONGEST_WAIT, MOST_SLOTS};
use ftpp_base::{MOST_GROUPS, Proc};

/// The first clause that a table of these parts breaks.
#[tactic(auto, unfolding(crate::specs::Table::table_error))]
pub(crate) fn table_error(n: u8, manager: u8, groups: &[Group]) -> Option<ConfigError>
    ensures error { result ≡ table_error (record { n = n; manager = manager; groups = groups.now }) }
    ensures few { result ≡ None → length groups.now ≤ MOST_GROUPS }
{
    first_error(&[
        elements_error(n),
        count_error(groups),
        groups_error(n, groups),
        manager_error(manager, groups),
    ])
}

/// The first of the errors.
fn first_error(errors: &[Option<ConfigError>]) -> Option<ConfigError>
    ensures { result ≡ first_error errors.now }
{
    for error in errors {
        if error.is_some() {
            return *error;
        }
    }
    None
}

/// There are four or five elements.
fn elements_error(n: u8) -> Option<ConfigError>
    ensures { result ≡ elements_error n }
{
    if n == 4 || n == 5 {
        None
    } else {
        Some(ConfigError::Elements { n })
    }
}

/// There are 1 to [`MOST_GROUPS`] groups.
fn count_error(groups: &[Group]) -> Option<ConfigError>
    ensures error { result ≡ count_error groups.now }
    ensures few { result ≡ None → length groups.now ≤ MOST_GROUPS }
{
    let count = groups.len();
    if count >= 1 && count <= MOST_GROUPS {
        None
    } else {
        Some(ConfigError::GroupCount { count })
    }
}

/// The manager is a group of the table, and has at least [`FEWEST_MANAGERS`] live members.
fn manager_error(manager: u8, groups: &[Group]) -> Option<ConfigError>
    ensures { result ≡ manager_error manager (find (is_named manager) groups.now) }
{
    match named(groups, manager) {
        None => Some(ConfigError::Manager { manager }),
        Some(g) => {
            let live = g.live_count();
            if live >= FEWEST_MANAGERS {
                None
            } else {
                Some(ConfigError::ManagerLive { manager, live })
            }
        }
    }
}

/// The first clause that one of the groups breaks.
fn groups_error(n: u8, groups: &[Group]) -> Option<ConfigError>
    ensures { result ≡ groups_error n [] groups.now }
{
    for (i, g) in groups.iter().enumerate() {
        match group_error(n, &groups[..i], g) {
            Some(error) => return Some(error),
            None => {}
        }
    }
    None
}

/// The first clause that a group breaks, after the earlier groups.
#[tactic(auto, unfolding(crate::specs::Table::group_error))]
fn group_error(n: u8, earlier: &[Group], g: &Group) -> Option<ConfigError>
    ensures { result ≡ group_error n (reverse earlier.now) g.now }
{
    first_error(&[
        vid_error(g),
        order_error(earlier, g),
        size_error(g),
        range_error(n, g),
        element_error(g),
        shared_error(earlier, g),
        masked_error(g),
        timeout_error(g.vid, g.ts),
        timeout_error(g.vid, g.tr),
        expiry_error(g),
        slots_error(g.vid, g.outs),
        slots_error(g.vid, g.ins),
    ])
}

/// Whether a number is one of those from `low` to `high`.
fn is_within(low: u16, high: u16, x: u16) -> bool
    ensures { result ≡ is_within low high x }
{
    low <= x && x <= high
}

/// The number is 1 to 254.
fn vid_error(g: &Group) -> Option<ConfigError>
    ensures { result ≡ vid_error g.now }
{
    if is_within(1, 254, u16::from(g.vid)) {
        None
    } else {
        Some(ConfigError::Vid { vid: g.vid })
    }
}

/// Whether the group's number is greater than that of the group before.
fn follows(earlier: &[Group], g: &Group) -> bool
    ensures { result ≡ follows (reverse earlier.now) g.now }
{
    match earlier.last() {
        Some(before) => before.vid < g.vid,
        None => true,
    }
}

/// The number is greater than that of the group before.
fn order_error(earlier: &[Group], g: &Group) -> Option<ConfigError>
    ensures { result ≡ order_error (reverse earlier.now) g.now }
{
    if follows(earlier, g) {
        None
    } else {
        Some(ConfigError::VidOrder { vid: g.vid })
    }
}

/// There are one, three or four members.
fn size_error(g: &Group) -> Option<ConfigError>
    ensures { result ≡ size_error g.now }
{
    let size = g.members.len() as u8;
    if size == 1 || size == 3 || size == 4 {
        None
    } else {
        Some(ConfigError::Size { vid: g.vid, size })
    }
}

/// Whether the processor stands at one of `n` elements, at one of its eight ports.
fn is_in_range(n: u8, p: Proc) -> bool
    ensures { result ≡ is_in_range n p }
{
    p.ne < n && p.port < 8
}

/// The first member outside the elements or the ports.
fn outside(n: u8, members: &[Proc]) -> Option<&Proc>
    ensures { option_copied result ≡ find (λ p. not (is_in_range n p)) members.now }
{
    members.iter().find(|p| !is_in_range(n, **p))
}

/// Each member is in that range.
fn range_error(n: u8, g: &Group) -> Option<ConfigError>
    ensures { result ≡ range_error n g.now }
{
    match outside(n, g.members.as_slice()) {
        Some(proc) => Some(ConfigError::MemberRange {
            vid: g.vid,
            proc: *proc,
        }),
        None => None,
    }
}

/// The first element at which an earlier member stands, too.
fn repeated(members: &[Proc]) -> Option<u8>
    ensures { result ≡ repeated_element [] members.now }
{
    for (i, p) in members.iter().enumerate() {
        if stands_at(&members[..i], p.ne) {
            return Some(p.ne);
        }
    }
    None
}

/// Each member stands at an element of its own.
fn element_error(g: &Group) -> Option<ConfigError>
    ensures { result ≡ element_error g.now }
{
    match repeated(g.members.as_slice()) {
        Some(ne) => Some(ConfigError::SameElement { vid: g.vid, ne }),
        None => None,
    }
}

/// Whether a processor is a member of no earlier group.
#[tactic(auto, using(crate::proofs::Orders::any_reverse))]
fn is_free(earlier: &[Group], proc: Proc) -> bool
    ensures { result ≡ is_free (reverse earlier.now) proc }
{
    !is_taken(earlier, proc)
}

/// The first member that an earlier group has.
fn shared<'a>(earlier: &[Group], members: &'a [Proc]) -> Option<&'a Proc>
    ensures { option_copied result ≡ find (λ p. not (is_free (reverse earlier.now) p)) members.now }
{
    members.iter().find(|p| !is_free(earlier, **p))
}

/// No member is a member of an earlier group.
fn shared_error(earlier: &[Group], g: &Group) -> Option<ConfigError>
    ensures { result ≡ shared_error (reverse earlier.now) g.now }
{
    match shared(earlier, g.members.as_slice()) {
        Some(proc) => Some(ConfigError::SharedProcessor {
            vid: g.vid,
            proc: *proc,
        }),
        None => None,
    }
}

/// Only members are masked, and not all of them.
fn masked_error(g: &Group) -> Option<ConfigError>
    ensures { result ≡ masked_error g.now }
{
    let room = 1u16 << g.members.len();
    if u16::from(g.masked.bits) < room && g.live_count() > 0 {
        None
    } else {
        Some(ConfigError::Masked {
            vid: g.vid,
            masked: g.masked.bits,
        })
    }
}

/// A timeout is 1 to [`LONGEST_WAIT`].
fn timeout_error(vid: u8, value: u16) -> Option<ConfigError>
    ensures { result ≡ timeout_error vid value }
{
    if is_within(1, LONGEST_WAIT, value) {
        None
    } else {
        Some(ConfigError::Timeout { vid, value })
    }
}

/// The expiry is at most [`LONGEST_WAIT`].
fn expiry_error(g: &Group) -> Option<ConfigError>
    ensures { result ≡ expiry_error g.now }
{
    if g.tx <= LONGEST_WAIT {
        None
    } else {
        Some(ConfigError::Expiry {
            vid: g.vid,
            value: g.tx,
        })
    }
}

/// A limit of a port is 1 to [`MOST_SLOTS`].
fn slots_error(vid: u8, value: u8) -> Option<ConfigError>
    ensures { result ≡ slots_error vid value }
{
    if is_within(1, u16::from(MOST_SLOTS), u16::from(value)) {
        None
    } else {
        Some(ConfigError::Slots { vid, value })
    }
}
