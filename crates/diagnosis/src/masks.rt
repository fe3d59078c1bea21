//! Which members of a table to mask where an element is faulty.

ghost use Rattle.std.specs.Prelude.{◌≡◌, ◌<◌, ◌≤◌, length, IfSome};
ghost use Rattle.diagnosis.specs.Proposals.{live_index_at, proposal_for, left_by, proposals};

use config_table::{Group, Table};
use ftpp_base::{MOST_GROUPS, Ne, Row};
use table_update::{Applied, Update, apply};

/// For each group in the order of the table with a live member at the element: the mask of that member, if it is done on the
/// table as the earlier masks left it.
pub fn proposals(table: &Table, ne: Ne) -> Row<Update, MOST_GROUPS>
    ensures { result.items ≡ proposals table.now ne }
{
    let mut masked = table.copy();
    let mut proposed = Row::new();
    for group in table.groups() {
        if let Some(mask) = propose(&mut masked, group, ne) {
            proposed.push(mask);
        }
    }
    proposed
}

/// Masks the group's live member at the element, if it has one and the table stays valid.
#[tactic(auto, unfolding(crate::specs::Proposals::proposal_for))]
fn propose(table: &mut Table, group: &Group, ne: Ne) -> Option<Update>
    requires { length group.now.members.items ≤ 4 }
    ensures mask { result ≡ proposal_for table.old ne group.now }
    ensures table { table.new ≡ left_by table.old result }
{
    let member = live_index_at(group, ne)?;
    let mask = Update::Mask {
        vid: group.vid,
        member,
    };
    match apply(table, &mask) {
        Applied::Done(_) => Some(mask),
        Applied::Refused(_) | Applied::Absent => None,
    }
}

/// The index of a group's live member at an element.
#[tactic(auto, unfolding(crate::specs::Proposals::live_index_at))]
fn live_index_at(group: &Group, ne: Ne) -> Option<u8>
    requires { length group.now.members.items ≤ 4 }
    ensures index { result ≡ live_index_at group.now ne }
    ensures below { IfSome result (λ i. i < length group.now.members.items) }
{
    for (i, member) in group.members.iter().enumerate() {
        if member.ne == ne.byte() && !group.masked.has(i as u8) {
            return Some(i as u8);
        }
    }
    None
}
