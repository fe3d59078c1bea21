//! What the faulty element does to its frames in a cycle.

ghost use Rattle.std.specs.Prelude.{◌≡◌, ◌++◌, OnOk};
ghost use Rattle.std.specs.Option.{option_to_list};
ghost use Rattle.workload.specs.Edits.{edit_of};

use crate::draws::Draws;
use fault_script::{Edit, EditKind};
use ftpp_base::{Ne, Round};
use std::alloc::AllocError;

/// At most one edit, by what was drawn.
#[tactic(auto, unfolding(crate::specs::Edits::edit_of))]
fn edit(cycle: u32, faulty: Ne, draws: &Draws) -> Option<Edit>
    ensures { result ≡ edit_of cycle faulty draws.now }
{
    let other = Ne::at((faulty.index() + 1 + usize::from(draws.to)) % 5);
    let place = u16::from(draws.place);
    let flip = |offset: u16, bits: u8| EditKind::Flip { offset, bits };
    let (round, to, what) = match draws.edit {
        0 => (None, None, EditKind::Drop),
        1 => (Some(Round::A1), Some(other), flip(7 + 4 * place, 0x01)),
        2 => (Some(Round::A1), None, flip(7 + 4 * place, 0x02)),
        3 => (Some(Round::A2), Some(other), flip(7 + 4 * place, 0x03)),
        4 => (Some(Round::B1), Some(other), flip(7 + place, 0xff)),
        5 => (Some(Round::A1), None, EditKind::Repeat),
        _ => return None,
    };
    Some(Edit {
        cycle,
        round,
        to,
        what,
    })
}

/// Puts the edit of a cycle at the end, where there is one.
pub(crate) fn push_edit(
    cycle: u32,
    faulty: Ne,
    draws: &Draws,
    edits: &mut Vec<Edit>,
) -> Result<(), AllocError>
    ensures { OnOk result (edits.new.items ≡ edits.old.items ++ option_to_list (edit_of cycle faulty draws.now)) }
{
    if let Some(edit) = edit(cycle, faulty, draws) {
        edits.push(edit)?;
    }
    Ok(())
}
