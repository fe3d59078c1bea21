//! The flags of a cycle, as the scoreboard looks them up.

ghost use Rattle.std.specs.Prelude.{◌≡◌, map, option_copied};
ghost use Rattle.scoreboard.specs.Board.{flags_named};
ghost use Rattle.scoreboard.specs.Steps.{ascend, flags_number};

use config_table::GroupFlags;
use std::marker::Model;

/// The flags of a cycle. Where their numbers ascend, the flags of a group stand at its place in the table, unless a
/// group is without flags.
#[derive(Drop)]
pub(crate) struct CycleFlags<'a> {
    flags: &'a [GroupFlags],
    /// The same where the numbers ascend, and none where they do not.
    placed: &'a [GroupFlags],
}

impl<'a> Model for CycleFlags<'a> {
    ghost use Rattle.std.specs.Prelude.{◌≡◌, ◌⊎◌, List, [], map, true};
    ghost use Rattle.config_table.specs.declared.decisions.GroupFlags.{GroupFlags};
    ghost use Rattle.scoreboard.specs.Steps.{ascend, flags_number};

    ghost Value = { List GroupFlags };

    ghost view = { λ v. v.flags.now };

    ghost invariant = { λ v. (ascend 0 (map flags_number v.placed.now) ≡ true) × ((v.placed.now ≡ v.flags.now) ⊎ (v.placed.now ≡ [])) };
}

impl<'a> CycleFlags<'a> {
    /// Looks once whether the numbers ascend.
    pub(crate) fn new(flags: &'a [GroupFlags]) -> CycleFlags<'a>
        ensures { result ≡ flags.now }
    {
        if are_ordered(flags) {
            CycleFlags {
                flags,
                placed: flags,
            }
        } else {
            CycleFlags {
                flags,
                placed: &flags[..0],
            }
        }
    }

    /// The flags of that number, if there are any.
    pub(crate) fn named(&self, vid: u8) -> Option<&GroupFlags>
        ensures { option_copied result ≡ flags_named self.now vid }
    {
        self.flags.iter().find(|one| one.vid == vid)
    }

    /// The same, which should stand at that place.
    pub(crate) fn near(&self, place: usize, vid: u8) -> Option<&GroupFlags>
        ensures { option_copied result ≡ flags_named self.now vid }
    {
        match self.placed.get(place) {
            Some(one) if one.vid == vid => Some(one),
            _ => self.far(vid),
        }
    }

    /// The same, where they stand elsewhere.
    #[cold]
    #[inline(never)]
    fn far(&self, vid: u8) -> Option<&GroupFlags>
        ensures { option_copied result ≡ flags_named self.now vid }
    {
        self.named(vid)
    }
}

/// Whether the numbers of flags ascend.
fn are_ordered(flags: &[GroupFlags]) -> bool
    ensures { result ≡ ascend 0 (map flags_number flags.now) }
{
    let mut least = 0;
    for one in flags {
        let number = u32::from(one.vid);
        if number < least {
            return false;
        }
        least = number + 1;
    }
    true
}
