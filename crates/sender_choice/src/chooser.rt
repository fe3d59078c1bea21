//! What every chooser does.

ghost use Rattle.std.specs.Prelude.{◌≡◌};
ghost use Rattle.sender_choice.specs.Sinces.{Sinces, with_since, without_since, HasRoomFor, IsChoice};

use ftpp_base::VidSet;

/// A map from the number of a group to the cycle since which it waits. It holds at most 40 groups.
pub trait Chooser {
    /// Since when each group waits, if it is held.
    ghost held: { Self → Sinces };

    /// Holds the group since that cycle.
    fn set(&mut self, vid: u8, since: u32)
        requires { HasRoomFor (held self.old) vid }
        ensures { held self.new ≡ with_since (held self.old) vid since };

    /// Holds the group no longer.
    fn clear(&mut self, vid: u8)
        ensures { held self.new ≡ without_since (held self.old) vid };

    /// The cycle since which the group waits, None exactly where it is not held.
    fn since(&self, vid: u8) -> Option<u32>
        ensures { result ≡ held self.now vid };

    /// The held group of the set that has the least pair of since and number, with its since. None
    /// exactly where no group of the set is held.
    fn oldest(&self, eligible: &VidSet) -> Option<(u8, u32)>
        ensures { IsChoice (held self.now) eligible.now result };
}
